//! AES (FIPS 197) of one block of 16 bytes, under keys of 16, 24 and 32 bytes.
//!
//! `specs/Field.antt` and `specs/Aes.antt` define the cipher by equations of its field, with no table. [`steps`] has
//! these equations as code, byte by byte. A `Schedule` enciphers a round by the four columns of the state, from tables
//! of SubBytes and MixColumns in one; it deciphers by [`steps`].
#![tactic(auto)]

ghost use Rattle.std.specs.Prelude.{◌≡◌, ◌≤◌, ℕ, ◌↔◌, List, length, IsSome, IfSome};
ghost use Rattle.aes_core.specs.Aes.{rounds, encrypt, decrypt};
ghost use Rattle.aes_core.specs.Schedule.{IsKeyLength};
ghost use Rattle.aes_core.specs.Examples.{example_key, example_plain, example_128, example_192, example_256};

pub mod blocks;
mod column_tables;
mod columns;
mod expansion;
mod laws;
mod rounds;
mod sboxes;
pub mod steps;

pub use laws::ciphers_give_blocks;
use std::marker::Model;

/// A key of 16, 24 or 32 bytes, expanded into its round keys (FIPS 197, 5.2).
///
/// Contracts see the bytes of the key.
#[derive(Clone, Copy)]
pub struct Schedule {
    keys: [u8; 240],
    words: usize,
}

impl Model for Schedule {
    ghost use Rattle.std.specs.Prelude.{ℕ, ◌*◌, ◌/◌, List, take, length};
    ghost use Rattle.aes_core.specs.Schedule.{IsSchedule, padded_schedule};

    ghost Value = { List ℕ };

    ghost view = { λ s. take (4 * s.words) s.keys };

    ghost invariant = { λ s. IsSchedule s.keys s.words };

    ghost inverse = { λ key. record { keys = padded_schedule key; words = length key / 4 } };

    ghost use Rattle.aes_core.specs.ScheduleLaws.{schedule_back};

    ghost inverse_ok = { λ s h. schedule_back s.keys s.words h };
}

impl Schedule {
    ghost use Rattle.aes_core.specs.Schedule.{IsKey, padded_schedule};

    /// The key schedule of a key, or `None` if the key doesn't have 16, 24 or 32 bytes.
    pub fn new(key: &[u8]) -> Option<Schedule>
        ensures given { IsSome result ↔ IsKeyLength (length key.now) }
        ensures key { IfSome result (λ s. s ≡ key.now) }
    {
        if key.len() != 16 && key.len() != 24 && key.len() != 32 {
            return None;
        }
        let words = key.len() / 4;
        Some(Schedule {
            keys: expansion::expand(key, words),
            words,
        })
    }

    /// Enciphers a block in place (FIPS 197, 5.1). The inverse cipher takes it back.
    #[inline(always)]
    pub fn encrypt_block(&self, block: &mut [u8; 16])
        ensures enciphered { block.new ≡ encrypt self.now block.old }
        ensures taken_back { decrypt self.now block.new ≡ block.old }
    {
        *block = rounds::encipher(&self.keys, self.words + 5, block);
    }

    /// Deciphers a block in place (FIPS 197, 5.3).
    pub fn decrypt_block(&self, block: &mut [u8; 16])
        ensures { block.new ≡ decrypt self.now block.old }
    {
        *block = steps::decipher(&self.keys, self.words + 5, *block);
    }

    /// The number of rounds: 10, 12 or 14 (FIPS 197, 5).
    pub fn rounds(&self) -> usize
        ensures value { result ≡ rounds self.now }
        ensures few { (10 ≤ result) × (result ≤ 14) }
    {
        self.words + 6
    }

    /// The round keys of 16 bytes one after the other, with zeros after them (FIPS 197, 5.2).
    pub fn round_keys(&self) -> &[u8; 240]
        ensures { result.now ≡ padded_schedule self.now }
    {
        &self.keys
    }

    /// A law: what a schedule was made from is a key, which has 16, 24 or 32 bytes.
    pub fn is_of_a_key(&self)
        ensures { IsKey self.now }
    {
        let _ = &self.keys;
    }
}

/// A law: the inverse cipher takes back what the cipher did, under every key and for every block.
pub fn decrypt_undoes_encrypt(key: &[u8], block: &[u8])
    requires key { IsKeyLength (length key.now) }
    requires block { length block.now ≡ 16 }
    ensures { decrypt key.now (encrypt key.now block.now) ≡ block.now }
{}

/// The cipher's definition gives the example vectors of the standard (FIPS 197, appendix C).
pub fn examples_of_the_standard()
    ensures key_128 { encrypt (example_key 16) example_plain ≡ example_128 }
    ensures key_192 { encrypt (example_key 24) example_plain ≡ example_192 }
    ensures key_256 { encrypt (example_key 32) example_plain ≡ example_256 }
{}
