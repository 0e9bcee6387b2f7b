//! Bit-sliced AES (FIPS 197): eight blocks at a time in bit planes of 16 bytes, or sixteen in bit planes of 32.
//!
//! Bit plane `i` holds bit `i` of all 128 bytes of eight blocks: bit `j` of its lane `p` is that of byte `p` of block
//! `j`. A wide plane is two such planes side by side. The S-box is a circuit of gates on whole planes, with no table,
//! and the same gates run whatever the bytes are. `aes_core` has the definitions; the contracts of `SlicedSchedule` say
//! that each block is enciphered and deciphered by them.
#![tactic(auto)]

ghost use Rattle.std.specs.Prelude.{◌≡◌, ◌<◌, ℕ};
ghost use Rattle.aes_core.specs.Aes.{encrypt, decrypt};

mod columns;
mod groups;
mod round_keys;
mod rounds;
mod rows;
mod sboxes;
mod transposition;
mod vectors;
mod width;

use aes_core::Schedule;
pub use groups::{loaded, pair, store, wide_loaded, wide_store};
use round_keys::{KeyPlanes, schedule_planes};
use rounds::{decipher, encipher, wide_decipher, wide_encipher};
use std::marker::Model;
use vectors::sides_are_states;
pub use vectors::{Planes, WidePlanes, summed, wide_summed};
pub use width::WIDE;

/// A key schedule with the bit planes of its round keys, which are made once. It takes 2 KB, so it isn't `Copy`.
///
/// Contracts see the bytes of the key.
#[derive(Clone, Drop)]
pub struct SlicedSchedule {
    schedule: Schedule,
    planes: [KeyPlanes; 15],
}

impl Model for SlicedSchedule {
    ghost use Rattle.std.specs.Prelude.{ℕ, ◌-◌, List};
    ghost use Rattle.aes_core.specs.Aes.{rounds};
    ghost use Rattle.aes_core.specs.Schedule.{padded_schedule};
    ghost use Rattle.aes_planes.specs.Blocks.{AreKeys};

    ghost Value = { List ℕ };

    ghost view = { λ s. s.schedule };

    ghost invariant = { λ s. AreKeys (padded_schedule s.schedule) (rounds s.schedule - 1) s.planes };
}

impl SlicedSchedule {
    ghost use Rattle.aes_core.specs.Schedule.{IsKey};
    ghost use Rattle.aes_planes.specs.Blocks.{AreStates, vector_at};
    ghost use Rattle.aes_planes.specs.Wide.{AreWide, side};

    /// Makes the bit planes of this schedule's round keys.
    pub fn new(schedule: &Schedule) -> SlicedSchedule
        ensures { result ≡ schedule.now }
    {
        SlicedSchedule {
            schedule: *schedule,
            planes: schedule_planes(schedule.round_keys(), schedule.rounds() - 1),
        }
    }

    /// The schedule that this one was made from, for single blocks.
    pub fn schedule(&self) -> &Schedule
        ensures { result.now ≡ self.now }
    {
        &self.schedule
    }

    /// Eight blocks enciphered, one in each vector (FIPS 197, 5.1).
    #[inline(always)]
    pub fn encrypted(&self, q: Planes) -> Planes
        requires { AreStates q }
        ensures { (j : ℕ) → j < 8 → vector_at result j ≡ encrypt self.now (vector_at q j) }
    {
        self.schedule.is_of_a_key();
        encipher(
            self.schedule.round_keys(),
            &self.planes,
            self.schedule.rounds() - 2,
            q,
        )
    }

    /// Eight blocks deciphered, one in each vector (FIPS 197, 5.3).
    #[inline(always)]
    pub fn decrypted(&self, q: Planes) -> Planes
        requires { AreStates q }
        ensures { (j : ℕ) → j < 8 → vector_at result j ≡ decrypt self.now (vector_at q j) }
    {
        self.schedule.is_of_a_key();
        decipher(
            self.schedule.round_keys(),
            &self.planes,
            self.schedule.rounds() - 1,
            q,
        )
    }

    /// Sixteen blocks enciphered, two in each vector (FIPS 197, 5.1).
    #[inline(always)]
    pub fn wide_encrypted(&self, q: WidePlanes) -> WidePlanes
        requires { AreWide q }
        ensures sides { (i : ℕ) → i < 2 → (j : ℕ) → j < 8 → vector_at (side i result) j ≡ encrypt self.now (vector_at (side i q) j) }
        ensures wide { AreWide result }
    {
        self.schedule.is_of_a_key();
        sides_are_states(q);
        let between = self.schedule.rounds() - 2;
        wide_encipher(self.schedule.round_keys(), &self.planes, between, q)
    }

    /// Sixteen blocks deciphered, two in each vector (FIPS 197, 5.3).
    #[inline(always)]
    pub fn wide_decrypted(&self, q: WidePlanes) -> WidePlanes
        requires { AreWide q }
        ensures sides { (i : ℕ) → i < 2 → (j : ℕ) → j < 8 → vector_at (side i result) j ≡ decrypt self.now (vector_at (side i q) j) }
        ensures wide { AreWide result }
    {
        self.schedule.is_of_a_key();
        sides_are_states(q);
        let before = self.schedule.rounds() - 1;
        wide_decipher(self.schedule.round_keys(), &self.planes, before, q)
    }

    /// A law: what a schedule was made from is a key, which has 16, 24 or 32 bytes.
    pub fn is_of_a_key(&self)
        ensures { IsKey self.now }
    {
        self.schedule.is_of_a_key();
    }
}
