//! Cipher block chaining (NIST SP 800-38A, 6.2) over AES, in place, on whole blocks.
#![tactic(auto)]

ghost use Rattle.std.specs.Prelude.{◌≡◌, ◌%◌, length};
ghost use Rattle.aes_core.specs.Aes.{xor, encrypt};
ghost use Rattle.aes_core.specs.Schedule.{IsKeyLength};
ghost use Rattle.cbc_mode.specs.Cbc.{cbc_seal, cbc_open};
ghost use Rattle.cbc_mode.specs.Examples.{cbc_example_key, example_iv, cbc_example_plain, cbc_example_cipher};

mod groups;
mod laws;

use aes_core::Schedule;
use aes_core::blocks::{Block, block_at, xor};
use aes_planes::SlicedSchedule;
use groups::{open_rest, open_sixteen};
pub use laws::{cbc_keeps_lengths, cbc_opens_block_by_block};

// The ciphertext of one block, given the block of ciphertext before it.
#[inline(always)]
fn sealed(k: &Schedule, plain: Block, before: Block) -> Block
    ensures { result ≡ encrypt k.now (xor plain before) }
{
    let mut out = xor(plain, before);
    k.encrypt_block(&mut out);
    out
}

/// Enciphers whole 16-byte blocks in place, under this key and initialization vector. `cbc_open` takes it back.
pub fn cbc_seal(k: &Schedule, iv: &[u8; 16], block: &mut [u8])
    requires { length block.old % 16 ≡ 0 }
    ensures sealed { block.new ≡ cbc_seal k.now iv.now block.old }
    ensures taken_back { cbc_open k.now iv.now block.new ≡ block.old }
{
    let mut last = *iv;
    for j in 0..block.len() / 16 {
        let plain = block_at(block, j);
        let cipher = sealed(k, plain, last);
        block[16 * j..16 * j + 16].copy_from_slice(&cipher);
        last = cipher;
    }
    // Opening takes sealing back, since the schedule is that of a key.
    k.is_of_a_key();
}

/// Deciphers whole 16-byte blocks in place, under this key and initialization vector.
///
/// Each call makes the bit planes of `k`; `cbc_open_sliced` takes them ready made.
pub fn cbc_open(k: &Schedule, iv: &[u8; 16], block: &mut [u8])
    requires { length block.old % 16 ≡ 0 }
    ensures { block.new ≡ cbc_open k.now iv.now block.old }
{
    cbc_open_sliced(&SlicedSchedule::new(k), iv, block);
}

/// Deciphers whole 16-byte blocks in place, like `cbc_open`, but with the bit planes of the key ready made.
pub fn cbc_open_sliced(k: &SlicedSchedule, iv: &[u8; 16], block: &mut [u8])
    requires { length block.old % 16 ≡ 0 }
    ensures { block.new ≡ cbc_open k.now iv.now block.old }
{
    let mut before = *iv;
    let groups = block.len() / 256;
    for g in 0..groups {
        let last = open_sixteen(k, &before, &mut block[256 * g..256 * g + 256]);
        before = last;
    }
    open_rest(k, &before, &mut block[256 * groups..]);
}

/// A law: whatever is sealed opens to what it was, under every key and initialization vector.
pub fn cbc_open_undoes_cbc_seal(key: &[u8], iv: &[u8], plain: &[u8])
    requires key { IsKeyLength (length key.now) }
    requires iv { length iv.now ≡ 16 }
    requires plain { length plain.now % 16 ≡ 0 }
    ensures { cbc_open key.now iv.now (cbc_seal key.now iv.now plain.now) ≡ plain.now }
{}

/// The definition gives the example of the standard (NIST SP 800-38A, F.2.1).
pub fn example_of_the_standard()
    ensures { cbc_seal cbc_example_key example_iv cbc_example_plain ≡ cbc_example_cipher }
{}
