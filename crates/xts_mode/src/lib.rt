//! XTS (IEEE 1619) over AES, in place, on whole blocks: there is no ciphertext stealing.
#![tactic(auto)]

ghost use Rattle.std.specs.Prelude.{◌≡◌, ◌%◌, length};
ghost use Rattle.aes_core.specs.Schedule.{IsKeyLength};
ghost use Rattle.xts_mode.specs.Xts.{xts_seal, xts_open};
ghost use Rattle.xts_mode.specs.Examples.{example_key1, example_key2, example_unit, xts_example_plain, xts_example_cipher};

mod doubling;
mod groups;
mod laws;

use aes_core::Schedule;
use aes_planes::SlicedSchedule;
use groups::{Way, cipher_unit};
pub use laws::{xts_goes_block_by_block, xts_keeps_lengths};

/// Enciphers one data unit of whole 16-byte blocks in place (IEEE 1619, 5.3): `k1` is the key of the data, `k2` that of
/// the tweak, and `tweak` the number of the data unit. `xts_open` takes it back.
///
/// Each call makes the bit planes of `k1`; `xts_seal_sliced` takes them ready made.
pub fn xts_seal(k1: &Schedule, k2: &Schedule, tweak: u64, block: &mut [u8])
    requires { length block.old % 16 ≡ 0 }
    ensures sealed { block.new ≡ xts_seal k1.now k2.now tweak block.old }
    ensures taken_back { xts_open k1.now k2.now tweak block.new ≡ block.old }
{
    xts_seal_sliced(&SlicedSchedule::new(k1), k2, tweak, block);
}

// A law: opening takes sealing back, since the schedule is that of a key.
fn opening_takes_it_back(k1: &SlicedSchedule, k2: &Schedule, tweak: u64, plain: &[u8])
    requires { length plain.now % 16 ≡ 0 }
    ensures { xts_open k1.now k2.now tweak (xts_seal k1.now k2.now tweak plain.now) ≡ plain.now }
{
    k1.is_of_a_key();
}

/// Enciphers one data unit of whole 16-byte blocks in place (IEEE 1619, 5.3), like `xts_seal`, but with the bit planes
/// of the data's key ready made.
pub fn xts_seal_sliced(k1: &SlicedSchedule, k2: &Schedule, tweak: u64, block: &mut [u8])
    requires { length block.old % 16 ≡ 0 }
    ensures sealed { block.new ≡ xts_seal k1.now k2.now tweak block.old }
    ensures taken_back { xts_open k1.now k2.now tweak block.new ≡ block.old }
{
    opening_takes_it_back(k1, k2, tweak, block);
    cipher_unit(Way::Seal, k1, k2, tweak, block);
}

/// Deciphers one data unit of whole 16-byte blocks in place (IEEE 1619, 5.4): `k1` is the key of the data, `k2` that of
/// the tweak, and `tweak` the number of the data unit.
///
/// Each call makes the bit planes of `k1`; `xts_open_sliced` takes them ready made.
pub fn xts_open(k1: &Schedule, k2: &Schedule, tweak: u64, block: &mut [u8])
    requires { length block.old % 16 ≡ 0 }
    ensures { block.new ≡ xts_open k1.now k2.now tweak block.old }
{
    xts_open_sliced(&SlicedSchedule::new(k1), k2, tweak, block);
}

/// Deciphers one data unit of whole 16-byte blocks in place (IEEE 1619, 5.4), like `xts_open`, but with the bit planes
/// of the data's key ready made.
pub fn xts_open_sliced(k1: &SlicedSchedule, k2: &Schedule, tweak: u64, block: &mut [u8])
    requires { length block.old % 16 ≡ 0 }
    ensures { block.new ≡ xts_open k1.now k2.now tweak block.old }
{
    cipher_unit(Way::Open, k1, k2, tweak, block);
}

/// A law: whatever is sealed opens to what it was, under every two keys and every tweak.
pub fn xts_open_undoes_xts_seal(key1: &[u8], key2: &[u8], tweak: u64, plain: &[u8])
    requires key { IsKeyLength (length key1.now) }
    requires plain { length plain.now % 16 ≡ 0 }
    ensures { xts_open key1.now key2.now tweak (xts_seal key1.now key2.now tweak plain.now) ≡ plain.now }
{}

/// The definition gives the example of the standard (IEEE 1619, annex B, vector 2).
pub fn example_of_the_standard()
    ensures { xts_seal example_key1 example_key2 example_unit xts_example_plain ≡ xts_example_cipher }
{}
