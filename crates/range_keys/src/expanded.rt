//! The expanded keys of a range.

ghost use Rattle.std.specs.Prelude.{◌≡◌, IsTrue};
ghost use Rattle.eli_base.specs.Algorithms.{allows_length};
ghost use Rattle.range_keys.specs.Keys.{first_part, second_part};

use aes_core::Schedule;
use aes_planes::SlicedSchedule;
use eli_base::Cipher;

/// The expanded keys of a range. AES-XTS has two; with AES-CBC both are the one key. A `RangeKey` has 2.4 KB, and is
/// lent.
#[derive(Drop)]
pub struct RangeKey {
    /// K1 of XTS, the key of the data, with its bit planes.
    pub first: SlicedSchedule,
    /// K2 of XTS, the key of the tweak.
    pub second: Schedule,
}

/// The keys in the bytes of a range key.
pub fn expanded(cipher: Cipher, keylen: u16, range: &[u8; 64]) -> RangeKey
    requires { IsTrue (allows_length cipher keylen) }
    ensures first { result.first ≡ first_part keylen range.now }
    ensures second { result.second ≡ second_part cipher keylen range.now }
{
    let size = usize::from(keylen / 8);
    let first = Schedule::new(&range[..size]).unwrap();
    let second = match cipher {
        Cipher::AesXts => Schedule::new(&range[size..2 * size]).unwrap(),
        Cipher::AesCbc => first,
    };
    RangeKey {
        first: SlicedSchedule::new(&first),
        second,
    }
}
