//! Tweaks, and a tweak times x, by two halves of 64 bits (IEEE 1619, 5.2 and 5.3.1).

ghost use Rattle.std.specs.Prelude.{◌≡◌, length};
ghost use Rattle.xts_mode.specs.Halves.{of_halves};
ghost use Rattle.xts_mode.specs.Xts.{doubled, first_tweak};

use aes_core::Schedule;
use std::simd::prelude::*;

/// The tweak of the first block of a data unit (IEEE 1619, 5.1 and 5.3.1).
pub fn first_tweak(k2: &Schedule, unit: u64) -> u128
    ensures { result ≡ first_tweak k2.now unit }
{
    let mut block = [0u8; 16];
    block[..8].copy_from_slice(&unit.to_le_bytes());
    k2.encrypt_block(&mut block);
    u128::from_le_bytes(block)
}

/// The halves of a tweak.
#[inline(always)]
pub fn halves(t: u128) -> u64x2
    ensures value { of_halves result ≡ t }
    ensures long { length result ≡ 2 }
{
    u64x2::from_array([(t & 0xffff_ffff_ffff_ffff) as u64, (t >> 64) as u64])
}

/// A tweak times x.
#[inline(always)]
pub fn doubled(t: u64x2) -> u64x2
    requires { length t ≡ 2 }
    ensures value { of_halves result ≡ doubled (of_halves t) }
    ensures long { length result ≡ 2 }
{
    (t << 1) ^ ((t.swizzle([1, 0]) >> 63) * u64x2::from_array([0x87, 1]))
}
