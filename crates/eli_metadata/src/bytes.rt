//! Little-endian numbers and bytes at places of a sector: read there, and put there from its start on.
ghost use Rattle.std.specs.Prelude.{◌≡◌, ◌<◌, ◌≤◌, ◌+◌, ◌^◌, ◌++◌, drop, length, take, FitsSigned};
ghost use Rattle.std.specs.Int.{w32};
ghost use Rattle.eli_metadata.specs.Format.{number_at, number_bytes, signed_at, signed_bytes};

use block_traits::Sector;
use byteorder::{ByteOrder, LittleEndian};

/// The number of two bytes at a place.
#[tactic(auto, unfolding(crate::specs::Format::number_at))]
pub fn u16_at(from: &Sector, place: usize) -> u16
    requires { place + 2 ≤ 512 }
    ensures { result ≡ number_at from.now place 2 }
{
    LittleEndian::read_u16(&from[place..place + 2])
}

/// The number of four bytes at a place.
#[tactic(auto, unfolding(crate::specs::Format::number_at))]
pub fn u32_at(from: &Sector, place: usize) -> u32
    requires { place + 4 ≤ 512 }
    ensures { result ≡ number_at from.now place 4 }
{
    LittleEndian::read_u32(&from[place..place + 4])
}

/// The signed number of four bytes at a place.
#[tactic(auto, unfolding(crate::specs::Format::signed_at))]
pub fn i32_at(from: &Sector, place: usize) -> i32
    requires { place + 4 ≤ 512 }
    ensures { result ≡ signed_at from.now place }
{
    u32_at(from, place).cast_signed()
}

/// The number of eight bytes at a place.
#[tactic(auto, unfolding(crate::specs::Format::number_at))]
pub fn u64_at(from: &Sector, place: usize) -> u64
    requires { place + 8 ≤ 512 }
    ensures { result ≡ number_at from.now place 8 }
{
    LittleEndian::read_u64(&from[place..place + 8])
}

/// Puts bytes at a place. What stands before and after them stays.
pub fn put(into: &mut [u8], place: usize, bytes: &[u8])
    requires { place + length bytes.now ≤ length into.old }
    ensures bytes { take (place + length bytes.now) into.new ≡ take place into.old ++ bytes.now }
    ensures behind { drop (place + length bytes.now) into.new ≡ drop (place + length bytes.now) into.old }
{
    into[place..place + bytes.len()].copy_from_slice(bytes);
}

/// Puts the two bytes of a number at a place.
#[tactic(auto, unfolding(crate::specs::Format::number_bytes))]
pub fn put_u16(into: &mut Sector, place: usize, number: u16)
    requires { place + 2 ≤ 512 }
    ensures bytes { take (place + 2) into.new ≡ take place into.old ++ number_bytes 2 number }
    ensures range { number < 2 ^ 16 }
{
    put(into, place, &number.to_le_bytes());
}

/// Puts the four bytes of a number at a place.
#[tactic(auto, unfolding(crate::specs::Format::number_bytes))]
pub fn put_u32(into: &mut Sector, place: usize, number: u32)
    requires { place + 4 ≤ 512 }
    ensures bytes { take (place + 4) into.new ≡ take place into.old ++ number_bytes 4 number }
    ensures range { number < 2 ^ 32 }
{
    put(into, place, &number.to_le_bytes());
}

/// Puts the four bytes of a signed number at a place.
#[tactic(auto, unfolding(crate::specs::Format::signed_bytes))]
pub fn put_i32(into: &mut Sector, place: usize, number: i32)
    requires { place + 4 ≤ 512 }
    ensures bytes { take (place + 4) into.new ≡ take place into.old ++ signed_bytes number }
    ensures range { FitsSigned w32 number }
{
    put_u32(into, place, number.cast_unsigned());
}

/// Puts the eight bytes of a number at a place.
#[tactic(auto, unfolding(crate::specs::Format::number_bytes))]
pub fn put_u64(into: &mut Sector, place: usize, number: u64)
    requires { place + 8 ≤ 512 }
    ensures bytes { take (place + 8) into.new ≡ take place into.old ++ number_bytes 8 number }
    ensures range { number < 2 ^ 64 }
{
    put(into, place, &number.to_le_bytes());
}
