//! Metadata as bytes, and bytes as metadata.
ghost use Rattle.std.specs.Prelude.{◌≡◌, ◌++◌, ◌∷◌, [], IfOk, IsTrue, take, Ok};
ghost use Rattle.std.specs.Str.{bytes_eq};
ghost use Rattle.md5.specs.Md5.{md5};
ghost use Rattle.eli_metadata.specs.Format.{magic, field_at, fields, is_served, metadata_in, number_fields, field_bytes, encoded, HasFieldsInRange};

use crate::bytes::{i32_at, put, put_i32, put_u16, put_u32, put_u64, u16_at, u32_at, u64_at};
use crate::metadata::FLAG_AUTH;
use crate::{MetaFault, Metadata};
use block_traits::Sector;
use md5::{Digest, Md5};

const MAGIC: [u8; 16] = *b"GEOM::ELI\0\0\0\0\0\0\0";

/// Reads the metadata in a sector (g_eli.h, `eli_metadata_decode`).
///
/// Faults are reported in this order: `BadMagic`; `BadVersion`, if the version isn't 5, 6 or 7, or it is 5 and the flag
/// AUTH is set; `BadHash`. Byte 511 isn't read.
#[tactic(auto, unfolding(crate::specs::Format::metadata_in))]
pub fn decode(from: &Sector) -> Result<Metadata, MetaFault>
    ensures meaning { result ≡ metadata_in from.now }
    ensures again { IfOk result (λ m. encoded m ≡ take 511 from.now ++ 0 ∷ []) }
    ensures version { IfOk result (λ m. IsTrue (is_served m.version m.flags)) }
{
    if !has_magic(from) {
        return Err(MetaFault::BadMagic);
    }
    let version = u32_at(from, 16);
    if !is_served(version, u32_at(from, 20)) {
        return Err(MetaFault::BadVersion { found: version });
    }
    if !has_hash(from) {
        return Err(MetaFault::BadHash);
    }
    Ok(read_fields(from))
}

#[tactic(auto, unfolding(crate::specs::Format::magic))]
fn has_magic(from: &Sector) -> bool
    ensures { result ≡ bytes_eq (take 16 from.now) magic }
{
    &from[..16] == MAGIC.as_slice()
}

fn is_served(version: u32, flags: u32) -> bool
    ensures { result ≡ is_served version flags }
{
    match version {
        7 | 6 => true,
        5 => flags & FLAG_AUTH == 0,
        _ => false,
    }
}

fn has_hash(from: &Sector) -> bool
    ensures { result ≡ bytes_eq (md5 (take 495 from.now)) (field_at from.now 495 16) }
{
    Md5::digest(&from[..495]).as_slice() == &from[495..511]
}

#[tactic(auto, unfolding(crate::specs::Format::fields))]
fn read_fields(from: &Sector) -> Metadata
    ensures { result ≡ fields from.now }
{
    let mut salt = [0; 64];
    salt.copy_from_slice(&from[47..111]);
    let mut mkeys = [0; 384];
    mkeys.copy_from_slice(&from[111..495]);
    Metadata {
        version: u32_at(from, 16),
        flags: u32_at(from, 20),
        ealgo: u16_at(from, 24),
        keylen: u16_at(from, 26),
        aalgo: u16_at(from, 28),
        provsize: u64_at(from, 30),
        sectorsize: u32_at(from, 38),
        keys: from[42],
        iterations: i32_at(from, 43),
        salt,
        mkeys,
    }
}

/// Writes metadata into a sector: the fields, their MD5, and a zero byte.
pub fn encode(meta: &Metadata, into: &mut Sector)
    ensures bytes { into.new ≡ encoded meta.now }
    ensures again { IsTrue (is_served meta.now.version meta.now.flags) → metadata_in into.new ≡ Ok meta.now }
{
    write_fields(meta, into);
    let digest = Md5::digest(&into[..495]);
    put(into, 495, &digest);
    into[511] = 0;
}

// Writes the first 495 bytes.
fn write_fields(meta: &Metadata, into: &mut Sector)
    ensures bytes { take 495 into.new ≡ field_bytes meta.now }
    ensures range { HasFieldsInRange meta.now }
{
    write_numbers(meta, into);
    put(into, 47, &meta.salt);
    put(into, 111, &meta.mkeys);
}

// Writes the first 47 bytes.
fn write_numbers(meta: &Metadata, into: &mut Sector)
    ensures bytes { take 47 into.new ≡ number_fields meta.now }
    ensures range { HasFieldsInRange meta.now }
{
    put_magic(into);
    put_u32(into, 16, meta.version);
    put_u32(into, 20, meta.flags);
    put_u16(into, 24, meta.ealgo);
    put_u16(into, 26, meta.keylen);
    put_u16(into, 28, meta.aalgo);
    put_u64(into, 30, meta.provsize);
    put_u32(into, 38, meta.sectorsize);
    put(into, 42, &[meta.keys]);
    put_i32(into, 43, meta.iterations);
}

#[tactic(auto, unfolding(crate::specs::Format::magic))]
fn put_magic(into: &mut Sector)
    ensures { take 16 into.new ≡ magic }
{
    put(into, 0, &MAGIC);
}
