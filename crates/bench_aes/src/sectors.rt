//! The key ring, sealed sectors, and what their hashes alone cost.

ghost use Rattle.std.specs.Prelude.{◌≡◌, ◌≢◌, ◌≤◌, ◌<◌, ◌%◌, length};
ghost use Rattle.std.specs.Option.{IfSome};
ghost use Rattle.eli_base.specs.Units.{unit_bytes_of};

use crate::request::{Report, Request, Way};
use crate::stopwatch::Stopwatch;
use crate::{MOST_BYTES, calls_of};
use auth_sectors::{open_piece, seal_piece};
use block_traits::Sector;
use eli_base::{Auth, Cipher, MasterKey, Params, sector_size_ok};
use hmac_kdf::{Hmac256, Hmac384, Hmac512};
use plain_sectors::{open_plain, seal_plain};
use range_keys::KeyRing;
use std::alloc::Global;

// The range keys that are asked for in a slice.
const KEYS: u32 = 1000;

// The pieces of a slice.
const PIECES: u32 = 200;

// A ring with these parameters, if they are allowed and there is memory.
fn ring(alloc: Global, auth: Auth, cipher: Cipher, bits: u16, size: u32) -> Option<KeyRing>
    ensures auth { IfSome result (λ ring. ring.keying.auth ≡ auth) }
    ensures size { IfSome result (λ ring. ring.keying.sectorsize ≡ size) }
{
    if !cipher.allows(bits) || !sector_size_ok(size) {
        return None;
    }
    let params = Params::new(7, auth, cipher, bits, size, 0, false);
    let master = MasterKey { bytes: [3; 128] };
    KeyRing::new(alloc, &master, &params).ok()
}

/// Range keys, of so many numbers in turn as the request has bytes.
pub fn time_keys(alloc: Global, request: Request, watch: &mut Stopwatch<'_>) -> Option<Report> {
    let numbers = request.size as u64;
    if numbers == 0 {
        return None;
    }
    let mut ring = ring(alloc, Auth::Off, Cipher::AesXts, request.bits, 512)?;
    time_ring(&mut ring, numbers, watch)
}

fn time_ring(ring: &mut KeyRing, numbers: u64, watch: &mut Stopwatch<'_>) -> Option<Report>
    requires { 0 < numbers }
{
    for _ in 0..watch.slices {
        watch.start();
        let most = run_keys(ring, numbers);
        watch.stop();
        if most > 14 {
            return None;
        }
    }
    Some(Report {
        count: KEYS,
        last: None,
    })
}

// The most rounds of the keys.
fn run_keys(ring: &mut KeyRing, numbers: u64) -> usize
    requires { 0 < numbers }
{
    let mut most = 0usize;
    for i in 0..KEYS {
        let number = u64::from(i) % numbers;
        most = most.max(ring.key_at(number << 29).second.rounds());
    }
    most
}

/// Logical sectors through a ring that keeps their range key.
pub fn time_sectors(
    alloc: Global,
    request: Request,
    cipher: Cipher,
    watch: &mut Stopwatch<'_>,
) -> Option<Report> {
    let size = request.size;
    if size > MOST_BYTES {
        return None;
    }
    let mut ring = ring(alloc, Auth::Off, cipher, request.bits, size as u32)?;
    time_block(
        alloc,
        &mut ring,
        matches!(request.way, Way::Seal),
        size,
        watch,
    )
}

fn time_block(
    alloc: Global,
    ring: &mut KeyRing,
    seals: bool,
    size: usize,
    watch: &mut Stopwatch<'_>,
) -> Option<Report>
    requires off { ring.old.keying.auth ≡ Auth.Off }
    requires size { size ≡ ring.old.keying.sectorsize }
{
    let Ok(mut block) = vec![in alloc; 0u8; size] else {
        return None;
    };
    Some(time_plain(ring, seals, &mut block, watch))
}

fn time_plain(
    ring: &mut KeyRing,
    seals: bool,
    block: &mut [u8],
    watch: &mut Stopwatch<'_>,
) -> Report
    requires off { ring.old.keying.auth ≡ Auth.Off }
    requires size { length block.old ≡ ring.old.keying.sectorsize }
{
    let count = calls_of(block.len());
    for _ in 0..watch.slices {
        watch.start();
        run_sectors(ring, seals, block, count);
        watch.stop();
    }
    Report { count, last: None }
}

fn run_sectors(ring: &mut KeyRing, seals: bool, block: &mut [u8], count: u32)
    requires off { ring.old.keying.auth ≡ Auth.Off }
    requires size { length block.old ≡ ring.old.keying.sectorsize }
    ensures keying { ring.new.keying ≡ ring.old.keying }
{
    for _ in 0..count {
        if seals {
            seal_plain(ring, 0, block);
        } else {
            open_plain(ring, 0, block);
        }
    }
}

/// Whole authenticated pieces, or their codes alone.
pub fn time_pieces(
    alloc: Global,
    request: Request,
    auth: Auth,
    watch: &mut Stopwatch<'_>,
) -> Option<Report> {
    match request.way {
        Way::Hash => Some(time_codes(auth, watch)),
        way => time_sealed(alloc, matches!(way, Way::Seal), request.bits, auth, watch),
    }
}

fn time_sealed(
    alloc: Global,
    seals: bool,
    bits: u16,
    auth: Auth,
    watch: &mut Stopwatch<'_>,
) -> Option<Report> {
    if auth == Auth::Off {
        return None;
    }
    let mut ring = ring(alloc, auth, Cipher::AesXts, bits, 4096)?;
    let mut plain = [5u8; 512];
    let piece = &mut plain[..auth.data_bytes()];
    Some(time_whole(&mut ring, seals, piece, watch))
}

fn time_whole(
    ring: &mut KeyRing,
    seals: bool,
    plain: &mut [u8],
    watch: &mut Stopwatch<'_>,
) -> Report
    requires on { ring.old.keying.auth ≢ Auth.Off }
    requires at_least { 16 ≤ length plain.old }
    requires at_most { length plain.old ≤ unit_bytes_of ring.old.keying.auth }
    requires blocks { length plain.old % 16 ≡ 0 }
{
    let mut sector = [0u8; 512];
    seal_piece(ring, 0, plain, &mut sector);
    for _ in 0..watch.slices {
        watch.start();
        run_pieces(ring, seals, plain, &mut sector);
        watch.stop();
    }
    Report {
        count: PIECES,
        last: None,
    }
}

fn run_pieces(ring: &mut KeyRing, seals: bool, plain: &mut [u8], sector: &mut Sector)
    requires on { ring.old.keying.auth ≢ Auth.Off }
    requires at_least { 16 ≤ length plain.old }
    requires at_most { length plain.old ≤ unit_bytes_of ring.old.keying.auth }
    requires blocks { length plain.old % 16 ≡ 0 }
    ensures keying { ring.new.keying ≡ ring.old.keying }
{
    for _ in 0..PIECES {
        if seals {
            seal_piece(ring, 0, plain, sector);
        } else if open_piece(ring, 0, sector, plain).is_err() {
            return;
        }
    }
}

/// The first byte of the code of a message.
pub fn code(auth: Auth, key: &[u8; 32], message: &[u8]) -> u8 {
    match auth {
        Auth::Off => 0,
        Auth::Sha256 => Hmac256::code_of(key, message)[0],
        Auth::Sha384 => Hmac384::code_of(key, message)[0],
        Auth::Sha512 => Hmac512::code_of(key, message)[0],
    }
}

// The codes alone of a piece.
fn time_codes(auth: Auth, watch: &mut Stopwatch<'_>) -> Report {
    let mut plain = [5u8; 512];
    time_hash(auth, &mut plain[..auth.data_bytes()], watch)
}

// Codes of a message, each under a key that is new.
fn time_hash(auth: Auth, message: &mut [u8], watch: &mut Stopwatch<'_>) -> Report
    requires { 0 < length message.old }
{
    let key = [7u8; 32];
    for _ in 0..watch.slices {
        watch.start();
        run_hash(auth, &key, message);
        watch.stop();
    }
    Report {
        count: PIECES,
        last: None,
    }
}

fn run_hash(auth: Auth, key: &[u8; 32], message: &mut [u8])
    requires { 0 < length message.old }
{
    for _ in 0..PIECES {
        let first = code(auth, key, message);
        message[0] = first;
    }
}
