//! Device sectors of a GELI provider with authentication (geli(8), "DATA AUTHENTICATION"; g_eli_integrity.c).
//!
//! A unit is the part of a logical sector that stands in one device sector: a tag, the ciphertext of the unit's
//! plain bytes, and zeros, all under the keys of the device sector's own byte offset. No call fails for want of
//! memory.
#![tactic(auto)]

ghost use Rattle.std.specs.Prelude.{◌≡◌, ◌≢◌, ◌+◌, ◌*◌, ◌%◌, ◌^◌, ◌<◌, ◌≤◌, ℕ, [], ◌∷◌, Ok, Err, MatchResult, is_ok, length, replicate, true};
ghost use Rattle.block_traits.specs.Parts.{parts};
ghost use Rattle.eli_base.specs.Units.{unit_bytes_of};
ghost use Rattle.sealing.specs.TaggedUnits.{opened_tagged, sealed_tagged};
ghost use Rattle.sha_lanes.specs.Lanes.{HaveOneLength, bytes_of};
ghost use Rattle.auth_sectors.specs.Tags.{ShowsMismatch};

mod tags;
mod whole;

use block_traits::Sector;
use eli_base::Auth;
use range_keys::KeyRing;
use sealing::open_run;
use tags::{has_tag, padded, tag_of, tag_size, tags_of_four};
use whole::{encipher, put_tag};

/// The tag in a device sector isn't that of its ciphertext. In both fields the first `length` bytes are the tag, and
/// the rest are zeros.
#[derive(Clone, Copy, Debug, PartialEq, Eq)]
pub struct Mismatch {
    /// How many bytes a tag has.
    pub length: u8,
    /// The tag that the device sector has.
    pub kept: [u8; 64],
    /// The tag of the ciphertext.
    pub computed: [u8; 64],
}

/// Seals the plain bytes of a unit into its device sector, which stands at this byte offset of the device.
pub fn seal_piece(ring: &mut KeyRing, offset: u64, plain: &[u8], out: &mut Sector)
    requires on { ring.old.keying.auth ≢ Auth.Off }
    requires at_most { length plain.now ≤ unit_bytes_of ring.old.keying.auth }
    requires blocks { length plain.now % 16 ≡ 0 }
    ensures sealed { out.new ≡ sealed_tagged ring.old.keying offset plain.now }
    ensures keying { ring.new.keying ≡ ring.old.keying }
{
    let size = tag_size(ring);
    encipher(ring, offset, plain, out);
    let code = tag_of(ring, offset, &out[size..size + plain.len()]);
    put_tag(&code[..size], out);
}

/// Seals the plain bytes of four units of one length into their device sectors. The first stands at this byte offset
/// of the device, and each other `step` bytes after the one before it.
pub fn seal_apart(ring: &mut KeyRing, offset: u64, step: u64, plain: [&[u8]; 4], out: &mut [u8])
    requires on { ring.old.keying.auth ≢ Auth.Off }
    requires lengths { HaveOneLength plain }
    requires at_most { length (bytes_of 0 plain) ≤ unit_bytes_of ring.old.keying.auth }
    requires blocks { length (bytes_of 0 plain) % 16 ≡ 0 }
    requires out { length out.old ≡ 2048 }
    requires place { offset + 3 * step < 2 ^ 64 }
    ensures sealed { parts 512 4 out.new
        ≡ sealed_tagged ring.old.keying offset (bytes_of 0 plain.entry)
        ∷ sealed_tagged ring.old.keying (offset + step) (bytes_of 1 plain.entry)
        ∷ sealed_tagged ring.old.keying (offset + 2 * step) (bytes_of 2 plain.entry)
        ∷ sealed_tagged ring.old.keying (offset + 3 * step) (bytes_of 3 plain.entry) ∷ [] }
    ensures keying { ring.new.keying ≡ ring.old.keying }
{
    let [a, b, c, d] = plain;
    let size = tag_size(ring);
    let end = size + a.len();
    let (first, rest) = out.split_at_mut(512);
    let (second, rest) = rest.split_at_mut(512);
    let (third, fourth) = rest.split_at_mut(512);
    encipher(ring, offset, a, first);
    encipher(ring, offset + step, b, second);
    encipher(ring, offset + 2 * step, c, third);
    encipher(ring, offset + 3 * step, d, fourth);
    let texts = [
        &first[size..end],
        &second[size..end],
        &third[size..end],
        &fourth[size..end],
    ];
    let tags = tags_of_four(ring, offset, step, texts);
    put_tag(&tags[0][..size], first);
    put_tag(&tags[1][..size], second);
    put_tag(&tags[2][..size], third);
    put_tag(&tags[3][..size], fourth);
}

/// Opens a unit of as many plain bytes as `out` has, from its device sector, which stands at this byte offset of the
/// device. What follows the ciphertext isn't looked at.
///
/// A mismatch is returned exactly if the tag differs, and `out` is then all zeros.
pub fn open_piece(
    ring: &mut KeyRing,
    offset: u64,
    from: &Sector,
    out: &mut [u8],
) -> Result<(), Mismatch>
    requires on { ring.old.keying.auth ≢ Auth.Off }
    requires at_most { length out.old ≤ unit_bytes_of ring.old.keying.auth }
    requires blocks { length out.old % 16 ≡ 0 }
    ensures opened { let answer = opened_tagged ring.old.keying offset (length out.old) from.now in
        MatchResult result (λ _. answer ≡ Ok out.new) (λ mismatch. answer ≡ Err offset) }
    ensures mismatch { MatchResult result (λ _. Unit {0})
        (λ mismatch. (out.new ≡ replicate (length out.old) 0) × ShowsMismatch ring.old.keying offset (length out.old) from.now mismatch) }
    ensures keying { ring.new.keying ≡ ring.old.keying }
{
    let size = tag_size(ring);
    let computed = tag_of(ring, offset, &from[size..size + out.len()]);
    if !has_tag(ring, from, &computed) {
        out.fill(0);
        return Err(Mismatch {
            length: size as u8,
            kept: padded(&from[..size]),
            computed,
        });
    }
    open_accepted(ring, offset, from, out);
    Ok(())
}

/// Whether a unit of `size` plain bytes is accepted, from its device sector, which stands at this byte offset of the
/// device: whether the tag is that of its ciphertext. Nothing is deciphered.
pub fn unit_accepted(ring: &KeyRing, offset: u64, size: usize, from: &Sector) -> bool
    requires on { ring.now.keying.auth ≢ Auth.Off }
    requires at_most { size ≤ unit_bytes_of ring.now.keying.auth }
    ensures { result ≡ is_ok (opened_tagged ring.now.keying offset size from.now) }
{
    let tag = tag_size(ring);
    let computed = tag_of(ring, offset, &from[tag..tag + size]);
    has_tag(ring, from, &computed)
}

/// Which of four units of `size` plain bytes are accepted, each from its device sector. The first stands at this byte
/// offset of the device, and each other `step` bytes after the one before it. Nothing is deciphered.
#[tactic(auto, using(crate::proofs::Openings::sector_long))]
pub fn apart_accepted(
    ring: &KeyRing,
    offset: u64,
    step: u64,
    size: usize,
    from: [&[u8]; 4],
) -> [bool; 4]
    requires on { ring.now.keying.auth ≢ Auth.Off }
    requires at_most { size ≤ unit_bytes_of ring.now.keying.auth }
    requires sectors { (j : ℕ) → j < 4 → length (bytes_of j from) ≡ 512 }
    requires place { offset + 3 * step < 2 ^ 64 }
    ensures { result ≡ is_ok (opened_tagged ring.now.keying offset size (bytes_of 0 from.entry))
        ∷ is_ok (opened_tagged ring.now.keying (offset + step) size (bytes_of 1 from.entry))
        ∷ is_ok (opened_tagged ring.now.keying (offset + 2 * step) size (bytes_of 2 from.entry))
        ∷ is_ok (opened_tagged ring.now.keying (offset + 3 * step) size (bytes_of 3 from.entry)) ∷ [] }
{
    let [a, b, c, d] = from;
    let tag = tag_size(ring);
    let end = tag + size;
    let texts = [&a[tag..end], &b[tag..end], &c[tag..end], &d[tag..end]];
    let tags = tags_of_four(ring, offset, step, texts);
    [
        has_tag(ring, a, &tags[0]),
        has_tag(ring, b, &tags[1]),
        has_tag(ring, c, &tags[2]),
        has_tag(ring, d, &tags[3]),
    ]
}

/// Opens a unit that is accepted, of as many plain bytes as `out` has, from its device sector, which stands at this
/// byte offset of the device. The tag isn't computed again.
pub fn open_accepted(ring: &mut KeyRing, offset: u64, from: &[u8], out: &mut [u8])
    requires sector { length from.now ≡ 512 }
    requires at_most { length out.old ≤ unit_bytes_of ring.old.keying.auth }
    requires blocks { length out.old % 16 ≡ 0 }
    requires accepted { is_ok (opened_tagged ring.old.keying offset (length out.old) from.now) ≡ true }
    ensures opened { opened_tagged ring.old.keying offset (length out.old) from.now ≡ Ok out.new }
    ensures keying { ring.new.keying ≡ ring.old.keying }
{
    let size = tag_size(ring);
    out.copy_from_slice(&from[size..size + out.len()]);
    open_run(ring, offset, out);
}
