//! A unit in its device sector: a tag, ciphertext after it, and zeros after that.

ghost use Rattle.std.specs.Prelude.{◌≡◌, ◌-◌, ◌%◌, ◌≤◌, ◌++◌, drop, length, replicate};
ghost use Rattle.eli_base.specs.Units.{tag_bytes, unit_bytes_of};
ghost use Rattle.sealing.specs.Runs.{sealed_run};

use crate::tags::tag_size;
use range_keys::KeyRing;
use sealing::seal_run;

/// Enciphers the plain bytes of a unit into their place in its device sector, which is after that of the tag, and
/// puts zeros after them.
pub fn encipher(ring: &mut KeyRing, offset: u64, plain: &[u8], sector: &mut [u8])
    requires at_most { length plain.now ≤ unit_bytes_of ring.old.keying.auth }
    requires blocks { length plain.now % 16 ≡ 0 }
    requires sector { length sector.old ≡ 512 }
    ensures sealed { drop (tag_bytes ring.old.keying.auth) sector.new
        ≡ sealed_run ring.old.keying offset plain.now ++ replicate (unit_bytes_of ring.old.keying.auth - length plain.now) 0 }
    ensures long { length (sealed_run ring.old.keying offset plain.now) ≡ length plain.now }
    ensures keying { ring.new.keying ≡ ring.old.keying }
{
    let size = tag_size(ring);
    let (_, rest) = sector.split_at_mut(size);
    let (text, zeros) = rest.split_at_mut(plain.len());
    text.copy_from_slice(plain);
    seal_run(ring, offset, text);
    zeros.fill(0);
}

/// Puts a tag in front of the ciphertext.
pub fn put_tag(tag: &[u8], sector: &mut [u8])
    requires { length tag.now ≤ length sector.old }
    ensures { sector.new ≡ tag.now ++ drop (length tag.now) sector.old }
{
    sector[..tag.len()].copy_from_slice(tag);
}
