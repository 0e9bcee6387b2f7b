//! Bytes overwritten that are of no more use.
#![tactic(auto)]

ghost use Rattle.std.specs.Prelude.{◌≡◌, length, replicate};

// Copies of secrets stand at most 93 KB below the frame that waits for a line or a request.
const DEPTH: usize = 131_072;

/// Overwrites all bytes with zeros. The memory keeps them where it is on the heap: in an array that nobody reads
/// afterwards, the compiler takes the zeros out.
pub fn wipe(bytes: &mut [u8])
    ensures { bytes.new ≡ replicate (length bytes.old) 0 }
{
    bytes.fill(0);
}

// All the bytes' bits together.
#[inline(never)]
fn bits_of(bytes: &[u8]) -> u8 {
    let mut bits = 0;
    for byte in bytes {
        bits |= *byte;
    }
    bits
}

// Overwrites all bytes with zeros, and adds to the mark what bits are then left in them.
#[inline(never)]
fn wipe_and_mark(bytes: &mut [u8], mark: &mut u8) {
    wipe(bytes);
    *mark |= bits_of(bytes);
}

/// Overwrites the 131,072 bytes of the stack that lie below the caller's frame, and so what calls left there that have
/// ended. What `mark` holds means nothing: without an outcome that the caller keeps, the compiler would take the work
/// out, or do it once for all times.
#[inline(never)]
pub fn scrub(mark: &mut u8) {
    let mut room = [0; DEPTH];
    wipe_and_mark(&mut room, mark);
}
