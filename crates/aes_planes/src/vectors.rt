//! Eight vectors of 16 bytes, for eight blocks or their bit planes; and eight of 32 bytes, for sixteen blocks.

ghost use Rattle.std.specs.Prelude.{◌≡◌, ◌<◌, ℕ, length};
ghost use Rattle.aes_core.specs.Blocks.{block};
ghost use Rattle.aes_core.specs.State.{IsState};
ghost use Rattle.aes_planes.specs.Blocks.{AreStates, added};
ghost use Rattle.aes_planes.specs.Planes.{planes_of};
ghost use Rattle.aes_planes.specs.Wide.{AreWide, side};

use std::simd::prelude::*;

// Eight planes that are made alike: each by a call on a plane, as the sum of two planes (the second as it is or after a
// call), or as one value.
macro_rules! planes {
    ($planes:ident, $of:ident($q:ident)) => {
        $planes {
            b7: $of($q.b7),
            b6: $of($q.b6),
            b5: $of($q.b5),
            b4: $of($q.b4),
            b3: $of($q.b3),
            b2: $of($q.b2),
            b1: $of($q.b1),
            b0: $of($q.b0),
        }
    };
    ($planes:ident, $q:ident ^ $($of:ident)?($k:ident)) => {
        $planes {
            b7: $q.b7 ^ $($of)?($k.b7),
            b6: $q.b6 ^ $($of)?($k.b6),
            b5: $q.b5 ^ $($of)?($k.b5),
            b4: $q.b4 ^ $($of)?($k.b4),
            b3: $q.b3 ^ $($of)?($k.b3),
            b2: $q.b2 ^ $($of)?($k.b2),
            b1: $q.b1 ^ $($of)?($k.b1),
            b0: $q.b0 ^ $($of)?($k.b0),
        }
    };
    ($planes:ident, $value:expr) => {
        $planes {
            b7: $value,
            b6: $value,
            b5: $value,
            b4: $value,
            b3: $value,
            b2: $value,
            b1: $value,
            b0: $value,
        }
    };
}

pub(crate) use planes;

/// Eight blocks, one in each vector, from block 0 in `b0` to block 7 in `b7`. Or their bit planes, from bit 0 of each
/// byte in `b0` to bit 7 in `b7`.
#[derive(Clone, Copy)]
pub struct Planes {
    pub b7: u8x16,
    pub b6: u8x16,
    pub b5: u8x16,
    pub b4: u8x16,
    pub b3: u8x16,
    pub b2: u8x16,
    pub b1: u8x16,
    pub b0: u8x16,
}

// The sum of two states of eight blocks.
#[inline(always)]
pub fn summed(q: Planes, k: Planes) -> Planes
    ensures { planes_of result ≡ added q k }
{
    planes!(Planes, q ^ (k))
}

/// Sixteen blocks, two in each vector: blocks 0 and 1 in `b0`, and 14 and 15 in `b7`. Or their bit planes, each of
/// which has the plane of the blocks of even number before that of the others.
#[derive(Clone, Copy)]
pub struct WidePlanes {
    pub b7: u8x32,
    pub b6: u8x32,
    pub b5: u8x32,
    pub b4: u8x32,
    pub b3: u8x32,
    pub b2: u8x32,
    pub b1: u8x32,
    pub b0: u8x32,
}

/// The sum of two states of sixteen blocks.
#[inline(always)]
pub fn wide_summed(q: WidePlanes, k: WidePlanes) -> WidePlanes
    requires first { AreWide q }
    requires second { AreWide k }
    ensures wide { AreWide result }
    ensures sides { (i : ℕ) → i < 2 → planes_of (side i result) ≡ added (side i q) (side i k) }
{
    planes!(WidePlanes, q ^ (k))
}

// A law: each half of a vector is a state of 16 bytes.
#[inline(always)]
fn halves_are_states(v: u8x32)
    requires { length v ≡ 32 }
    ensures { (i : ℕ) → i < 2 → IsState (block v i) }
{}

/// A law: each side of eight vectors is eight states of 16 bytes.
#[inline(always)]
pub fn sides_are_states(q: WidePlanes)
    requires { AreWide q }
    ensures { (i : ℕ) → i < 2 → AreStates (side i q) }
{
    halves_are_states(q.b7);
    halves_are_states(q.b6);
    halves_are_states(q.b5);
    halves_are_states(q.b4);
    halves_are_states(q.b3);
    halves_are_states(q.b2);
    halves_are_states(q.b1);
    halves_are_states(q.b0);
}
