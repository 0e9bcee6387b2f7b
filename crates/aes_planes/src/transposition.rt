//! Eight blocks as the planes of their bits, and back.

ghost use Rattle.std.specs.Prelude.{◌≡◌, ◌<◌, ℕ};
ghost use Rattle.aes_planes.specs.Planes.{planes_of};
ghost use Rattle.aes_planes.specs.Wide.{AreWide, side};
ghost use Rattle.aes_planes.specs.Transposition.{on_vectors, transposing, transposed_places, operations_of, places_of};

use crate::vectors::{Planes, WidePlanes};
use std::simd::prelude::*;

// The steps of the network on planes of either width.
macro_rules! network {
    ($planes:ident, $vector:ident, $q:expr) => {{
        let $planes {
            b7,
            b6,
            b5,
            b4,
            b3,
            b2,
            b1,
            b0,
        } = $q;
        let t = (((b0 >> 1) ^ b1) & $vector::splat(85));
        let b0 = b0 ^ (t << 1);
        let b1 = b1 ^ t;
        let t = (((b2 >> 1) ^ b3) & $vector::splat(85));
        let b2 = b2 ^ (t << 1);
        let b3 = b3 ^ t;
        let t = (((b4 >> 1) ^ b5) & $vector::splat(85));
        let b4 = b4 ^ (t << 1);
        let b5 = b5 ^ t;
        let t = (((b6 >> 1) ^ b7) & $vector::splat(85));
        let b6 = b6 ^ (t << 1);
        let b7 = b7 ^ t;
        let t = (((b0 >> 2) ^ b2) & $vector::splat(51));
        let b0 = b0 ^ (t << 2);
        let b2 = b2 ^ t;
        let t = (((b1 >> 2) ^ b3) & $vector::splat(51));
        let b1 = b1 ^ (t << 2);
        let b3 = b3 ^ t;
        let t = (((b4 >> 2) ^ b6) & $vector::splat(51));
        let b4 = b4 ^ (t << 2);
        let b6 = b6 ^ t;
        let t = (((b5 >> 2) ^ b7) & $vector::splat(51));
        let b5 = b5 ^ (t << 2);
        let b7 = b7 ^ t;
        let t = (((b0 >> 4) ^ b4) & $vector::splat(15));
        let b0 = b0 ^ (t << 4);
        let b4 = b4 ^ t;
        let t = (((b1 >> 4) ^ b5) & $vector::splat(15));
        let b1 = b1 ^ (t << 4);
        let b5 = b5 ^ t;
        let t = (((b2 >> 4) ^ b6) & $vector::splat(15));
        let b2 = b2 ^ (t << 4);
        let b6 = b6 ^ t;
        let t = (((b3 >> 4) ^ b7) & $vector::splat(15));
        let b3 = b3 ^ (t << 4);
        let b7 = b7 ^ t;
        $planes {
            b7,
            b6,
            b5,
            b4,
            b3,
            b2,
            b1,
            b0,
        }
    }};
}

/// Row i of the eight rows of bits in each lane becomes column i: eight blocks become their bit planes, or planes their
/// blocks.
#[inline(always)]
pub fn transposed(q: Planes) -> Planes
    ensures { planes_of result ≡ places_of on_vectors transposed_places (operations_of on_vectors transposing (planes_of q)) }
{
    network!(Planes, u8x16, q)
}

/// Row i of the eight rows of bits in each of 32 lanes becomes column i: sixteen blocks become their bit planes, or
/// planes their blocks.
#[inline(always)]
pub fn wide_transposed(q: WidePlanes) -> WidePlanes
    requires { AreWide q }
    ensures sides { (i : ℕ) → i < 2 → planes_of (side i result) ≡ places_of on_vectors transposed_places (operations_of on_vectors transposing (planes_of (side i q))) }
    ensures wide { AreWide result }
{
    network!(WidePlanes, u8x32, q)
}
