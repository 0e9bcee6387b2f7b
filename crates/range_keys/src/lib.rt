//! The keys under which the data of a GELI provider is enciphered, by byte offset (g_eli_key_cache.c).
//!
//! A provider's data isn't enciphered under one key: every 2^20 blocks there is another range key, made of
//! the master key and a number. Initial vectors and the keys of tags go by the offset itself.
#![tactic(auto)]

ghost use Rattle.std.specs.Prelude.{◌≡◌, [], ◌∷◌, ◌++◌, codes};
ghost use Rattle.range_keys.specs.Keys.{le64};

mod derivation;
mod expanded;
mod held;
mod kept;
mod ring;

pub use expanded::RangeKey;
pub use held::HeldRing;
pub use ring::{KeyRing, Unit};

/// The definitions give these bytes: the byte offset 4608, least significant byte first, and the message whose code is
/// range key 1.
pub fn examples_of_offsets()
    ensures number { le64 4608 ≡ 0 ∷ 0x12 ∷ 0 ∷ 0 ∷ 0 ∷ 0 ∷ 0 ∷ 0 ∷ [] }
    ensures message { codes "ekey" ++ le64 1 ≡ 0x65 ∷ 0x6b ∷ 0x65 ∷ 0x79 ∷ 1 ∷ 0 ∷ 0 ∷ 0 ∷ 0 ∷ 0 ∷ 0 ∷ 0 ∷ [] }
{}
