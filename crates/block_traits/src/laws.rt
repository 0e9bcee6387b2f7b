//! What holds of contents and of the images that a crash leaves, whatever the disk.
ghost use Rattle.std.specs.Prelude.{◌≡◌, ◌<◌, ◌∷◌, [], ℕ, List, All};
ghost use Rattle.block_traits.specs.Content.{Content, IsContentOf, IsSector, kept_values, last_of, present, with_events};
ghost use Rattle.block_traits.specs.Crash.{IsAltered, IsImage, IsTorn};

use crate::Event;

/// What stands in a sector now is the last of the values that it may hold after a crash.
pub fn last_kept_value_is_present()
    ensures { (c : Content) (n : ℕ) → last_of (kept_values c n) ≡ present c n }
{}

/// After a flush a sector holds what stands in it, even if power fails.
pub fn flush_keeps_the_present()
    ensures { (c : Content) (n : ℕ) → kept_values (with_events (Event.Flush ∷ []) c) n ≡ present c n ∷ [] }
{}

/// Each value that a sector may hold after a crash has 512 bytes.
pub fn kept_values_are_sectors()
    ensures { (size : ℕ) (c : Content) (n : ℕ) → IsContentOf size c → n < size →
        All IsSector (kept_values c n) }
{}

/// Every image that a crash leaves is among the torn ones.
pub fn crash_image_is_torn()
    ensures { (size : ℕ) (c : Content) (choice : ℕ → ℕ) (image : List (List ℕ)) → IsContentOf size c →
        IsImage c choice image → IsTorn c image }
{}

/// Every torn image is among the altered ones.
pub fn torn_image_is_altered()
    ensures { (c : Content) (image : List (List ℕ)) → IsTorn c image → IsAltered c image }
{}
