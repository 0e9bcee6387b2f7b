//! What follows from what `resize` and `kill` did: what the places of metadata may hold whenever power fails.

ghost use Rattle.std.specs.Prelude.{◌≡◌, ◌<◌, ◌^◌, ℕ, List, Ok};
ghost use Rattle.block_traits.specs.Disk.{DiskState, last_sector};
ghost use Rattle.block_traits.specs.Moments.{AtEachMoment, KeepsAlone};
ghost use Rattle.block_traits.specs.Streams.{EntropyState};
ghost use Rattle.eli_metadata.specs.Format.{encoded, metadata_in};
ghost use Rattle.eli_metadata.specs.declared.metadata.Metadata.{Metadata};
ghost use Rattle.resize_kill.specs.Killing.{Destroys, DestroysPart, HoldsNoMetadata};
ghost use Rattle.resize_kill.specs.Resizing.{KeepsOneOf, Moves, MovesPart, Prepares, grown, old_place};

/// The metadata that `resize` writes, which have the size of the image, are read back from their sector.
pub fn what_resize_writes_is_read_again()
    ensures { (oldsize : ℕ) (disk : DiskState) (entropy entropy' : EntropyState) (old : Metadata) (random : List ℕ) →
        Prepares oldsize disk entropy old random entropy' → metadata_in (encoded (grown old disk.size)) ≡ Ok (grown old disk.size) }
{}

/// Until the first flush of `resize` landed, every sector holds what it might hold before, whenever power fails. After
/// this flush the last sector holds the new metadata or the old place the old ones, in each image that a crash leaves
/// and nobody alters. Once `resize` is done, the last sector holds the new metadata alone.
pub fn resize_leaves_one_of_both()
    ensures done { (oldsize : ℕ) (disk disk' : DiskState) (entropy entropy' : EntropyState) →
        (moves : Moves oldsize disk entropy disk' entropy') →
        KeepsOneOf (grown moves.old disk.size) (old_place oldsize) moves.old disk disk'
        × KeepsAlone (encoded (grown moves.old disk.size)) (last_sector disk) disk'.content }
    ensures part { (oldsize : ℕ) (disk disk' : DiskState) (entropy entropy' : EntropyState) →
        (moves : MovesPart oldsize disk entropy disk' entropy') →
        KeepsOneOf (grown moves.old disk.size) (old_place oldsize) moves.old disk disk' }
{}

/// Once the first flush of `kill` landed, the last sector holds no metadata any more, whenever power fails.
pub fn kill_leaves_no_metadata()
    ensures done { (disk disk' : DiskState) (entropy entropy' : EntropyState) → Destroys disk entropy disk' entropy' →
        AtEachMoment (HoldsNoMetadata (last_sector disk)) disk.content disk'.content }
    ensures part { (disk disk' : DiskState) (entropy entropy' : EntropyState) → DestroysPart disk entropy disk' entropy' →
        AtEachMoment (HoldsNoMetadata (last_sector disk)) disk.content disk'.content }
{}
