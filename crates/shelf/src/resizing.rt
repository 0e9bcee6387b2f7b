//! `geli resize`: the metadata move with an image that grew (geli(8)).

ghost use Rattle.std.specs.Prelude.{◌≡◌, ◌≤◌, ◌%◌};
ghost use Rattle.block_traits.specs.Cabinet.{CabinetState};
ghost use Rattle.command_rows.specs.World.{Idle, reach_of};
ghost use Rattle.command_rows.specs.verbs.Resize.{ResizeRow};

use block_traits::{Disk, Entropy};
use eli_base::Refusal;

/// Moves the metadata of an idle drawer to the end of its image, which had so many bytes before.
pub fn resize<D: Disk, E: Entropy>(
    disk: &mut D,
    oldsize: u64,
    entropy: &mut E,
) -> Result<(), Refusal>
    requires whole { oldsize % 512 ≡ 0 }
    requires least { 1024 ≤ oldsize }
    ensures { (cabinet : CabinetState) → ResizeRow oldsize
        (reach_of (D.state disk.old) Idle cabinet (E.state entropy.old)) result
        (reach_of (D.state disk.new) Idle cabinet (E.state entropy.new)) }
{
    resize_kill::resize(disk, oldsize, entropy)
}
