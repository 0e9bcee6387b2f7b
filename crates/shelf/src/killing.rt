//! `geli kill`: the metadata are destroyed (geli(8)).

ghost use Rattle.std.specs.Prelude.{ℕ, List};
ghost use Rattle.block_traits.specs.Cabinet.{CabinetState};
ghost use Rattle.reply_text.specs.Answer.{answer_of};
ghost use Rattle.command_rows.specs.Turn.{Replies, done_or};
ghost use Rattle.command_rows.specs.World.{Holding, reach_of};
ghost use Rattle.command_rows.specs.verbs.Kill.{KillRow};
ghost use Rattle.reply_text.specs.Text.{FitsPayload};
ghost use Rattle.shelf.specs.Shelved.{reach_in};

use crate::Held;
use crate::replies::done_or;
use block_traits::{Disk, Entropy};
use reply_text::Reply;

/// Destroys the metadata on a disk, whatever its drawer did with it: it is idle then.
pub fn kill<D: Disk, E: Entropy>(disk: D, entropy: &mut E) -> (Held<D>, Reply)
    ensures serves { (holding : Holding) (cabinet : CabinetState) (bytes : List ℕ) → Replies done_or KillRow
        (reach_of (D.state disk) holding cabinet (E.state entropy.old)) (answer_of bytes result.1)
        (reach_in D.state result.0 cabinet (E.state entropy.new)) }
    ensures payload { FitsPayload 0 result.1 }
{
    let mut disk = disk;
    let answer = resize_kill::kill(&mut disk, entropy);
    (Held::Idle(disk), done_or(answer))
}
