//! The provider on a disk is attached, as `geli attach` does.
ghost use Rattle.std.specs.Prelude.{◌≡◌, IfErr, IfOk, length, true};
ghost use Rattle.reply_text.specs.Answer as answers;
ghost use Rattle.command_rows.specs.World.{Idle, reach_of};
ghost use Rattle.command_words.specs.Bounds.{IsBounded};
ghost use Rattle.command_words.specs.Places.{CommandIsWithin};
ghost use Rattle.eli_base.specs.Requests.{request_limit};
ghost use Rattle.nbd_run.specs.Attaching.{AttachesProvider, IsRefusalOf};
ghost use Rattle.nbd_run.specs.Words.{attaches};
ghost use Rattle.command_rows.specs.Vocabulary.{IsKeying};
ghost use Rattle.reply_text.specs.declared.reply.Reply.TheVariants as replies;
ghost use Rattle.command_rows.specs.Turn.{Serves};

use crate::words::Asked;
use block_traits::{ByteList, Cabinet, Disk, Entropy};
use eli_base::Refusal;
use provider::Provider;
use reply_text::Reply;
use shelf::{Drawer, Held};
use std::alloc::Global;

/// Attaches the provider on a disk, or hands the disk back with the refusal.
pub(crate) fn attach<D: Disk, C: Cabinet, E: Entropy>(
    alloc: Global,
    disk: D,
    asked: &Asked,
    buffer: &mut [u8],
    files: &mut C,
    entropy: &mut E,
) -> Result<Provider<D>, (D, Refusal)>
    requires verb { attaches asked.now.command ≡ true }
    requires within { CommandIsWithin (length asked.now.line.items) asked.now.command }
    requires bounds { IsBounded asked.now.line.items asked.now.command }
    requires room { length buffer.old ≡ request_limit }
    ensures attaches { IfOk result (λ provider. AttachesProvider D.state asked.now.line.items asked.now.command
        (reach_of (D.state disk) Idle (C.state files.old) (E.state entropy.old)) provider (C.state files.new) (E.state entropy.new)) }
    ensures keying { IfOk result (λ provider. IsKeying provider.keying) }
    ensures refuses { IfErr result (λ refused. Serves asked.now.line.items asked.now.command
        (reach_of (D.state disk) Idle (C.state files.old) (E.state entropy.old)) (answers.Refused refused.1)
        (reach_of (D.state refused.0) Idle (C.state files.new) (E.state entropy.new))) }
{
    let drawer = Drawer {
        name: ByteList::from_vec(Vec::new(alloc)),
        held: Held::Idle(disk),
    };
    let line = asked.line.as_slice();
    let (drawer, reply) = drawer.serve(alloc, line, &asked.command, buffer, files, entropy);
    let Drawer { held, .. } = drawer;
    match held {
        Held::Attached(provider, _) => {
            provider.is_of_a_keying();
            Ok(provider)
        }
        Held::Idle(disk) => Err((disk, refusal_in(reply))),
        Held::Suspended(..) => unreachable!(),
    }
}

// The refusal of a reply.
fn refusal_in(reply: Reply) -> Refusal
    requires { IsRefusalOf reply }
    ensures { reply ≡ replies.Refused result }
{
    match reply {
        Reply::Refused(refusal) => refusal,
        _ => unreachable!(),
    }
}
