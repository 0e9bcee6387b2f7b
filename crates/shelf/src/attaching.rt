//! `geli attach`: a key is tried, and the provider is attached unless it is only tried (geli(8), attach).

ghost use Rattle.std.specs.Prelude.{ℕ, List, length};
ghost use Rattle.block_traits.specs.Cabinet.{CabinetState};
ghost use Rattle.block_traits.specs.Streams.{EntropyState};
ghost use Rattle.command_words.specs.Places.{CommandIsWithin, KeyIsWithin};
ghost use Rattle.reply_text.specs.Answer.{answer_of};
ghost use Rattle.shelf.specs.Trying.{IsTrial, tried_in};
ghost use Rattle.command_rows.specs.Steps.{Attaches, GoesOn};
ghost use Rattle.command_rows.specs.Turn.{AttachRow, GoesThrough};
ghost use Rattle.command_rows.specs.World.{Idle, reach_of};
ghost use Rattle.reply_text.specs.Text.{FitsPayload};
ghost use Rattle.shelf.specs.Verbs.{IsAttach};
ghost use Rattle.shelf.specs.Shelved.{reach_in};

use crate::Held;
use crate::replies::done_or;
use crate::trying::{Trial, attach_refusal, prepare, try_key};
use bio_queue::Queue;
use block_traits::{Cabinet, Disk, LastSector};
use command_words::{Command, KeyWords};
use eli_base::Refusal;
use provider::Provider;
use reply_text::Reply;
use std::alloc::Global;

// Attaches the provider, if the key opens it, with no request open on it.
fn take_over<D: Disk>(
    alloc: Global,
    disk: D,
    trial: &Trial,
    slot: Option<u8>,
    readonly: bool,
) -> (Held<D>, Result<(), Refusal>)
    requires { IsTrial (D.state disk).size slot trial.now }
    ensures { (cabinet : CabinetState) (entropy : EntropyState) →
        GoesOn Attaches (tried_in slot readonly trial.now)
        (reach_of (D.state disk) Idle cabinet entropy) result.1
        (reach_in D.state result.0 cabinet entropy) }
{
    let Trial { meta, params, key } = trial;
    let Ok(queue) = Queue::new(alloc) else {
        // A key that doesn't fit is refused before.
        return match try_key(trial, slot) {
            Ok(()) => (Held::Idle(disk), Err(Refusal::NoMemory)),
            Err(refusal) => (Held::Idle(disk), Err(refusal)),
        };
    };
    match Provider::attach(alloc, disk, meta, params, key, slot, readonly) {
        Ok(provider) => (Held::Attached(provider, queue), Ok(())),
        Err((disk, fault)) => (Held::Idle(disk), Err(attach_refusal(fault))),
    }
}

// Attaches the provider on the disk of an idle drawer, or only tries the key. The disk comes back idle with each
// refusal.
fn attach<D: Disk, C: Cabinet>(
    alloc: Global,
    disk: D,
    line: &[u8],
    only_check: bool,
    readonly: bool,
    slot: Option<u8>,
    words: &KeyWords,
    files: &mut C,
) -> (Held<D>, Result<(), Refusal>)
    requires { KeyIsWithin (length line.now) words.now }
    ensures { (entropy : EntropyState) →
        AttachRow line.now only_check readonly slot words.now
        (reach_of (D.state disk) Idle (C.state files.old) entropy) result.1
        (reach_in D.state result.0 (C.state files.new) entropy) }
{
    let mut place = LastSector::new(disk);
    let prepared = prepare(alloc, &mut place, line, slot, words, files);
    let disk = place.into_disk();
    match prepared {
        Err(refusal) => (Held::Idle(disk), Err(refusal)),
        Ok(trial) => {
            if only_check {
                (Held::Idle(disk), try_key(&trial, slot))
            } else {
                take_over(alloc, disk, &trial, slot, readonly)
            }
        }
    }
}

/// Serves `attach` on the disk of an idle drawer.
pub fn serve_attach<D: Disk, C: Cabinet>(
    alloc: Global,
    disk: D,
    line: &[u8],
    command: &Command,
    files: &mut C,
) -> (Held<D>, Reply)
    requires verb { IsAttach command.now }
    requires within { CommandIsWithin (length line.now) command.now }
    ensures serves { (entropy : EntropyState) (bytes : List ℕ) → GoesThrough line.now command.now
        (reach_of (D.state disk) Idle (C.state files.old) entropy) (answer_of bytes result.1)
        (reach_in D.state result.0 (C.state files.new) entropy) }
    ensures payload { FitsPayload 0 result.1 }
{
    match command {
        Command::Attach {
            only_check,
            readonly,
            slot,
            old,
            ..
        } => {
            let (held, answer) = attach(
                alloc,
                disk,
                line,
                *only_check,
                *readonly,
                *slot,
                old,
                files,
            );
            (held, done_or(answer))
        }
        _ => unreachable!(),
    }
}
