//! `geli resume`: a suspended provider is attached again, by a key that opens the master key that it had (geli(8)).

ghost use Rattle.std.specs.Prelude.{◌≡◌, None, length};
ghost use Rattle.block_traits.specs.Cabinet.{CabinetState};
ghost use Rattle.block_traits.specs.Streams.{EntropyState};
ghost use Rattle.command_rows.specs.Steps.{GoesOn};
ghost use Rattle.command_rows.specs.World.{IsSuspended, reach_of};
ghost use Rattle.command_rows.specs.verbs.Resume.{AttachesAgain, ResumeRow};
ghost use Rattle.command_words.specs.Places.{KeyIsWithin};
ghost use Rattle.shelf.specs.Resuming.{resume_refusal};
ghost use Rattle.shelf.specs.Shelved.{kept_of, reach_in};
ghost use Rattle.shelf.specs.Trying.{IsTrial, tried_in};

use crate::Held;
use crate::trying::{Trial, prepare};
use bio_queue::Queue;
use block_traits::{Cabinet, Disk};
use command_words::KeyWords;
use eli_base::Refusal;
use std::alloc::Global;
use suspend::{ResumeFault, Suspended, rest_tells_all};

fn resume_refusal(fault: ResumeFault) -> Refusal
    ensures { result ≡ resume_refusal fault }
{
    match fault {
        ResumeFault::TooSmall { size } => Refusal::TooSmall { size },
        ResumeFault::WrongKey => Refusal::WrongKey,
        ResumeFault::DifferentKey { .. } => Refusal::DifferentKey,
        ResumeFault::NoMemory => Refusal::NoMemory,
    }
}

// Attaches the provider again, if the key opens the master key that it had. This alone opens a slot.
fn take_up<D: Disk>(
    alloc: Global,
    suspended: Suspended<D>,
    queue: Queue,
    trial: &Trial,
) -> (Held<D>, Result<(), Refusal>)
    requires { IsTrial (D.state suspended.disk).size None trial.now }
    ensures { (cabinet : CabinetState) (entropy : EntropyState) →
        GoesOn (AttachesAgain (kept_of suspended)) (tried_in None suspended.readonly trial.now)
        (reach_of (D.state suspended.disk) (IsSuspended (kept_of suspended)) cabinet entropy) result.1
        (reach_in D.state result.0 cabinet entropy) }
{
    let Trial { meta, params, key } = trial;
    let mut queue = queue;
    match suspended.resume(alloc, meta, params, key, None) {
        Ok(provider) => {
            queue.clear();
            (Held::Attached(provider, queue), Ok(()))
        }
        Err((suspended, fault)) => {
            (
                Held::Suspended(suspended, queue),
                Err(resume_refusal(fault)),
            )
        }
    }
}

/// Attaches the provider of a suspended drawer again, with no request open on it, in the room of a queue that was kept.
/// With each refusal it is suspended as before.
pub fn resume<D: Disk, C: Cabinet>(
    alloc: Global,
    suspended: Suspended<D>,
    queue: Queue,
    line: &[u8],
    words: &KeyWords,
    files: &mut C,
) -> (Held<D>, Result<(), Refusal>)
    requires { KeyIsWithin (length line.now) words.now }
    ensures { (entropy : EntropyState) →
        ResumeRow line.now words.now (kept_of suspended)
        (reach_of (D.state suspended.disk) (IsSuspended (kept_of suspended)) (C.state files.old) entropy) result.1
        (reach_in D.state result.0 (C.state files.new) entropy) }
{
    rest_tells_all::<D>();
    let mut suspended = suspended;
    match prepare(alloc, &mut suspended, line, None, words, files) {
        Err(refusal) => (Held::Suspended(suspended, queue), Err(refusal)),
        Ok(trial) => take_up(alloc, suspended, queue, &trial),
    }
}
