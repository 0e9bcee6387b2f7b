//! Requests in flight on an attached provider: they are submitted, done step by step, and reaped.

ghost use Rattle.std.specs.Prelude.{◌≡◌, ◌≤◌, ℕ, IfOk, IfSome, List, MatchResult, length};
ghost use Rattle.block_traits.specs.Cabinet.{CabinetState};
ghost use Rattle.block_traits.specs.Streams.{EntropyState};
ghost use Rattle.command_words.specs.Bounds.{IsBoundedJob};
ghost use Rattle.command_words.specs.Places.{IsWithin, JobIsWithin, bytes_at};
ghost use Rattle.command_rows.specs.Digits.{SpellsBytes};
ghost use Rattle.command_rows.specs.Queueing.{HasRequest};
ghost use Rattle.command_rows.specs.Requests.{bytes_given};
ghost use Rattle.command_rows.specs.Steps.{or_refusal};
ghost use Rattle.command_rows.specs.verbs.Reap.{ReapRow};
ghost use Rattle.command_rows.specs.verbs.Step.{StepRow, step_refusal};
ghost use Rattle.command_rows.specs.verbs.Submit.{SubmitRow, submit_refusal};
ghost use Rattle.eli_base.specs.Requests.{request_limit};
ghost use Rattle.shelf.specs.Queueing.{count_given};
ghost use Rattle.shelf.specs.Shelved.{attachment_of, reach_on};

use crate::requests::decode;
use bio_queue::{Job, Queue, ReapFault, Reaped, StepFault, SubmitFault, requests_meet_conditions};
use block_traits::Disk;
use command_words::{JobWords, Span};
use eli_base::{REQUEST_LIMIT, Refusal};
use provider::Provider;

fn submit_answer(answer: Result<u8, SubmitFault>) -> Result<u8, Refusal>
    ensures { result ≡ or_refusal submit_refusal answer }
{
    match answer {
        Ok(tag) => Ok(tag),
        Err(SubmitFault::ReadOnly) => Err(Refusal::ReadOnly),
        Err(
            SubmitFault::OutOfRange {
                sector,
                count,
                media,
            },
        ) => Err(Refusal::OutOfRange {
            sector,
            count,
            media,
        }),
        Err(SubmitFault::QueueFull) => Err(Refusal::QueueFull),
        Err(SubmitFault::NoMemory) => Err(Refusal::NoMemory),
    }
}

fn step_answer(answer: Result<u64, StepFault>, tag: u8) -> Result<u64, Refusal>
    ensures { result ≡ or_refusal (step_refusal tag) answer }
{
    match answer {
        Ok(left) => Ok(left),
        Err(StepFault::NoRequest) => Err(Refusal::NoRequest { tag }),
        Err(StepFault::AllDone) => Err(Refusal::RequestDone { tag }),
        Err(StepFault::DeviceFault) => Err(Refusal::DeviceFault),
    }
}

// How many bytes of a read stand at the front of the buffer, or none of another request.
fn reap_answer(answer: Result<Reaped, ReapFault>, tag: u8) -> Result<Option<u32>, Refusal>
    ensures { result ≡ count_given tag answer }
{
    match answer {
        Ok(Reaped::Bytes { length }) => Ok(Some(length)),
        Ok(Reaped::Written) | Ok(Reaped::Flushed) => Ok(None),
        Err(ReapFault::NoRequest) => Err(Refusal::NoRequest { tag }),
        Err(ReapFault::NotDone { left }) => Err(Refusal::RequestNotDone { tag, left }),
        Err(ReapFault::Integrity { offset }) => Err(Refusal::Integrity { offset }),
    }
}

fn submit_read<D: Disk>(
    provider: &mut Provider<D>,
    queue: &mut Queue,
    sector: u64,
    count: u32,
) -> Result<u8, Refusal>
    ensures { (line : List ℕ) (cabinet : CabinetState) (entropy : EntropyState) →
        SubmitRow line (JobWords.Read sector count) (attachment_of queue.old provider.old)
        (reach_on D.state queue.old provider.old cabinet entropy) result
        (reach_on D.state queue.new provider.new cabinet entropy) }
{
    let sectorsize = provider.sector_size();
    let given = u64::from(count) * u64::from(sectorsize);
    if given == 0 || given > REQUEST_LIMIT {
        return Err(Refusal::BadLength { given, sectorsize });
    }
    let job = Job::Read { sector, count };
    submit_answer(queue.submit(provider, &job, &[]))
}

// Submits a write. The bytes that the digits spell are put at the front of the buffer.
fn submit_write<D: Disk>(
    provider: &mut Provider<D>,
    queue: &mut Queue,
    line: &[u8],
    sector: u64,
    hex: Span,
    buffer: &mut [u8],
) -> Result<u8, Refusal>
    requires within { IsWithin (length line.now) hex }
    requires spelled { SpellsBytes (bytes_at line.now hex) }
    requires room { length buffer.old ≡ request_limit }
    ensures { (cabinet : CabinetState) (entropy : EntropyState) →
        SubmitRow line.now (JobWords.Write sector hex) (attachment_of queue.old provider.old)
        (reach_on D.state queue.old provider.old cabinet entropy) result
        (reach_on D.state queue.new provider.new cabinet entropy) }
{
    let given = decode(hex.bytes_in(line), buffer);
    let sectorsize = provider.sector_size();
    if given == 0 || given % sectorsize as usize != 0 {
        let given = given as u64;
        return Err(Refusal::BadLength { given, sectorsize });
    }
    let count = (given / sectorsize as usize) as u32;
    let job = Job::Write { sector, count };
    submit_answer(queue.submit(provider, &job, &buffer[..given]))
}

fn submit_flush<D: Disk>(provider: &mut Provider<D>, queue: &mut Queue) -> Result<u8, Refusal>
    ensures { (line : List ℕ) (cabinet : CabinetState) (entropy : EntropyState) →
        SubmitRow line JobWords.Flush (attachment_of queue.old provider.old)
        (reach_on D.state queue.old provider.old cabinet entropy) result
        (reach_on D.state queue.new provider.new cabinet entropy) }
{
    submit_answer(queue.submit(provider, &Job::Flush, &[]))
}

/// Opens a request, and returns its tag. A write is sealed here: the bytes that its digits spell go through the buffer.
pub fn submit<D: Disk>(
    provider: &mut Provider<D>,
    queue: &mut Queue,
    line: &[u8],
    job: &JobWords,
    buffer: &mut [u8],
) -> Result<u8, Refusal>
    requires within { JobIsWithin (length line.now) job.now }
    requires bounds { IsBoundedJob line.now job.now }
    requires room { length buffer.old ≡ request_limit }
    ensures { (cabinet : CabinetState) (entropy : EntropyState) →
        SubmitRow line.now job.now (attachment_of queue.old provider.old)
        (reach_on D.state queue.old provider.old cabinet entropy) result
        (reach_on D.state queue.new provider.new cabinet entropy) }
{
    match *job {
        JobWords::Read { sector, count } => submit_read(provider, queue, sector, count),
        JobWords::Write { sector, hex } => {
            submit_write(provider, queue, line, sector, hex, buffer)
        }
        JobWords::Flush => submit_flush(provider, queue),
    }
}

// Refuses a tag unless an open request has it and is one of the provider, as the provider is now.
fn check_request<D: Disk>(provider: &Provider<D>, queue: &Queue, tag: u8) -> Result<(), Refusal>
    ensures { MatchResult result
        (λ _. HasRequest (attachment_of queue.now provider.now) tag (D.state provider.now.disk))
        (λ refusal. (refusal ≡ Refusal.NoRequest tag)
        × ¬ HasRequest (attachment_of queue.now provider.now) tag (D.state provider.now.disk)) }
{
    if queue.has_request(provider, tag) {
        Ok(())
    } else {
        Err(Refusal::NoRequest { tag })
    }
}

/// Does the next unit of the open request with this tag, and returns how many are left. A request that isn't one of the
/// provider, as the provider is now, counts as none.
pub fn step<D: Disk>(provider: &mut Provider<D>, queue: &mut Queue, tag: u8) -> Result<u64, Refusal>
    ensures { (cabinet : CabinetState) (entropy : EntropyState) →
        StepRow tag (attachment_of queue.old provider.old)
        (reach_on D.state queue.old provider.old cabinet entropy) result
        (reach_on D.state queue.new provider.new cabinet entropy) }
{
    check_request(provider, queue, tag)?;
    requests_meet_conditions();
    step_answer(queue.step(provider, tag), tag)
}

/// Takes out the open request with this tag, whose units are all done. The bytes of a read are put at the front of the
/// buffer, and their number is returned.
pub fn reap<D: Disk>(
    provider: &mut Provider<D>,
    queue: &mut Queue,
    tag: u8,
    buffer: &mut [u8],
) -> Result<Option<u32>, Refusal>
    requires { length buffer.old ≡ request_limit }
    ensures row { (cabinet : CabinetState) (entropy : EntropyState) →
        ReapRow tag (attachment_of queue.old provider.old)
        (reach_on D.state queue.old provider.old cabinet entropy) (bytes_given buffer.new result)
        (reach_on D.state queue.new provider.new cabinet entropy) }
    ensures bound { IfOk result (λ given. IfSome given (λ bytes. bytes ≤ request_limit)) }
{
    check_request(provider, queue, tag)?;
    requests_meet_conditions();
    reap_answer(queue.reap(provider, tag, buffer), tag)
}
