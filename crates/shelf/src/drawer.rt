//! A named disk, and what is attached or suspended on it.
ghost use Rattle.command_words.specs.Bounds.{IsBounded};
ghost use Rattle.command_words.specs.Places.{CommandIsWithin, provider_of};
ghost use Rattle.command_words.specs.Traits.{needs, traits_of};
ghost use Rattle.reply_text.specs.Text.{FitsPayload};
ghost use Rattle.reply_text.specs.Answer.{answer_of};
ghost use Rattle.block_traits.specs.Cabinet.{CabinetState};
ghost use Rattle.block_traits.specs.Streams.{EntropyState};
ghost use Rattle.shelf.specs.Closing.{Closes};
ghost use Rattle.command_rows.specs.Gate.{refused_by};
ghost use Rattle.eli_base.specs.Requests.{request_limit};
ghost use Rattle.command_rows.specs.Turn.{GoesThrough, Serves, ShowsBy, entry_of, takes_out};
ghost use Rattle.command_rows.specs.World.{Holding, HoldsKeying, Idle, IsAttached, IsSuspended, reach_of};
ghost use Rattle.shelf.specs.Shelved.{attachment_of, disk_in, drawer_of, holding_of, is_attached, kept_of};
ghost use Rattle.shelf.specs.Shelved.{reach_in, reach_on};
ghost use Rattle.std.specs.Prelude.{◌≡◌, ℕ, List, IfOk, IsSome, None, false, length, option_copied, true};

use crate::replies::{digest_or, done_or, dump_or, left_or, payload_or, reaped_or, tag_or};
use crate::requests::or_device_fault;
use crate::*;
use bio_queue::Queue;
use block_traits::{ByteList, Cabinet, Disk, Entropy, Event, LastSector, MetaPlace};
use command_words::{Command, Needs};
use eli_base::Refusal;
use provider::{Provider, rest_tells_all};
use reply_text::{Reply, Row};
use std::alloc::{AllocError, Global};
use suspend::{Suspended, rest_tells_all as suspension_tells_all};

/// A disk, idle, or with its provider attached or suspended.
#[derive(Drop)]
pub enum Held<D: Drop> {
    /// The disk.
    Idle(D),
    /// The provider, which has the disk, and the requests that are open on it.
    Attached(Provider<D>, Queue),
    /// What is kept of the provider, with the disk, and the room of the requests.
    Suspended(Suspended<D>, Queue),
}

/// A disk under its name.
#[derive(Drop)]
pub struct Drawer<D: Drop> {
    /// The name's bytes.
    pub name: ByteList,
    /// The disk, and what is attached or suspended on it.
    pub held: Held<D>,
}

impl<D: Disk> Drawer<D> {
    /// Serves a command that names this drawer; the places in the command are those of the line. Gives the drawer
    /// back as it then is, with the reply, whose payload stands in the buffer.
    pub fn serve<C: Cabinet, E: Entropy>(
        self,
        alloc: Global,
        line: &[u8],
        command: &Command,
        buffer: &mut [u8],
        files: &mut C,
        entropy: &mut E,
    ) -> (Drawer<D>, Reply)
        requires within { CommandIsWithin (length line.now) command.now }
        requires bounds { IsBounded line.now command.now }
        requires named { IsSome (provider_of command.now) }
        requires stays { takes_out command.now ≡ false }
        requires room { length buffer.old ≡ request_limit }
        ensures name { result.0.name ≡ self.name }
        ensures serves { Serves line.now command.now
            (reach_in D.state self.held (C.state files.old) (E.state entropy.old)) (answer_of buffer.new result.1)
            (reach_in D.state result.0.held (C.state files.new) (E.state entropy.new)) }
        ensures payload { FitsPayload request_limit result.1 }
    {
        let Drawer { name, held } = self;
        if let Some(refusal) = refused_by(command.traits().drawer, &held) {
            return (Drawer { name, held }, Reply::Refused(refusal));
        }
        let (held, reply) = match held {
            Held::Idle(disk) => { serve_idle(alloc, disk, line, command, buffer, files, entropy) }
            Held::Attached(provider, queue) => serve_attached(
                alloc, provider, queue, line, command, buffer, files, entropy,
            ),
            Held::Suspended(suspended, queue) => serve_suspended(
                alloc, suspended, queue, line, command, buffer, files, entropy,
            ),
        };
        (Drawer { name, held }, reply)
    }

    /// Whether its provider is attached.
    pub fn is_attached(&self) -> bool
        ensures { result ≡ is_attached (holding_of self.now.held) }
    {
        match &self.held {
            Held::Attached(..) => true,
            Held::Idle(_) | Held::Suspended(..) => false,
        }
    }

    /// Serves a request of this drawer, which is attached, as `serve` does, and leaves the provider where it stands.
    pub fn serve_request(&mut self, line: &[u8], command: &Command, buffer: &mut [u8]) -> Reply
        requires within { CommandIsWithin (length line.now) command.now }
        requires bounds { IsBounded line.now command.now }
        requires request { (traits_of command.now).is_request ≡ true }
        requires attached { is_attached (holding_of self.old.held) ≡ true }
        requires room { length buffer.old ≡ request_limit }
        ensures name { self.new.name ≡ self.old.name }
        ensures serves { (cabinet : CabinetState) (entropy : EntropyState) → Serves line.now command.now
            (reach_in D.state self.old.held cabinet entropy) (answer_of buffer.new result)
            (reach_in D.state self.new.held cabinet entropy) }
        ensures payload { FitsPayload request_limit result }
    {
        match &mut self.held {
            Held::Attached(provider, queue) => {
                serve_sectors(provider, queue, line, command, buffer)
            }
            Held::Idle(_) | Held::Suspended(..) => unreachable!(),
        }
    }

    /// Flushes the disk if its provider is attached or suspended, and returns whether that failed. The drawer is idle
    /// then.
    pub fn close(self) -> (Drawer<D>, bool)
        ensures { Closes (drawer_of D.state self) result.1 (drawer_of D.state result.0) }
    {
        let Drawer { name, held } = self;
        match held {
            Held::Idle(disk) => {
                let held = Held::Idle(disk);
                (Drawer { name, held }, false)
            }
            Held::Attached(provider, _) => {
                let (disk, closed) = provider.detach();
                let held = Held::Idle(disk);
                (Drawer { name, held }, closed.is_err())
            }
            Held::Suspended(suspended, _) => {
                let (disk, closed) = suspended.detach();
                let held = Held::Idle(disk);
                (Drawer { name, held }, closed.is_err())
            }
        }
    }

    /// The entry of the drawer in a list.
    pub fn entry(&self, alloc: Global) -> Result<Row, AllocError>
        ensures { IfOk result (λ entry. entry ≡ entry_of (drawer_of D.state self.now)) }
    {
        let name = ByteList::from_vec(self.name.as_slice().to_vec(alloc)?);
        match &self.held {
            Held::Idle(_) => Ok(Row {
                name,
                attached: false,
                suspended: false,
                sectorsize: 0,
                sectors: 0,
            }),
            Held::Attached(provider, _) => Ok(Row {
                name,
                attached: true,
                suspended: false,
                sectorsize: provider.sector_size(),
                sectors: provider.sectors(),
            }),
            Held::Suspended(suspended, _) => Ok(Row {
                name,
                attached: false,
                suspended: true,
                sectorsize: suspended.sector_size(),
                sectors: suspended.sectors(),
            }),
        }
    }

    /// A law: what is attached has a keying that a provider may have.
    pub fn holds_keying(&self)
        ensures { HoldsKeying (holding_of self.now.held) }
    {
        match &self.held {
            Held::Idle(_) => {}
            Held::Attached(provider, _) => provider.is_of_a_keying(),
            Held::Suspended(..) => {}
        }
    }

    /// What the disk returns for `events`, if the drawer is idle.
    pub fn events(&self) -> Option<&[Event]>
        ensures { ShowsBy (holding_of self.now.held) (disk_in D.state self.now.held) (option_copied result) }
    {
        match &self.held {
            Held::Idle(disk) => disk.events(),
            Held::Attached(..) | Held::Suspended(..) => None,
        }
    }
}

// Why the drawer isn't in the state that a verb needs, if it isn't.
fn refused_by<D: Disk>(needs: Needs, held: &Held<D>) -> Option<Refusal>
    ensures { result ≡ refused_by needs (holding_of held.now) }
{
    match (needs, held) {
        (Needs::AnIdle, Held::Attached(..) | Held::Suspended(..)) => Some(Refusal::StillAttached),
        (Needs::AnAttached | Needs::ASuspended | Needs::NoIdle, Held::Idle(_)) => {
            Some(Refusal::NotAttached)
        }
        (Needs::AnAttached | Needs::NoSuspended, Held::Suspended(..)) => Some(Refusal::Suspended),
        (Needs::ASuspended, Held::Attached(..)) => Some(Refusal::NotSuspended),
        _ => None,
    }
}

// Goes through the row of the command's verb, on an idle drawer that is in the state that the verb needs.
fn serve_idle<D: Disk, C: Cabinet, E: Entropy>(
    alloc: Global,
    disk: D,
    line: &[u8],
    command: &Command,
    buffer: &mut [u8],
    files: &mut C,
    entropy: &mut E,
) -> (Held<D>, Reply)
    requires within { CommandIsWithin (length line.now) command.now }
    requires bounds { IsBounded line.now command.now }
    requires named { IsSome (provider_of command.now) }
    requires stays { takes_out command.now ≡ false }
    requires needed { refused_by (needs command.now) Idle ≡ None }
    requires room { length buffer.old ≡ request_limit }
    ensures serves { GoesThrough line.now command.now
        (reach_of (D.state disk) Idle (C.state files.old) (E.state entropy.old)) (answer_of buffer.new result.1)
        (reach_in D.state result.0 (C.state files.new) (E.state entropy.new)) }
    ensures payload { FitsPayload request_limit result.1 }
{
    let mut disk = disk;
    match command {
        Command::Init { .. } => new_provider::serve_init(
            alloc, disk, line, command, files, entropy,
        ),
        Command::Attach { .. } => attaching::serve_attach(alloc, disk, line, command, files),
        Command::Setkey { .. } => set_key::serve_setkey_idle(alloc, disk, line, command, files),
        Command::Delkey { .. } => delete_keys::serve_delkey_idle(disk, line, command, entropy),
        Command::Kill { .. } => killing::kill(disk, entropy),
        Command::Restore { file, force, .. } => {
            let answer = restoring::restore(alloc, &mut disk, line, *file, *force, files);
            (Held::Idle(disk), done_or(answer))
        }
        Command::Resize { oldsize, .. } => {
            let answer = resizing::resize(&mut disk, *oldsize, entropy);
            (Held::Idle(disk), done_or(answer))
        }
        _ => {
            let mut place = LastSector::new(disk);
            let reply = serve_any(alloc, &mut place, line, command, buffer, files);
            (Held::Idle(place.into_disk()), reply)
        }
    }
}

// Serves a command on an attached drawer.
fn serve_attached<D: Disk, C: Cabinet, E: Entropy>(
    alloc: Global,
    provider: Provider<D>,
    queue: Queue,
    line: &[u8],
    command: &Command,
    buffer: &mut [u8],
    files: &mut C,
    entropy: &mut E,
) -> (Held<D>, Reply)
    requires within { CommandIsWithin (length line.now) command.now }
    requires bounds { IsBounded line.now command.now }
    requires named { IsSome (provider_of command.now) }
    requires stays { takes_out command.now ≡ false }
    requires needed { refused_by (needs command.now) (IsAttached (attachment_of queue provider)) ≡ None }
    requires room { length buffer.old ≡ request_limit }
    ensures serves { GoesThrough line.now command.now
        (reach_on D.state queue provider (C.state files.old) (E.state entropy.old)) (answer_of buffer.new result.1)
        (reach_in D.state result.0 (C.state files.new) (E.state entropy.new)) }
    ensures payload { FitsPayload request_limit result.1 }
{
    let mut provider = provider;
    let mut queue = queue;
    if command.traits().is_request {
        let reply = serve_sectors(&mut provider, &mut queue, line, command, buffer);
        return (Held::Attached(provider, queue), reply);
    }
    match command {
        Command::Setkey { .. } => {
            let reply = set_key::serve_setkey_attached(alloc, &mut provider, line, command, files);
            (Held::Attached(provider, queue), reply)
        }
        Command::Delkey { .. } => {
            let reply = delete_keys::serve_delkey_attached(&mut provider, line, command, entropy);
            (Held::Attached(provider, queue), reply)
        }
        Command::Kill { .. } => killing::kill(provider.withdraw(), entropy),
        Command::Detach { .. } => {
            let (disk, flushed) = provider.detach();
            (Held::Idle(disk), done_or(or_device_fault(flushed)))
        }
        Command::Suspend { .. } => {
            let (held, answer) = suspending::suspend(provider, queue);
            (held, done_or(answer))
        }
        Command::Verify { .. } => {
            let reply = verifying::serve_verify(alloc, &mut provider, line, command, buffer, files);
            (Held::Attached(provider, queue), reply)
        }
        _ => {
            rest_tells_all();
            let reply = serve_any(alloc, &mut provider, line, command, buffer, files);
            (Held::Attached(provider, queue), reply)
        }
    }
}

// Serves a command that is a request for sectors, on an attached drawer, which stays attached.
fn serve_sectors<D: Disk>(
    provider: &mut Provider<D>,
    queue: &mut Queue,
    line: &[u8],
    command: &Command,
    buffer: &mut [u8],
) -> Reply
    requires within { CommandIsWithin (length line.now) command.now }
    requires bounds { IsBounded line.now command.now }
    requires request { (traits_of command.now).is_request ≡ true }
    requires room { length buffer.old ≡ request_limit }
    ensures serves { (cabinet : CabinetState) (entropy : EntropyState) → GoesThrough line.now command.now
        (reach_on D.state queue.old provider.old cabinet entropy) (answer_of buffer.new result)
        (reach_on D.state queue.new provider.new cabinet entropy) }
    ensures payload { FitsPayload request_limit result }
{
    match command {
        Command::Read { sector, count, .. } => {
            let answer = requests::read(provider, *sector, *count, buffer);
            payload_or(answer)
        }
        Command::Write { sector, hex, .. } => {
            let answer = requests::write(provider, *sector, hex.bytes_in(line), buffer);
            done_or(answer)
        }
        Command::Flush { .. } => {
            let answer = or_device_fault(provider.flush());
            done_or(answer)
        }
        Command::Fill {
            seed,
            start,
            count,
            ..
        } => {
            let answer = workloads::fill(provider, *seed, *start, *count, buffer);
            done_or(answer)
        }
        Command::Sum { start, count, .. } => {
            let answer = workloads::sum(provider, *start, *count, buffer);
            digest_or(answer)
        }
        Command::Submit { job, .. } => {
            let answer = queueing::submit(provider, queue, line, job, buffer);
            tag_or(answer)
        }
        Command::Step { tag, .. } => {
            let answer = queueing::step(provider, queue, *tag);
            left_or(answer)
        }
        Command::Reap { tag, .. } => {
            let answer = queueing::reap(provider, queue, *tag, buffer);
            reaped_or(answer)
        }
        _ => unreachable!(),
    }
}

// Serves a command on a suspended drawer. No verb changes its sectors.
fn serve_suspended<D: Disk, C: Cabinet, E: Entropy>(
    alloc: Global,
    suspended: Suspended<D>,
    queue: Queue,
    line: &[u8],
    command: &Command,
    buffer: &mut [u8],
    files: &mut C,
    entropy: &mut E,
) -> (Held<D>, Reply)
    requires within { CommandIsWithin (length line.now) command.now }
    requires named { IsSome (provider_of command.now) }
    requires stays { takes_out command.now ≡ false }
    requires needed { refused_by (needs command.now) (IsSuspended (kept_of suspended)) ≡ None }
    requires room { length buffer.old ≡ request_limit }
    ensures serves { GoesThrough line.now command.now
        (reach_of (D.state suspended.disk) (IsSuspended (kept_of suspended)) (C.state files.old) (E.state entropy.old))
        (answer_of buffer.new result.1)
        (reach_in D.state result.0 (C.state files.new) (E.state entropy.new)) }
    ensures payload { FitsPayload request_limit result.1 }
{
    let mut suspended = suspended;
    match command {
        Command::Kill { .. } => killing::kill(suspended.withdraw(), entropy),
        Command::Detach { .. } => {
            let (disk, flushed) = suspended.detach();
            (Held::Idle(disk), done_or(or_device_fault(flushed)))
        }
        Command::Resume { old, .. } => {
            let (held, answer) = resuming::resume(alloc, suspended, queue, line, old, files);
            (held, done_or(answer))
        }
        _ => {
            suspension_tells_all::<D>();
            let reply = serve_any(alloc, &mut suspended, line, command, buffer, files);
            (Held::Suspended(suspended, queue), reply)
        }
    }
}

// Serves a command that only reads the disk, whether the drawer is idle, attached or suspended: it stays so.
fn serve_any<P: MetaPlace, C: Cabinet>(
    alloc: Global,
    place: &mut P,
    line: &[u8],
    command: &Command,
    buffer: &mut [u8],
    files: &mut C,
) -> Reply
    requires within { CommandIsWithin (length line.now) command.now }
    requires any { needs command.now ≡ Needs.AnyOne }
    requires reads { (traits_of command.now).only_reads ≡ true }
    requires room { length buffer.old ≡ request_limit }
    ensures serves { (holding : Holding) (entropy : EntropyState) → GoesThrough line.now command.now
        (reach_of (P.state place.old) holding (C.state files.old) entropy) (answer_of buffer.new result)
        (reach_of (P.state place.new) holding (C.state files.new) entropy) }
    ensures rest { P.rest place.new ≡ P.rest place.old }
    ensures payload { FitsPayload request_limit result }
{
    match command {
        Command::Dump { .. } => dump_or(reading::read_last(place)),
        Command::Backup { file, .. } => done_or(saving::backup(alloc, place, line, *file, files)),
        _ => unreachable!(),
    }
}
