//! An attached provider is served, or its refusal logged.
ghost use Rattle.std.specs.Prelude.{◌≡◌, ◌⊎◌, IfErr, IfOk, OnErr, length};
ghost use Rattle.block_traits.specs.Streams.{TookAll, TookPart};
ghost use Rattle.eli_base.specs.Requests.{request_limit};
ghost use Rattle.nbd_session.specs.Requests.{side_of};
ghost use Rattle.nbd_run.specs.Program.{AreWiped, EndsWith, PrintsText};
ghost use Rattle.nbd_run.specs.declared.status.Status.TheVariants as statuses;
ghost use Rattle.reply_text.specs.Text.{refusal_text};

use crate::ending::tell_end;
use crate::status::{Status, session_status};
use block_traits::{Disk, Sink, Source};
use eli_base::{REQUEST_LIMIT, Refusal};
use nbd_session::{EDGE, ROOM, serve};
use provider::Provider;
use reply_text::{Reply, write_reply};
use std::alloc::{AllocError, Global};
use text_page::write_text;
use wiping::{scrub, wipe};

// Serves an attached provider to one client, tells the log how that ended, and returns the disk.
fn serve_provider<D: Disk, S: Source, K: Sink, L: Sink>(
    provider: Provider<D>,
    room: &mut [u8],
    edge: &mut [u8],
    input: &mut S,
    output: &mut K,
    log: &mut L,
) -> (Status, D)
    requires room { length room.old ≡ 33685520 }
    requires edge { length edge.old ≡ 65536 }
    ensures { EndsWith (side_of provider) (S.state input.old) (S.state input.new) (K.state output.old) (K.state output.new)
        (L.state log.old) (L.state log.new) result.0 (D.state provider.disk) (D.state result.1) }
{
    let (end, disk, flushed, denied) = serve(provider, room, edge, input, output);
    tell_end(&denied, flushed.is_ok(), log);
    let status = session_status(end, denied.are_some(), flushed.is_ok());
    (status, disk)
}

/// The rooms that are taken before anything is opened: the buffer of a command, and the two of a session.
#[derive(Drop)]
pub(crate) struct Rooms {
    pub(crate) buffer: Vec<u8>,
    pub(crate) room: Vec<u8>,
    pub(crate) edge: Vec<u8>,
    // What `scrub` wants kept.
    pub(crate) mark: u8,
}

impl Rooms {
    /// Overwrites the rooms with zeros, and what the calls so far left on the stack.
    pub(crate) fn forget(&mut self)
        ensures { AreWiped self.new }
    {
        wipe(self.buffer.as_mut_slice());
        wipe(self.room.as_mut_slice());
        wipe(self.edge.as_mut_slice());
        scrub(&mut self.mark);
    }
}

/// Takes the rooms.
pub(crate) fn take_rooms(alloc: Global) -> Result<Rooms, AllocError>
    ensures buffer { IfOk result (λ rooms. length rooms.buffer.items ≡ request_limit) }
    ensures room { IfOk result (λ rooms. length rooms.room.items ≡ 33685520) }
    ensures edge { IfOk result (λ rooms. length rooms.edge.items ≡ 65536) }
{
    let buffer = vec![in alloc; 0; REQUEST_LIMIT as usize]?;
    let room = vec![in alloc; 0; ROOM]?;
    let edge = vec![in alloc; 0; EDGE]?;
    Ok(Rooms {
        buffer,
        room,
        edge,
        mark: 0,
    })
}

/// Serves a provider that was attached, or prints to the log why it wasn't. It returns the disk.
pub(crate) fn serve_or_log<D: Disk, S: Source, K: Sink, L: Sink>(
    attached: Result<Provider<D>, (D, Refusal)>,
    rooms: &mut Rooms,
    input: &mut S,
    output: &mut K,
    log: &mut L,
) -> (Status, D)
    requires room { length rooms.old.room.items ≡ 33685520 }
    requires edge { length rooms.old.edge.items ≡ 65536 }
    ensures serves { IfOk attached (λ provider. EndsWith (side_of provider) (S.state input.old) (S.state input.new)
        (K.state output.old) (K.state output.new) (L.state log.old) (L.state log.new) result.0 (D.state provider.disk) (D.state result.1)) }
    ensures logs { IfErr attached (λ refused. TookAll (refusal_text refused.1) (L.state log.old) (L.state log.new)
        ⊎ TookPart (refusal_text refused.1) (L.state log.old) (L.state log.new)) }
    ensures disk { IfErr attached (λ refused. result.1 ≡ refused.0) }
    ensures status { OnErr attached (result.0 ≡ statuses.SomeRefused) }
    ensures untaken { OnErr attached ((input.new ≡ input.old) × (output.new ≡ output.old)) }
{
    match attached {
        Ok(provider) => {
            let Rooms { room, edge, .. } = rooms;
            serve_provider(provider, room, edge, input, output, log)
        }
        Err((disk, refusal)) => {
            log_refusal(refusal, log);
            (Status::SomeRefused, disk)
        }
    }
}

// Prints a refusal to the log, as far as the log takes it.
fn log_refusal<L: Sink>(refusal: Refusal, log: &mut L)
    ensures { TookAll (refusal_text refusal) (L.state log.old) (L.state log.new)
        ⊎ TookPart (refusal_text refusal) (L.state log.old) (L.state log.new) }
{
    match write_reply(&Reply::Refused(refusal), &[], log) {
        Ok(()) => {}
        Err(_) => {}
    }
}

/// Prints a text to the log, as far as the log takes it.
pub(crate) fn log_text<L: Sink>(text: &[u8], log: &mut L)
    ensures { TookAll text.now (L.state log.old) (L.state log.new) ⊎ TookPart text.now (L.state log.old) (L.state log.new) }
{
    match write_text(text, log) {
        Ok(()) => {}
        Err(_) => {}
    }
}

/// Prints a text to the client.
pub(crate) fn print_text<K: Sink>(text: &[u8], output: &mut K) -> Status
    ensures { PrintsText text.now (K.state output.old) result (K.state output.new) }
{
    match write_text(text, output) {
        Ok(()) => Status::Done,
        Err(_) => Status::WriteFault,
    }
}
