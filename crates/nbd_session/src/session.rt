//! A client is served by an attached provider, from the greeting to the last flush.
ghost use Rattle.std.specs.Prelude.{◌≡◌, [], ◌∷◌, length, OnErr, OnOk};
ghost use Rattle.block_traits.specs.Disk.{FailsIn, Logs};
ghost use Rattle.block_traits.specs.declared.disk.Event.TheVariants.{Flush};
ghost use Rattle.provider.specs.Attached.{IsKept};
ghost use Rattle.nbd_session.specs.Requests.{side_of};
ghost use Rattle.nbd_session.specs.Runs.{ServesRun};
ghost use Rattle.nbd_session.specs.Session.{HasSession, Talks};

use crate::denials::{Denials, with_denied};
use crate::export::export_of;
use crate::served::{MOST, serve_request};
use block_traits::{Disk, DiskFailed, Sink, Source};
use nbd_negotiation::{End, negotiate};
use provider::Provider;

/// The bytes of the room in which a client is served: a reply's head, a request's bytes, and what its first and its
/// last sector have beside them.
pub const ROOM: usize = 33_685_520;

/// The bytes of the edge, in which a sector is read that a write covers in part.
pub const EDGE: usize = 65_536;

/// Serves a client until it ends, and then flushes the disk, however the session ended. It returns why it ended, the
/// disk, whether the last flush was made, and which writes, requests for zeros and flushes were answered with an error.
/// The room has `ROOM` bytes and the edge `EDGE`; nothing is allocated.
pub fn serve<D: Disk, S: Source, K: Sink>(
    provider: Provider<D>,
    room: &mut [u8],
    edge: &mut [u8],
    input: &mut S,
    output: &mut K,
) -> (End, D, Result<(), DiskFailed>, Denials)
    requires room { length room.old ≡ 33685520 }
    requires edge { length edge.old ≡ 65536 }
    ensures { HasSession (side_of provider) result.0 result.3 (S.state input.old) (S.state input.new) (K.state output.old) (K.state output.new)
        result.2 (D.state provider.disk) (D.state result.1) }
{
    let mut provider = provider;
    let (end, denied) = serve_client(&mut provider, room, edge, input, output);
    let (disk, flushed) = close(provider);
    (end, disk, flushed, denied)
}

// Returns the disk, flushed.
fn close<D: Disk>(provider: Provider<D>) -> (D, Result<(), DiskFailed>)
    ensures ok { OnOk result.1 (Logs (Flush ∷ []) (D.state provider.disk) (D.state result.0)) }
    ensures err { OnErr result.1 (FailsIn (Flush ∷ []) (D.state provider.disk) (D.state result.0)) }
{
    provider.detach()
}

// Serves a client until it ends. It returns why it ended, and what was denied.
fn serve_client<D: Disk, S: Source, K: Sink>(
    provider: &mut Provider<D>,
    room: &mut [u8],
    edge: &mut [u8],
    input: &mut S,
    output: &mut K,
) -> (End, Denials)
    requires room { length room.old ≡ 33685520 }
    requires edge { length edge.old ≡ 65536 }
    ensures { Talks (side_of provider.old) result.0 result.1 (S.state input.old) (S.state input.new) (K.state output.old) (K.state output.new)
        (D.state provider.old.disk) (D.state provider.new.disk) }
{
    let export = export_of(provider, MOST);
    match negotiate(input, output, room, &export) {
        Ok(()) => serve_requests(provider, room, edge, input, output),
        Err(end) => (end, Denials::none()),
    }
}

// Serves requests until the session ends. It returns why it ended, and what was denied.
fn serve_requests<D: Disk, S: Source, K: Sink>(
    provider: &mut Provider<D>,
    room: &mut [u8],
    edge: &mut [u8],
    input: &mut S,
    output: &mut K,
) -> (End, Denials)
    requires room { length room.old ≡ 33685520 }
    requires edge { length edge.old ≡ 65536 }
    ensures serves { ServesRun (side_of provider.old) (D.state provider.old.disk) (D.state provider.new.disk)
        (S.state input.old) (S.state input.new) (K.state output.old) result.0 (K.state output.new) result.1 }
    ensures kept { IsKept provider.old provider.new }
{
    let mut many: u64 = 0;
    let mut denied = Denials::none();
    'many: while many < u64::MAX {
        let (answered, denial) = serve_request(provider, room, edge, input, output);
        denied = with_denied(&denied, denial);
        if let Err(end) = answered {
            return (end, denied);
        }
        many += 1;
    }
    (End::Closed, denied)
}
