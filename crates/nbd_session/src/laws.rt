//! What holds of sessions, whatever the disk.
ghost use Rattle.std.specs.Prelude.{◌≡◌, List, Ok, Some};
ghost use Rattle.block_traits.specs.Content.{Content};
ghost use Rattle.block_traits.specs.Disk.{DiskState};
ghost use Rattle.block_traits.specs.Streams.{SinkState, SourceState};
ghost use Rattle.block_traits.specs.declared.disk.DiskFailed.{DiskFailed};
ghost use Rattle.eli_base.specs.Keying.{Keying};
ghost use Rattle.range_keys.specs.Ring.{IsKeying};
ghost use Rattle.nbd_negotiation.specs.declared.streams.End.{End};
ghost use Rattle.nbd_session.specs.Durable.{Survives};
ghost use Rattle.nbd_session.specs.Lasting.{AttachesLasting, AttachesLastingOrLater, HoldsOrLater, KeepsIn, LastsIn, PartsLastOrLater, ReadsLasting, ReadsLastingOrLater, SurvivesClosed, UnitsLastOrLater};
ghost use Rattle.nbd_session.specs.Requests.{Exchange, ServesExchanges, Side};
ghost use Rattle.nbd_session.specs.Session.{HasSession};
ghost use Rattle.nbd_session.specs.declared.denials.Denials.{Denials};

use block_traits::Disk;

/// What requests did to a disk is a list of steps, which endure crashes.
pub fn sessions_endure_crashes()
    ensures { (side : Side) (xs : List Exchange) (old new : DiskState) (c : Content) → IsKeying side.keying → old.content ≡ Some c →
        ServesExchanges side xs old new → Survives side.keying xs c new }
{}

/// A write that was acknowledged lasts if a flush followed it that was acknowledged too. If power fails when the flush
/// was acknowledged, or at any moment later, the write's range reads as its bytes in every torn image that is left, for
/// as long as its sectors weren't written again. Clause `read` says this of a read that a client makes on a disk with
/// the image, and clause `attach` of whoever attaches a disk with it.
pub fn acknowledged_writes_last<D: Disk>()
    ensures last { (k : Keying) (xs : List Exchange) (c : Content) (new : DiskState) → IsKeying k → (s : Survives k xs c new) → LastsIn k xs c s.deeds }
    ensures read { (k : Keying) (xs : List Exchange) (c : Content) (new : DiskState) → IsKeying k → (s : Survives k xs c new) → ReadsLasting k xs c s.deeds }
    ensures attach { (k : Keying) (xs : List Exchange) (c : Content) (new : DiskState) → IsKeying k → (s : Survives k xs c new) → AttachesLasting D.state k xs c s.deeds }
{}

/// A flushed write whose sectors may have been written again, flushed or not, lasts or is followed by a later one. If
/// power fails when the flush was acknowledged, or at any moment later, the range has the write's bytes in every torn
/// image, or those of a later write. Clause `cells` says this of what each device sector of the range may hold, clause
/// `units` of what stands in the image, unit by unit, and clause `parts` of the bytes that a part of the range reads
/// as. Clause `read` says it of a read that a client makes, and clause `attach` of whoever attaches a disk with the
/// image.
pub fn acknowledged_writes_last_or_later<D: Disk>()
    ensures cells { (k : Keying) (xs : List Exchange) (c : Content) (new : DiskState) → IsKeying k → (s : Survives k xs c new) → HoldsOrLater k xs c s.deeds }
    ensures units { (k : Keying) (xs : List Exchange) (c : Content) (new : DiskState) → IsKeying k → (s : Survives k xs c new) → UnitsLastOrLater k xs c s.deeds }
    ensures parts { (k : Keying) (xs : List Exchange) (c : Content) (new : DiskState) → IsKeying k → (s : Survives k xs c new) → PartsLastOrLater k xs c s.deeds }
    ensures read { (k : Keying) (xs : List Exchange) (c : Content) (new : DiskState) → IsKeying k → (s : Survives k xs c new) → ReadsLastingOrLater k xs c s.deeds }
    ensures attach { (k : Keying) (xs : List Exchange) (c : Content) (new : DiskState) → IsKeying k → (s : Survives k xs c new) → AttachesLastingOrLater D.state k xs c s.deeds }
{}

/// What a flush found stands. If power fails when the flush was acknowledged, or at any moment later, each range whose
/// sectors weren't written since reads in every torn image that is left as it read at the flush. The content at the
/// flush is what its exchange left (`DidIts`, which `Survives` has of each exchange); the reads before and after it
/// were served from that.
pub fn flushed_ranges_keep()
    ensures { (k : Keying) (xs : List Exchange) (c : Content) (new : DiskState) → IsKeying k → (s : Survives k xs c new) → KeepsIn k xs c s.deeds }
{}

/// After a session whose last flush was made, each write that was acknowledged lasts, whether or not the client flushed
/// it.
pub fn closed_sessions_last()
    ensures { (side : Side) (end : End) (denied : Denials) (source rest : SourceState) (sink given : SinkState) (old new : DiskState) (c : Content) → IsKeying side.keying → old.content ≡ Some c →
        (h : HasSession {E = DiskFailed} side end denied source rest sink given (Ok tt) old new) → SurvivesClosed side.keying h.talks.talk.exchanges c h.last new }
{}
