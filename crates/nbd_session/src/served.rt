//! Requests of a client, on an attached provider.
ghost use Rattle.std.specs.Prelude.{◌≡◌, ◌+◌, ◌++◌, ◌≤◌, IfSome, None, drop, false, length, take, true};
ghost use Rattle.provider.specs.Attached.{IsKept};
ghost use Rattle.byte_ranges.specs.Ranges.{skipped};
ghost use Rattle.nbd_words.specs.Transmission.{reply_head, request_kind};
ghost use Rattle.nbd_negotiation.specs.Streams.{GivesBytes};
ghost use Rattle.nbd_session.specs.Requests.{AnswersFlush, AnswersWrite, HasKnownFlags, HasUnknownFlags, IsIllFormedRequest, IsRefusedRead, IsRefusedWrite, IsWellFormedRequest, MayRead, MayWrite, write_error, range_of, side_of, zeros_of};
ghost use Rattle.nbd_session.specs.Served.{FlushIsAnswered, KindIsServed, ReadIsAnswered, ServesRequest, WriteIsServed, ZerosAreAnswered};

use crate::denials::{Denial, DeniedKind, denial_where};
use block_traits::{Disk, Sink, Source};
use byte_ranges::{ByteRange, Written, cover_of, has_range, read_range, write_range, zero_range};
use nbd_negotiation::{End, fill, give_all};
use nbd_words::{
    REPLY_HEAD, ReplyError, Request, RequestKind, flags_limit, has_fua, reply_head, request_in,
    request_kind,
};
use provider::Provider;

/// The most bytes of a read, and of a write. A request for zeros may have any number.
pub const MOST: u32 = 33_554_432;

/// Takes a request and replies to it. It returns whether the session goes on, and what was denied, if this was a write, a
/// request for zeros or a flush that was answered with an error.
pub fn serve_request<D: Disk, S: Source, K: Sink>(
    provider: &mut Provider<D>,
    room: &mut [u8],
    edge: &mut [u8],
    input: &mut S,
    output: &mut K,
) -> (Result<(), End>, Option<Denial>)
    requires room { length room.old ≡ 33685520 }
    requires edge { length edge.old ≡ 65536 }
    ensures serves { ServesRequest (side_of provider.old) (D.wants_room provider.new.disk) (D.state provider.old.disk) (D.state provider.new.disk)
        (S.state input.old) (S.state input.new) (K.state output.old) result.0 (K.state output.new) result.1 }
    ensures kept { IsKept provider.old provider.new }
{
    let mut head = [0; 28];
    if let Err(end) = fill(input, &mut head) {
        return (Err(end), None);
    }
    let Some(request) = request_in(&head) else {
        return (Err(End::Malformed), None);
    };
    serve_by_kind(provider, room, edge, &request, input, output)
}

// Serves a request by its kind.
fn serve_by_kind<D: Disk, S: Source, K: Sink>(
    provider: &mut Provider<D>,
    room: &mut [u8],
    edge: &mut [u8],
    request: &Request,
    input: &mut S,
    output: &mut K,
) -> (Result<(), End>, Option<Denial>)
    requires room { length room.old ≡ 33685520 }
    requires edge { length edge.old ≡ 65536 }
    ensures serves { KindIsServed (request_kind request.now.code) (side_of provider.old) (D.wants_room provider.new.disk) request.now (D.state provider.old.disk) (D.state provider.new.disk)
        (S.state input.old) (S.state input.new) (K.state output.old) result.0 (K.state output.new) result.1 }
    ensures kept { IsKept provider.old provider.new }
{
    match request_kind(request.code) {
        RequestKind::Read => (serve_read(provider, room, request, output), None),
        RequestKind::Write => {
            if request.length > MOST {
                return (Err(End::Malformed), None);
            }
            serve_write(provider, room, edge, request, input, output)
        }
        RequestKind::WriteZeroes => serve_zeros(provider, room, edge, request, output),
        RequestKind::Disconnect => (Err(End::Closed), None),
        RequestKind::Flush => serve_flush(provider, request, output),
        RequestKind::Unknown => (answer(ReplyError::Invalid, request, output), None),
    }
}

fn serve_flush<D: Disk, K: Sink>(
    provider: &mut Provider<D>,
    request: &Request,
    output: &mut K,
) -> (Result<(), End>, Option<Denial>)
    ensures answers { FlushIsAnswered request.now (D.state provider.old.disk) (D.state provider.new.disk) (K.state output.old) result.0 (K.state output.new) result.1 }
    ensures kept { IsKept provider.old provider.new }
{
    let error = flush(provider, request);
    let denied = denial_where(error, DeniedKind::Flush, request.offset);
    (answer(error, request, output), denied)
}

// A reply without bytes.
fn answer<K: Sink>(error: ReplyError, request: &Request, output: &mut K) -> Result<(), End>
    ensures gives { GivesBytes (reply_head error request.now.cookie) (K.state output.old) result (K.state output.new) }
{
    give_all(&reply_head(error, request.cookie), output)
}

// Flushes the disk.
fn flush<D: Disk>(provider: &mut Provider<D>, request: &Request) -> ReplyError
    ensures answers { AnswersFlush request.now result (D.state provider.old.disk) (D.state provider.new.disk) }
    ensures kept { IsKept provider.old provider.new }
{
    if !has_known_flags(request) {
        return ReplyError::Invalid;
    }
    match provider.flush() {
        Ok(()) => ReplyError::Done,
        Err(_) => ReplyError::Failed,
    }
}

// The bytes that a request is about.
fn range_of(request: &Request) -> ByteRange
    ensures { result ≡ range_of request.now }
{
    ByteRange {
        offset: request.offset,
        count: request.length,
    }
}

// Whether a request has no other flags than its kind may have.
fn has_known_flags(request: &Request) -> bool
    ensures known { result ≡ true → HasKnownFlags request.now }
    ensures unknown { result ≡ false → HasUnknownFlags request.now }
{
    request.flags <= flags_limit(request_kind(request.code))
}

// Whether the flags and the length of a request are such as are served.
fn is_well_formed(request: &Request) -> bool
    ensures well { result ≡ true → IsWellFormedRequest request.now }
    ensures ill { result ≡ false → IsIllFormedRequest request.now }
{
    if !has_known_flags(request) {
        return false;
    }
    request.length > 0
}

// Whether a read is one that is served.
fn may_read<D: Disk>(provider: &Provider<D>, request: &Request) -> bool
    ensures may { result ≡ true → MayRead provider.now.keying (D.state provider.now.disk) request.now }
    ensures refuses { result ≡ false → IsRefusedRead provider.now.keying (D.state provider.now.disk) request.now }
{
    if !is_well_formed(request) {
        return false;
    }
    if request.length > MOST {
        return false;
    }
    has_range(provider, &range_of(request))
}

// Gives the head of a reply and the bytes after it, which stand in the room from `start + 16` on.
fn give_bytes<K: Sink>(
    room: &mut [u8],
    start: usize,
    many: usize,
    request: &Request,
    output: &mut K,
) -> Result<(), End>
    requires room { length room.old ≡ 33685520 }
    requires within { start + 16 + many ≤ 33685520 }
    ensures gives { GivesBytes (reply_head ReplyError.Done request.now.cookie ++ take many (drop (start + 16) room.old)) (K.state output.old) result (K.state output.new) }
{
    // The head stands just before the bytes that were asked for.
    room[start..start + REPLY_HEAD].copy_from_slice(&reply_head(ReplyError::Done, request.cookie));
    give_all(&room[start..start + REPLY_HEAD + many], output)
}

// Serves a read that may be served.
fn serve_good_read<D: Disk, K: Sink>(
    provider: &mut Provider<D>,
    room: &mut [u8],
    request: &Request,
    output: &mut K,
) -> Result<(), End>
    requires room { length room.old ≡ 33685520 }
    requires may { MayRead provider.old.keying (D.state provider.old.disk) request.now }
    ensures answers { ReadIsAnswered (side_of provider.old) request.now (D.state provider.old.disk) (D.state provider.new.disk) (K.state output.old) result (K.state output.new) }
    ensures kept { IsKept provider.old provider.new }
{
    let length = request.length as usize;
    let size = provider.sector_size() as usize;
    let cover = cover_of(request.offset, length, size);
    let into = &mut room[REPLY_HEAD..REPLY_HEAD + cover.whole];
    if !read_range(provider, &range_of(request), &cover, into) {
        return answer(ReplyError::Failed, request, output);
    }
    give_bytes(room, cover.skip, length, request, output)
}

fn serve_read<D: Disk, K: Sink>(
    provider: &mut Provider<D>,
    room: &mut [u8],
    request: &Request,
    output: &mut K,
) -> Result<(), End>
    requires room { length room.old ≡ 33685520 }
    ensures answers { ReadIsAnswered (side_of provider.old) request.now (D.state provider.old.disk) (D.state provider.new.disk) (K.state output.old) result (K.state output.new) }
    ensures kept { IsKept provider.old provider.new }
{
    if !may_read(provider, request) {
        return answer(ReplyError::Invalid, request, output);
    }
    serve_good_read(provider, room, request, output)
}

// Takes the bytes of a write, and serves it.
fn serve_write<D: Disk, S: Source, K: Sink>(
    provider: &mut Provider<D>,
    room: &mut [u8],
    edge: &mut [u8],
    request: &Request,
    input: &mut S,
    output: &mut K,
) -> (Result<(), End>, Option<Denial>)
    requires room { length room.old ≡ 33685520 }
    requires edge { length edge.old ≡ 65536 }
    requires few { request.now.length ≤ 33554432 }
    ensures serves { WriteIsServed (side_of provider.old) (D.wants_room provider.new.disk) request.now (D.state provider.old.disk) (D.state provider.new.disk)
        (S.state input.old) (S.state input.new) (K.state output.old) result.0 (K.state output.new) result.1 }
    ensures kept { IsKept provider.old provider.new }
{
    let length = request.length as usize;
    let size = provider.sector_size() as usize;
    let start = (request.offset % size as u64) as usize;
    if let Err(end) = fill(input, &mut room[start..start + length]) {
        return (Err(end), None);
    }
    let error = write(provider, room, edge, request);
    let denied = denial_where(error, DeniedKind::Write, request.offset);
    (answer(error, request, output), denied)
}

// Why a write isn't served, if it isn't.
fn write_refusal<D: Disk>(provider: &Provider<D>, request: &Request) -> Option<ReplyError>
    ensures refuses { IfSome result (λ error. IsRefusedWrite (side_of provider.now) (D.state provider.now.disk) request.now error) }
    ensures may { result ≡ None → MayWrite (side_of provider.now) (D.state provider.now.disk) request.now }
{
    if provider.read_only() {
        return Some(ReplyError::ReadOnly);
    }
    if !is_well_formed(request) {
        return Some(ReplyError::Invalid);
    }
    if !has_range(provider, &range_of(request)) {
        return Some(ReplyError::PassesEnd);
    }
    None
}

// Writes the bytes of a request, which stand in the room where they belong in the sectors.
fn write<D: Disk>(
    provider: &mut Provider<D>,
    room: &mut [u8],
    edge: &mut [u8],
    request: &Request,
) -> ReplyError
    requires room { length room.old ≡ 33685520 }
    requires edge { length edge.old ≡ 65536 }
    requires few { request.now.length ≤ 33554432 }
    ensures writes { AnswersWrite (side_of provider.old) (D.wants_room provider.new.disk) request.now (take request.now.length (drop (skipped provider.old.keying (range_of request.now)) room.old)) result
        (D.state provider.old.disk) (D.state provider.new.disk) }
    ensures kept { IsKept provider.old provider.new }
{
    if let Some(error) = write_refusal(provider, request) {
        return error;
    }
    write_room(provider, room, edge, request)
}

// Writes a request that is served, from the room.
fn write_room<D: Disk>(
    provider: &mut Provider<D>,
    room: &mut [u8],
    edge: &mut [u8],
    request: &Request,
) -> ReplyError
    requires room { length room.old ≡ 33685520 }
    requires edge { length edge.old ≡ 65536 }
    requires few { request.now.length ≤ 33554432 }
    requires may { MayWrite (side_of provider.old) (D.state provider.old.disk) request.now }
    ensures writes { AnswersWrite (side_of provider.old) (D.wants_room provider.new.disk) request.now (take request.now.length (drop (skipped provider.old.keying (range_of request.now)) room.old)) result
        (D.state provider.old.disk) (D.state provider.new.disk) }
    ensures kept { IsKept provider.old provider.new }
{
    let size = provider.sector_size() as usize;
    let cover = cover_of(request.offset, request.length as usize, size);
    let sectors = &mut room[..cover.whole];
    let flush = has_fua(request.flags);
    let written = write_range(provider, sectors, edge, &range_of(request), &cover, flush);
    let wanting = provider.wants_room();
    write_error(written, wanting)
}

// The reply to a write, by what became of it and whether room was wanting at the disk's last failed write.
fn write_error(written: Written, wanting: bool) -> ReplyError
    ensures { result ≡ write_error written wanting }
{
    match written {
        Written::Whole => ReplyError::Done,
        Written::WriteFailed => {
            if wanting {
                ReplyError::NoRoom
            } else {
                ReplyError::Failed
            }
        }
        Written::EdgeUnread | Written::FlushFailed => ReplyError::Failed,
    }
}

// Serves a request for zeros, after which no bytes come.
fn serve_zeros<D: Disk, K: Sink>(
    provider: &mut Provider<D>,
    room: &mut [u8],
    edge: &mut [u8],
    request: &Request,
    output: &mut K,
) -> (Result<(), End>, Option<Denial>)
    requires room { length room.old ≡ 33685520 }
    requires edge { length edge.old ≡ 65536 }
    ensures answers { ZerosAreAnswered (side_of provider.old) (D.wants_room provider.new.disk) request.now (D.state provider.old.disk) (D.state provider.new.disk) (K.state output.old) result.0 (K.state output.new) result.1 }
    ensures kept { IsKept provider.old provider.new }
{
    let error = write_zeros(provider, room, edge, request);
    let denied = denial_where(error, DeniedKind::Zeros, request.offset);
    (answer(error, request, output), denied)
}

// Writes zeros.
fn write_zeros<D: Disk>(
    provider: &mut Provider<D>,
    room: &mut [u8],
    edge: &mut [u8],
    request: &Request,
) -> ReplyError
    requires room { length room.old ≡ 33685520 }
    requires edge { length edge.old ≡ 65536 }
    ensures writes { AnswersWrite (side_of provider.old) (D.wants_room provider.new.disk) request.now (zeros_of request.now) result (D.state provider.old.disk) (D.state provider.new.disk) }
    ensures kept { IsKept provider.old provider.new }
{
    if let Some(error) = write_refusal(provider, request) {
        return error;
    }
    write_good_zeros(provider, room, edge, request)
}

// Writes zeros that are served, in as many pieces as the room makes of them.
fn write_good_zeros<D: Disk>(
    provider: &mut Provider<D>,
    room: &mut [u8],
    edge: &mut [u8],
    request: &Request,
) -> ReplyError
    requires room { length room.old ≡ 33685520 }
    requires edge { length edge.old ≡ 65536 }
    requires may { MayWrite (side_of provider.old) (D.state provider.old.disk) request.now }
    ensures writes { AnswersWrite (side_of provider.old) (D.wants_room provider.new.disk) request.now (zeros_of request.now) result (D.state provider.old.disk) (D.state provider.new.disk) }
    ensures kept { IsKept provider.old provider.new }
{
    let size = provider.sector_size() as usize;
    let cover = cover_of(request.offset, request.length as usize, size);
    let flush = has_fua(request.flags);
    let written = zero_range(provider, room, edge, &range_of(request), &cover, flush);
    let wanting = provider.wants_room();
    write_error(written, wanting)
}
