//! Requests for zeros: more of them than there is room for, from anywhere to anywhere.
use crate::common::{Place, attached, made, piece, request};
use crate::requests::{Client, MADE, answered_to, reply};
use crate::room::FullDisk;
use block_traits::{Disk, Event};
use byte_ranges::{ByteRange, Written, cover_of, has_range, zero_range};
use crash_disk::{CallKind, FailAt, MemDisk, MemSink, MemSource};
use eli_base::Auth;
use nbd_session::{EDGE, ROOM, serve};
use provider::Provider;
use std::alloc::Global;
use std::test::Fail;

// ---- pieces of 65,536 bytes

// Writes zeros to a range from this room.
fn zeroed_from<D: Disk>(
    provider: &mut Provider<D>,
    room: &mut [u8],
    edge: &mut [u8],
    range: &ByteRange,
    flush: bool,
) -> Result<Written, Fail> {
    if room.len() < 65_536 || edge.len() != 65_536 {
        return Err(Fail::from("no room"));
    }
    if provider.read_only() || range.count == 0 {
        return Err(Fail::from("no zeros"));
    }
    if !has_range(provider, range) {
        return Err(Fail::from("no such range"));
    }
    let size = provider.sector_size() as usize;
    let cover = cover_of(range.offset, range.count as usize, size);
    Ok(zero_range(provider, room, edge, range, &cover, flush))
}

// Writes zeros to a range by pieces of 65,536 bytes.
fn zeroed<D: Disk>(
    alloc: Global,
    provider: &mut Provider<D>,
    range: &ByteRange,
    flush: bool,
) -> Result<Written, Fail> {
    let mut room = vec![in alloc; 0x25; 65_536]?;
    let mut edge = vec![in alloc; 0x25; 65_536]?;
    zeroed_from(provider, &mut room, &mut edge, range, flush)
}

// All bytes of a provider with 262,144.
fn all_bytes<D: Disk>(alloc: Global, provider: &mut Provider<D>) -> Result<Vec<u8>, Fail> {
    let mut bytes = vec![in alloc; 0; 262_144]?;
    let size = provider.sector_size() as usize;
    if bytes.is_empty() || bytes.len() % size != 0 {
        return Err(Fail::from("no whole sectors"));
    }
    match provider.read(0, &mut bytes) {
        Ok(()) => Ok(bytes),
        Err(_) => Err(Fail::from("can't be read")),
    }
}

// Whether just the bytes of a range became zeros.
fn is_zeroed(before: &[u8], after: &[u8], range: &ByteRange) -> bool {
    before.len() == after.len()
        && before.iter().zip(after).enumerate().all(|(i, (old, new))| {
            let inside = (i as u64).wrapping_sub(range.offset) < u64::from(range.count);
            *new == if inside { 0 } else { *old }
        })
}

// Whether these are writes of so many sectors in ascending order, and then a flush where there is one.
fn are_writes(events: &[Event], first: u64, count: usize, flush: bool) -> bool {
    events.len() == count.saturating_add(usize::from(flush))
        && events.iter().enumerate().all(|(i, event)| match event {
            Event::Write { n, .. } => i < count && *n == first.wrapping_add(i as u64),
            Event::Flush => flush && i == count,
        })
}

// Ranges of 262,144 bytes: all; from one sector into another; across the ends of one, two and three pieces; whole
// sectors; within a sector.
const RANGES: [(u64, u32); 8] = [
    (0, 262_144),
    (1, 262_142),
    (511, 65_538),
    (70_000, 131_073),
    (4_095, 196_610),
    (65_536, 131_072),
    (5, 3),
    (262_143, 1),
];

// The device sectors of a range, in logical sectors of this size: the first, and how many there are.
fn device_sectors(range: &ByteRange, size: u64) -> (u64, usize) {
    if size == 0 {
        return (0, 0);
    }
    let end = range.offset.saturating_add(u64::from(range.count));
    let first = range.offset / size;
    let last = end.saturating_sub(1) / size;
    let units = size / 512;
    let count = last.saturating_sub(first).saturating_add(1);
    (
        first.saturating_mul(units),
        count.saturating_mul(units) as usize,
    )
}

// Whether just the bytes of a range become zeros, its sectors are written once each in ascending order, and a flush
// comes after all of them where one is asked for.
fn are_zeros_written(
    alloc: Global,
    size: u32,
    range: &ByteRange,
    flush: bool,
) -> Result<bool, Fail> {
    let mut disk = MemDisk::new(alloc, 513, 1024)?;
    let meta = made(alloc, &mut disk, Auth::Off, size)?;
    let mut provider = attached(alloc, disk, &meta, false)?;
    let before = all_bytes(alloc, &mut provider)?;
    let written = zeroed(alloc, &mut provider, range, flush)?;
    let after = all_bytes(alloc, &mut provider)?;
    let (first, count) = device_sectors(range, u64::from(size));
    let disk = provider.withdraw();
    let events = disk.history().get(MADE..).unwrap_or(&[]);
    Ok(
        written == Written::Whole
            && is_zeroed(&before, &after, range)
            && are_writes(events, first, count, flush),
    )
}

#[test]
fn zeros_by_small_pieces(rt: HostRuntime) -> Result<(), Fail> {
    let alloc = rt.alloc();
    for size in [512, 4096, 65_536] {
        for (offset, count) in RANGES {
            let range = ByteRange { offset, count };
            for flush in [false, true] {
                assert!(&rt;
                    are_zeros_written(alloc, size, &range, flush)?,
                    "{size} {offset} {count} {flush}"
                );
            }
        }
    }
    Ok(())
}

// What became of zeros from the second byte to the last but one, in four pieces of 128 sectors and with a flush, where a
// call of the disk fails, and how many events there were.
fn failing(alloc: Global, kind: CallKind, nth: u64) -> Result<(Written, usize), Fail> {
    let mut disk = MemDisk::new(alloc, 513, 1024)?;
    let meta = made(alloc, &mut disk, Auth::Off, 512)?;
    disk.fail_calls(&[FailAt {
        kind,
        nth,
        lands: false,
    }])?;
    let mut provider = attached(alloc, disk, &meta, false)?;
    let range = ByteRange {
        offset: 1,
        count: 262_142,
    };
    let written = zeroed(alloc, &mut provider, &range, true)?;
    let disk = provider.withdraw();
    Ok((written, disk.history().len().saturating_sub(MADE)))
}

// Making the provider takes a write and two flushes. If a piece fails, those before it were written, and none after it;
// if an edge can't be read, nothing was.
#[test]
fn a_disk_fails_amid_small_pieces(rt: HostRuntime) -> Result<(), Fail> {
    let alloc = rt.alloc();
    for (kind, nth, written, events) in [
        (CallKind::Read, 1, Written::EdgeUnread, 0),
        (CallKind::Read, 2, Written::EdgeUnread, 0),
        (CallKind::Write, 2, Written::WriteFailed, 0),
        (CallKind::Write, 129, Written::WriteFailed, 127),
        (CallKind::Write, 130, Written::WriteFailed, 128),
        (CallKind::Write, 200, Written::WriteFailed, 198),
        (CallKind::Write, 513, Written::WriteFailed, 511),
        (CallKind::Flush, 3, Written::FlushFailed, 512),
        (CallKind::Write, 514, Written::Whole, 513),
    ] {
        let found = failing(alloc, kind, nth)?;
        assert_eq!(&rt; found, (written, events), "{kind:?} {nth}");
    }
    Ok(())
}

// ---- more than 32 MiB

// The bytes of 8,704 sectors of 4,096. A piece has at most 8,223 of them.
const LONG: u32 = 35_651_584;

const SECOND_PIECE: u64 = 33_681_408;

// A client that writes the first and the last sector, asks for zeros from the second byte to the last but one with
// NBD_CMD_FLAG_FUA, and reads what stands at both ends and where the second piece begins.
fn asking_for_zeros(alloc: Global) -> Result<Client, Fail> {
    let end = u64::from(LONG);
    let mut client = Client::new(alloc)?;
    client.writes(0, 0, 4096, 0x33)?;
    client.writes(0, end.saturating_sub(4096), 4096, 0x33)?;
    client.asks((6, 1), 1, 1, LONG - 2)?;
    client.asks((0, 0), 1, 0, 2)?;
    client.asks((0, 0), 1, end.saturating_sub(2), 2)?;
    client.asks((0, 0), 1, SECOND_PIECE - 2, 4)?;
    client.asks((2, 0), 2, 0, 0)?;
    Ok(client)
}

// The replies to it.
fn zeros_were_given(alloc: Global) -> Result<Vec<u8>, Fail> {
    let mut expected = Vec::new(alloc);
    for bytes in [
        &[] as &[u8],
        &[],
        &[],
        &[0x33, 0],
        &[0, 0x33],
        &[0, 0, 0, 0],
    ] {
        expected.extend_from_slice(&reply(0, 1))?;
        expected.extend_from_slice(bytes)?;
    }
    Ok(expected)
}

// One reply comes after both pieces, with one flush before it. A code for integrity has nine units to a sector.
#[test]
fn more_zeros_than_there_is_room_for(rt: HostRuntime) -> Result<(), Fail> {
    let alloc = rt.alloc();
    let mut place = Place::new(alloc)?;
    let client = asking_for_zeros(alloc)?;
    let expected = zeros_were_given(alloc)?;
    for (auth, units) in [(Auth::Off, 8), (Auth::Sha256, 9)] {
        let mut disk = MemDisk::new(alloc, 8704 * units + 1, 80_000)?;
        let meta = made(alloc, &mut disk, auth, 4096)?;
        let provider = attached(alloc, disk, &meta, false)?;
        let answer = answered_to(alloc, &mut place, &client, provider)?;
        assert_eq!(&rt; answer.bytes.as_slice(), expected.as_slice(), "{units}");
        assert_eq!(&rt; answer.events as u64, MADE as u64 + 8706 * units + 2);
    }
    Ok(())
}

// The number of the error that a client is answered with who asks for zeros of all sectors, with NBD_CMD_FLAG_FUA, where
// the disk fails in the second piece, and the disk.
fn failing_in_the_second_piece(alloc: Global, wants: bool) -> Result<(u32, MemDisk), Fail> {
    let mut disk = MemDisk::new(alloc, 69_633, 80_000)?;
    let meta = made(alloc, &mut disk, Auth::Off, 4096)?;
    disk.fail_calls(&[FailAt {
        kind: CallKind::Write,
        nth: 65_795,
        lands: false,
    }])?;
    let provider = attached(alloc, FullDisk { disk, wants }, &meta, false)?;
    let mut client = Client::new(alloc)?;
    client.said.extend_from_slice(&request((6, 1), 7, 0, LONG))?;
    let mut input = MemSource::new(alloc, client.said.as_slice(), &[], &[])?;
    let mut output = MemSink::new(alloc, &[], &[], 256)?;
    let mut room = vec![in alloc; 0; ROOM]?;
    let mut edge = vec![in alloc; 0; EDGE]?;
    if room.len() != ROOM || edge.len() != EDGE {
        return Err(Fail::from("no room"));
    }
    let (_, full, _, _) = serve(provider, &mut room, &mut edge, &mut input, &mut output);
    // After the negotiation and the magic number of a reply.
    let error = u32::from_be_bytes(piece(output.bytes(), 108));
    Ok((error, full.disk))
}

// The first piece has 65,784 device sectors, and nine of the second were written. No sector was written after that, and
// the one flush is that of the end. NBD_EIO is 5, and NBD_ENOSPC 28.
#[test]
fn the_second_piece_fails(rt: HostRuntime) -> Result<(), Fail> {
    let alloc = rt.alloc();
    for (wants, expected) in [(false, 5), (true, 28)] {
        let (error, disk) = failing_in_the_second_piece(alloc, wants)?;
        assert_eq!(&rt; error, expected);
        let events = disk.history().get(MADE..).unwrap_or(&[]);
        assert!(&rt; are_writes(events, 0, 65_793, true));
    }
    Ok(())
}
