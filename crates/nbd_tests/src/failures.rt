//! A disk, a source and a sink that fail at each of their calls in turn.
use crate::common::{
    Outcome, Place, attached, by_name_without_zeroes, bytes_of, going, made, piece, replies,
    requests,
};
use block_traits::Event;
use crash_disk::{CallKind, FailAt, MemDisk, MemSink, MemSource};
use eli_base::Auth;
use nbd_negotiation::End;
use std::alloc::Global;
use std::test::Fail;

// What the requests of `GOING` ask of a disk, with sectors of 512 bytes: how many sectors are read, how many are
// written, and how many flushes there are. A write first reads each sector that it covers in part.
const CALLS: [(u64, u64, u64); 25] = [
    (1, 1, 1),
    (1, 0, 0),
    (1, 0, 0),
    (0, 0, 1),
    (2, 3, 0),
    (3, 0, 0),
    (2, 2, 0),
    (3, 0, 0),
    (1, 1, 1),
    (1, 0, 0),
    (2, 2, 0),
    (2, 0, 0),
    (0, 0, 0),
    (0, 0, 0),
    (0, 0, 0),
    (0, 0, 0),
    (0, 0, 0),
    (0, 0, 0),
    (0, 0, 0),
    (0, 0, 0),
    (0, 0, 0),
    (0, 0, 0),
    (0, 0, 1),
    (1, 1, 1),
    (1, 0, 0),
];

// The calls of each kind that making a provider takes: nothing is read, and the metadata is written, with a flush
// before and after.
const MADE: (u64, u64, u64) = (0, 1, 2);

fn of_kind(calls: (u64, u64, u64), kind: CallKind) -> u64 {
    match kind {
        CallKind::Read => calls.0,
        CallKind::Write => calls.1,
        CallKind::Flush => calls.2,
    }
}

// A session in which one call of the disk fails.
#[derive(Clone, Copy)]
struct Failing {
    kind: CallKind,
    // Which call, counted from 1 since the session began.
    nth: u64,
    // Whether its event landed all the same.
    lands: bool,
}

impl Failing {
    // How many events are lost of a request whose call `nth`, counted from 1, fails.
    fn lost(&self, calls: (u64, u64, u64), nth: u64) -> u64 {
        let (_, writes, flushes) = calls;
        let landed = match self.kind {
            CallKind::Read => 0,
            CallKind::Write => nth.saturating_sub(1),
            CallKind::Flush => writes,
        };
        let all = writes.saturating_add(flushes);
        all.saturating_sub(landed)
            .saturating_sub(u64::from(self.lands && self.kind != CallKind::Read))
    }

    fn outcome(
        &self,
        alloc: Global,
        place: &mut Place,
        output: &mut MemSink,
    ) -> Result<Outcome, Fail> {
        let mut disk = MemDisk::new(alloc, 513, 256)?;
        let meta = made(alloc, &mut disk, Auth::Off, 512)?;
        disk.fail_calls(&[FailAt {
            kind: self.kind,
            nth: of_kind(MADE, self.kind).saturating_add(self.nth),
            lands: self.lands,
        }])?;
        let [said, _] = going();
        let said = bytes_of(alloc, said)?;
        let mut input = MemSource::new(alloc, said.as_slice(), &[], &[])?;
        let provider = attached(alloc, disk, &meta, false)?;
        place.serves(provider, &mut input, output)
    }

    // Whether just the request that meets the failure is answered with NBD_EIO, every other one as by nbdkit, and just
    // the events that the failure keeps away are missing.
    fn is_answered(&self, alloc: Global, place: &mut Place) -> Result<bool, Fail> {
        let mut output = MemSink::new(alloc, &[], &[], 8192)?;
        let outcome = self.outcome(alloc, place, &mut output)?;
        // After the negotiation.
        let mut at: usize = 104;
        let mut before: u64 = 0;
        let mut events: u64 = 4;
        for ((request, reply), calls) in requests().iter().zip(replies().iter()).zip(CALLS.iter()) {
            let (_, code, _, _, _, length) = *request;
            let (_, error, cookie) = *reply;
            let behind = before.saturating_add(of_kind(*calls, self.kind));
            let fails = before < self.nth && self.nth <= behind;
            let error = if fails { 5 } else { error };
            if answer_at(output.bytes(), at) != (error, cookie) {
                return Ok(false);
            }
            let read = if code == 0 && error == 0 { length } else { 0 };
            at = at.saturating_add(16).saturating_add(read as usize);
            events = events.saturating_add(calls.1).saturating_add(calls.2);
            if fails {
                events = events.saturating_sub(self.lost(*calls, self.nth.saturating_sub(before)));
            }
            before = behind;
        }
        let last = self.kind == CallKind::Flush && self.nth == before.saturating_add(1);
        if last && !self.lands {
            events = events.saturating_sub(1);
        }
        Ok(
            output.bytes().len() == at
                && outcome.end == End::Closed
                && outcome.flushed.is_err() == last
                && outcome.disk.history().len() as u64 == events,
        )
    }
}

// The error and the cookie of the reply at a place.
fn answer_at(bytes: &[u8], place: usize) -> (u32, u64) {
    let head: [u8; 16] = piece(bytes, place);
    (
        u32::from_be_bytes(piece(&head, 4)),
        u64::from_be_bytes(piece(&head, 8)),
    )
}

// In the session 21 sectors are read, 10 are written, and there are six flushes with the one at the end.
#[test]
fn a_disk_fails_at_each_call(rt: HostRuntime) -> Result<(), Fail> {
    let alloc = rt.alloc();
    let mut place = Place::new(alloc)?;
    for (kind, calls) in [
        (CallKind::Read, 21),
        (CallKind::Write, 10),
        (CallKind::Flush, 6),
    ] {
        for nth in 1..=calls {
            for lands in [false, true] {
                let failing = Failing { kind, nth, lands };
                assert!(&rt;
                    failing.is_answered(alloc, &mut place)?,
                    "{kind:?} {nth} {lands}"
                );
            }
        }
    }
    Ok(())
}

// What a client of one write and one read is answered if the source or the sink fails at a call: why the session ended,
// how many bytes were answered, and how many events there are.
fn with_streams(
    alloc: Global,
    place: &mut Place,
    source: &[u64],
    sink: &[u64],
) -> Result<(End, usize, usize), Fail> {
    let [said, _] = by_name_without_zeroes();
    let said = bytes_of(alloc, said)?;
    let mut disk = MemDisk::new(alloc, 513, 256)?;
    let meta = made(alloc, &mut disk, Auth::Off, 512)?;
    let mut input = MemSource::new(alloc, said.as_slice(), &[], source)?;
    let mut output = MemSink::new(alloc, &[], sink, 8192)?;
    let provider = attached(alloc, disk, &meta, false)?;
    let outcome = place.serves(provider, &mut input, &mut output)?;
    let history = outcome.disk.history();
    if !matches!(history.last(), Some(Event::Flush)) {
        return Err(Fail::from("no flush at the end"));
    }
    Ok((outcome.end, output.bytes().len(), history.len()))
}

// The source is asked for the flags, the head of the option, the head of the write, its bytes, the head of the read and
// the head of the request that ends. The replies are a greeting of 18 bytes, an export of 10, and replies of 16 and 32.
#[test]
fn a_source_fails_at_each_call(rt: HostRuntime) -> Result<(), Fail> {
    let alloc = rt.alloc();
    let mut place = Place::new(alloc)?;
    for (call, answered, events) in [
        (1, 18, 4),
        (2, 18, 4),
        (3, 28, 4),
        (4, 28, 4),
        (5, 44, 5),
        (6, 76, 5),
    ] {
        let outcome = with_streams(alloc, &mut place, &[call], &[])?;
        assert_eq!(&rt; outcome, (End::ReadFault, answered, events), "{call}");
    }
    Ok(())
}

// The sink is given the greeting, the export, and each reply.
#[test]
fn a_sink_fails_at_each_call(rt: HostRuntime) -> Result<(), Fail> {
    let alloc = rt.alloc();
    let mut place = Place::new(alloc)?;
    for (call, answered, events) in [(1, 0, 4), (2, 18, 4), (3, 28, 5), (4, 44, 5)] {
        let outcome = with_streams(alloc, &mut place, &[], &[call])?;
        assert_eq!(&rt; outcome, (End::WriteFault, answered, events), "{call}");
    }
    Ok(())
}
