//! Whole sessions, against those of libnbd with nbdkit, and cut or failing anywhere.
use crate::common::{
    Outcome, Place, Talk, asking, by_name, by_name_without_zeroes, going, leaving, only_reading,
    piece, provider_of, replies, requests, talk_of,
};
use block_traits::Event;
use crash_disk::{MemDisk, MemSink, MemSource};
use nbd_negotiation::End;
use provider::Provider;
use std::alloc::Global;
use std::test::Fail;

// Whether a session ended well: the client left, and the disk's last event is a flush.
fn ended_well(outcome: &Outcome) -> bool {
    outcome.end == End::Closed
        && outcome.flushed.is_ok()
        && matches!(outcome.disk.history().last(), Some(Event::Flush))
}

// Whether a client that sends this gets this answer.
fn is_answered(
    alloc: Global,
    place: &mut Place,
    provider: Provider<MemDisk>,
    said: &[u8],
    answered: &[u8],
) -> Result<bool, Fail> {
    let mut input = MemSource::new(alloc, said, &[], &[])?;
    let mut output = MemSink::new(alloc, &[], &[], 8192)?;
    let outcome = place.serves(provider, &mut input, &mut output)?;
    Ok(ended_well(&outcome) && output.bytes() == answered)
}

#[test]
fn sessions_are_answered_as_by_nbdkit(rt: HostRuntime) -> Result<(), Fail> {
    let alloc = rt.alloc();
    let mut place = Place::new(alloc)?;
    for sectorsize in [512, 4096] {
        for (session, readonly) in [
            (going(), false),
            (by_name(), false),
            (by_name_without_zeroes(), false),
            (asking(), false),
            (leaving(), false),
            (only_reading(), true),
        ] {
            let talk = talk_of(alloc, session)?;
            let provider = provider_of(alloc, sectorsize, readonly)?;
            let good = is_answered(alloc, &mut place, provider, &talk.said, &talk.answered)?;
            assert!(&rt; good, "{sectorsize}");
        }
    }
    Ok(())
}

// The place where nbdkit states the preferred size of requests: the greeting, NBD_INFO_EXPORT, and the head and eight
// bytes of NBD_INFO_BLOCK_SIZE stand before it.
const PREFERRED: usize = 76;

// With the largest sectors another preferred size is stated, and nothing else differs.
#[test]
fn the_largest_sectors(rt: HostRuntime) -> Result<(), Fail> {
    let alloc = rt.alloc();
    let mut place = Place::new(alloc)?;
    let Talk { said, mut answered } = talk_of(alloc, going())?;
    assert_eq!(&rt; piece(answered.as_slice(), PREFERRED), [0, 0, 0x10, 0]);
    for (byte, other) in answered.iter_mut().skip(PREFERRED).zip([0, 1, 0, 0]) {
        *byte = other;
    }
    let provider = provider_of(alloc, 65_536, false)?;
    assert!(rt; is_answered(alloc, &mut place, provider, &said, &answered)?);
    Ok(())
}

// How many bytes are sent in reply to the first `taken` bytes of the client of `GOING`. A message is answered once it
// came whole: the client's flags and its one option, then each request with the bytes of a write.
pub(crate) fn answered_to(taken: usize) -> usize {
    if taken < 28 {
        return 18;
    }
    let mut left = taken - 28;
    let mut answered: usize = 104;
    for ((_, code, _, _, _, length), (_, error, _)) in requests().iter().zip(replies().iter()) {
        let sent = if *code == 1 { *length } else { 0 };
        let read = if *code == 0 && *error == 0 {
            *length
        } else {
            0
        };
        match left
            .checked_sub(28)
            .and_then(|rest| rest.checked_sub(sent as usize))
        {
            Some(rest) => left = rest,
            None => return answered,
        }
        answered = answered.saturating_add(16).saturating_add(read as usize);
    }
    answered
}

// How many bytes are sent in reply to the first `taken` bytes of the client without fixed newstyle that wants no zeros.
// It sends its flags and its one option, a write of 16 bytes, and a read of as many.
pub(crate) fn answered_by_name(taken: usize) -> usize {
    if taken < 20 {
        return 18;
    }
    if taken < 64 {
        return 28;
    }
    if taken < 92 { 44 } else { 76 }
}

// Whether a client that sends only the first bytes is answered with so many.
fn is_cut_well(
    alloc: Global,
    place: &mut Place,
    talk: &Talk,
    taken: usize,
    answered: usize,
) -> Result<bool, Fail> {
    let provider = provider_of(alloc, 512, false)?;
    let Some(first) = talk.said.get(..taken) else {
        return Err(Fail::from("no such piece"));
    };
    let Some(expected) = talk.answered.get(..answered) else {
        return Err(Fail::from("no such answer"));
    };
    is_answered(alloc, place, provider, first, expected)
}

// The client goes away at each byte of a session.
#[test]
fn what_came_whole_is_answered(rt: HostRuntime) -> Result<(), Fail> {
    let alloc = rt.alloc();
    let mut place = Place::new(alloc)?;
    let talk = talk_of(alloc, by_name_without_zeroes())?;
    for taken in 0..=talk.said.len() {
        let answered = answered_by_name(taken);
        let good = is_cut_well(alloc, &mut place, &talk, taken, answered)?;
        assert!(&rt; good, "{taken}");
    }
    Ok(())
}

// The client of a longer session goes away at each byte of its negotiation and of its first request, a write, and then
// at each eleventh byte.
#[test]
fn what_came_whole_of_many_requests_is_answered(rt: HostRuntime) -> Result<(), Fail> {
    let alloc = rt.alloc();
    let mut place = Place::new(alloc)?;
    let talk = talk_of(alloc, going())?;
    for taken in 0..72 {
        let good = is_cut_well(alloc, &mut place, &talk, taken, answered_to(taken))?;
        assert!(&rt; good, "{taken}");
    }
    for taken in (0..talk.said.len()).step_by(11) {
        let good = is_cut_well(alloc, &mut place, &talk, taken, answered_to(taken))?;
        assert!(&rt; good, "{taken}");
    }
    Ok(())
}

// Bytes come in and go out one by one.
#[test]
fn bytes_come_one_by_one(rt: HostRuntime) -> Result<(), Fail> {
    let alloc = rt.alloc();
    let mut place = Place::new(alloc)?;
    let talk = talk_of(alloc, going())?;
    let cuts = vec![in alloc; 1; 8192]?;
    let mut input = MemSource::new(alloc, &talk.said, &cuts, &[])?;
    let mut output = MemSink::new(alloc, &cuts, &[], 8192)?;
    let provider = provider_of(alloc, 4096, false)?;
    let outcome = place.serves(provider, &mut input, &mut output)?;
    assert!(&rt; ended_well(&outcome));
    assert_eq!(rt; output.bytes(), talk.answered.as_slice());
    Ok(())
}
