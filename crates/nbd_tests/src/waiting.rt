//! A client that gives no byte more until it has its reply: each reply is given before the source is asked again. No
//! clause orders the calls of a source and a sink, so they share their notes.
use crate::common::{Place, Talk, asking, by_name_without_zeroes, going, provider_of, talk_of};
use crate::sessions::{answered_by_name, answered_to};
use block_traits::{Sink, SinkFailed, Source, SourceFailed};
use crash_disk::{MemSink, MemSource};
use std::alloc::Global;
use std::cell::Cell;
use std::rc::Rc;
use std::test::Fail;

// How many bytes the source gave and the sink took, how often the source was asked, and whether a reply that was due
// wasn't there when it was, or one that wasn't due was.
#[derive(Drop)]
struct Notes {
    given: Cell<usize>,
    taken: Cell<usize>,
    asked: Cell<usize>,
    is_amiss: Cell<bool>,
}

fn add(count: &Cell<usize>, more: usize) {
    count.set(count.get().saturating_add(more));
}

// A source that gives a byte at each call, and looks first whether the client has all that is due to the bytes that it
// gave, and no more.
#[derive(Drop)]
struct WaitingSource {
    source: MemSource,
    due: Vec<usize>,
    notes: Rc<Notes>,
}

impl Source for WaitingSource {
    ghost use Rattle.std.specs.Prelude.{Some};

    ghost state = { λ waiting. record { left = Some waiting.source.left; faults = waiting.source.faults; refused = waiting.source.refused; ends = waiting.source.ends } };

    fn take(&mut self, into: &mut [u8]) -> Result<usize, SourceFailed> {
        let due = self.due.get(self.notes.given.get()).copied();
        if due != Some(self.notes.taken.get()) {
            self.notes.is_amiss.set(true);
        }
        add(&self.notes.asked, 1);
        let given = self.source.take(into);
        if let Ok(count) = given {
            add(&self.notes.given, count);
        }
        given
    }
}

// A sink whose bytes are counted. One that is late keeps the bytes of a call until the next.
#[derive(Drop)]
struct WatchedSink {
    sink: MemSink,
    is_late: bool,
    kept: usize,
    notes: Rc<Notes>,
}

impl Sink for WatchedSink {
    ghost use Rattle.std.specs.Prelude.{Some};

    ghost state = { λ watched. record { taken = Some watched.sink.bytes; faults = watched.sink.faults; refused = watched.sink.refused; idle = watched.sink.idle } };

    fn give(&mut self, from: &[u8]) -> Result<usize, SinkFailed> {
        let given = self.sink.give(from);
        if let Ok(count) = given {
            add(
                &self.notes.taken,
                if self.is_late { self.kept } else { count },
            );
            self.kept = count;
        }
        given
    }
}

// What was seen of a session: whether a reply wasn't there when it was due, and how often the source was asked.
fn seen(
    alloc: Global,
    place: &mut Place,
    talk: &Talk,
    due: Vec<usize>,
    is_late: bool,
) -> Result<(bool, usize), Fail> {
    let notes = Rc::new(
        alloc,
        Notes {
            given: Cell::new(0),
            taken: Cell::new(0),
            asked: Cell::new(0),
            is_amiss: Cell::new(false),
        },
    )?;
    let bytes = vec![in alloc; 1; 2048]?;
    let mut input = WaitingSource {
        source: MemSource::new(alloc, &talk.said, &bytes, &[])?,
        due,
        notes: notes.clone()?,
    };
    let mut output = WatchedSink {
        sink: MemSink::new(alloc, &[], &[], 8192)?,
        is_late,
        kept: 0,
        notes: notes.clone()?,
    };
    place.serves(provider_of(alloc, 512, false)?, &mut input, &mut output)?;
    Ok((notes.is_amiss.get(), notes.asked.get()))
}

// How many bytes are due to the first `taken` bytes of the client of `ASKING`: its flags, five options, a flush and the
// end.
fn answered_asking(taken: usize) -> usize {
    let mut due = 18;
    for (came, answered) in [
        (20, 38),
        (36, 82),
        (60, 168),
        (91, 254),
        (122, 340),
        (150, 356),
    ] {
        if came <= taken {
            due = answered;
        }
    }
    due
}

// What is due to each number of bytes, by a client's own count.
#[derive(Clone, Copy)]
enum Client {
    Going,
    ByName,
    Asking,
}

impl Client {
    fn talk(self, alloc: Global) -> Result<Talk, Fail> {
        match self {
            Client::Going => talk_of(alloc, going()),
            Client::ByName => talk_of(alloc, by_name_without_zeroes()),
            Client::Asking => talk_of(alloc, asking()),
        }
    }

    fn due(self, alloc: Global, bytes: usize) -> Result<Vec<usize>, Fail> {
        let mut due = Vec::new(alloc);
        for taken in 0..=bytes {
            due.push(match self {
                Client::Going => answered_to(taken),
                Client::ByName => answered_by_name(taken),
                Client::Asking => answered_asking(taken),
            })?;
        }
        Ok(due)
    }

    fn seen(self, alloc: Global, place: &mut Place, is_late: bool) -> Result<(bool, usize), Fail> {
        let talk = self.talk(alloc)?;
        let due = self.due(alloc, talk.said.len())?;
        seen(alloc, place, &talk, due, is_late)
    }
}

// The clients send each kind of option and of request, and the bytes of a write come late. The source is asked once for
// each byte, and not again: each of these clients says that it ends. A sink that is late is seen.
#[test]
fn each_reply_is_given_before_more_is_taken(rt: HostRuntime) -> Result<(), Fail> {
    let alloc = rt.alloc();
    let mut place = Place::new(alloc)?;
    for (client, bytes) in [
        (Client::Going, 1542),
        (Client::ByName, 120),
        (Client::Asking, 178),
    ] {
        let seen = client.seen(alloc, &mut place, false)?;
        assert_eq!(&rt; seen, (false, bytes), "{bytes}");
        let (is_amiss, _) = client.seen(alloc, &mut place, true)?;
        assert!(&rt; is_amiss, "{bytes}");
    }
    Ok(())
}

// A client that goes away amid its request, of 28 bytes, is asked once more, and not again: on a terminal each end is
// one that somebody types.
#[test]
fn the_end_is_asked_for_once(rt: HostRuntime) -> Result<(), Fail> {
    let alloc = rt.alloc();
    let mut place = Place::new(alloc)?;
    let mut talk = Client::ByName.talk(alloc)?;
    talk.said.truncate(100);
    let due = Client::ByName.due(alloc, talk.said.len())?;
    let seen = seen(alloc, &mut place, &talk, due, false)?;
    assert_eq!(&rt; seen, (false, 101));
    Ok(())
}
