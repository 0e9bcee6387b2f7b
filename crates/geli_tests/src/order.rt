//! When the sink and the source are asked: each reply is given before the source is asked for more, and after its end
//! or a failure it isn't asked again. No clause orders the calls of two objects, so they share their notes.
use crate::common::words;
use block_traits::{Sink, SinkFailed, Source, SourceFailed};
use command_words::read_words;
use crash_disk::{MemCabinet, MemDisk, MemEntropy, MemSink, MemSource};
use geli_core::{Drawers, Outside, run};
use std::alloc::Global;
use std::cell::Cell;
use std::rc::Rc;
use std::test::Fail;

// How many calls of the source and of the sink were made, how many bytes the sink took, and whether a reply was late.
#[derive(Drop)]
struct Notes {
    takes: Cell<u64>,
    gives: Cell<u64>,
    printed: Cell<u64>,
    is_late: Cell<bool>,
}

fn add(count: &Cell<u64>, more: u64) {
    count.set(count.get().saturating_add(more));
}

// A reply to `list` over one idle drawer.
const REPLY: &str = "a.img idle\nok\n";

// A source that gives one line at each call, and looks whether the replies to those before were printed.
#[derive(Drop)]
struct WatchedSource {
    source: MemSource,
    notes: Rc<Notes>,
}

impl Source for WatchedSource {
    ghost use Rattle.std.specs.Prelude.{Some};

    ghost state = { λ watched. record { left = Some watched.source.left; faults = watched.source.faults; refused = watched.source.refused; ends = watched.source.ends } };

    fn take(&mut self, into: &mut [u8]) -> Result<usize, SourceFailed> {
        let replies = self.notes.takes.get().saturating_mul(REPLY.len() as u64);
        if self.notes.printed.get() != replies {
            self.notes.is_late.set(true);
        }
        add(&self.notes.takes, 1);
        self.source.take(into)
    }
}

// A sink whose calls are counted.
#[derive(Drop)]
struct WatchedSink {
    sink: MemSink,
    notes: Rc<Notes>,
}

impl Sink for WatchedSink {
    ghost use Rattle.std.specs.Prelude.{Some};

    ghost state = { λ watched. record { taken = Some watched.sink.bytes; faults = watched.sink.faults; refused = watched.sink.refused; idle = watched.sink.idle } };

    fn give(&mut self, from: &[u8]) -> Result<usize, SinkFailed> {
        add(&self.notes.gives, 1);
        let given = self.sink.give(from);
        if let Ok(count) = given {
            add(&self.notes.printed, count as u64);
        }
        given
    }
}

// A shelf with one idle drawer.
fn shelf_of_one(alloc: Global) -> Result<Drawers<MemDisk>, Fail> {
    let mut shelf = Drawers::new(alloc)?;
    match shelf.add("a.img", MemDisk::new(alloc, 64, 0)?) {
        Ok(()) => Ok(shelf),
        Err(_) => Err(Fail::from("the shelf has no room")),
    }
}

// The number of the status of a script over that shelf.
fn status_of(
    alloc: Global,
    source: &mut WatchedSource,
    sink: &mut WatchedSink,
) -> Result<u8, Fail> {
    let mut shelf = shelf_of_one(alloc)?;
    let mut entropy = MemEntropy::new(alloc, &[])?;
    let words = words(alloc, "script a.img")?;
    let mut files = MemCabinet::new(alloc);
    let said = read_words(alloc, &words)?;
    let mut outside = Outside::new(source, sink, &mut files, &mut entropy);
    Ok(run(alloc, &said, &mut shelf, &mut outside).number())
}

// Runs a script whose lines are given one at each call, while these calls fail.
fn asked(
    alloc: Global,
    input: &str,
    fails_in: &[u64],
    fails_out: &[u64],
) -> Result<(u8, u64, u64, bool), Fail> {
    asked_in_pieces(alloc, input, &[5; 8], fails_in, fails_out)
}

// Runs a script that is given in pieces of these sizes, while these calls fail. Returned are its status, how often
// source and sink were called, and whether a reply was late.
fn asked_in_pieces(
    alloc: Global,
    input: &str,
    pieces: &[usize],
    fails_in: &[u64],
    fails_out: &[u64],
) -> Result<(u8, u64, u64, bool), Fail> {
    let notes = Rc::new(
        alloc,
        Notes {
            takes: Cell::new(0),
            gives: Cell::new(0),
            printed: Cell::new(0),
            is_late: Cell::new(false),
        },
    )?;
    let mut source = WatchedSource {
        source: MemSource::new(alloc, input.as_bytes(), pieces, fails_in)?,
        notes: notes.clone()?,
    };
    let mut sink = WatchedSink {
        sink: MemSink::new(alloc, &[], fails_out, 256)?,
        notes: notes.clone()?,
    };
    let status = status_of(alloc, &mut source, &mut sink)?;
    Ok((
        status,
        notes.takes.get(),
        notes.gives.get(),
        notes.is_late.get(),
    ))
}

const LISTS: &str = "list\nlist\nlist\n";

#[test]
fn each_reply_is_given_before_more_is_taken(rt: HostRuntime) -> Result<(), Fail> {
    let alloc = rt.alloc();
    assert!(&rt; asked(alloc, LISTS, &[], &[])? == (0, 4, 3, false));
    assert!(&rt; asked(alloc, "# no\n# no\n", &[], &[])?.2 == 0);
    Ok(())
}

#[test]
fn what_failed_is_not_asked_again(rt: HostRuntime) -> Result<(), Fail> {
    let alloc = rt.alloc();
    assert!(&rt; asked(alloc, LISTS, &[2], &[])? == (3, 2, 1, false));
    assert!(&rt; asked(alloc, LISTS, &[], &[1])? == (4, 1, 1, false));
    assert!(&rt; asked(alloc, LISTS, &[], &[2])? == (4, 2, 2, false));
    Ok(())
}

// A source that gives all that is asked for is asked once for each 4,096 bytes or more, and once at the end.
#[test]
fn a_script_is_taken_in_few_calls(rt: HostRuntime) -> Result<(), Fail> {
    let alloc = rt.alloc();
    let mut script = String::new(alloc);
    for _ in 0..1000 {
        script.push_str("# no\n")?;
    }
    let (status, takes, _, _) = asked_in_pieces(alloc, &script, &[], &[], &[])?;
    assert!(&rt; status == 0);
    assert!(&rt; takes <= 3);
    Ok(())
}
