//! What the next run of a case is given.
use crate::call::{Drawer, add_drawer, refusal_of};
use crate::disks::blank;
use crate::fault::Fault;
use crate::line::{Form, Given, Line};
use crate::run_disk::RunDisk;
use crate::traced_disk::untraced;
use crate::transcript::{Part, Transcript};
use crash_disk::{CallKind, FailAt, MemSink, MemSource, SparseDisk};
use std::alloc::Global;

// The room of a sink, if no line gives another.
const USUAL_ROOM: u64 = 1_048_576;
// The sectors of a disk that is offered; a run sends it no event.
const OFFERED_SECTORS: u64 = 2;

const OFFERED_ROOM: u64 = 16;

// The words for the calls of a disk.
const CALLS: [(&str, CallKind); 3] = [
    ("read", CallKind::Read),
    ("write", CallKind::Write),
    ("flush", CallKind::Flush),
];
// Whether the event of a failing call is made all the same.
const LANDS: [(&str, bool); 2] = [("lands", true), ("lost", false)];

/// What lines gathered for the next run, after which it is forgotten.
#[derive(Drop)]
pub struct NextRun {
    /// The words of the command line.
    pub words: Vec<String>,
    /// The input.
    pub input: Vec<u8>,
    /// What the source does.
    pub source: Stream,
    /// What the sink does.
    pub sink: Stream,
    /// The sink's room.
    pub room: u64,
    /// The calls of the cabinet that fail.
    pub file_fails: Vec<u64>,
    /// The calls of disks that fail, in the order of the lines.
    pub disk_fails: Vec<NamedFail>,
    /// The names of the further disks that are offered.
    pub offers: Vec<String>,
}

/// The most that each call gives or takes, and the calls that fail.
#[derive(Drop)]
pub struct Stream {
    cuts: Vec<usize>,
    fails: Vec<u64>,
}

/// A call of the disk of this name fails.
#[derive(Drop)]
pub struct NamedFail {
    name: String,
    call: FailAt,
}

impl NextRun {
    /// Nothing was gathered.
    pub fn new(alloc: Global) -> NextRun {
        NextRun {
            words: Vec::new(alloc),
            input: Vec::new(alloc),
            source: Stream::new(alloc),
            sink: Stream::new(alloc),
            room: USUAL_ROOM,
            file_fails: Vec::new(alloc),
            disk_fails: Vec::new(alloc),
            offers: Vec::new(alloc),
        }
    }

    /// No call of the cabinet, the source and the sink fails.
    pub fn fail_none(&mut self) {
        self.file_fails.clear();
        self.source.fails.clear();
        self.sink.fails.clear();
    }

    /// Gathers what a line says.
    pub fn follow(
        &mut self,
        alloc: Global,
        given: Given,
        line: &mut Line<'_>,
    ) -> Result<(), Fault> {
        match given {
            Given::Words => line.words(alloc, &mut self.words),
            Given::Word(form) => add_word(alloc, form, line, &mut self.words),
            Given::Input(form) => line.bytes(alloc, form, &mut self.input),
            Given::Offer => add_name(alloc, line.word(), &mut self.offers),
            Given::Fail => add_fail(alloc, line, &mut self.disk_fails),
            Given::FailFiles => line.numbers(&mut self.file_fails),
            Given::FailInput => line.numbers(&mut self.source.fails),
            Given::FailOutput => line.numbers(&mut self.sink.fails),
            Given::CutInput => add_cuts(line, &mut self.source.cuts),
            Given::CutOutput => add_cuts(line, &mut self.sink.cuts),
            Given::RoomOutput => {
                self.room = line.number();
                Ok(())
            }
        }
    }
}

impl Stream {
    fn new(alloc: Global) -> Stream {
        Stream {
            cuts: Vec::new(alloc),
            fails: Vec::new(alloc),
        }
    }

    /// A source of this input.
    pub fn source(&self, alloc: Global, input: &[u8]) -> Result<MemSource, Fault> {
        Ok(MemSource::new(alloc, input, &self.cuts, &self.fails)?)
    }

    /// A sink with so much room.
    pub fn sink(&self, alloc: Global, room: u64) -> Result<MemSink, Fault> {
        Ok(MemSink::new(alloc, &self.cuts, &self.fails, room)?)
    }
}

// Adds so many cuts of a size.
fn add_cuts(line: &mut Line<'_>, into: &mut Vec<usize>) -> Result<(), Fault> {
    let (count, size) = (line.number(), line.number() as usize);
    for _ in 0..count {
        into.push(size)?;
    }
    Ok(())
}

// A word of the command line is text: other bytes can't be a `String`.
fn add_word(
    alloc: Global,
    form: Form,
    line: &mut Line<'_>,
    into: &mut Vec<String>,
) -> Result<(), Fault> {
    let mut bytes = Vec::new(alloc);
    line.bytes(alloc, form, &mut bytes)?;
    match str::from_utf8(&bytes) {
        Ok(text) => add_name(alloc, text, into),
        Err(_) => Err(Fault::Bad("a word that isn't UTF-8")),
    }
}

// Adds a call of a disk that fails.
fn add_fail(alloc: Global, line: &mut Line<'_>, into: &mut Vec<NamedFail>) -> Result<(), Fault> {
    let name = line.word();
    let kind = line.one_of(&CALLS, "a call is read, write or flush")?;
    let nth = line.number();
    let lands = line.one_of(&LANDS, "a failing call is lands or lost")?;
    let name = String::from_str(alloc, name)?;
    let call = FailAt { kind, nth, lands };
    Ok(into.push(NamedFail { name, call })?)
}

/// Adds a name.
pub fn add_name(alloc: Global, name: &str, into: &mut Vec<String>) -> Result<(), Fault> {
    Ok(into.push(String::from_str(alloc, name)?)?)
}

/// Lets the calls of the disk of this name fail.
pub fn fail_calls(
    alloc: Global,
    fails: &[NamedFail],
    name: &str,
    disk: &mut SparseDisk,
) -> Result<(), Fault> {
    let mut calls = Vec::new(alloc);
    for fail in fails {
        if fail.name.as_str() == name {
            calls.push(fail.call)?;
        }
    }
    Ok(disk.fail_calls(&calls)?)
}

/// Offers disks of these names to the shelf, after the drawers, and prints its replies. Those that it takes are added.
pub fn add_offers(
    alloc: Global,
    names: &[String],
    drawers: &mut Vec<Drawer>,
    transcript: &mut Transcript,
) -> Result<(), Fault> {
    for name in names {
        let name = name.as_str();
        let refusal = refusal_of(alloc, drawers, name)?;
        transcript.line(&[
            Part::Text("offer"),
            Part::Text(name),
            Part::Text(refusal.unwrap_or("ok")),
        ]);
        if refusal.is_none() {
            let disk = untraced(alloc, blank(alloc, OFFERED_SECTORS, OFFERED_ROOM)?, true)?;
            add_drawer(alloc, name, RunDisk::Plain(disk), drawers)?;
        }
    }
    Ok(())
}
