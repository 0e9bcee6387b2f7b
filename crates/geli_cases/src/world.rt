//! The world of a case: its disks, files and random bytes, what the next run is given, and the runs.
use crate::call::{Objects, add_drawer, top_call};
use crate::crash::{Choices, Crashed, survivor_at};
use crate::disks::Disks;
use crate::fault::Fault;
use crate::files::Files;
use crate::line::{Has, Kind, Line};
use crate::next_run::{NextRun, add_offers};
use crate::run_disk::RunDisk;
use crate::traced_disk::untraced;
use crate::transcript::{Part, Transcript};
use block_traits::{Entropy, Source};
use crash_disk::{MemEntropy, MemSource, Pick, SparseDisk};
use std::alloc::Global;

// The last status after which the transcript says how much input is left.
const LAST_READER: u8 = 2;

/// What a case has between its lines.
#[derive(Drop)]
pub struct World {
    runs: u64,
    disks: Disks,
    files: Files,
    entropy: Vec<u8>,
    next: NextRun,
    choices: Choices,
}

impl World {
    /// A case that has nothing.
    pub fn new(alloc: Global) -> World {
        World {
            runs: 0,
            disks: Disks::new(alloc),
            files: Files::new(alloc),
            entropy: Vec::new(alloc),
            next: NextRun::new(alloc),
            choices: Choices::new(alloc),
        }
    }

    /// Does what a line says.
    pub fn follow(
        &mut self,
        alloc: Global,
        line: &mut Line<'_>,
        transcript: &mut Transcript,
    ) -> Result<(), Fault> {
        match line.kind()? {
            Kind::Case => {
                *self = World::new(alloc);
                transcript.line(&[Part::Text("case"), Part::Text(line.word())]);
                Ok(())
            }
            Kind::Has(has) => self.has(alloc, has, line),
            Kind::Given(given) => self.next.follow(alloc, given, line),
            Kind::Run => self.run(alloc, transcript),
            Kind::Pick => self.choices.pick(line.number(), line.number()),
            Kind::Tear => self.choices.tear(alloc, line),
            Kind::Survivor => self.survivor(alloc, line, transcript),
            Kind::Crashes => self.crashes(alloc, line, transcript),
        }
    }

    // What the case has from now on.
    fn has(&mut self, alloc: Global, has: Has, line: &mut Line<'_>) -> Result<(), Fault> {
        match has {
            Has::Disk => self.disks.blank(alloc, line),
            Has::Copy => self.disks.copy(alloc, line),
            Has::Alter => self.disks.alter(alloc, line),
            Has::Cover => self.disks.cover(alloc, line),
            Has::Take => self.disks.take(alloc, line),
            Has::Layer(kind) => self.disks.lay_over(alloc, kind, line),
            Has::Shelf => self.disks.set_shelf(alloc, line),
            Has::Looks => self.disks.set_looks(line),
            Has::File(form) => self.files.tell(alloc, form, line),
            Has::Watch => self.files.watch(alloc, line.word()),
            Has::Entropy(form) => {
                self.entropy.clear();
                line.bytes(alloc, form, &mut self.entropy)
            }
        }
    }

    // The top call over the shelf, and what it left of each object.
    fn run(&mut self, alloc: Global, transcript: &mut Transcript) -> Result<(), Fault> {
        self.runs = self.runs.saturating_add(1);
        transcript.line(&[Part::Text("run"), Part::Number(self.runs)]);
        let mut drawers = self.disks.drawers(alloc, &self.next.disk_fails)?;
        add_offers(alloc, &self.next.offers, &mut drawers, transcript)?;
        let mut objects = self.objects(alloc)?;
        let words = &self.next.words;
        let status = top_call(alloc, drawers, words, &mut objects, &mut self.disks)?;
        self.tell_streams(status, &mut objects, transcript);
        self.disks.settle(alloc, transcript)?;
        self.settle_rest(alloc, &mut objects, transcript)
    }

    // The objects of a run besides the shelf, made anew.
    fn objects(&self, alloc: Global) -> Result<Objects, Fault> {
        let mut cabinet = self.files.cabinet(alloc)?;
        cabinet.fail_calls(&self.next.file_fails)?;
        Ok(Objects {
            input: self.next.source.source(alloc, &self.next.input)?,
            output: self.next.sink.sink(alloc, self.next.room)?,
            cabinet,
            entropy: MemEntropy::new(alloc, &self.entropy)?,
        })
    }

    // What the run printed, its status, and what it left of the input.
    fn tell_streams(&self, status: u8, objects: &mut Objects, transcript: &mut Transcript) {
        transcript.output(objects.output.bytes());
        transcript.line(&[Part::Text("status"), Part::Number(u64::from(status))]);
        if status <= LAST_READER && !self.next.input.is_empty() {
            let left = left_of_input(&mut objects.input);
            transcript.line(&[Part::Text("unread"), Part::Number(left)]);
        }
    }

    // Keeps what the entropy has left, and the files; what was gathered for the run is forgotten.
    fn settle_rest(
        &mut self,
        alloc: Global,
        objects: &mut Objects,
        transcript: &mut Transcript,
    ) -> Result<(), Fault> {
        let left = left_of_entropy(&mut objects.entropy);
        let taken = self.entropy.len().saturating_sub(left);
        if taken > 0 {
            transcript.line(&[Part::Text("taken"), Part::Number(taken as u64)]);
        }
        self.entropy = Vec::from_slice(alloc, self.entropy.get(taken..).unwrap_or(&[]))?;
        self.next = NextRun::new(alloc);
        self.files.settle(alloc, &objects.cabinet, transcript)
    }

    // The crash image of a disk becomes a disk.
    fn survivor(
        &mut self,
        alloc: Global,
        line: &mut Line<'_>,
        transcript: &mut Transcript,
    ) -> Result<(), Fault> {
        let (new, old, moment) = (line.word(), line.word(), line.number());
        let disk = self.disks.find(old)?.last();
        let (answer, index) = match self.choices.survivor(alloc, disk, moment)? {
            Crashed::Beyond => ("beyond", None),
            Crashed::BadPick(index) => ("BadPick", Some(index)),
            Crashed::BadTorn(index) => ("BadTorn", Some(index)),
            Crashed::Disk(survivor) => {
                self.disks.set(alloc, new, survivor)?;
                ("ok", None)
            }
        };
        transcript.survivor(new, old, moment, answer, index);
        Ok(())
    }

    // The top call over each survivor that differs in one sector alone, with no call that fails. The case stays as it
    // is.
    fn crashes(
        &mut self,
        alloc: Global,
        line: &mut Line<'_>,
        transcript: &mut Transcript,
    ) -> Result<(), Fault> {
        let (new, old, n) = (line.word(), line.word(), line.number());
        let count = self.disks.find(old)?.last().history().len();
        self.next.fail_none();
        for moment in 0..=count {
            self.crashes_at(alloc, new, old, n, moment, transcript)?;
        }
        self.next = NextRun::new(alloc);
        Ok(())
    }

    // The top call over each survivor of one moment that differs in one sector alone.
    fn crashes_at(
        &mut self,
        alloc: Global,
        new: &str,
        old: &str,
        n: u64,
        moment: usize,
        transcript: &mut Transcript,
    ) -> Result<(), Fault> {
        for place in 0..usize::MAX {
            let disk = self.disks.find(old)?.last();
            let made = survivor_at(alloc, disk, moment, &[Pick { n, place }], &[])?;
            let Crashed::Disk(survivor) = made else {
                break;
            };
            let mut objects = self.objects(alloc)?;
            let status = self.crash(alloc, new, survivor, &mut objects)?;
            transcript.crash(moment, place, status, objects.output.bytes());
        }
        Ok(())
    }

    // The status of the top call over one disk, alone on a shelf.
    fn crash(
        &self,
        alloc: Global,
        name: &str,
        disk: SparseDisk,
        objects: &mut Objects,
    ) -> Result<u8, Fault> {
        let mut drawers = Vec::new(alloc);
        let disk = RunDisk::Plain(untraced(alloc, disk, self.disks.gives_looks())?);
        add_drawer(alloc, name, disk, &mut drawers)?;
        let mut others = Disks::new(alloc);
        top_call(alloc, drawers, &self.next.words, objects, &mut others)
    }
}

// How many bytes a source has left. A call that is to fail takes nothing, and is asked once more.
fn left_of_input(input: &mut MemSource) -> u64 {
    let mut count = 0u64;
    let mut into = [0; 4096];
    for _ in 0..u64::MAX {
        match input.take(&mut into) {
            Ok(0) => break,
            Ok(taken) => count = count.saturating_add(taken as u64),
            Err(_) => {}
        }
    }
    count
}

// How many bytes entropy has left: first by blocks, which is fast, and the rest byte by byte. A block for which too
// little is left takes nothing.
fn left_of_entropy(entropy: &mut MemEntropy) -> usize {
    let blocks = filled(entropy, &mut [0; 256]);
    blocks.saturating_add(filled(entropy, &mut [0; 1]))
}

// How many bytes are taken until so many as these aren't left.
fn filled(entropy: &mut MemEntropy, into: &mut [u8]) -> usize {
    let mut count = 0usize;
    for _ in 0..u64::MAX {
        if entropy.fill(into).is_err() {
            break;
        }
        count = count.saturating_add(into.len());
    }
    count
}
