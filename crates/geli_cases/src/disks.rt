//! The disks of a case between its runs. A run has disks of its own, and its events are done to these afterwards.
use crate::call::{Drawer, add_drawer};
use crate::fault::Fault;
use crate::layers::{Layer, LayerKind, Layers, behind, joined, opened};
use crate::line::{Form, Line};
use crate::next_run::{NamedFail, add_name, fail_calls};
use crate::run_disk::RunDisk;
use crate::traced_disk::{SharedTrace, TracedDisk, new_trace};
use crate::transcript::{Part, Transcript};
use block_traits::{Disk, Event, Sector};
use crash_disk::SparseDisk;
use std::alloc::Global;
use std::mem;
use std::rc::Rc;

// A disk has fewer sectors than this.
const MOST_SECTORS: u64 = 1 << 44;
// Whether looks give anything.
const LOOKS: [(&str, bool); 2] = [("on", true), ("off", false)];

/// The disks of a case in the order of their first naming, and which of them are on the shelf.
#[derive(Drop)]
pub struct Disks {
    disks: Vec<CaseDisk>,
    layers: Layers,
    shelf: Vec<String>,
    // Whether a line named the disks on the shelf; if not, all disks are there, and no layer is.
    is_named: bool,
    // Whether the disks of a run give looks.
    gives_looks: bool,
}

/// A disk of a case.
#[derive(Drop)]
pub struct CaseDisk {
    name: String,
    // Its history is that of the last run, if nothing was changed since.
    disk: SparseDisk,
    // What the current run does to the disk, if it is on the shelf.
    trace: Option<SharedTrace>,
    // Whether the disk was still on the shelf when the last run ended.
    is_kept: bool,
}

// How the disks of a case are given to a run.
#[derive(Drop)]
struct Lending<'a> {
    // The calls that fail.
    fails: &'a [NamedFail],
    gives_looks: bool,
}

impl Disks {
    /// No disk.
    pub fn new(alloc: Global) -> Disks {
        Disks {
            disks: Vec::new(alloc),
            layers: Layers::new(alloc),
            shelf: Vec::new(alloc),
            is_named: false,
            gives_looks: true,
        }
    }

    /// Makes a disk of zeros.
    pub fn blank(&mut self, alloc: Global, line: &mut Line<'_>) -> Result<(), Fault> {
        let name = line.word();
        let disk = blank(alloc, line.number(), line.number())?;
        self.set(alloc, name, disk)
    }

    /// Makes a disk whose front is another's image; the rest is zeros.
    pub fn copy(&mut self, alloc: Global, line: &mut Line<'_>) -> Result<(), Fault> {
        let name = line.word();
        let old = self.find(line.word())?;
        let mut disk = blank(alloc, line.number(), line.number())?;
        lay(old.disk.earlier(), &mut disk)?;
        lay(old.disk.history(), &mut disk)?;
        self.set(alloc, name, disk)
    }

    /// Makes or replaces a disk.
    pub fn set(&mut self, alloc: Global, name: &str, disk: SparseDisk) -> Result<(), Fault> {
        match self.find(name) {
            Ok(old) => {
                old.disk = disk;
                Ok(())
            }
            Err(_) => self.add(alloc, name, disk),
        }
    }

    fn add(&mut self, alloc: Global, name: &str, disk: SparseDisk) -> Result<(), Fault> {
        if !self.is_named {
            add_name(alloc, name, &mut self.shelf)?;
        }
        let name = String::from_str(alloc, name)?;
        Ok(
            self.disks.push(CaseDisk {
                name,
                disk,
                trace: None,
                is_kept: false,
            })?,
        )
    }

    /// Puts a layer upon disks of the case.
    pub fn lay_over(
        &mut self,
        alloc: Global,
        kind: LayerKind,
        line: &mut Line<'_>,
    ) -> Result<(), Fault> {
        self.layers.tell(alloc, kind, line)
    }

    /// Gives a sector some bytes from an offset on.
    pub fn alter(&mut self, alloc: Global, line: &mut Line<'_>) -> Result<(), Fault> {
        let disk = self.find(line.word())?;
        let (n, offset) = (line.number(), line.number() as usize);
        let mut sector = disk.sector(n)?;
        let mut bytes = Vec::new(alloc);
        line.bytes(alloc, Form::Hex, &mut bytes)?;
        overwrite(&mut sector, offset, &bytes)?;
        disk.forget_run(alloc)?;
        disk.put(n, &sector)
    }

    /// Gives each byte of some sectors one value.
    pub fn cover(&mut self, alloc: Global, line: &mut Line<'_>) -> Result<(), Fault> {
        let disk = self.find(line.word())?;
        let (first, last) = (line.number(), line.number());
        let mut bytes = Vec::new(alloc);
        line.bytes(alloc, Form::Hex, &mut bytes)?;
        let sector = [only(&bytes)?; 512];
        disk.forget_run(alloc)?;
        for n in first..=last {
            disk.put(n, &sector)?;
        }
        Ok(())
    }

    /// Gives a sector what another holds.
    pub fn take(&mut self, alloc: Global, line: &mut Line<'_>) -> Result<(), Fault> {
        let (name, n) = (line.word(), line.number());
        let sector = self.find(line.word())?.sector(line.number())?;
        let disk = self.find(name)?;
        disk.forget_run(alloc)?;
        disk.put(n, &sector)
    }

    /// Says which disks are on the shelf from now on.
    pub fn set_shelf(&mut self, alloc: Global, line: &mut Line<'_>) -> Result<(), Fault> {
        self.is_named = true;
        self.shelf.clear();
        line.words(alloc, &mut self.shelf)
    }

    /// Says whether the disks of a run give looks from now on.
    pub fn set_looks(&mut self, line: &mut Line<'_>) -> Result<(), Fault> {
        self.gives_looks = line.one_of(&LOOKS, "looks are on or off")?;
        Ok(())
    }

    /// Whether the disks of a run give looks.
    pub fn gives_looks(&self) -> bool {
        self.gives_looks
    }

    /// The disks on the shelf, in order, made anew with the calls that fail.
    pub fn drawers(&mut self, alloc: Global, fails: &[NamedFail]) -> Result<Vec<Drawer>, Fault> {
        let mut drawers = Vec::new(alloc);
        let lending = Lending {
            fails,
            gives_looks: self.gives_looks,
        };
        for name in &self.shelf {
            let name = name.as_str();
            let disk = run_disk(alloc, &mut self.disks, &self.layers, name, &lending)?;
            add_drawer(alloc, name, disk, &mut drawers)?;
        }
        Ok(drawers)
    }

    /// Notes which disks are still on the shelf of a run, while the shelf exists.
    pub fn note_kept(&mut self) {
        for disk in self.disks.iter_mut() {
            disk.is_kept = disk.is_in_use();
        }
    }

    /// Keeps and prints what a run did to each disk on the shelf. What left the shelf leaves the case, but for the
    /// disks below a layer.
    pub fn settle(&mut self, alloc: Global, transcript: &mut Transcript) -> Result<(), Fault> {
        let names = mem::replace(&mut self.shelf, Vec::new(alloc));
        for name in names {
            if self.settle_drawer(alloc, name.as_str(), transcript)? {
                self.shelf.push(name)?;
            }
        }
        Ok(())
    }

    // Keeps and prints what a run did to the disk of one name, and returns whether it is still on the shelf.
    fn settle_drawer(
        &mut self,
        alloc: Global,
        name: &str,
        transcript: &mut Transcript,
    ) -> Result<bool, Fault> {
        let first = self.layers.first_below(name);
        let is_there = find(&mut self.disks, first)?.is_kept;
        if !is_there {
            transcript.line(&[Part::Text("gone"), Part::Text(name)]);
        }
        if is_there || first != name {
            find(&mut self.disks, first)?.settle(alloc, transcript)?;
        }
        if let Some(second) = self.layers.second_below(name) {
            find(&mut self.disks, second)?.settle(alloc, transcript)?;
        }
        if !is_there {
            self.layers.forget(name);
            self.disks.retain(|disk| disk.name.as_str() != name);
        }
        Ok(is_there)
    }

    /// The disk of this name.
    pub fn find(&mut self, name: &str) -> Result<&mut CaseDisk, Fault> {
        find(&mut self.disks, name)
    }
}

impl CaseDisk {
    /// The disk as it stood before its last run, with that run's events.
    pub fn last(&self) -> &SparseDisk {
        &self.disk
    }

    // The disk for a run.
    fn lend(&mut self, alloc: Global, lending: &Lending<'_>) -> Result<TracedDisk, Fault> {
        if self.trace.is_some() {
            return Err(Fault::Bad("a disk is on the shelf twice"));
        }
        let mut disk = anew(alloc, &self.disk)?;
        fail_calls(alloc, lending.fails, self.name.as_str(), &mut disk)?;
        let trace = new_trace(alloc)?;
        self.trace = Some(trace.clone()?);
        Ok(TracedDisk::new(disk, trace, lending.gives_looks))
    }

    // Whether the run still has the disk.
    fn is_in_use(&self) -> bool {
        match &self.trace {
            Some(trace) => Rc::strong_count(trace) > 1,
            None => false,
        }
    }

    // Keeps and prints what a run did.
    fn settle(&mut self, alloc: Global, transcript: &mut Transcript) -> Result<(), Fault> {
        let events = events_of(alloc, self.trace.take())?;
        transcript.events(self.name.as_str(), &events);
        self.forget_run(alloc)?;
        for event in &events {
            replay(event, &mut self.disk)?;
        }
        Ok(())
    }

    // What stands in a sector.
    fn sector(&self, n: u64) -> Result<Sector, Fault> {
        if n < self.disk.sectors() {
            Ok(self.disk.get(n))
        } else {
            Err(Fault::Bad("no such sector"))
        }
    }

    // The image stays, but the last run's events are forgotten.
    fn forget_run(&mut self, alloc: Global) -> Result<(), Fault> {
        self.disk = anew(alloc, &self.disk)?;
        Ok(())
    }

    // Gives a sector these bytes. The last run has to be forgotten before.
    fn put(&mut self, n: u64, sector: &Sector) -> Result<(), Fault> {
        if n < self.disk.sectors() {
            Ok(self.disk.put(n, sector)?)
        } else {
            Err(Fault::Bad("no such sector"))
        }
    }
}

// The disk under a name on the shelf.
fn run_disk(
    alloc: Global,
    disks: &mut [CaseDisk],
    layers: &Layers,
    name: &str,
    lending: &Lending<'_>,
) -> Result<RunDisk, Fault> {
    match layers.find(name) {
        None => Ok(RunDisk::Plain(find(disks, name)?.lend(alloc, lending)?)),
        Some(Layer::Behind { under, room }) => {
            behind(
                alloc,
                find(disks, under.as_str())?.lend(alloc, lending)?,
                *room,
            )
        }
        Some(Layer::Join { first, second }) => {
            let first = find(disks, first.as_str())?.lend(alloc, lending)?;
            joined(first, find(disks, second.as_str())?.lend(alloc, lending)?)
        }
        Some(Layer::Provider { under, passphrase }) => {
            let disk = find(disks, under.as_str())?;
            let last = disk.sector(disk.disk.sectors().saturating_sub(1))?;
            opened(
                alloc,
                disk.lend(alloc, lending)?,
                &last,
                passphrase.as_str(),
            )
        }
    }
}

// The events of a trace.
fn events_of(alloc: Global, trace: Option<SharedTrace>) -> Result<Vec<Event>, Fault> {
    if let Some(trace) = trace {
        if let Ok(noted) = trace.try_borrow() {
            if !noted.is_cut {
                return Ok(Vec::from_slice(alloc, &noted.events)?);
            }
        }
    }
    Err(Fault::NoMemory)
}

/// A disk of zeros.
pub fn blank(alloc: Global, sectors: u64, room: u64) -> Result<SparseDisk, Fault> {
    if sectors < MOST_SECTORS {
        Ok(SparseDisk::new(alloc, sectors, room)?)
    } else {
        Err(Fault::Bad("too many sectors"))
    }
}

// A disk that has had from the start what stands on this one.
fn anew(alloc: Global, disk: &SparseDisk) -> Result<SparseDisk, Fault> {
    Ok(disk.at(alloc, disk.history().len())?)
}

// Lays what events wrote on a disk, as far as it has the sectors.
fn lay(events: &[Event], disk: &mut SparseDisk) -> Result<(), Fault> {
    for event in events {
        if let Event::Write { n, bytes } = event {
            if *n < disk.sectors() {
                disk.put(*n, bytes)?;
            }
        }
    }
    Ok(())
}

// Does to a disk what was done to another of its image.
fn replay(event: &Event, disk: &mut SparseDisk) -> Result<(), Fault> {
    let done = match event {
        Event::Write { n, bytes } => *n < disk.sectors() && disk.write(*n, bytes).is_ok(),
        Event::Flush => disk.flush().is_ok(),
    };
    if done {
        Ok(())
    } else {
        Err(Fault::Bad("events that don't fit the disk"))
    }
}

// Puts bytes at an offset.
fn overwrite(into: &mut [u8], offset: usize, bytes: &[u8]) -> Result<(), Fault> {
    let end = offset.saturating_add(bytes.len());
    let Some(place) = into.get_mut(offset..end) else {
        return Err(Fault::Bad("bytes behind the end of the sector"));
    };
    if place.len() == bytes.len() {
        place.copy_from_slice(bytes);
    }
    Ok(())
}

fn find<'a>(disks: &'a mut [CaseDisk], name: &str) -> Result<&'a mut CaseDisk, Fault> {
    for disk in disks.iter_mut() {
        if disk.name.as_str() == name {
            return Ok(disk);
        }
    }
    Err(Fault::Bad("no disk has this name"))
}

fn only(bytes: &[u8]) -> Result<u8, Fault> {
    match bytes {
        [byte] => Ok(*byte),
        _ => Err(Fault::Bad("not one byte")),
    }
}
