//! The disks of a run, whose events can be looked at even while a layer has the disk.
ghost use Rattle.geli_cases.specs.TracedDisk.{traced_disk_of};

use crate::fault::Fault;
use block_traits::{Disk, DiskFailed, Event, Sector};
use crash_disk::SparseDisk;
use std::alloc::Global;
use std::cell::RefCell;
use std::rc::Rc;

/// What was done to a disk of a run, as far as there was memory to note it.
#[derive(Drop)]
pub struct Trace {
    /// The events, the oldest first.
    pub events: Vec<Event>,
    /// Whether there was no memory for some of them.
    pub is_cut: bool,
}

/// A trace that the disk shares with whoever looks at it. Once the disk is gone nobody else has it.
pub type SharedTrace = Rc<RefCell<Trace>>;

/// A disk in memory that notes each event in a trace.
#[derive(Drop)]
pub struct TracedDisk {
    disk: SparseDisk,
    trace: SharedTrace,
    gives_looks: bool,
}

/// A trace of nothing.
pub fn new_trace(alloc: Global) -> Result<SharedTrace, Fault> {
    let events = Vec::new(alloc);
    let is_cut = false;
    Ok(Rc::new(alloc, RefCell::new(Trace { events, is_cut }))?)
}

/// A disk to which nothing was done, with a trace at which nobody looks.
pub fn untraced(alloc: Global, disk: SparseDisk, gives_looks: bool) -> Result<TracedDisk, Fault> {
    Ok(TracedDisk::new(disk, new_trace(alloc)?, gives_looks))
}

impl TracedDisk {
    /// A disk to which nothing was done, with its trace, and whether a look gives what the disk in it gives, or
    /// nothing.
    pub fn new(disk: SparseDisk, trace: SharedTrace, gives_looks: bool) -> TracedDisk {
        TracedDisk {
            disk,
            trace,
            gives_looks,
        }
    }

    // Notes the last event of the disk, if it is a further one.
    fn note(&self) {
        if let Ok(mut trace) = self.trace.try_borrow_mut() {
            let count = trace.events.len();
            if let Some(event) = self.disk.history().get(count) {
                let pushed = trace.events.push(*event);
                trace.is_cut |= pushed.is_err();
            }
        }
    }
}

/// Each call is one of the disk in it.
impl Disk for TracedDisk {
    ghost state = { traced_disk_of };

    fn sectors(&self) -> u64 {
        self.disk.sectors()
    }

    fn read(&mut self, n: u64, into: &mut Sector) -> Result<(), DiskFailed> {
        self.disk.read(n, into)
    }

    fn peek(&mut self, first: u64, into: &mut [u8]) -> bool {
        if !self.gives_looks {
            return false;
        }
        self.disk.peek(first, into)
    }

    fn count_reads(&mut self, many: u64) {
        self.disk.count_reads(many);
    }

    fn write(&mut self, n: u64, from: &Sector) -> Result<(), DiskFailed> {
        let answer = self.disk.write(n, from);
        self.note();
        answer
    }

    fn flush(&mut self) -> Result<(), DiskFailed> {
        let answer = self.disk.flush();
        self.note();
        answer
    }

    fn events(&self) -> Option<&[Event]> {
        self.disk.events()
    }

    fn wants_room(&self) -> bool {
        false
    }
}
