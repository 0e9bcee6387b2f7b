//! A disk in memory whose events stay where a test sees them.
use block_traits::{Disk, DiskFailed, Event, Sector};
use crash_disk::MemDisk;
use std::cell::RefCell;
use std::rc::Rc;

/// What was done to a disk, in order.
pub(crate) type Seen = Rc<RefCell<Vec<Event>>>;

#[derive(Drop)]
pub(crate) struct SeenDisk {
    disk: MemDisk,
    seen: Seen,
}

impl SeenDisk {
    pub(crate) fn new(disk: MemDisk, seen: Seen) -> SeenDisk {
        SeenDisk { disk, seen }
    }

    // Notes the last event of the disk, if it is a further one.
    fn note(&self) {
        if let Ok(mut seen) = self.seen.try_borrow_mut() {
            let count = seen.len();
            if let Some(event) = self.disk.history().get(count) {
                let _ = seen.push(*event);
            }
        }
    }
}

impl Disk for SeenDisk {
    ghost use Rattle.crash_disk.specs.MemDisk.{mem_disk_of};

    ghost state = { λ seen. mem_disk_of seen.disk };

    fn sectors(&self) -> u64 {
        self.disk.sectors()
    }

    fn read(&mut self, n: u64, into: &mut Sector) -> Result<(), DiskFailed> {
        self.disk.read(n, into)
    }

    fn count_reads(&mut self, many: u64) {
        self.disk.count_reads(many);
    }

    fn write(&mut self, n: u64, from: &Sector) -> Result<(), DiskFailed> {
        let result = self.disk.write(n, from);
        self.note();
        result
    }

    fn flush(&mut self) -> Result<(), DiskFailed> {
        let result = self.disk.flush();
        self.note();
        result
    }

    fn events(&self) -> Option<&[Event]> {
        self.disk.events()
    }

    fn wants_room(&self) -> bool {
        false
    }
}
