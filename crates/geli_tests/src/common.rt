//! What whole runs over memory share: the objects that a run is given, and its words.
use block_traits::{Disk, DiskFailed, Event, Sector};
use command_words::read_words;
use crash_disk::{MemCabinet, MemDisk, MemEntropy, MemSink, MemSource};
use geli_core::{Drawers, Outside, Status, run};
use std::alloc::Global;
use std::cell::Cell;
use std::rc::Rc;
use std::test::Fail;

// A disk whose calls are counted where the test sees them.
#[derive(Drop)]
pub(crate) struct CountingDisk {
    disk: MemDisk,
    calls: Rc<Cell<u64>>,
}

impl CountingDisk {
    pub(crate) fn new(disk: MemDisk, calls: Rc<Cell<u64>>) -> CountingDisk {
        CountingDisk { disk, calls }
    }

    fn count(&self) {
        self.calls.set(self.calls.get().saturating_add(1));
    }
}

impl Disk for CountingDisk {
    ghost use Rattle.crash_disk.specs.MemDisk.{mem_disk_of};

    ghost state = { λ counting. mem_disk_of counting.disk };

    fn sectors(&self) -> u64 {
        self.disk.sectors()
    }

    fn read(&mut self, n: u64, into: &mut Sector) -> Result<(), DiskFailed> {
        self.count();
        self.disk.read(n, into)
    }

    fn count_reads(&mut self, many: u64) {
        self.disk.count_reads(many);
    }

    fn write(&mut self, n: u64, from: &Sector) -> Result<(), DiskFailed> {
        self.count();
        self.disk.write(n, from)
    }

    fn flush(&mut self) -> Result<(), DiskFailed> {
        self.count();
        self.disk.flush()
    }

    fn events(&self) -> Option<&[Event]> {
        self.disk.events()
    }

    fn wants_room(&self) -> bool {
        false
    }
}

/// What runs are given beside their words and their output.
#[derive(Drop)]
pub(crate) struct World {
    shelf: Drawers<CountingDisk>,
    files: MemCabinet,
    entropy: MemEntropy,
    calls: Rc<Cell<u64>>,
}

impl World {
    // An image of 64 sectors of zeros under the name `a.img`, a cabinet, and random bytes for ten providers.
    pub(crate) fn new(alloc: Global) -> Result<World, Fail> {
        let calls = Rc::new(alloc, Cell::new(0))?;
        let disk = CountingDisk::new(MemDisk::new(alloc, 64, 64)?, calls.clone()?);
        let mut shelf = Drawers::new(alloc)?;
        if shelf.add("a.img", disk).is_err() {
            return Err(Fail::from("the shelf has no room"));
        }
        Ok(World {
            shelf,
            files: stock(alloc)?,
            entropy: MemEntropy::new(alloc, &[0x5a; 3840])?,
            calls,
        })
    }

    // How many calls the disk got.
    pub(crate) fn calls(&self) -> u64 {
        self.calls.get()
    }

    // Runs the words of a line over this input.
    pub(crate) fn run(
        &mut self,
        alloc: Global,
        line: &str,
        input: &str,
        output: &mut MemSink,
    ) -> Result<Status, Fail> {
        let words = words(alloc, line)?;
        let mut input = MemSource::new(alloc, input.as_bytes(), &[], &[])?;
        let said = read_words(alloc, &words)?;
        let mut outside = Outside::new(&mut input, output, &mut self.files, &mut self.entropy);
        Ok(run(alloc, &said, &mut self.shelf, &mut outside))
    }
}

// A cabinet with a key file and a passphrase.
pub(crate) fn stock(alloc: Global) -> Result<MemCabinet, Fail> {
    let mut files = MemCabinet::new(alloc);
    files.put("k", b"key")?;
    files.put("p", b"abc\n")?;
    Ok(files)
}

// The words of a line, each between two blanks.
pub(crate) fn words(alloc: Global, line: &str) -> Result<Vec<String>, Fail> {
    let mut words = Vec::new(alloc);
    for word in line.split(' ') {
        words.push(String::from_str(alloc, word)?)?;
    }
    Ok(words)
}
