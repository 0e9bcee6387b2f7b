//! What crashes leave of a disk.
use crate::fault::Fault;
use crate::line::{Form, Line};
use crash_disk::{Pick, SparseDisk, SurvivorFault, Torn, sparse_survivor};
use std::alloc::Global;

/// The picks and torn sectors that were gathered for the next survivor.
#[derive(Drop)]
pub struct Choices {
    picks: Vec<Pick>,
    torn: Vec<Torn>,
}

/// What came of a survivor.
#[derive(Drop)]
pub enum Crashed {
    /// The disk.
    Disk(SparseDisk),
    /// This pick is bad.
    BadPick(usize),
    /// This torn sector is bad.
    BadTorn(usize),
    /// The moment lies beyond the last event.
    Beyond,
}

impl Choices {
    /// Nothing was gathered.
    pub fn new(alloc: Global) -> Choices {
        Choices {
            picks: Vec::new(alloc),
            torn: Vec::new(alloc),
        }
    }

    /// Adds a pick.
    pub fn pick(&mut self, n: u64, place: u64) -> Result<(), Fault> {
        let place = place as usize;
        Ok(self.picks.push(Pick { n, place })?)
    }

    /// Adds a torn sector: the bytes of the line, with zeros after them.
    pub fn tear(&mut self, alloc: Global, line: &mut Line<'_>) -> Result<(), Fault> {
        let n = line.number();
        let mut front = Vec::new(alloc);
        line.bytes(alloc, Form::Hex, &mut front)?;
        let mut bytes = [0; 512];
        if front.len() > bytes.len() {
            return Err(Fault::Bad("more bytes than a sector has"));
        }
        for (into, byte) in bytes.iter_mut().zip(front.as_slice()) {
            *into = *byte;
        }
        Ok(self.torn.push(Torn { n, bytes })?)
    }

    /// What a crash leaves after so many events, by what was gathered, which is then forgotten.
    pub fn survivor(
        &mut self,
        alloc: Global,
        disk: &SparseDisk,
        moment: u64,
    ) -> Result<Crashed, Fault> {
        let made = survivor_at(alloc, disk, moment as usize, &self.picks, &self.torn);
        self.picks.clear();
        self.torn.clear();
        made
    }
}

/// What a crash leaves of a disk after so many events.
pub fn survivor_at(
    alloc: Global,
    disk: &SparseDisk,
    moment: usize,
    picks: &[Pick],
    torn: &[Torn],
) -> Result<Crashed, Fault> {
    if moment > disk.history().len() {
        return Ok(Crashed::Beyond);
    }
    match sparse_survivor(alloc, disk, moment, picks, torn) {
        Ok(disk) => Ok(Crashed::Disk(disk)),
        Err(SurvivorFault::BadPick { index }) => Ok(Crashed::BadPick(index)),
        Err(SurvivorFault::BadTorn { index }) => Ok(Crashed::BadTorn(index)),
        Err(SurvivorFault::NoMemory) => Err(Fault::NoMemory),
    }
}
