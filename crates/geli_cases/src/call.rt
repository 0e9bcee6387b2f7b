//! The program's run over disks.
use crate::disks::Disks;
use crate::fault::Fault;
use crate::run_disk::RunDisk;
use block_traits::Disk;
use crash_disk::{MemCabinet, MemEntropy, MemSink, MemSource, SparseDisk};
use geli_core::{AddFault, Drawers, Outside, run_images};
use std::alloc::Global;

/// A disk of a run, and its name.
#[derive(Drop)]
pub struct Drawer {
    name: String,
    disk: RunDisk,
}

/// What the top call is given besides the words and the shelf.
#[derive(Drop)]
pub struct Objects {
    pub input: MemSource,
    pub output: MemSink,
    pub cabinet: MemCabinet,
    pub entropy: MemEntropy,
}

/// Adds a disk to those of a run.
pub fn add_drawer(
    alloc: Global,
    name: &str,
    disk: RunDisk,
    into: &mut Vec<Drawer>,
) -> Result<(), Fault> {
    let name = String::from_str(alloc, name)?;
    Ok(into.push(Drawer { name, disk })?)
}

/// Makes the program's run over the disks, in order, and returns the number of its status. The disks of the case note
/// which of them are still on the shelf.
pub fn top_call(
    alloc: Global,
    drawers: Vec<Drawer>,
    words: &[String],
    objects: &mut Objects,
    disks_of_case: &mut Disks,
) -> Result<u8, Fault> {
    let mut names = Vec::new(alloc);
    let mut disks: Vec<Box<dyn Disk>> = Vec::new(alloc);
    for drawer in drawers {
        let Drawer { name, disk } = drawer;
        names.push(name)?;
        let disk: Box<dyn Disk> = Box::new(alloc, disk)?;
        disks.push(disk)?;
    }
    if disks.len() != names.len() {
        return Err(Fault::Bad("a disk without a name"));
    }
    let mut outside = Outside::new(
        &mut objects.input,
        &mut objects.output,
        &mut objects.cabinet,
        &mut objects.entropy,
    );
    match run_images(alloc, words, &names, disks, &mut outside) {
        Ok((status, _shelf)) => {
            disks_of_case.note_kept();
            Ok(status.number())
        }
        Err(_) => Err(Fault::Bad("the shelf refuses a disk")),
    }
}

/// Why a shelf with these drawers refuses a further disk of this name, or none if it takes the disk.
pub fn refusal_of(
    alloc: Global,
    drawers: &[Drawer],
    name: &str,
) -> Result<Option<&'static str>, Fault> {
    let mut shelf = Drawers::new(alloc)?;
    for drawer in drawers {
        let _ = shelf.add(drawer.name.as_str(), SparseDisk::new(alloc, 2, 0)?);
    }
    match shelf.add(name, SparseDisk::new(alloc, 2, 0)?) {
        Ok(()) => Ok(None),
        Err((_, fault)) => Ok(Some(refusal(fault))),
    }
}

// How the transcript says that the shelf refused a disk.
fn refusal(fault: AddFault) -> &'static str {
    match fault {
        AddFault::Full => "Full",
        AddFault::Taken => "Taken",
        AddFault::NoMemory => "NoMemory",
    }
}
