//! The disks of images, each by what its name asks for.
ghost use Rattle.std.specs.Prelude.{◌≡◌, ◌⊎◌, ◌∷◌, [], IfOk, OnErr};
ghost use Rattle.file_edge.specs.FileDisk.{AsksDisk, TellsFile};
ghost use Rattle.image_layers.specs.Images.{AsksFiles, AsksPart, JoinsOrIsNone, OpensBoth, OpensImageDisk, OpensOne, TellsImage, WaitsFor, opening};

use block_traits::{Disk, NoMemory};
use disk_layers::{Concat, Parts, WriteBehind, parts_of};
use file_edge::{FileDisk, FileId, ImageFile, Opener};
use std::alloc::Global;

// How many writes may wait for a file.
const ROOM: u32 = 256;

/// The disk of an image, by what its name asks for.
#[derive(Drop)]
pub enum ImageDisk<F: Drop>
where
    FileDisk<F>: Disk,
{
    /// The file of the name.
    Plain(FileDisk<F>),
    /// A file for which writes wait.
    Behind(WriteBehind<FileDisk<F>>),
    /// Two files as one.
    Join(Concat<FileDisk<F>, FileDisk<F>>),
}

/// The disk of the image of a name. The files in that name are opened in their order, to be changed or not, beside the
/// files that are there, and added to those. Nothing else is asked of the opener; names have what they had. Two files
/// that are too large for one disk are a disk of two sectors whose every call fails.
pub fn open_image<O: Opener>(
    alloc: Global,
    opener: &mut O,
    files: &mut Vec<FileId>,
    changes: bool,
    name: &str,
) -> Result<ImageDisk<O::File>, NoMemory>
where
    FileDisk<O::File>: Disk,
    ensures opens { IfOk result (λ disk. OpensImageDisk (⟦<O as Opener>⟧) (⟦<O::File as ImageFile>⟧)
        changes name.now disk (opening opener.old files.old.items) (opening opener.new files.new.items)) }
    ensures tells { IfOk result (TellsImage O.File.told) }
    ensures told { O.told opener.new ≡ O.told opener.old }
    ensures asked_part { OnErr result (AsksPart O.asked changes name.now opener.old opener.new) }
{
    match parts_of(name) {
        Parts::Whole => match open_named(opener, files, changes, name) {
            Ok(disk) => Ok(ImageDisk::Plain(disk)),
            Err(fault) => Err(fault),
        },
        Parts::Behind(rest) => match open_named(opener, files, changes, rest) {
            Ok(disk) => wait_for(alloc, disk),
            Err(fault) => Err(fault),
        },
        Parts::Join(first, second) => match open_both(opener, files, changes, first, second) {
            Ok((first, second)) => Ok(join(first, second)),
            Err(fault) => Err(fault),
        },
    }
}

// A disk for which writes wait.
fn wait_for<F: Drop>(alloc: Global, disk: FileDisk<F>) -> Result<ImageDisk<F>, NoMemory>
where
    FileDisk<F>: Disk,
    ensures { IfOk result (WaitsFor disk) }
{
    match WriteBehind::new(alloc, disk, ROOM) {
        Ok(behind) => Ok(ImageDisk::Behind(behind)),
        Err((_, fault)) => Err(fault),
    }
}

// Two disks as one; if they are too large together, a disk that isn't open, whose every call fails.
fn join<F: Drop>(first: FileDisk<F>, second: FileDisk<F>) -> ImageDisk<F>
where
    FileDisk<F>: Disk,
    ensures { JoinsOrIsNone first second result }
{
    if first.sectors() + second.sectors() < 1 << 44 {
        ImageDisk::Join(Concat::new(first, second))
    } else {
        ImageDisk::Plain(FileDisk::unopened(None))
    }
}

// The disks of two files.
fn open_both<O: Opener>(
    opener: &mut O,
    files: &mut Vec<FileId>,
    changes: bool,
    first: &str,
    second: &str,
) -> Result<(FileDisk<O::File>, FileDisk<O::File>), NoMemory>
    ensures opens { IfOk result (λ both. OpensBoth (⟦<O as Opener>⟧) (⟦<O::File as ImageFile>⟧)
        changes first.now second.now both.0 both.1
        (opening opener.old files.old.items) (opening opener.new files.new.items)) }
    ensures tells { IfOk result (λ both. TellsFile O.File.told both.0 × TellsFile O.File.told both.1) }
    ensures told { O.told opener.new ≡ O.told opener.old }
    ensures asked_part { OnErr result (AsksFiles O.asked changes (first.now ∷ []) opener.old opener.new
        ⊎ AsksFiles O.asked changes (first.now ∷ second.now ∷ []) opener.old opener.new) }
{
    let first = open_named(opener, files, changes, first)?;
    let second = open_named(opener, files, changes, second)?;
    Ok((first, second))
}

// The disk of the file of a name, and its file among the others.
fn open_named<O: Opener>(
    opener: &mut O,
    files: &mut Vec<FileId>,
    changes: bool,
    name: &str,
) -> Result<FileDisk<O::File>, NoMemory>
    ensures opens { IfOk result (λ disk. OpensOne (⟦<O as Opener>⟧) (⟦<O::File as ImageFile>⟧) changes name.now disk
        (opening opener.old files.old.items) (opening opener.new files.new.items)) }
    ensures tells { IfOk result (TellsFile O.File.told) }
    ensures told { O.told opener.new ≡ O.told opener.old }
    ensures asked { AsksDisk O.asked opener.old changes name.now opener.new }
{
    let disk = FileDisk::open(opener, files.as_slice(), changes, name);
    if let Some(id) = disk.id() {
        files.push(id)?;
    }
    Ok(disk)
}
