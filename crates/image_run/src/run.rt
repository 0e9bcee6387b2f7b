//! The run of the words over the images that they name.
ghost use Rattle.std.specs.Prelude.{◌≡◌, ◌⊎◌, IfErr, IfOk, None, OnErr, OnOk, map, string_bytes};
ghost use Rattle.block_traits.specs.Causes.{Rose};
ghost use Rattle.command_words.specs.Images.{script_images};
ghost use Rattle.geli_core.specs.Images.{outside_of};
ghost use Rattle.geli_core.specs.Script.{Ends};
ghost use Rattle.image_run.specs.Program.{AsksFirstFiles, HasOpened, RunsOverFiles};
ghost use Rattle.shelf.specs.Shelved.{drawers_of};

use block_traits::{Cabinet, Disk, Entropy, NoMemory, Sink, Source};
use command_words::{changes, read_words};
use file_edge::{FileCabinet, FileDisk, ImageFile, Opener, RandomFile};
use geli_core::{AddFault, Drawers, Outside, Status, run_over};
use image_layers::{ImageDisk, Opened, open_all};
use std::alloc::Global;

/// Reads the words, runs what they ask for over the images that they name, and returns the status and what the run
/// left: the shelf with the disks, the files and the random bytes. Each image is opened, in order, to be changed unless
/// the command only reads; then the random bytes are opened, and nothing else. If the opener reports what its names
/// have, the files and random bytes of the run are those. If there was no memory for this, nothing was read or printed,
/// names have what they had, and the opener comes back. Words that aren't those of a script read nothing of the input.
/// The status is by the words: `ReadFault` only if the input failed, `WriteFault` only if the output did.
pub fn run_files<O: Opener + Drop, S: Source, K: Sink>(
    alloc: Global,
    words: &[String],
    opener: O,
    input: &mut S,
    output: &mut K,
) -> Result<
    (
        Status,
        Drawers<ImageDisk<O::File>>,
        FileCabinet<O>,
        RandomFile<O::File>,
    ),
    (O, NoMemory),
>
    ensures runs { IfOk result (λ ran. RunsOverFiles
        (⟦<FileDisk<O::File> as Disk>⟧) (⟦<O as Opener>⟧) (⟦<O::File as ImageFile>⟧)
        (map string_bytes words.now) opener (S.state input.old) (K.state output.old) ran.0
        (drawers_of (⟦<ImageDisk<O::File> as Disk>⟧).state ran.1.drawers)
        (outside_of ((⟦<FileCabinet<O> as Cabinet>⟧).state ran.2) ((⟦<RandomFile<O::File> as Entropy>⟧).state ran.3)
        (S.state input.new) (K.state output.new))) }
    ensures ends { IfOk result (λ ran. Ends (map string_bytes words.now) ran.0) }
    ensures read { IfOk result (λ ran. ran.0 ≡ Status.ReadFault →
        Rose (S.state input.old).faults (S.state input.new).faults) }
    ensures write { IfOk result (λ ran. ran.0 ≡ Status.WriteFault →
        Rose (K.state output.old).faults (K.state output.new).faults) }
    ensures unread { OnOk result (script_images (map string_bytes words.now) ≡ None → input.new ≡ input.old) }
    ensures nothing { OnErr result ((input.new ≡ input.old) × (output.new ≡ output.old)) }
    ensures told { IfErr result (λ refused. O.told refused.0 ≡ O.told opener) }
    ensures asked { IfErr result (λ refused. AsksFirstFiles O.asked (map string_bytes words.now) opener refused.0
        ⊎ HasOpened (⟦<FileDisk<O::File> as Disk>⟧) (⟦<O as Opener>⟧) (⟦<O::File as ImageFile>⟧)
        (map string_bytes words.now) opener refused.0) }
{
    let Ok(said) = read_words(alloc, words) else {
        return Err((opener, NoMemory));
    };
    let Ok(names) = said.images(alloc) else {
        return Err((opener, NoMemory));
    };
    let Opened {
        disks,
        mut files,
        mut entropy,
    } = open_all(alloc, opener, changes(&said), names.as_slice())?;
    let mut outside = Outside::new(input, output, &mut files, &mut entropy);
    match run_over(alloc, &said, names.as_slice(), disks, &mut outside) {
        Ok((status, shelf)) => Ok((status, shelf, files, entropy)),
        Err(refused) => Err((files.into_opener(), memory_fault(refused.fault))),
    }
}

// A shelf has room for images whose names differ, so only memory may be wanting.
fn memory_fault(fault: AddFault) -> NoMemory
    requires { fault ≡ AddFault.NoMemory }
{
    match fault {
        AddFault::NoMemory => NoMemory,
        AddFault::Full => unreachable!(),
        AddFault::Taken => unreachable!(),
    }
}
