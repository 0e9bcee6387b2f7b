//! The image is opened, and then the random bytes.
ghost use Rattle.std.specs.Prelude.{◌≡◌, ◌∷◌, [], IfErr, IfOk, not, string_bytes};
ghost use Rattle.file_edge.specs.FileCabinet.{new_cabinet};
ghost use Rattle.file_edge.specs.RandomFile.{left_in, new_entropy};
ghost use Rattle.image_layers.specs.Images.{AsksPart, OpensNamed, TellsImage};
ghost use Rattle.nbd_run.specs.Words.{attaches_readonly};

use crate::words::{Asked, is_read_only};
use block_traits::{Cabinet, Disk, Entropy, NoMemory};
use file_edge::{FileCabinet, FileDisk, ImageFile, Opener, RandomFile};
use image_layers::{ImageDisk, open_all};
use std::alloc::Global;
use std::slice;

/// What is opened: the disk of the image, the files beside it, and the random bytes.
#[derive(Drop)]
pub(crate) struct Opened<O: Opener + Drop>
where
    FileDisk<O::File>: Disk,
{
    pub(crate) disk: ImageDisk<O::File>,
    pub(crate) files: FileCabinet<O>,
    pub(crate) entropy: RandomFile<O::File>,
}

/// Opens the image that is asked for, to be changed unless it is attached read-only, and then the random bytes; no call
/// was made of what is handed out. If there was no memory the opener comes back, and names have what they had.
pub(crate) fn open_asked<O: Opener + Drop>(
    alloc: Global,
    opener: O,
    asked: &Asked,
) -> Result<Opened<O>, (O, NoMemory)>
    ensures opens { IfOk result (λ opened. OpensNamed (⟦<O as Opener>⟧) (⟦<O::File as ImageFile>⟧)
        (not (attaches_readonly asked.now.command)) (string_bytes asked.now.name ∷ []) (opened.disk ∷ [])
        opened.files.images.items opened.entropy opener opened.files.opener) }
    ensures tells { IfOk result (λ opened. TellsImage O.File.told opened.disk) }
    ensures files { IfOk result (λ opened. (⟦<FileCabinet<O> as Cabinet>⟧).state opened.files
        ≡ new_cabinet opened.files.images.items (O.told opened.files.opener)) }
    ensures random { IfOk result (λ opened. (⟦<RandomFile<O::File> as Entropy>⟧).state opened.entropy
        ≡ new_entropy (left_in O.File.left opened.entropy.device)) }
    ensures told { IfErr result (λ refused. O.told refused.0 ≡ O.told opener) }
    ensures asked_part { IfErr result (λ refused. AsksPart O.asked (not (attaches_readonly asked.now.command))
        (string_bytes asked.now.name) opener refused.0) }
{
    let changes = !is_read_only(&asked.command);
    let names = slice::from_ref(&asked.name);
    let image_layers::Opened {
        mut disks,
        files,
        entropy,
    } = open_all(alloc, opener, changes, names)?;
    let disk = disks.remove(0);
    Ok(Opened {
        disk,
        files,
        entropy,
    })
}
