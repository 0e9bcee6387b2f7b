//! What a run begins with: the images of some names are opened, and then the random bytes.
ghost use Rattle.std.specs.Prelude.{◌≡◌, [], All, IfErr, IfOk, OnErr, map, string_bytes};
ghost use Rattle.file_edge.specs.FileCabinet.{new_cabinet};
ghost use Rattle.file_edge.specs.RandomFile.{left_in, new_entropy};
ghost use Rattle.image_layers.specs.Images.{AsksUpTo, OpensImages, OpensNamed, TellsImage, opening};

use crate::image_disks::{ImageDisk, open_image};
use block_traits::{Cabinet, Disk, Entropy, NoMemory};
use file_edge::{FileCabinet, FileDisk, FileId, ImageFile, Opener, RandomFile};
use std::alloc::Global;

/// The disks of images, and the files that the names led to.
#[derive(Drop)]
struct Images<F: Drop>
where
    FileDisk<F>: Disk,
{
    disks: Vec<ImageDisk<F>>,
    files: Vec<FileId>,
}

/// The disks of the images of these names, opened one after another, to be changed or not.
fn open_images<O: Opener>(
    alloc: Global,
    opener: &mut O,
    changes: bool,
    names: &[String],
) -> Result<Images<O::File>, NoMemory>
where
    FileDisk<O::File>: Disk,
    ensures opens { IfOk result (λ images. OpensImages (⟦<O as Opener>⟧) (⟦<O::File as ImageFile>⟧)
        changes (map string_bytes names.now) images.disks.items
        (opening opener.old []) (opening opener.new images.files.items)) }
    ensures tells { IfOk result (λ images. All (TellsImage O.File.told) images.disks.items) }
    ensures told { O.told opener.new ≡ O.told opener.old }
    ensures asked_part { OnErr result (AsksUpTo O.asked changes (map string_bytes names.now) opener.old opener.new) }
{
    let mut disks = Vec::new(alloc);
    let mut files = Vec::new(alloc);
    for name in names {
        disks.push(open_image(alloc, opener, &mut files, changes, name.as_str())?)?;
    }
    Ok(Images { disks, files })
}

/// What a run begins with: the disks of its images, the files beside them, and the random bytes.
#[derive(Drop)]
pub struct Opened<O: Opener + Drop>
where
    FileDisk<O::File>: Disk,
{
    /// The disks, in the order of the names.
    pub disks: Vec<ImageDisk<O::File>>,
    /// The files beside the images.
    pub files: FileCabinet<O>,
    /// The random bytes.
    pub entropy: RandomFile<O::File>,
}

/// Opens the images of these names, to be changed or not, and then the random bytes; no call was made of what is handed
/// out. If there was no memory the opener comes back, and names have what they had.
pub fn open_all<O: Opener + Drop>(
    alloc: Global,
    opener: O,
    changes: bool,
    names: &[String],
) -> Result<Opened<O>, (O, NoMemory)>
    ensures opens { IfOk result (λ opened. OpensNamed (⟦<O as Opener>⟧) (⟦<O::File as ImageFile>⟧)
        changes (map string_bytes names.now)
        opened.disks.items opened.files.images.items opened.entropy opener opened.files.opener) }
    ensures tells { IfOk result (λ opened. All (TellsImage O.File.told) opened.disks.items) }
    ensures files { IfOk result (λ opened. (⟦<FileCabinet<O> as Cabinet>⟧).state opened.files
        ≡ new_cabinet opened.files.images.items (O.told opened.files.opener)) }
    ensures random { IfOk result (λ opened. (⟦<RandomFile<O::File> as Entropy>⟧).state opened.entropy
        ≡ new_entropy (left_in O.File.left opened.entropy.device)) }
    ensures told { IfErr result (λ refused. O.told refused.0 ≡ O.told opener) }
    ensures asked_part { IfErr result (λ refused.
        AsksUpTo O.asked changes (map string_bytes names.now) opener refused.0) }
{
    let mut opener = opener;
    match open_images(alloc, &mut opener, changes, names) {
        Ok(Images { disks, files }) => {
            let entropy = RandomFile::open(&mut opener);
            Ok(Opened {
                disks,
                files: FileCabinet::new(opener, files),
                entropy,
            })
        }
        Err(fault) => Err((opener, fault)),
    }
}
