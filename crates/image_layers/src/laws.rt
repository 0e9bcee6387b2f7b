//! What holds of the disk of every image.
ghost use Rattle.image_layers.specs.InFiles.{EachIsCovered, EachIsLeft};

use block_traits::Disk;
use file_edge::{FileDisk, ImageFile};

/// Whatever a power failure leaves of the files of an image, it may leave of what the disk of the image reports, at any
/// time between its calls: also if writes wait for the file, or two files are one.
pub fn images_cover_their_files<F: ImageFile>()
    ensures { EachIsCovered (⟦<FileDisk<F> as Disk>⟧) F.told }
{}

/// Each image that a power failure leaves of the file of an image, or of both its files at the same moment, one after the
/// other, is one of those that `images_cover_their_files` is about.
pub fn images_of_files_are_left<F: ImageFile>()
    ensures { EachIsLeft (⟦<FileDisk<F> as Disk>⟧) F.told }
{}
