//! What is found of a file.
ghost use Rattle.std.specs.Prelude.{◌↔◌, IsTrue};
ghost use Rattle.file_edge.specs.Found.{IsFree, IsOneOfImages, IsReplaceable};

use std::io::{self, ErrorKind};

/// A file by its device and its number there, whatever its names.
#[derive(Clone, Copy, Debug, PartialEq, Eq)]
pub struct FileId {
    /// The device.
    pub device: u64,
    /// The number of the file on the device.
    pub number: u64,
}

/// What kind of file it is.
#[derive(Clone, Copy, Debug, PartialEq, Eq)]
pub enum FileKind {
    /// A regular file.
    Regular,
    /// A block device.
    Block,
    /// Any other: a link, a folder, a pipe, a socket or another device.
    Other,
}

/// What is found of a file.
#[derive(Clone, Copy, Debug, PartialEq, Eq)]
pub struct Found {
    /// Which file it is.
    pub id: FileId,
    /// Its kind.
    pub kind: FileKind,
}

/// Whether an open file is one of these images; a file of which nothing is found may be one.
pub(crate) fn is_image(images: &[FileId], found: &io::Result<Found>) -> bool
    ensures { IsTrue result ↔ IsOneOfImages images.now found.now }
{
    match found {
        Ok(found) => images.contains(&found.id),
        Err(_) => true,
    }
}

/// Whether a file may replace what was found under its name.
pub(crate) fn is_replaceable(images: &[FileId], found: &io::Result<Found>) -> bool
    ensures { IsTrue result ↔ IsReplaceable images.now found.now }
{
    match found {
        Ok(found) => match found.kind {
            FileKind::Regular => !images.contains(&found.id),
            FileKind::Block | FileKind::Other => false,
        },
        Err(error) => match error.kind() {
            ErrorKind::NotFound => true,
            _ => false,
        },
    }
}

/// Whether an open file may be an image beside these.
pub(crate) fn is_free(images: &[FileId], found: &Found) -> bool
    ensures { IsTrue result ↔ IsFree images.now found.now }
{
    match found.kind {
        FileKind::Regular | FileKind::Block => !images.contains(&found.id),
        FileKind::Other => false,
    }
}
