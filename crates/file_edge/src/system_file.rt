//! A file of the system, open.
ghost use Rattle.std.specs.Prelude.{◌≡◌, None, false};

use crate::found::{FileKind, Found};
use crate::image_file::ImageFile;
use crate::opener::found_of;
use block_traits::ByteList;
use std::alloc::Global;
use std::fs::File;
use std::io::{self, ErrorKind, Read, Seek, SeekFrom};
use std::os::unix::fs::FileExt;

/// A file of the system, and whether it is locked. It reports neither its results nor what it holds.
#[derive(Drop)]
pub struct SystemFile {
    file: File,
    held: bool,
}

impl SystemFile {
    /// A file that was just opened.
    pub fn new(file: File) -> SystemFile
        ensures file { result.file ≡ file }
        ensures held { result.held ≡ false }
    {
        SystemFile { file, held: false }
    }

    // The room for at most so many bytes, and for one more, which shows that nothing follows. What isn't a regular file
    // doesn't tell its size.
    fn room(&self, most: u64) -> io::Result<u64> {
        let metadata = self.file.metadata()?;
        let size = match found_of(&metadata).kind {
            FileKind::Regular => most.min(metadata.len()),
            FileKind::Block | FileKind::Other => most,
        };
        Ok(size.saturating_add(1))
    }
}

impl ImageFile for SystemFile {
    ghost tells = { λ _ _. Unit {0} };

    ghost locks = { λ _ _ _. Unit {0} };

    ghost ends = { λ _ _ _. Unit {0} };

    ghost reads = { λ _ _ _. Unit {0} };

    ghost writes = { λ _ _ _ _. Unit {0} };

    ghost syncs = { λ _ _. Unit {0} };

    ghost held = { λ file. file.held };

    ghost calls = { λ _. None };

    ghost told = { λ _. None };

    ghost left = { λ _. None };

    ghost fills = { λ _ _ _ _. Unit {0} };

    ghost holds = { λ _ _ _. Unit {0} };

    fn found(&self) -> io::Result<Found> {
        Ok(found_of(&self.file.metadata()?))
    }

    fn lock(&mut self) -> io::Result<()> {
        match self.file.try_lock() {
            Ok(()) => {
                self.held = true;
                Ok(())
            }
            Err(error) => {
                self.held = false;
                Err(io::Error::from(error))
            }
        }
    }

    fn is_held(&self) -> bool {
        self.held
    }

    // The end is sought, so that a block device has one too.
    fn end(&mut self) -> io::Result<u64> {
        self.file.seek(SeekFrom::End(0))
    }

    fn read_bytes(&mut self, at: u64, into: &mut [u8]) -> io::Result<()> {
        self.file.read_exact_at(into, at)
    }

    #[tactic(auto, using(crate::proofs::Left::leaves_untold))]
    fn write_bytes(&mut self, at: u64, from: &[u8]) -> io::Result<()> {
        self.file.write_all_at(from, at)
    }

    fn sync(&mut self) -> io::Result<()> {
        self.file.sync_data()
    }

    fn fill_all(&mut self, into: &mut [u8]) -> io::Result<()> {
        self.file.read_exact(into)
    }

    // There is room for all before the first byte is read, since a block that became too small would be left as it is.
    // What was read is overwritten even if the rest can't be.
    fn read_all(self, alloc: Global, most: u64) -> io::Result<ByteList> {
        let room = self.room(most)?;
        let Ok(mut bytes) = Vec::with_capacity(alloc, room as usize) else {
            return Err(io::Error::from(ErrorKind::OutOfMemory));
        };
        let read = self.file.take(most).read_to_end(&mut bytes);
        let bytes = ByteList::from_vec(bytes);
        let _ = read?;
        Ok(bytes)
    }
}
