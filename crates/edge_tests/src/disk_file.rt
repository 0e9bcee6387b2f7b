//! A file whose sectors are those of a disk, and which reports what the disk does.
ghost use Rattle.std.specs.Prelude.{◌≡◌, ◌≤◌, ◌*◌, IfOk, None, Some, drop, false, length};

use block_traits::{ByteList, Disk};
use file_edge::{FileId, FileKind, Found, ImageFile};
use std::alloc::Global;
use std::io::{self, ErrorKind};

/// A file over a disk; each read of it is one sector. From its front it gives these bytes, and reports them.
#[derive(Drop)]
pub struct DiskFile<D: Disk> {
    disk: D,
    id: FileId,
    bytes: Vec<u8>,
    given: usize,
    held: bool,
    ghost within: { given ≤ length bytes.items },
}

impl<D: Disk> DiskFile<D> {
    /// The file of a disk.
    pub fn new(disk: D, id: FileId, bytes: Vec<u8>) -> DiskFile<D>
        ensures disk { result.disk ≡ disk }
        ensures id { result.id ≡ id }
        ensures bytes { result.bytes ≡ bytes }
        ensures given { result.given ≡ 0 }
        ensures free { result.held ≡ false }
    {
        DiskFile {
            disk,
            id,
            bytes,
            given: 0,
            held: false,
        }
    }
}

fn refused() -> io::Error {
    io::Error::from(ErrorKind::StorageFull)
}

impl<D: Disk> ImageFile for DiskFile<D> {
    ghost use Rattle.edge_tests.specs.LoggedFile.{told_of};

    ghost tells = { λ file found. IfOk found (λ is. is.id ≡ file.id) };

    ghost locks = { λ _ _ _. Unit {0} };

    ghost ends = { λ file end _. end ≡ Some (512 * (D.state file.disk).size) };

    ghost reads = { λ _ _ _. Unit {0} };

    ghost writes = { λ _ _ _ _. Unit {0} };

    ghost syncs = { λ _ _. Unit {0} };

    ghost held = { λ file. file.held };

    ghost calls = { λ _. None };

    ghost told = { λ file. told_of (D.state file.disk) };

    ghost left = { λ file. Some (drop file.given file.bytes.items) };

    ghost fills = { λ _ _ _ _. Unit {0} };

    ghost holds = { λ _ _ _. Unit {0} };

    fn found(&self) -> io::Result<Found> {
        Ok(Found {
            id: self.id,
            kind: FileKind::Regular,
        })
    }

    fn lock(&mut self) -> io::Result<()> {
        self.held = true;
        Ok(())
    }

    fn is_held(&self) -> bool {
        self.held
    }

    #[tactic(auto, using(crate::proofs::LoggedFile::ends_told))]
    fn end(&mut self) -> io::Result<u64> {
        self.given = self.bytes.len();
        Ok(512 * self.disk.sectors())
    }

    // A sector at a time is read, and no more.
    #[tactic(auto, using(crate::proofs::LoggedFile::same_logged, crate::proofs::LoggedFile::same_failed, crate::proofs::LoggedFile::reads_told))]
    fn read_bytes(&mut self, at: u64, into: &mut [u8]) -> io::Result<()> {
        if into.len() != 512 || at / 512 >= self.disk.sectors() {
            return Err(refused());
        }
        let mut sector = [0; 512];
        match self.disk.read(at / 512, &mut sector) {
            Ok(()) => {
                into.copy_from_slice(&sector);
                Ok(())
            }
            Err(_) => Err(refused()),
        }
    }

    #[tactic(auto, using(file_edge::proofs::Left::leaves_nothing, crate::proofs::LoggedFile::leaves_logged, crate::proofs::LoggedFile::leaves_failed))]
    fn write_bytes(&mut self, at: u64, from: &[u8]) -> io::Result<()> {
        let first = at / 512;
        if first + from.len() as u64 / 512 > self.disk.sectors() {
            return Err(refused());
        }
        match self.disk.write_sectors(first, from) {
            Ok(()) => Ok(()),
            Err(_) => Err(refused()),
        }
    }

    #[tactic(auto, using(crate::proofs::LoggedFile::leaves_logged, crate::proofs::LoggedFile::leaves_failed))]
    fn sync(&mut self) -> io::Result<()> {
        match self.disk.flush() {
            Ok(()) => Ok(()),
            Err(_) => Err(refused()),
        }
    }

    fn fill_all(&mut self, into: &mut [u8]) -> io::Result<()> {
        let left = &self.bytes[self.given..];
        if left.len() < into.len() {
            return Err(refused());
        }
        into.copy_from_slice(&left[..into.len()]);
        self.given += into.len();
        Ok(())
    }

    fn read_all(self, alloc: Global, most: u64) -> io::Result<ByteList> {
        let left = &self.bytes[self.given..];
        let count = most.min(left.len() as u64) as usize;
        match Vec::from_slice(alloc, &left[..count]) {
            Ok(bytes) => Ok(ByteList::from_vec(bytes)),
            Err(_) => Err(io::Error::from(ErrorKind::OutOfMemory)),
        }
    }
}
