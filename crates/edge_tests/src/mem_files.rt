//! An opener over files in memory, which reports what its names have.
ghost use Rattle.std.specs.Prelude.{◌≡◌, None, Some, string_bytes};
ghost use Rattle.std.specs.IoError.{error_kind};

use crate::disk_file::DiskFile;
use crate::mem_folder::MemFolder;
use crate::seen_disk::{Seen, SeenDisk};
use crash_disk::{FailAt, MemDisk};
use file_edge::{FileId, FileKind, Found, Opener};
use std::alloc::{AllocError, Global};
use std::cell::RefCell;
use std::fs::OpenOptions;
use std::io::{self, ErrorKind};
use std::process::Abort;
use std::rc::Rc;

/// All that was asked of the names of files, except to find them, in order, a letter each: `o` for an open only to
/// read, `O` for one to read and write, and `x` for any other.
pub(crate) type Changes = Rc<RefCell<Vec<u8>>>;

/// Files, each of which stands over a disk of 2,048 sectors; some calls of the disk fail. The events of the file of
/// this number are seen.
#[derive(Drop)]
pub(crate) struct MemFiles<R: Abort + Drop> {
    alloc: Global,
    pub(crate) folder: MemFolder<R>,
    fresh: String,
    fails: Vec<FailAt>,
    watched: u64,
    seen: Seen,
    changes: Changes,
    refusals: u64,
}

fn file_of(number: u64) -> FileId {
    FileId { device: 1, number }
}

fn error(kind: ErrorKind) -> io::Error
    ensures { error_kind result ≡ kind }
{
    io::Error::from(kind)
}

/// So many bytes that count up.
pub(crate) fn counted(alloc: Global, count: u64) -> Result<Vec<u8>, AllocError> {
    let mut bytes = Vec::new(alloc);
    for i in 0..count {
        bytes.push((i % 251) as u8)?;
    }
    Ok(bytes)
}

/// An empty list of events.
pub(crate) fn none_seen(alloc: Global) -> Result<Seen, AllocError> {
    Ok(Rc::new(alloc, RefCell::new(Vec::new(alloc)))?)
}

// The letter of an open.
fn letter_of(how: &OpenOptions) -> u8 {
    let more = how.asks_append()
        || how.asks_truncate()
        || how.asks_create()
        || how.asks_create_new();
    if more || !how.asks_read() {
        return b'x';
    }
    if how.asks_write() { b'O' } else { b'o' }
}

impl<R: Abort + Drop> MemFiles<R> {
    /// Two images, `a.img` of number 1 and `b.img` of number 4, a key file `k`, a passphrase `p`, and random bytes.
    pub(crate) fn new(
        rt: R,
        alloc: Global,
        fails: Vec<FailAt>,
        watched: u64,
        seen: Seen,
        changes: Changes,
    ) -> Result<MemFiles<R>, AllocError> {
        let mut folder = MemFolder::new(rt, alloc);
        folder.give("a.img", Some(file_of(1)), Some(Vec::new(alloc)));
        folder.give("k", Some(file_of(2)), Some(counted(alloc, 64)?));
        folder.give(
            "p",
            Some(file_of(3)),
            Some(Vec::from_slice(alloc, b"abc\n")?),
        );
        folder.give("b.img", Some(file_of(4)), Some(Vec::new(alloc)));
        folder.give(
            "/dev/urandom",
            Some(file_of(6)),
            Some(counted(alloc, 8000)?),
        );
        Ok(MemFiles {
            alloc,
            folder,
            fresh: String::from_str(alloc, "")?,
            fails,
            watched,
            seen,
            changes,
            refusals: 0,
        })
    }

    fn note(&self, letter: u8) {
        if let Ok(mut changes) = self.changes.try_borrow_mut() {
            let _ = changes.push(letter);
        }
    }

    fn disk(&self, id: FileId) -> Result<SeenDisk, AllocError> {
        let mut disk = MemDisk::new(self.alloc, 2048, 64).map_err(|_| AllocError)?;
        disk.fail_calls(self.fails.as_slice())
            .map_err(|_| AllocError)?;
        let seen = if id.number == self.watched {
            self.seen.clone()?
        } else {
            none_seen(self.alloc)?
        };
        Ok(SeenDisk::new(disk, seen))
    }
}

impl<R: Abort + Drop> Opener for MemFiles<R> {
    ghost use Rattle.edge_tests.specs.Change.{after_changes, nothing};

    type File = DiskFile<SeenDisk>;

    ghost answers = { λ _ _ _ _. Unit {0} };

    ghost leads = { λ _ _ _. Unit {0} };

    ghost finds = { λ _ _ _. Unit {0} };

    ghost asked = { λ _. None };

    ghost refusals = { λ files. files.refusals };

    ghost told = { λ files. Some (record {
      named = after_changes nothing files.folder.changes.items;
      fresh = string_bytes files.fresh;
    }) };

    fn open(&mut self, how: &OpenOptions, name: &str) -> io::Result<DiskFile<SeenDisk>> {
        self.note(letter_of(how));
        let Some((id, bytes)) = self.folder.file(name) else {
            self.refusals = self.refusals.saturating_add(1);
            return Err(error(ErrorKind::NotFound));
        };
        let id = id.unwrap_or(file_of(5));
        match self.disk(id) {
            Ok(disk) => Ok(DiskFile::new(disk, id, bytes)),
            Err(_) => {
                self.refusals = self.refusals.saturating_add(1);
                Err(error(ErrorKind::OutOfMemory))
            }
        }
    }

    fn find(&mut self, name: &str) -> io::Result<Found> {
        self.look(name)
    }

    fn look(&mut self, name: &str) -> io::Result<Found> {
        match self.folder.file(name) {
            Some((id, _)) => Ok(Found {
                id: id.unwrap_or(file_of(5)),
                kind: FileKind::Regular,
            }),
            None => Err(error(ErrorKind::NotFound)),
        }
    }

    fn make(&mut self, _mode: u32, name: &str) -> io::Result<()> {
        self.note(b'm');
        match self.folder.file(name) {
            Some(_) => Err(error(ErrorKind::AlreadyExists)),
            None => {
                let Ok(fresh) = String::from_str(self.alloc, name) else {
                    return Err(error(ErrorKind::OutOfMemory));
                };
                self.fresh = fresh;
                self.folder.give(name, None, Some(Vec::new(self.alloc)));
                Ok(())
            }
        }
    }

    fn write(&mut self, bytes: &[u8]) -> io::Result<()> {
        self.note(b'w');
        let Some((id, mut written)) = self.folder.file(self.fresh.as_str()) else {
            return Err(error(ErrorKind::NotFound));
        };
        if written.extend_from_slice(bytes).is_err() {
            return Err(error(ErrorKind::OutOfMemory));
        }
        self.folder.give(self.fresh.as_str(), id, Some(written));
        Ok(())
    }

    fn sync(&mut self) -> io::Result<()> {
        self.note(b's');
        Ok(())
    }

    fn rename(&mut self, from: &str, to: &str) -> io::Result<()> {
        self.note(b'r');
        let Some((id, bytes)) = self.folder.file(from) else {
            return Err(error(ErrorKind::NotFound));
        };
        self.folder.give(from, None, None);
        self.folder.give(to, id, Some(bytes));
        Ok(())
    }

    fn sync_folder(&mut self, _name: &str) -> io::Result<()> {
        self.note(b'f');
        Ok(())
    }

    fn remove(&mut self, name: &str) {
        self.note(b'd');
        self.folder.give(name, None, None);
    }
}
