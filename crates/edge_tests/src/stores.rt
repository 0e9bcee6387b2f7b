//! A store over files in memory, each of whose requests can fail.
ghost use Rattle.std.specs.Prelude.{◌≡◌, ◌++◌, None, Some, is_ok, string_bytes};
ghost use Rattle.file_edge.specs.Asked.{asking};

use file_edge::{Ask, FileId, FileKind, Found, KeptAsk, Opener, Stop, SystemFile, store_file};
use std::alloc::{AllocError, Global};
use std::fs::OpenOptions;
use std::io::{self, ErrorKind};
use std::process::Abort;
use std::test::Fail;

fn some_file() -> FileId {
    FileId {
        device: 1,
        number: 2,
    }
}

// An opener in memory that keeps all that it was asked, and reports it. The first `met` names beside are taken, and the
// request number `fails`, counted from 1, fails.
#[derive(Drop)]
struct KeptFiles<R: Abort + Drop> {
    rt: R,
    alloc: Global,
    met: usize,
    fails: usize,
    asked: Vec<KeptAsk>,
    refusals: u64,
}

impl<R: Abort + Drop> KeptFiles<R> {
    ghost use Rattle.file_edge.specs.Kept.{kept_asks, kept_request};

    // Keeps a request; the test ends if there is no memory.
    fn keep(&mut self, ask: Ask, done: bool)
        ensures kept { kept_asks self.new.asked.items ≡ kept_asks self.old.asked.items ++ asking (kept_request ask) done }
        ensures refusals { self.new.refusals ≡ self.old.refusals }
    {
        self.asked
            .push(KeptAsk { ask, done })
            .map_err(AllocError::from)
            .expect(&self.rt, "memory");
    }

    // Whether the next request fails.
    fn fails_now(&self) -> bool {
        self.asked.len() + 1 == self.fails
    }

    // Keeps a request that can fail.
    fn keep_fallible(&mut self, ask: Ask) -> io::Result<()>
        ensures kept { kept_asks self.new.asked.items ≡ kept_asks self.old.asked.items ++ asking (kept_request ask) (is_ok result) }
        ensures refusals { self.new.refusals ≡ self.old.refusals }
    {
        let fails = self.fails_now();
        self.keep(ask, !fails);
        if fails {
            return Err(io::Error::from(ErrorKind::StorageFull));
        }
        Ok(())
    }

    fn text(&self, text: &str) -> String
        ensures { string_bytes result ≡ text.now }
    {
        String::from_str(self.alloc, text).expect(&self.rt, "memory")
    }

    fn bytes(&self, bytes: &[u8]) -> Vec<u8>
        ensures { result.items ≡ bytes.now }
    {
        Vec::from_slice(self.alloc, bytes).expect(&self.rt, "memory")
    }
}

impl<R: Abort + Drop> Opener for KeptFiles<R> {
    ghost use Rattle.file_edge.specs.Kept.{kept_asks};

    type File = SystemFile;

    ghost answers = { λ _ _ _ _. Unit {0} };

    ghost leads = { λ _ _ _. Unit {0} };

    ghost finds = { λ _ _ _. Unit {0} };

    ghost asked = { λ files. Some (kept_asks files.asked.items) };

    ghost refusals = { λ files. files.refusals };

    ghost told = { λ _. None };

    fn open(&mut self, how: &OpenOptions, name: &str) -> io::Result<SystemFile> {
        let how = how.clone().expect(&self.rt, "memory");
        let ask = Ask::Open(how, self.text(name));
        self.keep(ask, false);
        self.refusals = self.refusals.saturating_add(1);
        Err(io::Error::from(ErrorKind::NotFound))
    }

    fn find(&mut self, name: &str) -> io::Result<Found> {
        let ask = Ask::Find(self.text(name));
        self.keep(ask, true);
        Ok(Found {
            id: some_file(),
            kind: FileKind::Regular,
        })
    }

    fn look(&mut self, name: &str) -> io::Result<Found> {
        let ask = Ask::Look(self.text(name));
        self.keep(ask, true);
        Ok(Found {
            id: some_file(),
            kind: FileKind::Regular,
        })
    }

    fn make(&mut self, mode: u32, name: &str) -> io::Result<()> {
        let name = self.text(name);
        if self.met > 0 {
            self.met -= 1;
            self.keep(Ask::Meet(mode, name), false);
            return Err(io::Error::from(ErrorKind::AlreadyExists));
        }
        if self.fails_now() {
            self.keep(Ask::Make(mode, name), false);
            return Err(io::Error::from(ErrorKind::StorageFull));
        }
        self.keep(Ask::Make(mode, name), true);
        Ok(())
    }

    fn write(&mut self, bytes: &[u8]) -> io::Result<()> {
        let ask = Ask::Write(self.bytes(bytes));
        self.keep_fallible(ask)
    }

    fn sync(&mut self) -> io::Result<()> {
        self.keep_fallible(Ask::Sync)
    }

    fn rename(&mut self, from: &str, to: &str) -> io::Result<()> {
        let ask = Ask::Rename(self.text(from), self.text(to));
        self.keep_fallible(ask)
    }

    fn sync_folder(&mut self, name: &str) -> io::Result<()> {
        let ask = Ask::SyncFolder(self.text(name));
        self.keep_fallible(ask)
    }

    fn remove(&mut self, name: &str) {
        let ask = Ask::Remove(self.text(name));
        self.keep(ask, true);
    }
}

fn letter(ask: &Ask) -> u8 {
    match ask {
        Ask::Find(_) => b'n',
        Ask::Open(..) => b'o',
        Ask::Look(_) => b'l',
        Ask::Make(..) => b'm',
        Ask::Meet(..) => b'e',
        Ask::Write(_) => b'w',
        Ask::Sync => b's',
        Ask::Rename(..) => b'r',
        Ask::SyncFolder(_) => b'f',
        Ask::Remove(_) => b'd',
    }
}

// Each request fails in turn. A file that wasn't synced takes no name, and no other file is left; names beside that
// something has stay.
#[test]
fn a_store_stops_at_the_first_failure(rt: HostRuntime) -> Result<(), Fail> {
    let alloc = rt.alloc();
    let rows = [
        (0, 0, "lmwsrf", Ok(())),
        (0, 2, "lm", Err(Stop::Made)),
        (0, 3, "lmwd", Err(Stop::Written)),
        (0, 4, "lmwsd", Err(Stop::Synced)),
        (0, 5, "lmwsrd", Err(Stop::Renamed)),
        (0, 6, "lmwsrf", Err(Stop::FolderSynced)),
        (2, 0, "leemwsrf", Ok(())),
    ];
    for (met, fails, asked, ended) in rows {
        let mut files = KeptFiles {
            rt: rt.clone()?,
            alloc,
            met,
            fails,
            asked: Vec::new(alloc),
            refusals: 0,
        };
        let stored = store_file(&mut files, alloc, &[], b"a", b"bytes");
        assert_eq!(rt; stored, ended, "{asked}");
        let mut letters = Vec::new(alloc);
        for kept in &files.asked {
            letters.push(letter(&kept.ask))?;
        }
        assert_eq!(rt; letters.as_slice(), asked.as_bytes(), "at {asked}");
    }
    Ok(())
}
