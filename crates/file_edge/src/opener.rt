//! The files of the system, by their names.
ghost use Rattle.std.specs.Prelude.{◌≡◌, ◌<ℤ◌, ℕ, IfOk, List, None, Option, Result, false, is_ok, option_map, pos, true};
ghost use Rattle.std.specs.Fd.{file_raw_fd};
ghost use Rattle.std.specs.declared.fs.options.OpenOptions.{OpenOptions};
ghost use Rattle.std.specs.declared.io.Error.{Error};
ghost use Rattle.block_traits.specs.Causes.{HasCause};
ghost use Rattle.file_edge.specs.Asked.{Asked, Find, Look, Open, Remove, Rename, Sync, SyncFolder, Write, asking, making, more};
ghost use Rattle.file_edge.specs.Folder.{IsFolderOf};
ghost use Rattle.file_edge.specs.ImageFile.{IsUncalled};
ghost use Rattle.file_edge.specs.Names.{IsUsual, MakesName, NamedFiles, OpensTold, RenamesName, SyncsNames, WritesNew, without_name};
ghost use Rattle.file_edge.specs.Opening.{to_read};
ghost use Rattle.file_edge.specs.declared.found.Found.{Found};

use crate::found::{FileId, FileKind, Found};
use crate::image_file::ImageFile;
use crate::system_file::SystemFile;
use std::fs::{self, File, Metadata, OpenOptions};
use std::io::{self, ErrorKind, Write};
use std::os::fd::AsRawFd;
use std::os::unix::fs::{FileTypeExt, MetadataExt, OpenOptionsExt};
use std::rt::Files;

/// What opens files by their names, and puts new ones in the place of others. Each use of it is proved for every
/// opener. So a contract can say what is asked of it, and in which order, although nothing says what the system
/// returns.
///
/// An opener may report what its names have, the random device among them. It then always does so, only the calls below
/// change what a name has, and no sync of a folder fails.
pub trait Opener {
    /// An open file.
    type File: ImageFile + 'static;

    /// Whether it may return this for these options and this name.
    ghost answers: { Self → OpenOptions → List ℕ → Result Self.File Error → Type 0 };

    /// Whether a name may lead to this, through links.
    ghost leads: { Self → List ℕ → Result Found Error → Type 0 };

    /// Whether it may find this under a name.
    ghost finds: { Self → List ℕ → Result Found Error → Type 0 };

    /// All that it was asked, in order, if that is reported.
    ghost asked: { Self → Option (List Asked) };

    /// How often it has refused to open a file, which never falls.
    ghost refusals: { Self → ℕ };

    /// What its names have, and which of them the new file has, if that is reported.
    ghost told: { Self → Option NamedFiles };

    /// Opens the file of this name. Nothing was asked of it yet, and it isn't held.
    fn open(&mut self, how: &OpenOptions, name: &str) -> io::Result<Self::File>
        ensures answers { answers self.old how.now name.now result }
        ensures uncalled { IfOk result (λ file. IsUncalled (Self.File.calls file)) }
        ensures free { IfOk result (λ file. Self.File.held file ≡ false) }
        ensures opened { how.now ≡ to_read → OpensTold (⟦<Self::File as ImageFile>⟧) (told self.old) name.now result }
        ensures told { IsUsual how.now → told self.new ≡ told self.old }
        ensures asked { asked self.new ≡ more (asking (Open how.now name.now) (is_ok result)) (asked self.old) }
        ensures cause { HasCause (refusals self.old) (refusals self.new) result };

    /// What the name leads to; a link is followed.
    fn find(&mut self, name: &str) -> io::Result<Found>
        ensures leads { leads self.old name.now result }
        ensures told { told self.new ≡ told self.old }
        ensures asked { asked self.new ≡ more (asking (Find name.now) true) (asked self.old) };

    /// What has this name; a link is found as a link.
    fn look(&mut self, name: &str) -> io::Result<Found>
        ensures finds { finds self.old name.now result }
        ensures told { told self.new ≡ told self.old }
        ensures asked { asked self.new ≡ more (asking (Look name.now) true) (asked self.old) };

    /// Makes a file of this name, with these permissions, if nothing has the name: the new file of the next calls.
    /// `AlreadyExists`: something has it.
    fn make(&mut self, mode: u32, name: &str) -> io::Result<()>
        ensures told { MakesName name.now (is_ok result) (told self.old) (told self.new) }
        ensures asked { asked self.new ≡ more (making mode name.now result) (asked self.old) };

    /// Writes all bytes at the end of the new file.
    fn write(&mut self, bytes: &[u8]) -> io::Result<()>
        ensures told { WritesNew bytes.now (is_ok result) (told self.old) (told self.new) }
        ensures asked { asked self.new ≡ more (asking (Write bytes.now) (is_ok result)) (asked self.old) };

    /// Brings the new file to the disk.
    fn sync(&mut self) -> io::Result<()>
        ensures told { told self.new ≡ told self.old }
        ensures asked { asked self.new ≡ more (asking Sync (is_ok result)) (asked self.old) };

    /// Gives a file another name, in place of the file that has that.
    fn rename(&mut self, from: &str, to: &str) -> io::Result<()>
        ensures told { RenamesName from.now to.now (is_ok result) (told self.old) (told self.new) }
        ensures asked { asked self.new ≡ more (asking (Rename from.now to.now) (is_ok result)) (asked self.old) };

    /// Brings the folder in which the name stands to the disk.
    fn sync_folder(&mut self, name: &str) -> io::Result<()>
        ensures told { SyncsNames (is_ok result) (told self.old) (told self.new) }
        ensures asked { asked self.new ≡ more (asking (SyncFolder name.now) (is_ok result)) (asked self.old) };

    /// Removes a name, if it can.
    fn remove(&mut self, name: &str)
        ensures told { told self.new ≡ option_map (without_name name.now) (told self.old) }
        ensures asked { asked self.new ≡ more (asking (Remove name.now) true) (asked self.old) };
}

/// The files of the system. This opener reports neither its results nor what names have, and counts each refusal.
#[derive(Drop)]
pub struct SystemFiles<R: Files<File = File> + Drop> {
    rt: R,
    fresh: Option<File>,
    refusals: u64,
}

impl<R: Files<File = File> + Drop> SystemFiles<R> {
    /// The files that the runtime reaches.
    pub fn new(rt: R) -> SystemFiles<R>
        ensures runtime { result.rt ≡ rt }
        ensures refusals { result.refusals ≡ 0 }
    {
        SystemFiles {
            rt,
            fresh: None,
            refusals: 0,
        }
    }
}

impl<R: Files<File = File> + Drop> Opener for SystemFiles<R> {
    type File = SystemFile;

    ghost answers = { λ _ _ _ _. Unit {0} };

    ghost leads = { λ _ _ _. Unit {0} };

    ghost finds = { λ _ _ _. Unit {0} };

    ghost asked = { λ _. None };

    ghost refusals = { λ files. files.refusals };

    ghost told = { λ _. None };

    /// Besides what an opener does: no file that it opens is a standard stream.
    fn open(&mut self, how: &OpenOptions, name: &str) -> io::Result<SystemFile>
        ensures beside { IfOk result (λ file. pos 2 <ℤ file_raw_fd file.file) }
        ensures free { IfOk result (λ file. file.held ≡ false) }
        ensures cause { HasCause self.old.refusals self.new.refusals result }
    {
        match beside_streams(how.open(&self.rt, name)) {
            Ok(file) => Ok(SystemFile::new(file)),
            Err(error) => {
                self.refusals = self.refusals.saturating_add(1);
                Err(error)
            }
        }
    }

    fn find(&mut self, name: &str) -> io::Result<Found> {
        Ok(found_of(&fs::metadata(&self.rt, name)?))
    }

    fn look(&mut self, name: &str) -> io::Result<Found> {
        Ok(found_of(&fs::symlink_metadata(&self.rt, name)?))
    }

    fn make(&mut self, mode: u32, name: &str) -> io::Result<()> {
        let mut how = OpenOptions::new();
        how.write(true).create_new(true);
        how.mode(mode);
        self.fresh = Some(beside_streams(how.open(&self.rt, name))?);
        Ok(())
    }

    fn write(&mut self, bytes: &[u8]) -> io::Result<()> {
        match &mut self.fresh {
            Some(file) => file.write_all(bytes),
            None => Err(io::Error::from(ErrorKind::NotFound)),
        }
    }

    fn sync(&mut self) -> io::Result<()> {
        match &self.fresh {
            Some(file) => file.sync_all(),
            None => Err(io::Error::from(ErrorKind::NotFound)),
        }
    }

    fn rename(&mut self, from: &str, to: &str) -> io::Result<()> {
        fs::rename(&self.rt, from, to)
    }

    fn sync_folder(&mut self, name: &str) -> io::Result<()> {
        File::open(&self.rt, folder_of(name))?.sync_all()
    }

    fn remove(&mut self, name: &str) {
        let _ = fs::remove_file(&self.rt, name);
    }
}

// A file that was opened and is no standard stream.
fn beside_streams(opened: io::Result<File>) -> io::Result<File>
    ensures { IfOk result (λ file. pos 2 <ℤ file_raw_fd file) }
{
    match opened {
        // The stream of this number was closed, and what is printed would go into the file.
        Ok(file) if file.as_raw_fd() <= 2 => Err(io::Error::from(ErrorKind::ResourceBusy)),
        opened => opened,
    }
}

/// What the system says of a file.
pub(crate) fn found_of(metadata: &Metadata) -> Found {
    let kind = metadata.file_type();
    Found {
        id: FileId {
            device: metadata.dev(),
            number: metadata.ino(),
        },
        kind: if kind.is_file() {
            FileKind::Regular
        } else if kind.is_block_device() {
            FileKind::Block
        } else {
            FileKind::Other
        },
    }
}

// The folder in which a name stands.
fn folder_of(name: &str) -> &str
    ensures { IsFolderOf name.now result.now }
{
    match name.rsplit_once('/') {
        Some((folder, _)) if folder.is_empty() => "/",
        Some((folder, _)) => folder,
        None => ".",
    }
}
