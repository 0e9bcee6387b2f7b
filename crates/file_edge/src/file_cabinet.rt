//! The files of the system by their names.
ghost use Rattle.std.specs.Prelude.{◌≡◌, ◌≤◌, IfOk, IsErrOf, OnErr, OnOk, length};
ghost use Rattle.std.specs.IoError.{error_kind};
ghost use Rattle.block_traits.specs.Cabinet.{LoadGives, stored};
ghost use Rattle.block_traits.specs.Causes.{Counted, Rose};
ghost use Rattle.file_edge.specs.FileCabinet.{CountsLoad, CountsStore, LoadsNamed, LoadAnswers, ReadsWhole, counts, fault_of, read_fault};
ghost use Rattle.file_edge.specs.Names.{told_files};
ghost use Rattle.file_edge.specs.Storing.{StoresNamedFile};

use crate::found::{FileId, is_image};
use crate::image_file::ImageFile;
use crate::opener::Opener;
use crate::store::{Stop, store_file};
use block_traits::{ByteList, Cabinet, LoadFault, StoreFault};
use std::alloc::Global;
use std::fs::OpenOptions;
use std::io::{self, ErrorKind};

/// A cabinet of the files that an opener finds, without the images of the run. It reports what the opener reports of
/// its names. It counts each failure, each file that is absent or too long, each load and each store. A name that isn't
/// UTF-8 names no file.
#[derive(Drop)]
pub struct FileCabinet<O: Opener + Drop> {
    opener: O,
    images: Vec<FileId>,
    faults: u64,
    misses: u64,
    loads: u64,
    stores: u64,
}

impl<O: Opener + Drop> FileCabinet<O> {
    /// The files that the opener finds, but for these images.
    pub fn new(opener: O, images: Vec<FileId>) -> FileCabinet<O>
        ensures opener { result.opener ≡ opener }
        ensures images { result.images ≡ images }
        ensures faults { result.faults ≡ 0 }
        ensures misses { result.misses ≡ 0 }
        ensures loads { result.loads ≡ 0 }
        ensures stores { result.stores ≡ 0 }
    {
        FileCabinet {
            opener,
            images,
            faults: 0,
            misses: 0,
            loads: 0,
            stores: 0,
        }
    }

    /// The opener of the files, as the calls left it.
    pub fn into_opener(self) -> O
        ensures { result ≡ self.opener }
    {
        self.opener
    }
}

impl<O: Opener + Drop> Cabinet for FileCabinet<O> {
    ghost state = { λ cabinet. record {
      files = told_files cabinet.images.items (O.told cabinet.opener);
      faults = cabinet.faults;
      misses = cabinet.misses;
      loads = cabinet.loads;
      stores = cabinet.stores;
    } };

    /// Besides what a cabinet does: the file is opened under its name and read, whole if it knows its bytes, and
    /// nothing else is asked of the opener. An image isn't read.
    fn load(&mut self, alloc: Global, name: &[u8], limit: u64) -> Result<ByteList, LoadFault>
        ensures named { LoadsNamed (⟦<O as Opener>⟧) (⟦<O::File as ImageFile>⟧) self.old.images.items
            self.old.opener name.now limit result self.new.opener }
        ensures images { self.new.images ≡ self.old.images }
        ensures gives { LoadGives (told_files self.old.images.items (O.told self.old.opener)) name.now limit result }
        ensures files { told_files self.new.images.items (O.told self.new.opener)
            ≡ told_files self.old.images.items (O.told self.old.opener) }
        ensures within { IfOk result (λ bytes. length bytes ≤ limit) }
        ensures later { self.old.faults ≤ self.new.faults }
        ensures failed { IsErrOf result LoadFault.Failed → Rose self.old.faults self.new.faults }
        ensures more_misses { self.old.misses ≤ self.new.misses }
        ensures absent { IsErrOf result LoadFault.Absent → Rose self.old.misses self.new.misses }
        ensures too_long { IsErrOf result LoadFault.TooLong → Rose self.old.misses self.new.misses }
        ensures asked { Counted 1 self.old.loads self.new.loads }
        ensures unstored { self.new.stores ≡ self.old.stores }
        ensures counts { CountsLoad result
            (counts self.old.faults self.old.misses) (counts self.new.faults self.new.misses) }
    {
        self.loads = self.loads.saturating_add(1);
        let loaded = load_file(&mut self.opener, alloc, self.images.as_slice(), name, limit);
        match loaded {
            Err(LoadFault::Absent | LoadFault::TooLong) => {
                self.misses = self.misses.saturating_add(1);
            }
            Err(LoadFault::Failed) => self.faults = self.faults.saturating_add(1),
            Ok(_) | Err(LoadFault::NoMemory) => {}
        }
        loaded
    }

    /// Besides what a cabinet does: the bytes are stored in a new file beside, which then takes the name. An image, or
    /// anything but a regular file, is left as it is.
    fn store(&mut self, alloc: Global, name: &[u8], bytes: &[u8]) -> Result<(), StoreFault>
        ensures stores { StoresNamedFile (⟦<O as Opener>⟧) self.old.images.items
            self.old.opener name.now bytes.now result self.new.opener }
        ensures images { self.new.images ≡ self.old.images }
        ensures ok { OnOk result (told_files self.new.images.items (O.told self.new.opener)
            ≡ stored name.now bytes.now (told_files self.old.images.items (O.told self.old.opener))) }
        ensures err { OnErr result (told_files self.new.images.items (O.told self.new.opener)
            ≡ told_files self.old.images.items (O.told self.old.opener)) }
        ensures later { self.old.faults ≤ self.new.faults }
        ensures failed { IsErrOf result StoreFault.Failed → Rose self.old.faults self.new.faults }
        ensures more_misses { self.old.misses ≤ self.new.misses }
        ensures unasked { self.new.loads ≡ self.old.loads }
        ensures stored { Counted 1 self.old.stores self.new.stores }
        ensures counts { CountsStore result
            (counts self.old.faults self.old.misses) (counts self.new.faults self.new.misses) }
    {
        self.stores = self.stores.saturating_add(1);
        match store_file(&mut self.opener, alloc, self.images.as_slice(), name, bytes) {
            Ok(()) => Ok(()),
            Err(Stop::Memory) => Err(StoreFault::NoMemory),
            Err(_) => {
                self.faults = self.faults.saturating_add(1);
                Err(StoreFault::Failed)
            }
        }
    }
}

fn load_file<O: Opener>(
    opener: &mut O,
    alloc: Global,
    images: &[FileId],
    name: &[u8],
    limit: u64,
) -> Result<ByteList, LoadFault>
    ensures named { LoadsNamed (⟦<O as Opener>⟧) (⟦<O::File as ImageFile>⟧) images.now
        opener.old name.now limit result opener.new }
    ensures told { O.told opener.new ≡ O.told opener.old }
    ensures within { IfOk result (λ bytes. length bytes ≤ limit) }
{
    let Ok(name) = str::from_utf8(name) else {
        return Err(LoadFault::Absent);
    };
    match opener.open(OpenOptions::new().read(true), name) {
        Ok(file) => {
            if is_image(images, &file.found()) {
                return Err(LoadFault::Failed);
            }
            read_whole(file, alloc, limit)
        }
        Err(error) => Err(fault_of(&error)),
    }
}

// What a file has left, if that is at most so many bytes.
fn read_whole<F: ImageFile>(file: F, alloc: Global, limit: u64) -> Result<ByteList, LoadFault>
    ensures read { ReadsWhole (⟦<F as ImageFile>⟧) file limit result }
    ensures answers { LoadAnswers (F.left file) limit result }
    ensures within { IfOk result (λ bytes. length bytes ≤ limit) }
{
    let bytes = match file.read_all(alloc, limit.saturating_add(1)) {
        Ok(bytes) => bytes,
        Err(error) => return Err(read_fault(&error)),
    };
    if bytes.as_slice().len() as u64 > limit {
        return Err(LoadFault::TooLong);
    }
    Ok(bytes)
}

fn read_fault(error: &io::Error) -> LoadFault
    ensures { result ≡ read_fault (error_kind error.now) }
{
    match error.kind() {
        ErrorKind::OutOfMemory => LoadFault::NoMemory,
        _ => LoadFault::Failed,
    }
}

fn fault_of(error: &io::Error) -> LoadFault
    ensures { result ≡ fault_of (error_kind error.now) }
{
    match error.kind() {
        ErrorKind::NotFound => LoadFault::Absent,
        ErrorKind::OutOfMemory => LoadFault::NoMemory,
        _ => LoadFault::Failed,
    }
}
