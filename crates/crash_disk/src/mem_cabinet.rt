//! A cabinet of files in memory.
ghost use Rattle.std.specs.Prelude.{◌≡◌, ◌<◌, ◌≤◌, ◌↔◌, [], Some, IfOk, IfSome, OnOk, OnErr, IsErrOf, IsTrue, length, option_copied};
ghost use Rattle.block_traits.specs.Cabinet.{LoadGives, stored, with_file};
ghost use Rattle.block_traits.specs.Causes.{Counted, Rose};
ghost use Rattle.crash_disk.specs.Calls.{failing, next_fails, with_fails};
ghost use Rattle.crash_disk.specs.Count.{one_more};
ghost use Rattle.crash_disk.specs.MemCabinet.{file_in, files_of, file_place};

use crate::calls::Calls;
use block_traits::{ByteList, Cabinet, LoadFault, NoMemory, StoreFault};
use std::alloc::{AllocError, Global};
use std::marker::Model;

/// A file of a cabinet in memory, by its name.
#[derive(Drop)]
pub struct NamedFile {
    name: ByteList,
    bytes: ByteList,
}

/// A cabinet in memory. It reports its files.
#[derive(Drop)]
pub struct MemCabinet {
    files: Vec<NamedFile>,
    calls: Calls,
    faults: u64,
    misses: u64,
    loads: u64,
    stores: u64,
}

impl Model for MemCabinet {
    ghost use Rattle.crash_disk.specs.MemCabinet.{MemCabinetState};

    ghost Value = { MemCabinetState };

    ghost view = { λ cabinet. record {
      files = cabinet.files.items;
      calls = cabinet.calls;
      faults = cabinet.faults;
      misses = cabinet.misses;
      loads = cabinet.loads;
      stores = cabinet.stores;
    } };
}

impl MemCabinet {
    ghost use Rattle.crash_disk.specs.MemCabinet.{after_call};

    /// No file, and no call that fails.
    pub fn new(alloc: Global) -> MemCabinet
        ensures { result ≡ record { files = []; calls = failing []; faults = 0; misses = 0; loads = 0; stores = 0 } }
    {
        MemCabinet {
            files: Vec::new(alloc),
            calls: Calls::new(alloc),
            faults: 0,
            misses: 0,
            loads: 0,
            stores: 0,
        }
    }

    /// Makes or replaces the file of this name. This isn't counted as a call.
    pub fn put(&mut self, name: &str, bytes: &[u8]) -> Result<(), NoMemory>
        ensures ok { OnOk result (files_of self.new.files ≡ with_file name.now bytes.now (files_of self.old.files)) }
        ensures err { OnErr result (self.new.files ≡ self.old.files) }
        ensures rest { self.new ≡ record self.old { files = self.new.files } }
    {
        let alloc = *self.files.allocator();
        put(alloc, &mut self.files, name.as_bytes(), bytes)?;
        Ok(())
    }

    /// The file of this name.
    pub fn get(&self, name: &str) -> Option<&[u8]>
        ensures { option_copied result ≡ file_in name.now self.now.files }
    {
        find(&self.files, name.as_bytes())
    }

    /// Sets which calls of `load` and `store`, counted together from 1 since the cabinet was made,
    /// fail from now on.
    pub fn fail_calls(&mut self, calls: &[u64]) -> Result<(), NoMemory>
        ensures ok { OnOk result (self.new ≡ record self.old { calls = with_fails calls.now self.old.calls }) }
        ensures err { OnErr result (self.new ≡ self.old) }
    {
        self.calls.set(calls)
    }

    // Counts a call, and returns whether it fails.
    fn call(&mut self) -> bool
        ensures answer { result ≡ next_fails self.old.calls }
        ensures after { self.new ≡ after_call self.old }
        ensures later { self.old.faults ≤ self.new.faults }
    {
        if !self.calls.next() {
            return false;
        }
        self.faults = self.faults.saturating_add(1);
        true
    }
}

impl Cabinet for MemCabinet {
    ghost use Rattle.crash_disk.specs.MemCabinet.{Loads, after_call, after_load};

    ghost state = { λ cabinet. record { files = Some (files_of cabinet.files); faults = cabinet.faults; misses = cabinet.misses; loads = cabinet.loads; stores = cabinet.stores } };

    fn load(&mut self, alloc: Global, name: &[u8], limit: u64) -> Result<ByteList, LoadFault>
        ensures gives { LoadGives (Some (files_of self.old.files)) name.now limit result }
        ensures within { IfOk result (λ bytes. length bytes ≤ limit) }
        ensures files { Some (files_of self.new.files) ≡ Some (files_of self.old.files) }
        ensures later { self.old.faults ≤ self.new.faults }
        ensures failed { IsErrOf result LoadFault.Failed → Rose self.old.faults self.new.faults }
        ensures more_misses { self.old.misses ≤ self.new.misses }
        ensures absent { IsErrOf result LoadFault.Absent → Rose self.old.misses self.new.misses }
        ensures too_long { IsErrOf result LoadFault.TooLong → Rose self.old.misses self.new.misses }
        ensures asked { Counted 1 self.old.loads self.new.loads }
        ensures unstored { self.new.stores ≡ self.old.stores }
        ensures answer { Loads name.now limit self.old result }
        ensures after { self.new ≡ after_load name.now limit self.old }
    {
        self.loads = self.loads.saturating_add(1);
        if self.call() {
            return Err(LoadFault::Failed);
        }
        let Some(bytes) = find(&self.files, name) else {
            self.misses = self.misses.saturating_add(1);
            return Err(LoadFault::Absent);
        };
        if bytes.len() as u64 > limit {
            self.misses = self.misses.saturating_add(1);
            return Err(LoadFault::TooLong);
        }
        let bytes = Vec::from_slice(alloc, bytes).map_err(|_| LoadFault::NoMemory)?;
        Ok(ByteList::from_vec(bytes))
    }

    fn store(&mut self, alloc: Global, name: &[u8], bytes: &[u8]) -> Result<(), StoreFault>
        ensures ok { OnOk result (Some (files_of self.new.files) ≡ stored name.now bytes.now (Some (files_of self.old.files))) }
        ensures err { OnErr result (Some (files_of self.new.files) ≡ Some (files_of self.old.files)) }
        ensures later { self.old.faults ≤ self.new.faults }
        ensures failed { IsErrOf result StoreFault.Failed → Rose self.old.faults self.new.faults }
        ensures more_misses { self.old.misses ≤ self.new.misses }
        ensures unasked { self.new.loads ≡ self.old.loads }
        ensures stored { Counted 1 self.old.stores self.new.stores }
        ensures answer { IsErrOf result StoreFault.Failed ↔ IsTrue (next_fails self.old.calls) }
        ensures after { self.new ≡ record (after_call self.old) { files = self.new.files; stores = one_more self.old.stores } }
    {
        self.stores = self.stores.saturating_add(1);
        if self.call() {
            return Err(StoreFault::Failed);
        }
        put(alloc, &mut self.files, name, bytes).map_err(|_| StoreFault::NoMemory)
    }
}

impl NamedFile {
    fn new(alloc: Global, name: &[u8], bytes: &[u8]) -> Result<NamedFile, AllocError>
        ensures { IfOk result (λ file. file ≡ record { name = name.now; bytes = bytes.now }) }
    {
        Ok(NamedFile {
            name: ByteList::from_vec(Vec::from_slice(alloc, name)?),
            bytes: ByteList::from_vec(Vec::from_slice(alloc, bytes)?),
        })
    }
}

// Makes or replaces the file of this name.
fn put(
    alloc: Global,
    files: &mut Vec<NamedFile>,
    name: &[u8],
    bytes: &[u8],
) -> Result<(), AllocError>
    ensures ok { OnOk result (files_of files.new.items ≡ with_file name.now bytes.now (files_of files.old.items)) }
    ensures err { OnErr result (files.new.items ≡ files.old.items) }
{
    let file = NamedFile::new(alloc, name, bytes)?;
    match place_of(files, name) {
        Some(place) => files[place] = file,
        None => files.push(file)?,
    }
    Ok(())
}

// The place of the first file of this name.
fn place_of(files: &[NamedFile], name: &[u8]) -> Option<usize>
    ensures place { result ≡ file_place name.now files.now }
    ensures bound { IfSome result (λ place. place < length files.now) }
{
    for (place, file) in files.iter().enumerate() {
        if file.name.as_slice() == name {
            return Some(place);
        }
    }
    None
}

// The bytes of the first file of this name.
fn find<'a>(files: &'a [NamedFile], name: &[u8]) -> Option<&'a [u8]>
    ensures { option_copied result ≡ file_in name.now files.now }
{
    let place = place_of(files, name)?;
    Some(files[place].bytes.as_slice())
}
