//! The files of a case.
use crate::fault::Fault;
use crate::line::{Form, Line};
use crate::transcript::Transcript;
use crash_disk::MemCabinet;
use std::alloc::Global;

/// The files that lines named, in the order of their first naming.
#[derive(Drop)]
pub struct Files {
    files: Vec<NamedFile>,
}

// A file, or one that may come.
#[derive(Drop)]
struct NamedFile {
    name: String,
    bytes: Option<Vec<u8>>,
}

impl Files {
    /// No file.
    pub fn new(alloc: Global) -> Files {
        Files {
            files: Vec::new(alloc),
        }
    }

    /// Makes or replaces the file that a line describes.
    pub fn tell(&mut self, alloc: Global, form: Form, line: &mut Line<'_>) -> Result<(), Fault> {
        let name = line.word();
        let mut bytes = Vec::new(alloc);
        line.bytes(alloc, form, &mut bytes)?;
        self.put(alloc, name, bytes)
    }

    fn put(&mut self, alloc: Global, name: &str, bytes: Vec<u8>) -> Result<(), Fault> {
        match self.find(name) {
            None => self.add(alloc, name, Some(bytes)),
            Some(file) => {
                file.bytes = Some(bytes);
                Ok(())
            }
        }
    }

    /// Names a file that may come.
    pub fn watch(&mut self, alloc: Global, name: &str) -> Result<(), Fault> {
        match self.find(name) {
            None => self.add(alloc, name, None),
            Some(_) => Ok(()),
        }
    }

    fn find(&mut self, name: &str) -> Option<&mut NamedFile> {
        for file in self.files.iter_mut() {
            if file.name.as_str() == name {
                return Some(file);
            }
        }
        None
    }

    fn add(&mut self, alloc: Global, name: &str, bytes: Option<Vec<u8>>) -> Result<(), Fault> {
        let name = String::from_str(alloc, name)?;
        Ok(self.files.push(NamedFile { name, bytes })?)
    }

    /// A cabinet that has the files as they stand.
    pub fn cabinet(&self, alloc: Global) -> Result<MemCabinet, Fault> {
        let mut cabinet = MemCabinet::new(alloc);
        for file in &self.files {
            if let Some(bytes) = &file.bytes {
                cabinet.put(file.name.as_str(), bytes)?;
            }
        }
        Ok(cabinet)
    }

    /// Keeps the files that a run left, and prints those that changed or came.
    pub fn settle(
        &mut self,
        alloc: Global,
        cabinet: &MemCabinet,
        transcript: &mut Transcript,
    ) -> Result<(), Fault> {
        for file in self.files.iter_mut() {
            if let Some(now) = cabinet.get(file.name.as_str()) {
                file.settle(alloc, now, transcript)?;
            }
        }
        Ok(())
    }
}

impl NamedFile {
    // Keeps the bytes that are there now.
    fn settle(
        &mut self,
        alloc: Global,
        now: &[u8],
        transcript: &mut Transcript,
    ) -> Result<(), Fault> {
        if let Some(own) = &self.bytes {
            if own.as_slice() == now {
                return Ok(());
            }
        }
        transcript.file(self.name.as_str(), now);
        self.bytes = Some(Vec::from_slice(alloc, now)?);
        Ok(())
    }
}
