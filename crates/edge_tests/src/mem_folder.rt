//! Files in memory by their names; what the names have is reported.
ghost use Rattle.std.specs.Prelude.{◌≡◌};
ghost use Rattle.file_edge.specs.Names.{with_name};
ghost use Rattle.edge_tests.specs.Change.{HasFile, after_changes, given_named, nothing};

use crate::change::Change;
use file_edge::FileId;
use std::alloc::{AllocError, Global};
use std::process::Abort;

/// A folder in memory. Each name has what it was given last. A test ends if there is no memory.
#[derive(Drop)]
pub(crate) struct MemFolder<R: Abort + Drop> {
    rt: R,
    alloc: Global,
    changes: Vec<Change>,
}

impl<R: Abort + Drop> MemFolder<R> {
    /// A folder in which no name has anything.
    pub(crate) fn new(rt: R, alloc: Global) -> MemFolder<R> {
        MemFolder {
            rt,
            alloc,
            changes: Vec::new(alloc),
        }
    }

    /// Gives a name these bytes, or nothing.
    pub(crate) fn give(&mut self, name: &str, id: Option<FileId>, bytes: Option<Vec<u8>>)
        ensures { after_changes nothing self.new.changes.items
            ≡ with_name name.now (given_named id bytes) (after_changes nothing self.old.changes.items) }
    {
        let name = String::from_str(self.alloc, name).expect(&self.rt, "memory");
        self.changes
            .push(Change { name, id, bytes })
            .map_err(AllocError::from)
            .expect(&self.rt, "memory");
    }

    /// The file of a name, if it has one, and which it is.
    pub(crate) fn file(&self, name: &str) -> Option<(Option<FileId>, Vec<u8>)>
        ensures { HasFile (after_changes nothing self.now.changes.items name.now) result }
    {
        let place = Change::last_of(self.changes.as_slice(), name)?;
        let change = &self.changes[place];
        match &change.bytes {
            Some(bytes) => Some((
                change.id,
                Vec::from_slice(self.alloc, bytes.as_slice()).expect(&self.rt, "memory"),
            )),
            None => None,
        }
    }

    /// Whether each name has the bytes that it had in another folder, but for this one.
    pub(crate) fn is_left_but_for(&self, before: &MemFolder<R>, name: &str) -> bool {
        for change in &self.changes {
            let other = change.name.as_str();
            if other != name && !self.agrees(before, other) {
                return false;
            }
        }
        true
    }

    // Whether a name has the same bytes in another folder, or nothing in both.
    fn agrees(&self, other: &MemFolder<R>, name: &str) -> bool {
        match (self.file(name), other.file(name)) {
            (Some((_, here)), Some((_, there))) => here.as_slice() == there.as_slice(),
            (None, None) => true,
            _ => false,
        }
    }
}
