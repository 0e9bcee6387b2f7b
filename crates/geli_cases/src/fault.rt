//! Why a line of a case file is not done.
use block_traits::NoMemory;
use std::alloc::{AllocError, AllocFailed};

/// Why a line is not done.
#[derive(Clone, Copy)]
pub enum Fault {
    /// The line is wrong, or asks for something that the case doesn't have: what it is.
    Bad(&'static str),
    /// There was no memory.
    NoMemory,
}

impl Fault {
    /// What is wrong, in words.
    pub fn text(&self) -> &'static str {
        match self {
            Fault::Bad(why) => why,
            Fault::NoMemory => "no memory",
        }
    }
}

impl From<AllocError> for Fault {
    fn from(_: AllocError) -> Self {
        Fault::NoMemory
    }
}

impl<T: Drop> From<AllocFailed<T>> for Fault {
    fn from(_: AllocFailed<T>) -> Self {
        Fault::NoMemory
    }
}

impl From<NoMemory> for Fault {
    fn from(_: NoMemory) -> Self {
        Fault::NoMemory
    }
}
