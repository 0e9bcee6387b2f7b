//! What the arguments ask for, and what came of it.

use eli_base::{Auth, Cipher};
use std::alloc::Global;
use std::env::Args;

/// What is measured.
#[derive(Clone, Copy)]
pub enum Subject {
    /// A cipher mode over bytes.
    Mode(Cipher),
    /// Logical sectors without authentication, through a ring that keeps their range key.
    Sectors(Cipher),
    /// Range keys.
    Ring,
    /// Authenticated pieces.
    Pieces(Auth),
    /// A provider of one logical sector.
    Provider(Auth),
}

/// What is done with it.
#[derive(Clone, Copy)]
pub enum Way {
    Seal,
    Open,
    /// The codes of pieces alone.
    Hash,
    /// Range keys are asked for.
    Key,
    Write,
    Read,
    /// The calls of the disk alone that a write of the provider makes.
    Disk,
    /// The codes alone of a sector's units.
    Codes,
}

const SUBJECTS: [(&str, Subject); 12] = [
    ("xts", Subject::Mode(Cipher::AesXts)),
    ("cbc", Subject::Mode(Cipher::AesCbc)),
    ("sector-xts", Subject::Sectors(Cipher::AesXts)),
    ("sector-cbc", Subject::Sectors(Cipher::AesCbc)),
    ("ring", Subject::Ring),
    ("HMAC/SHA256", Subject::Pieces(Auth::Sha256)),
    ("HMAC/SHA384", Subject::Pieces(Auth::Sha384)),
    ("HMAC/SHA512", Subject::Pieces(Auth::Sha512)),
    ("provider", Subject::Provider(Auth::Off)),
    ("provider-HMAC/SHA256", Subject::Provider(Auth::Sha256)),
    ("provider-HMAC/SHA384", Subject::Provider(Auth::Sha384)),
    ("provider-HMAC/SHA512", Subject::Provider(Auth::Sha512)),
];

const WAYS: [(&str, Way); 8] = [
    ("seal", Way::Seal),
    ("open", Way::Open),
    ("hash", Way::Hash),
    ("key", Way::Key),
    ("write", Way::Write),
    ("read", Way::Read),
    ("disk", Way::Disk),
    ("codes", Way::Codes),
];

/// What the arguments ask for.
#[derive(Clone, Copy)]
pub struct Request {
    pub subject: Subject,
    pub way: Way,
    /// The bits of a key.
    pub bits: u16,
    /// The bytes of a call, or for a ring how many range keys are asked for in turn.
    pub size: usize,
    /// How many slices are measured.
    pub slices: u32,
}

/// The calls of a slice, and the last 16 bytes that a call leaves of zeros, the first of them the most significant.
#[derive(Clone, Copy)]
pub struct Report {
    pub count: u32,
    pub last: Option<u128>,
}

impl Request {
    /// The request of these arguments, before which the program's name was taken.
    pub fn read(words: &mut Args<Global>) -> Option<Request> {
        Some(Request {
            subject: one_of(&SUBJECTS, words)?,
            way: one_of(&WAYS, words)?,
            bits: u16::try_from(number(words)).unwrap_or(0),
            size: usize::try_from(number(words)).unwrap_or(0),
            slices: u32::try_from(number(words)).unwrap_or(0),
        })
    }
}

// What the next word stands for in a table.
fn one_of<T: Copy>(table: &[(&str, T)], words: &mut Args<Global>) -> Option<T> {
    let word = words.next()?;
    for (name, meaning) in table {
        if *name == word.as_str() {
            return Some(*meaning);
        }
    }
    None
}

// The next word as a number, or 0 if it isn't one.
fn number(words: &mut Args<Global>) -> u64 {
    match words.next() {
        Some(word) => word.parse::<u64>().unwrap_or(0),
        None => 0,
    }
}
