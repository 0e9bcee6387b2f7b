//! A file that is stored under a name, in place of what has it.
ghost use Rattle.std.specs.Prelude.{◌≡◌, ◌↔◌, IfOk, IsTrue, MatchResult, OnOk, Option, string_bytes, true};
ghost use Rattle.std.specs.IoError.{error_kind};
ghost use Rattle.std.specs.Str.{IsUtf8};
ghost use Rattle.file_edge.specs.Names.{MakesName, NamedFiles, StoresName};
ghost use Rattle.file_edge.specs.Storing.{Brings, MakesBeside, MakesNone, BringsToName, Stores, beside_name};

use crate::found::{FileId, is_replaceable};
use crate::opener::Opener;
use itoa::Buffer;
use std::alloc::{AllocError, Global};
use std::io::{self, ErrorKind};

/// Which part of a store wasn't done.
#[derive(Clone, Copy, Debug, PartialEq, Eq)]
pub enum Stop {
    /// The name is no text.
    Named,
    /// There was no memory.
    Memory,
    /// What has the name may not be replaced.
    Spared,
    /// Something has each name beside.
    Crowded,
    /// No file was made beside.
    Made,
    /// The file beside didn't take all bytes.
    Written,
    /// The file beside wasn't synced.
    Synced,
    /// The file beside wasn't renamed.
    Renamed,
    /// The folder wasn't synced.
    FolderSynced,
}

/// Stores the bytes under the name: after a crash what had the name stands, or the whole new file does.
pub fn store_file<O: Opener>(
    opener: &mut O,
    alloc: Global,
    images: &[FileId],
    name: &[u8],
    bytes: &[u8],
) -> Result<(), Stop>
    ensures stores { Stores (⟦<O as Opener>⟧) images.now opener.old name.now bytes.now result opener.new }
    ensures text { OnOk result (IsUtf8 name.now) }
    ensures told { StoresName name.now bytes.now result (O.told opener.old) (O.told opener.new) }
{
    let Ok(name) = str::from_utf8(name) else {
        return Err(Stop::Named);
    };
    let found = opener.look(name);
    if !is_replaceable(images, &found) {
        return Err(Stop::Spared);
    }
    bring(opener, alloc, name, bytes)
}

// Makes a file beside, and brings it to the name.
fn bring<O: Opener>(opener: &mut O, alloc: Global, name: &str, bytes: &[u8]) -> Result<(), Stop>
    ensures brings { Brings O.asked name.now bytes.now opener.old result opener.new }
    ensures told { StoresName name.now bytes.now result (O.told opener.old) (O.told opener.new) }
{
    match make_beside(opener, alloc, name) {
        Ok(beside) => replace(opener, name, beside.as_str(), bytes),
        Err(stop) => Err(stop),
    }
}

// Makes a new file under the first name beside that is free. Others stay: a run that was ended may have left them, or
// another one uses them.
fn make_beside<O: Opener>(opener: &mut O, alloc: Global, name: &str) -> Result<String, Stop>
    ensures makes { MatchResult result
        (λ beside. MakesBeside O.asked name.now opener.old (string_bytes beside) opener.new)
        (λ stop. MakesNone O.asked name.now opener.old stop opener.new) }
    ensures told { MatchResult result
        (λ beside. MakesName (string_bytes beside) true (O.told opener.old) (O.told opener.new))
        (λ stop. O.told opener.new ≡ O.told opener.old) }
{
    for number in 0..u64::MAX {
        let Ok(beside) = beside_of(alloc, name, number) else {
            return Err(Stop::Memory);
        };
        match opener.make(0o600, beside.as_str()) {
            Ok(()) => return Ok(beside),
            Err(error) => {
                if !is_met(&error) {
                    return Err(Stop::Made);
                }
            }
        }
    }
    Err(Stop::Crowded)
}

// Whether no file was made since something has the name.
fn is_met(error: &io::Error) -> bool
    ensures { IsTrue result ↔ (error_kind error.now ≡ ErrorKind.AlreadyExists) }
{
    match error.kind() {
        ErrorKind::AlreadyExists => true,
        _ => false,
    }
}

// The name of a number beside a name.
fn beside_of(alloc: Global, name: &str, number: u64) -> Result<String, AllocError>
    ensures { IfOk result (λ text. string_bytes text ≡ beside_name name.now number) }
{
    let mut text = String::from_str(alloc, name)?;
    text.push_str(".new")?;
    text.push_str(Buffer::new().format(number))?;
    Ok(text)
}

// Brings the new file, which was made beside, to the name.
fn replace<O: Opener>(opener: &mut O, name: &str, beside: &str, bytes: &[u8]) -> Result<(), Stop>
    ensures brings { BringsToName O.asked name.now bytes.now opener.old beside.now result opener.new }
    ensures told { (first : Option NamedFiles) → MakesName beside.now true first (O.told opener.old)
        → StoresName name.now bytes.now result first (O.told opener.new) }
{
    if opener.write(bytes).is_err() {
        opener.remove(beside);
        return Err(Stop::Written);
    }
    if opener.sync().is_err() {
        opener.remove(beside);
        return Err(Stop::Synced);
    }
    if opener.rename(beside, name).is_err() {
        opener.remove(beside);
        return Err(Stop::Renamed);
    }
    if opener.sync_folder(name).is_err() {
        return Err(Stop::FolderSynced);
    }
    Ok(())
}
