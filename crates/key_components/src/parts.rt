//! The files of one option of a key.
ghost use Rattle.std.specs.Prelude.{◌≡◌, ◌+◌, ◌++◌, ◌≤◌, ◌⊎◌, All, length, IfOk, IfErr, IfSome};
ghost use Rattle.block_traits.specs.Causes.{Counted};
ghost use Rattle.command_words.specs.Places.{IsWithin, bytes_at};
ghost use Rattle.user_key.specs.Passphrase.{first_line};
ghost use Rattle.key_components.specs.Answers.{IsAnswer, IsAt, KeepsFiles, LoadsEach, unless_refused, refused_word};
ghost use Rattle.key_components.specs.Files.{named_bytes, first_fault, joined_files, passphrase_limit};
ghost use Rattle.key_components.specs.Parts.{MayRefuseOf, limit_of, line_fault, taking_of};

use crate::files::{FILE_LIMIT, load_file, load_within};
use block_traits::{ByteList, Cabinet, NoMemory};
use command_words::Span;
use eli_base::Refusal;
use std::alloc::Global;
use user_key::first_line;

/// The most bytes of a passphrase.
const PASSPHRASE_LIMIT: usize = 1024;

/// What the files of an option are to a key.
#[derive(Clone, Copy)]
pub enum Part {
    /// Key files: each counts whole.
    KeyFiles,
    /// Passphrase files: the first line of each counts.
    Passphrase,
}

// The first line of a file, if this line and the `used` bytes before it are no longer than a passphrase may be.
fn take_line(alloc: Global, file: &[u8], word: u32, used: usize) -> Result<ByteList, Refusal>
    requires { used ≤ passphrase_limit }
    ensures answer { IsAnswer (unless_refused (line_fault word used file.now) (first_line file.now)) result }
    ensures within { IfOk result (λ line. used + length line ≤ passphrase_limit) }
    ensures refusal { IfErr result (λ refusal. (refusal ≡ Refusal.FileTooLong word passphrase_limit) ⊎ (refusal ≡ Refusal.NoMemory)) }
{
    let line = first_line(file);
    if line.len() > PASSPHRASE_LIMIT - used {
        return Err(Refusal::FileTooLong {
            word,
            limit: PASSPHRASE_LIMIT as u64,
        });
    }
    match Vec::from_slice(alloc, line) {
        Ok(bytes) => Ok(ByteList::from_vec(bytes)),
        Err(_) => Err(Refusal::NoMemory),
    }
}

impl Part {
    // What counts of the file that a span of the line names, after `used` bytes of the files before it.
    fn load_piece<C: Cabinet>(
        self,
        alloc: Global,
        line: &[u8],
        span: Span,
        used: usize,
        files: &mut C,
    ) -> Result<ByteList, Refusal>
        requires span { IsWithin (length line.now) span }
        requires used { used ≤ limit_of self }
        ensures answer { IfSome (C.state files.old).files (λ told.
            IsAnswer (unless_refused ((taking_of self).fault span.word used (told (bytes_at line.now span))) ((taking_of self).piece (named_bytes told line.now span))) result) }
        ensures within { IfOk result (λ piece. used + length piece ≤ limit_of self) }
        ensures word { IfErr result (λ refusal. IfSome (refused_word refusal) (λ word. span.word ≡ word)) }
        ensures cause { IfErr result (MayRefuseOf self (C.state files.old) (C.state files.new)) }
        ensures keeps { KeepsFiles (C.state files.old) (C.state files.new) }
        ensures asked { Counted 1 (C.state files.old).loads (C.state files.new).loads }
        ensures unstored { (C.state files.new).stores ≡ (C.state files.old).stores }
    {
        match self {
            Part::KeyFiles => {
                load_within(alloc, line, span, FILE_LIMIT, FILE_LIMIT - used, files)
            }
            Part::Passphrase => {
                let file = load_file(alloc, line, span, FILE_LIMIT, files)?;
                take_line(alloc, file.as_slice(), span.word, used)
            }
        }
    }
}

// The bytes of both, in memory that is reserved for all of them: a vector that grows lets go of bytes unwiped.
fn join(alloc: Global, front: &[u8], back: &[u8]) -> Result<ByteList, NoMemory>
    ensures { IfOk result (λ both. both ≡ front.now ++ back.now) }
{
    let mut both = Vec::with_capacity(alloc, front.len() + back.len())?;
    let Ok(()) = both.extend_from_slice(front) else {
        unreachable!()
    };
    let Ok(()) = both.extend_from_slice(back) else {
        unreachable!()
    };
    Ok(ByteList::from_vec(both))
}

/// Loads the files of one option, and joins what counts of them, in order.
pub fn load_part<C: Cabinet>(
    alloc: Global,
    line: &[u8],
    part: Part,
    spans: &[Span],
    files: &mut C,
) -> Result<ByteList, Refusal>
    requires { All (IsWithin (length line.now)) spans.now }
    ensures answer { IfSome (C.state files.old).files (λ told.
        IsAnswer (unless_refused (first_fault (taking_of part) told line.now 0 spans.now) (joined_files (taking_of part) told line.now spans.now)) result) }
    ensures within { IfOk result (λ bytes. length bytes ≤ limit_of part) }
    ensures at { IfErr result (λ refusal. IfSome (refused_word refusal) (IsAt (taking_of part) (C.state files.old).files line.now spans.now)) }
    ensures named { IfErr result (λ _. 1 ≤ length spans.now) }
    ensures cause { IfErr result (MayRefuseOf part (C.state files.old) (C.state files.new)) }
    ensures keeps { KeepsFiles (C.state files.old) (C.state files.new) }
    ensures asked { LoadsEach spans.now (C.state files.old) result (C.state files.new) }
    ensures unstored { (C.state files.new).stores ≡ (C.state files.old).stores }
{
    let mut joined = ByteList::from_vec(Vec::new(alloc));
    for span in spans {
        let used = joined.as_slice().len();
        let piece = part.load_piece(alloc, line, *span, used, files)?;
        let Ok(both) = join(alloc, joined.as_slice(), piece.as_slice()) else {
            return Err(Refusal::NoMemory);
        };
        joined = both;
    }
    Ok(joined)
}
