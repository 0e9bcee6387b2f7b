//! One file of a key.
ghost use Rattle.std.specs.Prelude.{◌≡◌, ◌≤◌, length, IfOk, IfErr, IfSome};
ghost use Rattle.command_words.specs.Places.{IsWithin, bytes_at};
ghost use Rattle.block_traits.specs.Causes.{Counted};
ghost use Rattle.key_components.specs.Answers.{IsAnswer, KeepsFiles, MayRefuse, file_answer, file_refusal_of, room_answer, refused_word};

use block_traits::{ByteList, Cabinet, LoadFault};
use command_words::Span;
use eli_base::Refusal;
use std::alloc::Global;

/// The most bytes of a file, and of all key files of one option together.
pub const FILE_LIMIT: usize = 1_048_576;

// The refusal of the file that the word names, by the fault of its load; `FileTooLong` names the given limit.
fn refusal(word: u32, named: usize, fault: LoadFault) -> Refusal
    ensures { result ≡ file_refusal_of word named fault }
{
    match fault {
        LoadFault::Absent => Refusal::FileAbsent { word },
        LoadFault::TooLong => Refusal::FileTooLong {
            word,
            limit: named as u64,
        },
        LoadFault::Failed => Refusal::CabinetFault { word },
        LoadFault::NoMemory => Refusal::NoMemory,
    }
}

/// Loads the file that a span of the line names, if it has at most `limit` bytes, by one load of the cabinet and no
/// store.
pub fn load_file<C: Cabinet>(
    alloc: Global,
    line: &[u8],
    span: Span,
    limit: usize,
    files: &mut C,
) -> Result<ByteList, Refusal>
    requires { IsWithin (length line.now) span }
    ensures answer { IfSome (C.state files.old).files (λ told. IsAnswer (file_answer span.word limit (told (bytes_at line.now span))) result) }
    ensures within { IfOk result (λ bytes. length bytes ≤ limit) }
    ensures word { IfErr result (λ refusal. IfSome (refused_word refusal) (λ word. span.word ≡ word)) }
    ensures cause { IfErr result (MayRefuse limit (C.state files.old) (C.state files.new)) }
    ensures keeps { KeepsFiles (C.state files.old) (C.state files.new) }
    ensures asked { Counted 1 (C.state files.old).loads (C.state files.new).loads }
    ensures unstored { (C.state files.new).stores ≡ (C.state files.old).stores }
{
    load_within(alloc, line, span, limit, limit, files)
}

// Loads the file that a span of the line names, if it has at most `room` bytes, which is what other files left of the
// limit `named`.
pub(crate) fn load_within<C: Cabinet>(
    alloc: Global,
    line: &[u8],
    span: Span,
    named: usize,
    room: usize,
    files: &mut C,
) -> Result<ByteList, Refusal>
    requires { IsWithin (length line.now) span }
    ensures answer { IfSome (C.state files.old).files (λ told. IsAnswer (room_answer span.word named room (told (bytes_at line.now span))) result) }
    ensures within { IfOk result (λ bytes. length bytes ≤ room) }
    ensures word { IfErr result (λ refusal. IfSome (refused_word refusal) (λ word. span.word ≡ word)) }
    ensures cause { IfErr result (MayRefuse named (C.state files.old) (C.state files.new)) }
    ensures keeps { KeepsFiles (C.state files.old) (C.state files.new) }
    ensures asked { Counted 1 (C.state files.old).loads (C.state files.new).loads }
    ensures unstored { (C.state files.new).stores ≡ (C.state files.old).stores }
{
    match files.load(alloc, span.bytes_in(line), room as u64) {
        Ok(bytes) => Ok(bytes),
        Err(fault) => Err(refusal(span.word, named, fault)),
    }
}
