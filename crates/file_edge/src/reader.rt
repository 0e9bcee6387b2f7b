//! Readers and writers, by what one call of them may return.
ghost use Rattle.std.specs.Prelude.{◌≤◌, ℕ, IfOk, List, Result, length};
ghost use Rattle.std.specs.Io.KnownBytes.{ReadConsumes, WriteAppends};
ghost use Rattle.std.specs.declared.io.Error.{Error};
ghost use Rattle.file_edge.specs.Streams.{given};

use std::io::{self, Read, Write};

/// A reader that says what a call may return. What is asked of it is proved for every such reader. So a contract can
/// say that it failed, although nothing says what the system returns.
pub trait Reader: Read + Drop {
    /// Whether one read of at most so many bytes may give these, and what the reader then is.
    ghost gives: { ℕ → Self → Result (List ℕ) Error → Self → Type 0 };

    /// One read.
    fn read_once(&mut self, into: &mut [u8]) -> io::Result<usize>
        ensures gives { gives (length into.old) self.old (given result into.new) self.new }
        ensures bound { IfOk result (λ k. k ≤ length into.new) }
        ensures known { ReadConsumes (Self.remaining self.old) (Self.remaining self.new) result into.new };
}

/// Any reader, which says nothing about its results.
impl<R: Read + Drop> Reader for R {
    ghost gives = { λ _ _ _ _. Unit {0} };

    fn read_once(&mut self, into: &mut [u8]) -> io::Result<usize> {
        self.read(into)
    }
}

/// A writer that says what a call may return, as `Reader` does.
pub trait Writer: Write + Drop {
    /// Whether one write of these bytes may take so many, and what the writer then is.
    ghost takes: { List ℕ → Self → Result ℕ Error → Self → Type 0 };

    /// One write. The bytes that it takes are out when it returns: no buffer keeps them for later.
    fn write_once(&mut self, from: &[u8]) -> io::Result<usize>
        ensures takes { takes from.now self.old result self.new }
        ensures bound { IfOk result (λ k. k ≤ length from.now) }
        ensures known { WriteAppends (Self.contents self.old) (Self.contents self.new) result from.now };
}

/// Any writer, which says nothing about its results.
impl<W: Write + Drop> Writer for W {
    ghost takes = { λ _ _ _ _. Unit {0} };

    // A flush that fails is reported by the one before the next write. A file or a stream has nothing to flush.
    fn write_once(&mut self, from: &[u8]) -> io::Result<usize> {
        self.flush()?;
        let taken = self.write(from)?;
        let _ = self.flush();
        Ok(taken)
    }
}
