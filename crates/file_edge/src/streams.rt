//! The standard streams, or any reader and writer.
ghost use Rattle.std.specs.Prelude.{◌≡◌, ◌<◌, ◌≤◌, None, IfOk, OnOk, OnErr, length};
ghost use Rattle.std.specs.Io.KnownBytes.{ReadConsumes, WriteAppends};
ghost use Rattle.std.specs.Result.{result_ok};
ghost use Rattle.block_traits.specs.Causes.{Counted, HasCause, Rose};
ghost use Rattle.file_edge.specs.Streams.{AnswersOnce, PassesOn, given};

use crate::reader::{Reader, Writer};
use block_traits::{Sink, SinkFailed, Source, SourceFailed};
use std::io::{self, ErrorKind};

/// A reader as a source. It reports no content, and counts each failure, and each call that met the end.
#[derive(Drop)]
pub struct InputSource<R: Reader> {
    reader: R,
    faults: u64,
    ends: u64,
}

impl<R: Reader> InputSource<R> {
    /// The source over a reader.
    pub fn new(reader: R) -> InputSource<R>
        ensures reader { result.reader ≡ reader }
        ensures faults { result.faults ≡ 0 }
        ensures ends { result.ends ≡ 0 }
    {
        InputSource {
            reader,
            faults: 0,
            ends: 0,
        }
    }
}

impl<R: Reader> Source for InputSource<R> {
    ghost state = { λ source. record {
      left = None;
      faults = source.faults;
      refused = source.faults;
      ends = source.ends;
    } };

    /// Besides what a source does: it returns what one read of the reader returned, made again only if a signal
    /// interrupted it, and fails only if that failed. If the reader knows its bytes, they are given, and 0 only at
    /// their end.
    fn take(&mut self, into: &mut [u8]) -> Result<usize, SourceFailed>
        requires { 0 < length into.old }
        ensures bound { IfOk result (λ k. k ≤ length into.new) }
        ensures known { ReadConsumes (R.remaining self.old.reader) (R.remaining self.new.reader) result into.new }
        ensures answered { PassesOn (R.gives (length into.old)) self.old.reader
            (result_ok (given result into.new)) self.new.reader }
        ensures cause { HasCause self.old.faults self.new.faults result }
        ensures granted { OnOk result (self.new.faults ≡ self.old.faults) }
        ensures refused { OnErr result (Counted 1 self.old.faults self.new.faults) }
        ensures ended { IfOk result (λ k. k ≡ 0 → Counted 1 self.old.ends self.new.ends) }
        ensures gave { IfOk result (λ k. 0 < k → self.new.ends ≡ self.old.ends) }
        ensures unended { OnErr result (self.new.ends ≡ self.old.ends) }
    {
        match read_on(&mut self.reader, into) {
            Ok(0) => {
                self.ends = self.ends.saturating_add(1);
                Ok(0)
            }
            Ok(count) => Ok(count),
            Err(_) => {
                self.faults = self.faults.saturating_add(1);
                Err(SourceFailed)
            }
        }
    }
}

// Reads, and again if a signal interrupts it.
#[tactic(auto, using(crate::proofs::Kept::keeps_same, crate::proofs::Kept::keeps_then, crate::proofs::Kept::kept_read, crate::proofs::Turns::one_more))]
fn read_on<R: Reader>(reader: &mut R, into: &mut [u8]) -> io::Result<usize>
    ensures bound { IfOk result (λ k. k ≤ length into.new) }
    ensures length { length into.new ≡ length into.old }
    ensures known { ReadConsumes (R.remaining reader.old) (R.remaining reader.new) result into.new }
    ensures answered { AnswersOnce (R.gives (length into.old)) reader.old (given result into.new) reader.new }
{
    for turn in 0..u64::MAX {
        let _ = turn;
        match reader.read_once(into) {
            Err(error) if error.kind() == ErrorKind::Interrupted => {}
            answer => return answer,
        }
    }
    reader.read_once(into)
}

/// A writer as a sink. It reports no content, and counts each failure, and each piece of which nothing is taken.
#[derive(Drop)]
pub struct OutputSink<W: Writer> {
    writer: W,
    faults: u64,
    idle: u64,
}

impl<W: Writer> OutputSink<W> {
    /// The sink over a writer.
    pub fn new(writer: W) -> OutputSink<W>
        ensures writer { result.writer ≡ writer }
        ensures faults { result.faults ≡ 0 }
        ensures idle { result.idle ≡ 0 }
    {
        OutputSink {
            writer,
            faults: 0,
            idle: 0,
        }
    }
}

impl<W: Writer> Sink for OutputSink<W> {
    ghost state = { λ sink. record { taken = None; faults = sink.faults; refused = sink.faults; idle = sink.idle } };

    /// Besides what a sink does: it returns what one write of the writer returned, made again only if a signal
    /// interrupted it, and fails only if that failed. If the writer knows its bytes, those that are taken follow them.
    fn give(&mut self, from: &[u8]) -> Result<usize, SinkFailed>
        ensures bound { IfOk result (λ k. k ≤ length from.now) }
        ensures known { WriteAppends (W.contents self.old.writer) (W.contents self.new.writer) result from.now }
        ensures none { IfOk result (λ k. k ≡ 0 → 0 < length from.now → Rose self.old.faults self.new.faults) }
        ensures answered { PassesOn (W.takes from.now) self.old.writer (result_ok result) self.new.writer }
        ensures cause { HasCause self.old.faults self.new.faults result }
        ensures granted { IfOk result (λ k. 0 < k → self.new.faults ≡ self.old.faults) }
        ensures unmoved { IfOk result (λ k. k ≡ 0 → 0 < length from.now → Counted 1 self.old.faults self.new.faults) }
        ensures refused { OnErr result (Counted 1 self.old.faults self.new.faults) }
        ensures idled { length from.now ≡ 0 → Counted 1 self.old.idle self.new.idle }
        ensures busy { 0 < length from.now → self.new.idle ≡ self.old.idle }
    {
        if from.is_empty() {
            self.idle = self.idle.saturating_add(1);
        }
        match write_on(&mut self.writer, from) {
            Ok(0) => {
                self.faults = self.faults.saturating_add(1);
                Ok(0)
            }
            Ok(count) => Ok(count),
            Err(_) => {
                self.faults = self.faults.saturating_add(1);
                Err(SinkFailed)
            }
        }
    }
}

// Writes, and again if a signal interrupts it.
#[tactic(auto, using(crate::proofs::Kept::keeps_same, crate::proofs::Kept::keeps_then, crate::proofs::Kept::kept_write, crate::proofs::Turns::one_more))]
fn write_on<W: Writer>(writer: &mut W, from: &[u8]) -> io::Result<usize>
    ensures bound { IfOk result (λ k. k ≤ length from.now) }
    ensures known { WriteAppends (W.contents writer.old) (W.contents writer.new) result from.now }
    ensures answered { AnswersOnce (W.takes from.now) writer.old result writer.new }
{
    for turn in 0..u64::MAX {
        let _ = turn;
        match writer.write_once(from) {
            Err(error) if error.kind() == ErrorKind::Interrupted => {}
            answer => return answer,
        }
    }
    writer.write_once(from)
}
