//! Bytes of a known number from a source, and all bytes to a sink.
ghost use Rattle.nbd_negotiation.specs.Streams.{Fills, GivesBytes};

use block_traits::{Sink, Source};
use text_page::write_text;

/// Why a session ended.
#[derive(Clone, Copy, Debug, PartialEq, Eq)]
pub enum End {
    /// The client went away, or said that it ends.
    Closed,
    /// The source failed.
    ReadFault,
    /// The sink failed.
    WriteFault,
    /// The client sent what no client sends.
    Malformed,
}

/// Fills `into` with the next bytes of a source. `Closed`: the source ended before that. `ReadFault`: it failed before.
/// What was taken stands at the front of `into`, after an error too.
pub fn fill<S: Source>(input: &mut S, into: &mut [u8]) -> Result<(), End>
    ensures { Fills into.new (S.state input.old) result (S.state input.new) }
{
    let mut taken = 0;
    'taken: while taken < into.len() {
        match input.take(&mut into[taken..]) {
            Err(_) => return Err(End::ReadFault),
            Ok(0) => return Err(End::Closed),
            Ok(count) => taken += count,
        }
    }
    Ok(())
}

/// Gives all bytes to a sink. `WriteFault`: the sink failed; what it took are the first of them, if any.
pub fn give_all<K: Sink>(bytes: &[u8], output: &mut K) -> Result<(), End>
    ensures { GivesBytes bytes.now (K.state output.old) result (K.state output.new) }
{
    match write_text(bytes, output) {
        Ok(()) => Ok(()),
        Err(_) => Err(End::WriteFault),
    }
}
