//! Texts given to a sink, and texts of several pieces put on a page.
ghost use Rattle.std.specs.Prelude.{map};
ghost use Rattle.std.specs.List.{concat};
ghost use Rattle.text_page.specs.Output.{Prints, Puts};

use crate::page::{Page, put};
use block_traits::Sink;

/// The sink failed.
#[derive(Clone, Copy, Debug, PartialEq, Eq)]
pub struct WriteEnd;

/// Gives all of a text to a sink. `WriteEnd` comes only if the sink's count of faults rose, and the
/// sink then took the first bytes of the text and no others.
pub fn write_text<K: Sink>(text: &[u8], output: &mut K) -> Result<(), WriteEnd>
    ensures { Prints text.now (K.state output.old) result (K.state output.new) }
{
    let mut given = 0;
    while given < text.len() {
        match output.give(&text[given..]) {
            Ok(0) => return Err(WriteEnd),
            Ok(count) => given += count,
            Err(_) => return Err(WriteEnd),
        }
    }
    Ok(())
}

/// Puts texts one after another.
pub fn write_pieces<K: Sink, const N: usize>(
    pieces: &[&[u8]],
    page: &mut Page<N>,
    output: &mut K,
) -> Result<(), WriteEnd>
    ensures { Puts (concat (map (λ piece. piece.now) pieces.now)) page.old.items (K.state output.old) result page.new.items (K.state output.new) }
{
    for piece in pieces {
        put(piece, page, output)?;
    }
    Ok(())
}
