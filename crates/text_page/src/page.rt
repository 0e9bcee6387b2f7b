//! A page on which texts are gathered, so that the sink is given few pieces.
ghost use Rattle.std.specs.Prelude.{◌≡◌, [], OnOk};
ghost use Rattle.text_page.specs.Output.{Prints, Puts};

use crate::{WriteEnd, write_text};
use arrayvec::ArrayVec;
use block_traits::Sink;

/// Texts that are still to be given to the sink, at most `N` bytes.
pub type Page<const N: usize> = ArrayVec<u8, N>;

/// Adds a text to those on the page. If the page has no room for it, the sink is given the page
/// first.
pub fn put<K: Sink, const N: usize>(
    text: &[u8],
    page: &mut Page<N>,
    output: &mut K,
) -> Result<(), WriteEnd>
    ensures { Puts text.now page.old.items (K.state output.old) result page.new.items (K.state output.new) }
{
    if page.try_extend_from_slice(text).is_ok() {
        return Ok(());
    }
    give_page(page, output)?;
    if page.try_extend_from_slice(text).is_ok() {
        return Ok(());
    }
    write_text(text, output)
}

/// Gives the page to the sink, and clears it.
pub fn give_page<K: Sink, const N: usize>(
    page: &mut Page<N>,
    output: &mut K,
) -> Result<(), WriteEnd>
    ensures printed { Prints page.old.items (K.state output.old) result (K.state output.new) }
    ensures cleared { OnOk result (page.new.items ≡ []) }
{
    write_text(page.as_slice(), output)?;
    page.clear();
    Ok(())
}
