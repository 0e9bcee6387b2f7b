//! Lines of a label and a value.
ghost use Rattle.reply_text.specs.Text.{line};
ghost use Rattle.text_page.specs.Output.{Puts};

use block_traits::Sink;
use itoa::{Buffer, Integer};
use text_page::{Page, WriteEnd, write_pieces};

/// Puts a line: a label, a value, and a newline.
#[tactic(auto, unfolding(crate::specs::Text::line))]
pub(crate) fn write_line<K: Sink, const N: usize>(
    label: &[u8],
    value: &[u8],
    page: &mut Page<N>,
    output: &mut K,
) -> Result<(), WriteEnd>
    ensures { Puts (line label.now value.now) page.old.items (K.state output.old) result page.new.items (K.state output.new) }
{
    write_pieces(&[label, value, b"\n"], page, output)
}

/// Puts a line with a number in decimal.
pub(crate) fn write_number_line<K: Sink, I: Integer, const N: usize>(
    label: &[u8],
    number: I,
    page: &mut Page<N>,
    output: &mut K,
) -> Result<(), WriteEnd>
    ensures { Puts (line label.now (I.text number)) page.old.items (K.state output.old) result page.new.items (K.state output.new) }
{
    let mut digits = Buffer::new();
    write_line(label, digits.format(number).as_bytes(), page, output)
}
