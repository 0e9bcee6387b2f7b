//! The units that a sweep lists, one on each line.
ghost use Rattle.std.specs.Prelude.{◌≡◌, ◌+◌, ◌*◌, ◌≤◌, length, take, drop};
ghost use Rattle.std.specs.Int.{from_le_bytes, w64};
ghost use Rattle.text_page.specs.Output.{Puts};
ghost use Rattle.reply_text.specs.Text.{bad_lines, numbers_in, verified_text};

use crate::reply::write_numbers_line;
use block_traits::Sink;
use text_page::{Page, WriteEnd};

// The number at a place among numbers of eight bytes.
fn number_at(payload: &[u8], place: usize) -> u64
    requires { 8 * place + 8 ≤ length payload.now }
    ensures { result ≡ from_le_bytes w64 (take 8 (drop (8 * place) payload.now)) }
{
    let mut bytes = [0; 8];
    bytes.copy_from_slice(&payload[8 * place..8 * place + 8]);
    u64::from_le_bytes(bytes)
}

// Puts a line for each of so many offsets.
fn write_offsets<K: Sink, const N: usize>(
    payload: &[u8],
    bad: u32,
    page: &mut Page<N>,
    output: &mut K,
) -> Result<(), WriteEnd>
    requires { 8 * bad ≤ length payload.now }
    ensures { Puts (bad_lines (numbers_in bad payload.now)) page.old.items (K.state output.old) result page.new.items (K.state output.new) }
{
    for i in 0..bad as usize {
        write_numbers_line(b"bad", &[number_at(payload, i)], page, output)?;
    }
    Ok(())
}

/// Puts what a sweep lists, and `ok` with the place where the next sweep begins and how many units fail.
pub(crate) fn write_verified<K: Sink, const N: usize>(
    payload: &[u8],
    bad: u32,
    next: u64,
    page: &mut Page<N>,
    output: &mut K,
) -> Result<(), WriteEnd>
    requires { 8 * bad ≤ length payload.now }
    ensures { Puts (verified_text (numbers_in bad payload.now) next bad) page.old.items (K.state output.old) result page.new.items (K.state output.new) }
{
    write_offsets(payload, bad, page, output)?;
    write_numbers_line(b"ok", &[next, bad.into()], page, output)
}
