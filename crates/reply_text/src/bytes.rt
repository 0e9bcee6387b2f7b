//! Bytes in hexadecimal.
ghost use Rattle.std.specs.Prelude.{◌≡◌, ◌++◌, ◌≤◌, ◌∷◌, [], length, codes};
ghost use Rattle.hex.specs.Hex.{encode_lower};
ghost use Rattle.text_page.specs.Output.{Puts};
ghost use Rattle.reply_text.specs.Text.{bytes_text};

use block_traits::Sink;
use text_page::{Page, WriteEnd, put};

// How many bytes make one piece of digits.
const PIECE: usize = 512;

/// Puts `ok `, bytes in lower-case hexadecimal, and a newline.
pub(crate) fn write_ok_bytes<K: Sink, const N: usize>(
    bytes: &[u8],
    page: &mut Page<N>,
    output: &mut K,
) -> Result<(), WriteEnd>
    ensures { Puts (bytes_text bytes.now) page.old.items (K.state output.old) result page.new.items (K.state output.new) }
{
    put(b"ok ", page, output)?;
    write_bytes(bytes, page, output)?;
    put(b"\n", page, output)
}

// Puts bytes in lower-case hexadecimal, 1,024 digits at a time.
fn write_bytes<K: Sink, const N: usize>(
    bytes: &[u8],
    page: &mut Page<N>,
    output: &mut K,
) -> Result<(), WriteEnd>
    ensures { Puts (encode_lower bytes.now) page.old.items (K.state output.old) result page.new.items (K.state output.new) }
{
    let mut given = 0;
    'pieces: while given < bytes.len() {
        let count = PIECE.min(bytes.len() - given);
        write_piece(&bytes[given..given + count], page, output)?;
        given += count;
    }
    Ok(())
}

fn write_piece<K: Sink, const N: usize>(
    bytes: &[u8],
    page: &mut Page<N>,
    output: &mut K,
) -> Result<(), WriteEnd>
    requires { length bytes.now ≤ 512 }
    ensures { Puts (encode_lower bytes.now) page.old.items (K.state output.old) result page.new.items (K.state output.new) }
{
    let mut buffer = [0; 1024];
    let digits = &mut buffer[..2 * bytes.len()];
    let _ = hex::encode_to_slice(bytes, &mut *digits);
    put(digits, page, output)
}
