//! The metadata, line by line.
ghost use Rattle.std.specs.Prelude.{◌≡◌, ◌*◌, length, codes, false};
ghost use Rattle.std.specs.Fmt.{decimal, signed_decimal, digits};
ghost use Rattle.hex.specs.Hex.{encode_lower};
ghost use Rattle.text_page.specs.Output.{Puts};
ghost use Rattle.reply_text.specs.Text.{line, dump_text, format_lines, size_lines, key_lines};

use crate::hexadecimal::hexadecimal;
use crate::lines::{write_line, write_number_line};
use block_traits::Sink;
use eli_metadata::Metadata;
use text_page::{Page, WriteEnd, put};

pub(crate) fn write_dump<K: Sink, const N: usize>(
    meta: &Metadata,
    page: &mut Page<N>,
    output: &mut K,
) -> Result<(), WriteEnd>
    ensures { Puts (dump_text meta.now) page.old.items (K.state output.old) result page.new.items (K.state output.new) }
{
    write_format(meta, page, output)?;
    write_sizes(meta, page, output)?;
    write_keys(meta, page, output)?;
    put(b"ok\n", page, output)
}

// The version, the flags, and the algorithms.
fn write_format<K: Sink, const N: usize>(
    meta: &Metadata,
    page: &mut Page<N>,
    output: &mut K,
) -> Result<(), WriteEnd>
    ensures { Puts (format_lines meta.now) page.old.items (K.state output.old) result page.new.items (K.state output.new) }
{
    write_number_line(b"version: ", meta.version, page, output)?;
    write_hexadecimal_line(b"flags: 0x", meta.flags, page, output)?;
    write_number_line(b"ealgo: ", meta.ealgo, page, output)?;
    write_number_line(b"keylen: ", meta.keylen, page, output)?;
    write_number_line(b"aalgo: ", meta.aalgo, page, output)
}

// The sizes, and which slots are set.
fn write_sizes<K: Sink, const N: usize>(
    meta: &Metadata,
    page: &mut Page<N>,
    output: &mut K,
) -> Result<(), WriteEnd>
    ensures { Puts (size_lines meta.now) page.old.items (K.state output.old) result page.new.items (K.state output.new) }
{
    write_number_line(b"provsize: ", meta.provsize, page, output)?;
    write_number_line(b"sectorsize: ", meta.sectorsize, page, output)?;
    write_hexadecimal_line(b"keys: 0x", meta.keys.into(), page, output)
}

// The iterations, the salt and the slots.
fn write_keys<K: Sink, const N: usize>(
    meta: &Metadata,
    page: &mut Page<N>,
    output: &mut K,
) -> Result<(), WriteEnd>
    ensures { Puts (key_lines meta.now) page.old.items (K.state output.old) result page.new.items (K.state output.new) }
{
    write_iterations(meta, page, output)?;
    write_bytes_line(b"salt: ", &meta.salt, &mut [0; 128], page, output)?;
    write_bytes_line(b"mkeys: ", &meta.mkeys, &mut [0; 768], page, output)
}

fn write_iterations<K: Sink, const N: usize>(
    meta: &Metadata,
    page: &mut Page<N>,
    output: &mut K,
) -> Result<(), WriteEnd>
    ensures { Puts (line (codes "iterations: ") (signed_decimal meta.now.iterations)) page.old.items (K.state output.old) result page.new.items (K.state output.new) }
{
    write_number_line(b"iterations: ", meta.iterations, page, output)
}

// Puts a line with bytes in hexadecimal. The buffer takes their digits first.
fn write_bytes_line<K: Sink, const N: usize>(
    label: &[u8],
    bytes: &[u8],
    buffer: &mut [u8],
    page: &mut Page<N>,
    output: &mut K,
) -> Result<(), WriteEnd>
    requires { length buffer.old ≡ 2 * length bytes.now }
    ensures { Puts (line label.now (encode_lower bytes.now)) page.old.items (K.state output.old) result page.new.items (K.state output.new) }
{
    let _ = hex::encode_to_slice(bytes, buffer);
    write_line(label, buffer, page, output)
}

fn write_hexadecimal_line<K: Sink, const N: usize>(
    label: &[u8],
    number: u32,
    page: &mut Page<N>,
    output: &mut K,
) -> Result<(), WriteEnd>
    ensures { Puts (line label.now (digits 16 false number)) page.old.items (K.state output.old) result page.new.items (K.state output.new) }
{
    let mut buffer = [0; 8];
    let start = hexadecimal(number, &mut buffer);
    write_line(label, &buffer[start..], page, output)
}
