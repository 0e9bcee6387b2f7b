//! Lines, against the table of another implementation.
mod table;

use command_words::{Sep, Usage, read_line};
use std::alloc::Global;
use std::fmt::Write;
use std::test::Fail;
use table::LINES;

// What a sign of the table stands for: a byte, and how many of it.
fn meaning(sign: u8) -> (u8, usize) {
    match sign {
        b'~' => (0, 1),
        b'`' => (b'\t', 1),
        b'^' => (b'\r', 1),
        b'!' => (0xff, 1),
        b'%' => (0xc3, 1),
        b'{' => (b'a', 262_140),
        b'}' => (b'a', 37_855),
        other => (other, 1),
    }
}

// Puts so many of a byte after the others.
fn push_times(bytes: &mut Vec<u8>, byte: u8, count: usize) -> Result<(), Fail> {
    for _ in 0..count {
        bytes.push(byte)?;
    }
    Ok(())
}

// The bytes that a text of the table stands for.
fn plain_bytes(alloc: Global, text: &str) -> Result<Vec<u8>, Fail> {
    let mut bytes = Vec::new(alloc);
    for sign in text.bytes() {
        let (byte, count) = meaning(sign);
        push_times(&mut bytes, byte, count)?;
    }
    Ok(bytes)
}

// What a line says, as the table has it.
fn show(alloc: Global, line: &[u8], sep: Sep) -> Result<String, Fail> {
    let mut out = String::new(alloc);
    if line.len() > 300_000 {
        return Ok(out);
    }
    match read_line(line, sep) {
        Ok(None) => out.push_str("none")?,
        Ok(Some(command)) => write!(out, "{command:?}")?,
        Err(Usage { word, reason }) => write!(out, "usage {word} {reason:?}")?,
    }
    Ok(out)
}

#[test]
fn lines_of_the_table(rt: HostRuntime) -> Result<(), Fail> {
    let alloc = rt.alloc();
    for row in LINES.lines() {
        let (sep, rest) = row.split_once('|').ok_or("a separator")?;
        let (line, want) = rest.split_once('|').ok_or("a reply")?;
        let sep = if sep == "Z" { Sep::Zeros } else { Sep::Blanks };
        let bytes = plain_bytes(alloc, line)?;
        let shown = show(alloc, bytes.as_slice(), sep)?;
        assert!(&rt; shown.as_str() == want, "{row} gives {shown}");
    }
    Ok(())
}
