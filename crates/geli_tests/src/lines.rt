//! Single lines over a shelf, served and printed by themselves.
use command_words::Sep;
use crash_disk::{MemCabinet, MemDisk, MemEntropy, MemSink};
use geli_core::{Drawers, LineEnd, serve_line};
use std::alloc::Global;
use std::test::Fail;

// Serves a line over a shelf with one idle drawer: how the line ended, or none if its reply can't be printed.
fn served(
    alloc: Global,
    shelf: &mut Drawers<MemDisk>,
    line: &str,
    sep: Sep,
    output: &mut MemSink,
) -> Result<Option<LineEnd>, Fail> {
    let mut files = MemCabinet::new(alloc);
    let mut entropy = MemEntropy::new(alloc, &[])?;
    if line.len() > 300_000 {
        return Err(Fail::from("the line is too long"));
    }
    let end = serve_line(
        shelf,
        line.as_bytes(),
        sep,
        output,
        &mut files,
        &mut entropy,
    );
    Ok(end.ok())
}

// How a line ends, by a letter: accepted, silent, refused, or not printed.
fn letter_of(end: &Option<LineEnd>) -> char {
    match end {
        Some(LineEnd::Accepted) => 'a',
        Some(LineEnd::Silent) => 's',
        Some(LineEnd::Refused) => 'r',
        None => 'n',
    }
}

const LINES: [(&str, Sep, char); 5] = [
    ("list", Sep::Blanks, 'a'),
    ("  # no", Sep::Blanks, 's'),
    ("detach\0a.img", Sep::Zeros, 'r'),
    ("detach b.img", Sep::Blanks, 'r'),
    ("list", Sep::Blanks, 'n'),
];

const PRINTED: &str = "a.img idle\nok\nerror 3 NotAttached\nerror 2 UnknownProvider\n";

// A line of blanks says nothing; words may stand between zero bytes; a sink that fails is reported.
#[test]
fn a_line_is_served_by_itself(rt: HostRuntime) -> Result<(), Fail> {
    let alloc = rt.alloc();
    let mut shelf = Drawers::new(alloc)?;
    assert!(&rt; shelf.add("a.img", MemDisk::new(alloc, 64, 0)?).is_ok());
    let mut output = MemSink::new(alloc, &[], &[4], 256)?;
    for (line, sep, end) in LINES {
        let ended = served(alloc, &mut shelf, line, sep, &mut output)?;
        assert_eq!(&rt; letter_of(&ended), end, "{line}");
    }
    assert!(&rt; output.bytes() == PRINTED.as_bytes());
    Ok(())
}
