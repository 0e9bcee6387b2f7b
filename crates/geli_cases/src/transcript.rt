//! The transcript of cases, as docs/CASES.md describes it.
use crate::fault::Fault;
use block_traits::Event;
use sha2::{Digest, Sha256};
use std::alloc::Global;

// A longer line of output is shown by its digest.
const LONG_LINE: usize = 200;
// So many bytes of a longer line are shown.
const SHOWN: usize = 40;
// A longer file is shown by its digest.
const LONG_FILE: usize = 16;

/// The transcript so far. It is printed only when all cases are done, so that a bad line leaves nothing else. If there
/// is no memory for a part, that is kept, and `settle` returns it.
#[derive(Drop)]
pub struct Transcript {
    alloc: Global,
    text: String,
    cut: bool,
}

/// A part of a line of the transcript.
#[derive(Drop)]
pub enum Part<'a> {
    /// A text.
    Text(&'a str),
    /// A number.
    Number(u64),
    /// Bytes in hexadecimal.
    Hex(&'a [u8]),
}

impl Transcript {
    /// An empty transcript.
    pub fn new(alloc: Global) -> Transcript {
        Transcript {
            alloc,
            text: String::new(alloc),
            cut: false,
        }
    }

    /// What was written so far.
    pub fn as_str(&self) -> &str {
        self.text.as_str()
    }

    /// Whether all was written.
    pub fn settle(&self) -> Result<(), Fault> {
        if self.cut {
            Err(Fault::NoMemory)
        } else {
            Ok(())
        }
    }

    /// A line of these parts, between spaces.
    pub fn line(&mut self, parts: &[Part<'_>]) {
        self.parts(parts);
        self.text("\n");
    }

    // Parts between spaces.
    fn parts(&mut self, parts: &[Part<'_>]) {
        for (place, part) in parts.iter().enumerate() {
            if place > 0 {
                self.text(" ");
            }
            match part {
                Part::Text(text) => self.text(text),
                Part::Number(number) => self.number(*number),
                Part::Hex(bytes) => self.hex(bytes),
            }
        }
    }

    fn text(&mut self, text: &str) {
        if self.text.push_str(text).is_err() {
            self.cut = true;
        }
    }

    fn number(&mut self, number: u64) {
        if write!(self.text, "{number}").is_err() {
            self.cut = true;
        }
    }

    fn hex(&mut self, bytes: &[u8]) {
        match hex::encode(self.alloc, bytes) {
            Ok(digits) => self.text(digits.as_str()),
            Err(_) => self.cut = true,
        }
    }

    /// What the sink took.
    pub fn output(&mut self, bytes: &[u8]) {
        for piece in bytes.split_inclusive(|byte| *byte == b'\n') {
            match piece.strip_suffix(b"\n") {
                Some(line) => self.output_line(line),
                None => {
                    self.output_line(piece);
                    self.text("unended\n");
                }
            }
        }
    }

    // One line of output, without its newline.
    fn output_line(&mut self, line: &[u8]) {
        match plain_text(line) {
            None => self.line(&[Part::Text("out-hex"), Part::Hex(line)]),
            Some(text) if text.len() <= LONG_LINE => {
                self.line(&[Part::Text("out"), Part::Text(text)])
            }
            Some(text) => {
                let digest = Sha256::digest(line);
                let shown = line.get(..SHOWN).and_then(|line| plain_text(line));
                self.line(&[
                    Part::Text("out-long"),
                    Part::Number(text.len() as u64),
                    Part::Hex(&digest),
                    Part::Text(shown.unwrap_or(text)),
                ])
            }
        }
    }

    /// What was done to a disk.
    pub fn events(&mut self, name: &str, events: &[Event]) {
        self.parts(&[
            Part::Text("events"),
            Part::Text(name),
            Part::Number(events.len() as u64),
        ]);
        if !events.is_empty() {
            self.text(" ");
            self.hex(&digest_of(events));
            self.short(events);
        }
        self.text("\n");
    }

    // The events in order, writes of ascending neighbours joined.
    fn short(&mut self, events: &[Event]) {
        let mut joined = None;
        for event in events {
            let Event::Write { n, .. } = event else {
                self.writes(joined);
                self.text(" F");
                joined = None;
                continue;
            };
            joined = match joined {
                Some((first, last)) if follows(last, *n) => Some((first, *n)),
                before => {
                    self.writes(before);
                    Some((*n, *n))
                }
            };
        }
        self.writes(joined);
    }

    // Writes of the sectors from a first to a last.
    fn writes(&mut self, joined: Option<(u64, u64)>) {
        let Some((first, last)) = joined else {
            return;
        };
        self.text(" W");
        self.number(first);
        if first != last {
            self.text("-");
            self.number(last);
        }
    }

    /// A file that changed or came.
    pub fn file(&mut self, name: &str, bytes: &[u8]) {
        self.parts(&[
            Part::Text("file"),
            Part::Text(name),
            Part::Number(bytes.len() as u64),
        ]);
        self.text(" ");
        if bytes.is_empty() {
            self.text("-");
        } else if bytes.len() > LONG_FILE {
            self.hex(&Sha256::digest(bytes));
        } else {
            self.hex(bytes);
        }
        self.text("\n");
    }

    /// What came of a survivor: a word, and for a bad entry its place.
    pub fn survivor<'a>(
        &mut self,
        new: &'a str,
        old: &'a str,
        moment: u64,
        answer: &'a str,
        place: Option<usize>,
    ) {
        self.parts(&[Part::Text("survivor"), Part::Text(new), Part::Text(old)]);
        self.text(" ");
        self.parts(&[Part::Number(moment), Part::Text(answer)]);
        if let Some(place) = place {
            self.text(" ");
            self.number(place as u64);
        }
        self.text("\n");
    }

    /// What a run over a survivor printed.
    pub fn crash(&mut self, moment: usize, place: usize, status: u8, output: &[u8]) {
        self.parts(&[
            Part::Text("crash"),
            Part::Number(moment as u64),
            Part::Number(place as u64),
            Part::Number(u64::from(status)),
        ]);
        let lines = output.strip_suffix(b"\n").unwrap_or(output);
        let mut is_first = true;
        for line in lines.split(|byte| *byte == b'\n') {
            self.text(if is_first { " " } else { ";" });
            is_first = false;
            match plain_text(line) {
                Some(text) => self.text(text),
                None => self.hex(line),
            }
        }
        self.text("\n");
    }
}

// The text of a line, if its bytes are all plain.
fn plain_text(line: &[u8]) -> Option<&str> {
    if !line.iter().all(|byte| b' ' <= *byte && *byte <= b'~') {
        return None;
    }
    str::from_utf8(line).ok()
}

fn follows(last: u64, n: u64) -> bool {
    last.checked_add(1) == Some(n)
}

fn digest_of(events: &[Event]) -> [u8; 32] {
    let mut hasher = Sha256::new();
    for event in events {
        match event {
            Event::Flush => hasher.update(b"F"),
            Event::Write { n, bytes } => {
                hasher.update(b"W");
                hasher.update(n.to_le_bytes());
                hasher.update(bytes.as_slice());
            }
        }
    }
    hasher.finalize()
}
