//! The lines of a case file, as docs/CASES.md describes them: a word, and arguments between single spaces.
use crate::fault::Fault;
use crate::layers::LayerKind;
use std::alloc::{AllocError, Global};

/// What a line says. The names are those of the words in `KINDS`.
#[derive(Clone, Copy)]
pub enum Kind {
    /// A case begins, and all before it is forgotten.
    Case,
    /// What a case has between its runs.
    Has(Has),
    /// What the next run is given.
    Given(Given),
    /// The top call.
    Run,
    /// A value that a sector has in the next survivor.
    Pick,
    /// A sector that is torn in the next survivor.
    Tear,
    /// A crash image of a disk becomes a disk.
    Survivor,
    /// A run over each survivor that differs in one sector.
    Crashes,
}

/// What a case has between its runs: disks, files and random bytes.
#[derive(Clone, Copy)]
pub enum Has {
    Disk,
    Copy,
    Alter,
    Cover,
    Take,
    Layer(LayerKind),
    Shelf,
    Looks,
    File(Form),
    Watch,
    Entropy(Form),
}

/// What the next run is given.
#[derive(Clone, Copy)]
pub enum Given {
    Words,
    Word(Form),
    Input(Form),
    Offer,
    Fail,
    FailFiles,
    FailInput,
    FailOutput,
    CutInput,
    CutOutput,
    RoomOutput,
}

/// How a line gives bytes.
#[derive(Clone, Copy)]
pub enum Form {
    /// HEX.
    Hex,
    /// N FIRST: the counted pattern.
    Counted,
    /// N HEX: the bytes N times.
    Times,
    /// N TEXT: the text N times.
    TextTimes,
    /// TEXT, and a newline.
    Line,
    /// N X TEXT: the text, a space, X N times, and a newline.
    LineTimes,
    /// N FIRST TEXT: the text, a space, the digits of the counted pattern, and a newline.
    LineCounted,
}

// The word that each kind of line begins with.
const KINDS: [(&str, Kind); 39] = [
    ("case", Kind::Case),
    ("run", Kind::Run),
    ("pick", Kind::Pick),
    ("tear", Kind::Tear),
    ("survivor", Kind::Survivor),
    ("crashes", Kind::Crashes),
    ("disk", Kind::Has(Has::Disk)),
    ("copy", Kind::Has(Has::Copy)),
    ("alter", Kind::Has(Has::Alter)),
    ("cover", Kind::Has(Has::Cover)),
    ("take", Kind::Has(Has::Take)),
    ("behind", Kind::Has(Has::Layer(LayerKind::Behind))),
    ("join", Kind::Has(Has::Layer(LayerKind::Join))),
    ("provider", Kind::Has(Has::Layer(LayerKind::Provider))),
    ("shelf", Kind::Has(Has::Shelf)),
    ("looks", Kind::Has(Has::Looks)),
    ("file", Kind::Has(Has::File(Form::Hex))),
    ("file-count", Kind::Has(Has::File(Form::Counted))),
    ("file-times", Kind::Has(Has::File(Form::Times))),
    ("watch", Kind::Has(Has::Watch)),
    ("entropy", Kind::Has(Has::Entropy(Form::Counted))),
    ("entropy-hex", Kind::Has(Has::Entropy(Form::Hex))),
    ("entropy-times", Kind::Has(Has::Entropy(Form::Times))),
    ("words", Kind::Given(Given::Words)),
    ("word", Kind::Given(Given::Word(Form::Hex))),
    ("word-times", Kind::Given(Given::Word(Form::TextTimes))),
    ("in", Kind::Given(Given::Input(Form::Line))),
    ("in-times", Kind::Given(Given::Input(Form::LineTimes))),
    ("in-count", Kind::Given(Given::Input(Form::LineCounted))),
    ("bytes", Kind::Given(Given::Input(Form::Hex))),
    ("bytes-times", Kind::Given(Given::Input(Form::Times))),
    ("offer", Kind::Given(Given::Offer)),
    ("fail", Kind::Given(Given::Fail)),
    ("fail-files", Kind::Given(Given::FailFiles)),
    ("fail-in", Kind::Given(Given::FailInput)),
    ("fail-out", Kind::Given(Given::FailOutput)),
    ("cut-in", Kind::Given(Given::CutInput)),
    ("cut-out", Kind::Given(Given::CutOutput)),
    ("room-out", Kind::Given(Given::RoomOutput)),
];

/// A line whose arguments are taken from the left. The first that is missing or wrong is kept as the line's fault, and
/// is then 0 or empty: `settle` returns it when the line is done.
#[derive(Drop)]
pub struct Line<'a> {
    rest: Option<&'a str>,
    fault: Option<Fault>,
}

impl<'a> Line<'a> {
    /// A line that is neither empty nor a comment.
    pub fn new(text: &'a str) -> Line<'a> {
        Line {
            rest: Some(text),
            fault: None,
        }
    }

    /// What the line says, by its first word.
    pub fn kind(&mut self) -> Result<Kind, Fault> {
        self.one_of(&KINDS, "no such kind of line")
    }

    /// What the next word stands for in a table; if it isn't there, that is the line's fault.
    pub fn one_of<T: Copy>(
        &mut self,
        table: &[(&'static str, T)],
        else_fault: &'static str,
    ) -> Result<T, Fault> {
        let word = self.word();
        for (name, meaning) in table {
            if *name == word {
                return Ok(*meaning);
            }
        }
        Err(Fault::Bad(else_fault))
    }

    /// The next word.
    pub fn word(&mut self) -> &'a str {
        let text = self.text();
        let word = match text.split_once(' ') {
            None => text,
            Some((word, rest)) => {
                self.rest = Some(rest);
                word
            }
        };
        if word.is_empty() {
            self.wrong("an argument is missing");
        }
        word
    }

    /// All that is left, as it stands.
    pub fn text(&mut self) -> &'a str {
        let text = match self.rest {
            Some(text) => text,
            None => "",
        };
        self.rest = None;
        text
    }

    /// The next word, as a number.
    pub fn number(&mut self) -> u64 {
        match self.word().parse::<u64>() {
            Ok(number) => number,
            Err(_) => {
                self.wrong("no number");
                0
            }
        }
    }

    // Keeps what is wrong, unless something was wrong before.
    fn wrong(&mut self, why: &'static str) {
        if self.fault.is_none() {
            self.fault = Some(Fault::Bad(why));
        }
    }

    /// The result of the line: its fault, arguments that are left over, or what came of doing it.
    pub fn settle(&self, done: Result<(), Fault>) -> Result<(), Fault> {
        match (self.fault, done) {
            (Some(fault), _) => Err(fault),
            (None, Ok(())) if self.rest.is_some() => Err(Fault::Bad("too many arguments")),
            (None, done) => done,
        }
    }

    /// Appends the bytes that the line gives.
    pub fn bytes(&mut self, alloc: Global, form: Form, into: &mut Vec<u8>) -> Result<(), Fault> {
        match form {
            Form::Hex => self.hex(alloc, into),
            Form::Counted => {
                let (count, first) = (self.number(), self.number());
                Ok(counted(count, first, into)?)
            }
            Form::Times => self.times(alloc, into),
            Form::TextTimes => {
                let count = self.number();
                Ok(repeat(count, self.text().as_bytes(), into)?)
            }
            Form::Line => {
                into.extend_from_slice(self.text().as_bytes())?;
                Ok(into.push(b'\n')?)
            }
            Form::LineTimes => self.line_times(into),
            Form::LineCounted => self.line_counted(alloc, into),
        }
    }

    // HEX.
    fn hex(&mut self, alloc: Global, into: &mut Vec<u8>) -> Result<(), Fault> {
        let digits = self.word();
        if digits == "-" {
            return Ok(());
        }
        match hex::decode(alloc, digits) {
            Ok(bytes) => Ok(into.extend_from_slice(&bytes)?),
            Err(_) => Err(Fault::Bad("no hexadecimal digits")),
        }
    }

    // N HEX.
    fn times(&mut self, alloc: Global, into: &mut Vec<u8>) -> Result<(), Fault> {
        let count = self.number();
        let mut piece = Vec::new(alloc);
        self.hex(alloc, &mut piece)?;
        Ok(repeat(count, &piece, into)?)
    }

    // N X TEXT.
    fn line_times(&mut self, into: &mut Vec<u8>) -> Result<(), Fault> {
        let count = self.number();
        let piece = self.word();
        into.extend_from_slice(self.text().as_bytes())?;
        into.push(b' ')?;
        repeat(count, piece.as_bytes(), into)?;
        Ok(into.push(b'\n')?)
    }

    // N FIRST TEXT.
    fn line_counted(&mut self, alloc: Global, into: &mut Vec<u8>) -> Result<(), Fault> {
        let (count, first) = (self.number(), self.number());
        let mut bytes = Vec::new(alloc);
        counted(count, first, &mut bytes)?;
        let digits = hex::encode(alloc, bytes.as_slice())?;
        into.extend_from_slice(self.text().as_bytes())?;
        into.push(b' ')?;
        into.extend_from_slice(digits.as_bytes())?;
        Ok(into.push(b'\n')?)
    }

    /// Appends all words that are left.
    pub fn words(&mut self, alloc: Global, into: &mut Vec<String>) -> Result<(), Fault> {
        for _ in 0..u64::MAX {
            if self.rest.is_none() {
                break;
            }
            into.push(String::from_str(alloc, self.word())?)?;
        }
        Ok(())
    }

    /// Appends all numbers that are left, at least one.
    pub fn numbers(&mut self, into: &mut Vec<u64>) -> Result<(), Fault> {
        for _ in 0..u64::MAX {
            into.push(self.number())?;
            if self.rest.is_none() {
                break;
            }
        }
        Ok(())
    }
}

// Appends so many bytes of the counted pattern.
fn counted(count: u64, first: u64, into: &mut Vec<u8>) -> Result<(), AllocError> {
    let first = first % 251;
    for i in 0..count {
        into.extend_from_slice(&[((first + i % 251) % 251) as u8])?;
    }
    Ok(())
}

// Appends a piece so many times.
fn repeat(count: u64, piece: &[u8], into: &mut Vec<u8>) -> Result<(), AllocError> {
    for _ in 0..count {
        into.extend_from_slice(piece)?;
    }
    Ok(())
}
