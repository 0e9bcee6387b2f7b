//! Places of words and values in a line.
ghost use Rattle.std.specs.Prelude.{◌≡◌, ◌<◌, ◌≤◌, [], ◌∷◌, ◌++◌, length, false};
ghost use Rattle.std.specs.List.{position_or_len};
ghost use Rattle.memchr.specs.Find.{IsFirstByte};
ghost use Rattle.command_words.specs.Words.{is_between, is_word};

use memchr::{memchr, memchr2};
use std::fmt::{self, Debug, Formatter, Write};
use std::marker::Model;

/// What stands between the words of a line.
#[derive(Clone, Copy, Debug, PartialEq, Eq)]
pub enum Sep {
    /// Spaces and tabs: words are the longest runs of other bytes.
    Blanks,
    /// Single zero bytes: words may be empty.
    Zeros,
}

impl Sep {
    /// Whether the byte stands between words.
    pub(crate) fn is_between(self, byte: u8) -> bool
        ensures { result ≡ is_between self byte }
    {
        match self {
            Sep::Blanks => byte == b' ' || byte == b'\t',
            Sep::Zeros => byte == 0,
        }
    }

    /// Whether the bytes from one separator to the next are a word.
    pub(crate) fn is_word(self, piece: &[u8]) -> bool
        ensures { result ≡ is_word self piece.now }
    {
        match self {
            Sep::Blanks => !piece.is_empty(),
            Sep::Zeros => true,
        }
    }

    // The place of the first separator.
    fn first_between(self, bytes: &[u8]) -> Option<usize>
        ensures { IsFirstByte (is_between self) bytes.now result }
    {
        match self {
            Sep::Blanks => memchr2(b' ', b'\t', bytes),
            Sep::Zeros => memchr(0, bytes),
        }
    }

    /// How many bytes come before the first separator.
    pub(crate) fn part_len(self, bytes: &[u8]) -> usize
        ensures { result ≡ position_or_len (is_between self) bytes.now }
    {
        match self.first_between(bytes) {
            Some(len) => len,
            None => bytes.len(),
        }
    }
}

/// The bytes of a value, by their places in the line: those from `start` to before `end`.
#[derive(Clone, Copy, PartialEq, Eq)]
pub struct Span {
    /// The place of the first byte.
    pub start: u32,
    /// The place after the last byte.
    pub end: u32,
    /// The number of the word in which the value stands, from 0.
    pub word: u32,
}

impl Span {
    ghost use Rattle.command_words.specs.Places.{IsWithin, bytes_at};

    /// The bytes of the value, in the line that the span belongs to.
    pub fn bytes_in(self, line: &[u8]) -> &[u8]
        requires { IsWithin (length line.now) self }
        ensures { result.now ≡ bytes_at line.now self }
    {
        &line[self.start as usize..self.end as usize]
    }
}

/// The word and the places, as `2@7..12`.
impl Debug for Span {
    fn fmt<W: Write>(&self, f: &mut Formatter<W>) -> fmt::Result {
        let Span { start, end, word } = *self;
        write!(f, "{word}@{start}..{end}")
    }
}

/// The files of one option, in the order in which they were named: a list of at most 16 spans.
#[derive(Drop)]
pub struct SpanList {
    spans: [Span; 16],
    count: usize,
}

impl Model for SpanList {
    ghost use Rattle.std.specs.Prelude.{◌≤◌, List, take};
    ghost use Rattle.command_words.specs.declared.spans.Span.{Span};

    ghost Value = { List Span };

    ghost view = { λ list. take list.count list.spans };

    ghost invariant = { λ list. list.count ≤ 16 };
}

impl SpanList {
    /// The empty list.
    pub(crate) fn new() -> SpanList
        ensures { result ≡ [] }
    {
        let none = Span {
            start: 0,
            end: 0,
            word: 0,
        };
        SpanList {
            spans: [none; 16],
            count: 0,
        }
    }

    /// The number of spans.
    pub(crate) fn len(&self) -> usize
        ensures { result ≡ length self.now }
    {
        self.as_slice().len()
    }

    /// The spans in order.
    pub fn as_slice(&self) -> &[Span]
        ensures spans { result.now ≡ self.now }
        ensures bound { length result.now ≤ 16 }
    {
        &self.spans[..self.count]
    }

    /// Adds a span at the end.
    pub(crate) fn push(&mut self, span: Span)
        requires { length self.old < 16 }
        ensures { self.new ≡ self.old ++ span ∷ [] }
    {
        self.spans[self.count] = span;
        self.count += 1;
    }
}

/// The spans of the list.
impl Debug for SpanList {
    fn fmt<W: Write>(&self, f: &mut Formatter<W>) -> fmt::Result {
        self.as_slice().fmt(f)
    }
}

/// The words of one key: its key files, its passphrase files, and whether it goes without a passphrase.
#[derive(Debug, Drop)]
pub struct KeyWords {
    /// `-k` or `-K`.
    pub files: SpanList,
    /// `-j` or `-J`.
    pub pass: SpanList,
    /// `-p` or `-P`.
    pub without: bool,
}

impl KeyWords {
    /// A key about which no word says anything.
    pub(crate) fn new() -> KeyWords
        ensures files { result.files ≡ [] }
        ensures pass { result.pass ≡ [] }
        ensures without { result.without ≡ false }
    {
        KeyWords {
            files: SpanList::new(),
            pass: SpanList::new(),
            without: false,
        }
    }
}
