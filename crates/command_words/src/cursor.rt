//! The words of a line, taken one by one.
ghost use Rattle.std.specs.Prelude.{◌≡◌, ◌+◌, ◌-◌, ◌<◌, ◌≤◌, ℕ, [], ◌∷◌, length, if◌then◌else◌, false, IsTrue, IfSome, MatchOption, ◌⊎◌};

use crate::spans::{Sep, Span};

/// A word, or the part of one that is the value of an option, with its place in the line.
#[derive(Clone, Copy)]
pub struct Piece<'a> {
    /// The bytes of the word.
    pub bytes: &'a [u8],
    /// Where the bytes start in the line.
    pub start: u32,
    /// The number of the word from 0.
    pub number: u32,
    pub ghost inside: { start + length bytes.now ≤ 300001 },
}

impl Piece<'_> {
    ghost use Rattle.command_words.specs.Cursor.{seen};
    ghost use Rattle.command_words.specs.Settings.{span_of};

    /// The places of the bytes.
    pub fn span(self) -> Span
        ensures { result ≡ span_of (seen self.entry) }
    {
        Span {
            start: self.start,
            end: self.start + self.bytes.len() as u32,
            word: self.number,
        }
    }
}

/// What is left of a line whose words are taken one by one.
#[derive(Clone, Copy)]
pub struct WordsLeft<'a> {
    sep: Sep,
    // The bytes from which no word was taken yet, and where they start.
    rest: &'a [u8],
    start: u32,
    // The number of the next word.
    number: u32,
    // Whether the last piece was taken.
    ended: bool,
    ghost inside: { start + length rest.now ≤ (if ended then 300001 else 300000) },
    ghost counted: { number ≤ start },
}

impl<'a> WordsLeft<'a> {
    ghost use Rattle.command_words.specs.Cursor.{seen, left};
    ghost use Rattle.command_words.specs.Words.{words, placed_words, parts_behind};

    /// The words of a line.
    pub fn new(line: &'a [u8], sep: Sep) -> Self
        requires { length line.now ≤ 300000 }
        ensures left { left result ≡ words sep line.now }
        ensures number { result.number ≡ 0 }
    {
        WordsLeft {
            sep,
            rest: line,
            start: 0,
            number: 0,
            ended: line.is_empty(),
        }
    }

    /// The next word and the words after it.
    #[tactic(auto, using(crate::proofs::WordsLemmas::word_taken))]
    pub fn split_first(self) -> Option<(Piece<'a>, WordsLeft<'a>)>
        ensures words { MatchOption result (left self.entry ≡ [])
            (λ taken. left self.entry ≡ seen taken.0 ∷ left taken.1) }
        ensures number { IfSome result (λ taken. (taken.0.number ≡ self.entry.number) × (taken.1.number ≡ self.entry.number + 1)) }
    {
        let mut words = self;
        while !words.ended {
            let rest = words.rest;
            let len = words.sep.part_len(rest);
            let bytes = &rest[..len];
            let (start, number) = (words.start, words.number);
            if words.sep.is_word(bytes) {
                return Some((
                    Piece {
                        bytes,
                        start,
                        number,
                    },
                    words.behind(len, number + 1),
                ));
            }
            words = words.behind(len, number);
        }
        None
    }

    /// The number of the next word, which is how many were taken.
    pub fn number(self) -> u32
        ensures { result ≡ self.entry.number }
    {
        self.number
    }

    /// How many words are left.
    pub fn count(self) -> u32
        ensures count { result ≡ length (left self.entry) }
        ensures bound { self.entry.number + result ≤ 300001 }
    {
        let mut words = self;
        'count: while let Some((_, behind)) = words.split_first() {
            words = behind;
        }
        words.number - self.number
    }

    // What is left after a part of `len` bytes, with the number of the next word.
    fn behind(self, len: usize, number: u32) -> WordsLeft<'a>
        requires going { self.ended ≡ false }
        requires inside { len ≤ length self.rest.now }
        requires counted { number ≤ self.start + 1 }
        ensures left { left result ≡ placed_words self.entry.sep number (self.entry.start + len + 1)
            (parts_behind self.entry.sep len self.entry.rest.now) }
        ensures number { result.number ≡ number }
        ensures shorter { length result.rest.now + len ≤ length self.entry.rest.now }
        ensures ended { IsTrue result.ended ⊎ (length result.rest.now < length self.entry.rest.now) }
    {
        let WordsLeft {
            sep,
            rest,
            start,
            ..
        } = self;
        let start = start + len as u32 + 1;
        if len < rest.len() {
            return WordsLeft {
                sep,
                rest: &rest[len + 1..],
                start,
                number,
                ended: false,
            };
        }
        WordsLeft {
            sep,
            rest: &[],
            start,
            number,
            ended: true,
        }
    }
}
