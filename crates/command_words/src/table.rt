//! The verbs, their options and their operands.
ghost use Rattle.std.specs.Prelude.{◌≡◌, ℕ, MatchOption, map, length};
ghost use Rattle.command_words.specs.Table.{row_seen, name_seen, row_of, named_among, verb_named, letter_of, entry, of_length, are_named, is_named, of_words, form_of};
ghost use Rattle.command_words.specs.Values.{job_name};
ghost use Rattle.command_words.specs.Cursor.{left};

use crate::cursor::WordsLeft;
use Operand::{Digits, FewSectors, File, Job, ManySectors, Provider, Sector, Seed, Tag};
use Rule::{Free, NeedsOldSize, PassWithIterations, SlotOrAll};
use Switch::{
    AllSlots, FixedSize, Force, OnlyCheck, ReadOnly, Restart, Verbose, WithoutFresh, WithoutOld,
};
use Valued::{
    AuthName, BackupFile, CipherName, FreshFile, FreshPass, Iterations, KeyLength, OldFile,
    OldPass, OldSize, SectorSize, Slot,
};

/// The verbs of the command line.
#[derive(Clone, Copy)]
pub enum Verb {
    Init,
    Attach,
    Detach,
    Setkey,
    Delkey,
    Kill,
    Backup,
    Restore,
    Resize,
    Dump,
    Read,
    Write,
    Flush,
    List,
    Fill,
    Sum,
    Eject,
    Submit,
    Step,
    Reap,
    Suspend,
    Resume,
    Verify,
}

/// An option without a value.
#[derive(Clone, Copy)]
pub enum Switch {
    /// `-p`: the old key has no passphrase.
    WithoutOld,
    /// `-P`: the new key has no passphrase.
    WithoutFresh,
    /// `-R` of `init`: the provider doesn't grow with its image.
    FixedSize,
    /// `-C` of `attach`: the key is only tried.
    OnlyCheck,
    /// `-r` of `attach`: the provider is read-only.
    ReadOnly,
    /// `-a` of `delkey`: both slots.
    AllSlots,
    /// `-f`, which has no effect on `detach`.
    Force,
    /// `-r` of `verify`: the sweep begins at the first sector.
    Restart,
    /// `-v`, which has no effect.
    Verbose,
}

/// An option with a value.
#[derive(Clone, Copy)]
pub enum Valued {
    /// `-a` of `init`: the name of an authentication.
    AuthName,
    /// `-e`: the name of a cipher.
    CipherName,
    /// `-i`: the iterations of a passphrase.
    Iterations,
    /// `-l`: the length of the data key in bits.
    KeyLength,
    /// `-s` of `init`: the bytes of a logical sector.
    SectorSize,
    /// `-s` of `resize`: the bytes of the image before it grew.
    OldSize,
    /// `-n`: the number of a key slot.
    Slot,
    /// `-B`: the file for a backup of the metadata.
    BackupFile,
    /// `-k`: a key file of the old key.
    OldFile,
    /// `-j`: a passphrase file of the old key.
    OldPass,
    /// `-K`: a key file of the new key.
    FreshFile,
    /// `-J`: a passphrase file of the new key.
    FreshPass,
}

/// What a letter of an option means.
#[derive(Clone, Copy)]
pub enum Letter {
    Alone(Switch),
    WithValue(Valued),
}

/// What a request asks for, by the word that names it.
#[derive(Clone, Copy)]
pub enum JobName {
    /// `read`.
    Read,
    /// `write`.
    Write,
    /// `flush`.
    Flush,
}

impl JobName {
    /// The word.
    pub fn name(self) -> &'static [u8]
        ensures { result.now ≡ job_name self }
    {
        match self {
            JobName::Read => b"read",
            JobName::Write => b"write",
            JobName::Flush => b"flush",
        }
    }
}

/// An operand.
#[derive(Clone, Copy)]
pub enum Operand {
    /// The provider.
    Provider,
    /// A file.
    File,
    /// The number of a sector.
    Sector,
    /// A number of sectors that one request may have.
    FewSectors,
    /// A number of sectors.
    ManySectors,
    /// The seed of a generator.
    Seed,
    /// Bytes in hexadecimal.
    Digits,
    /// The name of a job, and no other word.
    Job(JobName),
    /// The tag of a request.
    Tag,
}

/// What the options of a verb have to fulfil together.
#[derive(Clone, Copy)]
pub enum Rule {
    /// Nothing.
    Free,
    /// `-s` must be there.
    NeedsOldSize,
    /// `-P` and `-i` exclude each other.
    PassWithIterations,
    /// `-n` and `-a` exclude each other.
    SlotOrAll,
}

/// A line of the table of verbs.
#[derive(Clone, Copy)]
pub struct Row {
    /// The verb.
    pub verb: Verb,
    /// The name of the verb.
    pub name: &'static [u8],
    /// The letters without a value.
    pub alone: &'static [(u8, Switch)],
    /// The letters with a value.
    pub valued: &'static [(u8, Valued)],
    /// What the options have to fulfil together.
    pub rule: Rule,
    /// The operands in order, in each form that the verb has.
    pub forms: &'static [&'static [Operand]],
}

macro_rules! row {
    ($verb:ident, $name:expr, $alone:expr, $valued:expr, $rule:expr, $forms:expr) => {
        Row {
            verb: Verb::$verb,
            name: $name,
            alone: $alone,
            valued: $valued,
            rule: $rule,
            forms: $forms,
        }
    };
}

// The table of verbs, a line for each, in the order of `Verb`.
static ROWS: &[Row] = &[
    row! {
        Init, b"init", &[(b'P', WithoutFresh), (b'R', FixedSize), (b'v', Verbose)],
        &[(b'a', AuthName), (b'B', BackupFile), (b'e', CipherName), (b'i', Iterations), (b'J', FreshPass),
          (b'K', FreshFile), (b'l', KeyLength), (b's', SectorSize)],
        PassWithIterations, &[&[Provider]]
    },
    row! {
        Attach, b"attach", &[(b'C', OnlyCheck), (b'p', WithoutOld), (b'r', ReadOnly), (b'v', Verbose)],
        &[(b'j', OldPass), (b'k', OldFile), (b'n', Slot)], Free, &[&[Provider]]
    },
    row! { Detach, b"detach", &[(b'f', Force), (b'v', Verbose)], &[], Free, &[&[Provider]] },
    row! {
        Setkey, b"setkey", &[(b'p', WithoutOld), (b'P', WithoutFresh), (b'v', Verbose)],
        &[(b'i', Iterations), (b'j', OldPass), (b'J', FreshPass), (b'k', OldFile), (b'K', FreshFile),
          (b'n', Slot)],
        Free, &[&[Provider]]
    },
    row! {
        Delkey, b"delkey", &[(b'a', AllSlots), (b'f', Force), (b'v', Verbose)], &[(b'n', Slot)], SlotOrAll,
        &[&[Provider]]
    },
    row! { Kill, b"kill", &[(b'v', Verbose)], &[], Free, &[&[Provider]] },
    row! { Backup, b"backup", &[(b'v', Verbose)], &[], Free, &[&[Provider, File]] },
    row! { Restore, b"restore", &[(b'f', Force), (b'v', Verbose)], &[], Free, &[&[File, Provider]] },
    row! { Resize, b"resize", &[(b'v', Verbose)], &[(b's', OldSize)], NeedsOldSize, &[&[Provider]] },
    row! { Dump, b"dump", &[(b'v', Verbose)], &[], Free, &[&[Provider]] },
    row! { Read, b"read", &[], &[], Free, &[&[Provider, Sector, FewSectors]] },
    row! { Write, b"write", &[], &[], Free, &[&[Provider, Sector, Digits]] },
    row! { Flush, b"flush", &[], &[], Free, &[&[Provider]] },
    row! { List, b"list", &[], &[], Free, &[&[]] },
    row! { Fill, b"fill", &[], &[], Free, &[&[Provider, Seed, Sector, ManySectors]] },
    row! { Sum, b"sum", &[], &[], Free, &[&[Provider, Sector, ManySectors]] },
    row! { Eject, b"eject", &[], &[], Free, &[&[Provider]] },
    row! {
        Submit, b"submit", &[], &[], Free,
        &[&[Provider, Job(JobName::Flush)], &[Provider, Job(JobName::Read), Sector, FewSectors],
          &[Provider, Job(JobName::Write), Sector, Digits]]
    },
    row! { Step, b"step", &[], &[], Free, &[&[Provider, Tag]] },
    row! { Reap, b"reap", &[], &[], Free, &[&[Provider, Tag]] },
    row! { Suspend, b"suspend", &[(b'v', Verbose)], &[], Free, &[&[Provider]] },
    row! {
        Resume, b"resume", &[(b'p', WithoutOld), (b'v', Verbose)], &[(b'j', OldPass), (b'k', OldFile)],
        Free, &[&[Provider]]
    },
    row! {
        Verify, b"verify", &[(b'r', Restart), (b'v', Verbose)], &[], Free, &[&[Provider, File, ManySectors]]
    },
];

// What a letter means in a list of letters.
fn entry<V: Copy>(letters: &[(u8, V)], letter: u8) -> Option<V>
    ensures { result ≡ entry letter letters.now }
{
    for (own, value) in letters {
        if letter == *own {
            return Some(*value);
        }
    }
    None
}

// The verb of this name in a list of lines.
fn named_among(name: &[u8], rows: &[Row]) -> Option<Verb>
    ensures { result ≡ named_among name.now (map name_seen rows.now) }
{
    for row in rows {
        if name == row.name {
            return Some(row.verb);
        }
    }
    None
}

// Whether the operand allows this word: a job has to be named, any other operand allows each word.
fn is_named(operand: Operand, bytes: &[u8]) -> bool
    ensures { result ≡ is_named operand bytes.now }
{
    match operand {
        Operand::Job(job) => bytes == job.name(),
        _ => true,
    }
}

// Whether the words name the jobs of a form.
fn are_named(form: &[Operand], words: WordsLeft) -> bool
    ensures { result ≡ are_named form.now (left words.entry) }
{
    let mut form = form;
    let mut at = words;
    'operands: while let [operand, others @ ..] = form {
        let Some((word, behind)) = at.split_first() else {
            return true;
        };
        if !is_named(*operand, word.bytes) {
            return false;
        }
        form = others;
        at = behind;
    }
    true
}

// The first form that has as many operands as there are words, and whose jobs the words name.
fn of_words(forms: &'static [&'static [Operand]], words: WordsLeft) -> Option<&'static [Operand]>
    ensures { MatchOption result
        (of_words (left words.entry) (map (λ form. form.now) forms.now) ≡ None)
        (λ form. of_words (left words.entry) (map (λ form. form.now) forms.now) ≡ Some form.now) }
{
    let count = words.count();
    for form in forms {
        if form.len() == count as usize && are_named(form, words) {
            return Some(form);
        }
    }
    None
}

// The first form with so many operands.
fn of_length(forms: &'static [&'static [Operand]], count: u32) -> Option<&'static [Operand]>
    ensures { MatchOption result
        (of_length count (map (λ form. form.now) forms.now) ≡ None)
        (λ form. of_length count (map (λ form. form.now) forms.now) ≡ Some form.now) }
{
    for form in forms {
        if form.len() == count as usize {
            return Some(form);
        }
    }
    None
}

impl Verb {
    /// The line of the verb.
    pub fn row(self) -> &'static Row
        ensures seen { row_seen result.now (row_of self).command ≡ row_of self }

        // Each verb has a line of its own.
        ensures own { result.now.verb ≡ self }
    {
        &ROWS[self as usize]
    }

    /// The verb of this name.
    pub fn named(name: &[u8]) -> Option<Verb>
        ensures { result ≡ verb_named name.now }
    {
        named_among(name, ROWS)
    }

    /// What the letter means for this verb.
    pub fn letter(self, letter: u8) -> Option<Letter>
        ensures { result ≡ letter_of self letter }
    {
        let row = self.row();
        match entry(row.alone, letter) {
            Some(switch) => Some(Letter::Alone(switch)),
            None => entry(row.valued, letter).map(Letter::WithValue),
        }
    }

    /// The operands as which these words of the verb are read.
    pub fn operands(self, words: WordsLeft) -> Option<&'static [Operand]>
        ensures { MatchOption result (form_of self (left words.entry) ≡ None) (λ form. form_of self (left words.entry) ≡ Some form.now) }
    {
        let forms = self.row().forms;
        match of_words(forms, words) {
            Some(form) => Some(form),
            None => of_length(forms, words.count()),
        }
    }
}
