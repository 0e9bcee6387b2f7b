//! The operands of a line.
ghost use Rattle.std.specs.Prelude.{◌≡◌, [], MatchResult};
ghost use Rattle.command_words.specs.Cursor.{seen, left};
ghost use Rattle.command_words.specs.Values.{operand_fault};
ghost use Rattle.word_values.specs.Values.{number_within};
ghost use Rattle.command_words.specs.Pass.{with_operand, taken_operands};
ghost use Rattle.command_words.specs.Operands.{operands_of};
ghost use Rattle.command_words.specs.Settings.{span_of};

use crate::commands::Usage;
use crate::cursor::{Piece, WordsLeft};
use crate::settings::named_file;
use crate::spans::Span;
use crate::table::{JobName, Operand};
use eli_base::Reason;

/// What the operands of a line say.
#[derive(Clone, Copy)]
pub struct Operands {
    /// The provider.
    pub prov: Span,
    /// The file.
    pub file: Span,
    /// The bytes of a write, in hexadecimal.
    pub digits: Span,
    /// The seed of a generator.
    pub seed: u64,
    /// The number of the first sector.
    pub sector: u64,
    /// How many sectors a request has.
    pub few: u32,
    /// How many sectors a workload or a sweep has.
    pub many: u64,
    /// What is submitted.
    pub job: JobName,
    /// The tag of a request.
    pub tag: u8,
}

fn number(value: Piece, low: u64, high: u64) -> Result<u64, Reason>
    ensures { MatchResult result
        (λ number. number_within low high value.entry.bytes.now ≡ Some number)
        (λ reason. (number_within low high value.entry.bytes.now ≡ None) × (reason ≡ Reason.BadNumber)) }
{
    word_values::number(value.bytes, low, high).ok_or(Reason::BadNumber)
}

fn hexadecimal(value: Piece) -> Result<Span, Reason>
    ensures { MatchResult result
        (λ digits. (operand_fault Operand.Digits value.entry.bytes.now ≡ None) × (digits ≡ span_of (seen value.entry)))
        (λ reason. operand_fault Operand.Digits value.entry.bytes.now ≡ Some reason) }
{
    if !word_values::is_hexadecimal(value.bytes) {
        return Err(Reason::BadHex);
    }
    Ok(value.span())
}

// The job, if the word names it.
fn named_job(job: JobName, value: Piece) -> Result<JobName, Reason>
    ensures { MatchResult result
        (λ named. (operand_fault (Operand.Job job) value.entry.bytes.now ≡ None) × (named ≡ job))
        (λ reason. operand_fault (Operand.Job job) value.entry.bytes.now ≡ Some reason) }
{
    if value.bytes != job.name() {
        return Err(Reason::BadName);
    }
    Ok(job)
}

impl Operands {
    // The values before any operand is taken.
    fn new() -> Operands
        ensures { result ≡ operands_of [] [] }
    {
        let none = Span {
            start: 0,
            end: 0,
            word: 0,
        };
        Operands {
            prov: none,
            file: none,
            digits: none,
            seed: 0,
            sector: 0,
            few: 0,
            many: 0,
            job: JobName::Flush,
            tag: 0,
        }
    }

    // Takes an operand, or says what is wrong with it.
    fn put(&mut self, operand: Operand, word: Piece) -> Result<(), Reason>
        ensures { MatchResult result
            (λ _. (operand_fault operand word.entry.bytes.now ≡ None) × (self.new ≡ with_operand self.old operand (seen word.entry)))
            (λ reason. operand_fault operand word.entry.bytes.now ≡ Some reason) }
    {
        match operand {
            Operand::Provider => self.prov = word.span(),
            Operand::File => self.file = named_file(word)?,
            Operand::Sector => self.sector = number(word, 0, 9_223_372_036_854_775_807)?,
            Operand::FewSectors => self.few = number(word, 1, 256)? as u32,
            Operand::ManySectors => self.many = number(word, 1, 9_223_372_036_854_775_807)?,
            Operand::Seed => self.seed = number(word, 0, 18_446_744_073_709_551_615)?,
            Operand::Digits => self.digits = hexadecimal(word)?,
            Operand::Job(job) => self.job = named_job(job, word)?,
            Operand::Tag => self.tag = number(word, 0, 31)? as u8,
        }
        Ok(())
    }
}

/// Takes the operands of a form from the words.
pub fn take_operands(form: &[Operand], words: WordsLeft) -> Result<Operands, Usage>
    ensures { MatchResult result
        (λ operands. taken_operands form.now (left words.entry) (operands_of [] []) ≡ Ok operands)
        (λ usage. taken_operands form.now (left words.entry) (operands_of [] []) ≡ Err usage) }
{
    let mut operands = Operands::new();
    let mut form = form;
    let mut at = words;
    'operands: while let [operand, others @ ..] = form {
        let Some((word, behind)) = at.split_first() else {
            return Ok(operands);
        };
        if let Err(reason) = operands.put(*operand, word) {
            return Err(Usage {
                word: word.number,
                reason,
            });
        }
        form = others;
        at = behind;
    }
    Ok(operands)
}
