//! From a line to a command, or to what is wrong with the line.
ghost use Rattle.std.specs.Prelude.{◌≡◌, ◌+◌, ◌≤◌, length, IfOk, IfSome};
ghost use Rattle.std.specs.Str.{is_utf8};
ghost use Rattle.command_words.specs.Cursor.{left};
ghost use Rattle.command_words.specs.Pass.{provider_alone};
ghost use Rattle.command_words.specs.Bounds.{IsBounded};
ghost use Rattle.command_words.specs.Places.{CommandIsWithin, ProviderIsText};
ghost use Rattle.command_words.specs.Table.{job_at};
ghost use Rattle.command_words.specs.Reading.{line_reading, by_verb, settled, is_comment, complaint, command_at, command_in};
ghost use Rattle.command_words.specs.Reading.{excludes_itself, lacks_option, excludes_own, excludes, line_limit};

use crate::commands::{Command, JobWords, Usage};
use crate::cursor::WordsLeft;
use crate::operands::{Operands, take_operands};
use crate::pass::take_options;
use crate::settings::Settings;
use crate::spans::{KeyWords, Sep, Span};
use crate::table::{JobName, Rule, Verb};
use eli_base::Reason;

/// The most bytes of a line.
pub const LINE_LIMIT: usize = 300_000;

// Whether a line that begins with this word is a comment.
fn starts_comment(sep: Sep, word: &[u8]) -> bool
    ensures { result ≡ is_comment sep word.now }
{
    match sep {
        Sep::Blanks => word.first() == Some(&b'#'),
        Sep::Zeros => false,
    }
}

// Whether the words of a key both name passphrase files and rule a passphrase out.
fn excludes_itself(key: &KeyWords) -> bool
    ensures { result ≡ excludes_itself key.now }
{
    key.without && key.pass.len() > 0
}

// Whether an option that must be there is missing.
fn lacks(rule: Rule, settings: &Settings) -> bool
    ensures { result ≡ lacks_option rule settings.now }
{
    match rule {
        Rule::NeedsOldSize => settings.oldsize.is_none(),
        Rule::Free | Rule::PassWithIterations | Rule::SlotOrAll => false,
    }
}

// Whether two options are there that exclude each other only under this verb's rule.
fn excludes_own(rule: Rule, settings: &Settings) -> bool
    ensures { result ≡ excludes_own rule settings.now }
{
    match rule {
        Rule::PassWithIterations => settings.fresh_key.without && settings.iterations.is_some(),
        Rule::SlotOrAll => settings.all && settings.slot.is_some(),
        Rule::Free | Rule::NeedsOldSize => false,
    }
}

// Whether two options are there that exclude each other.
fn excluded(verb: Verb, settings: &Settings) -> bool
    ensures { result ≡ excludes verb settings.now }
{
    excludes_itself(&settings.old_key)
        || excludes_itself(&settings.fresh_key)
        || excludes_own(verb.row().rule, settings)
}

// What is wrong with the options together.
fn complain(verb: Verb, settings: &Settings) -> Option<Reason>
    ensures { result ≡ complaint verb settings.now }
{
    if lacks(verb.row().rule, settings) {
        return Some(Reason::MissingOption);
    }
    if excluded(verb, settings) {
        return Some(Reason::Exclusive);
    }
    None
}

// The command of `init`.
fn init(settings: Settings, prov: Span) -> Command
    ensures { result ≡ command_at Verb.Init settings (provider_alone prov) }
{
    Command::Init {
        prov,
        cipher: settings.cipher,
        auth: settings.auth,
        keylen: settings.keylen,
        sectorsize: settings.sectorsize,
        iterations: settings.iterations,
        autoresize: settings.autoresize,
        fresh: settings.fresh_key,
        backup: settings.backup,
    }
}

// The command of `attach`.
fn attach(settings: Settings, prov: Span) -> Command
    ensures { result ≡ command_at Verb.Attach settings (provider_alone prov) }
{
    Command::Attach {
        prov,
        only_check: settings.only_check,
        readonly: settings.readonly,
        slot: settings.slot,
        old: settings.old_key,
    }
}

// The command of `setkey`.
fn setkey(settings: Settings, prov: Span) -> Command
    ensures { result ≡ command_at Verb.Setkey settings (provider_alone prov) }
{
    Command::Setkey {
        prov,
        iterations: settings.iterations,
        slot: settings.slot,
        old: settings.old_key,
        fresh: settings.fresh_key,
    }
}

// The command of `delkey`.
fn delkey(settings: &Settings, prov: Span) -> Command
    ensures { result ≡ command_at Verb.Delkey settings.now (provider_alone prov) }
{
    Command::Delkey {
        prov,
        all: settings.all,
        force: settings.force,
        slot: settings.slot,
    }
}

// The request that the operands of `submit` describe.
fn job(operands: &Operands) -> JobWords
    ensures { result ≡ job_at operands.now.job operands.now }
{
    match operands.job {
        JobName::Read => JobWords::Read {
            sector: operands.sector,
            count: operands.few,
        },
        JobName::Write => JobWords::Write {
            sector: operands.sector,
            hex: operands.digits,
        },
        JobName::Flush => JobWords::Flush,
    }
}

// The command of a verb with these options and operands.
fn command(verb: Verb, settings: Settings, operands: Operands) -> Command
    ensures { result ≡ command_at verb settings operands }
{
    let Operands {
        prov,
        file,
        digits: hex,
        seed,
        sector,
        few,
        many: count,
        tag,
        ..
    } = operands;
    let force = settings.force;
    let restart = settings.restart;
    let oldsize = settings.oldsize.unwrap_or(0);
    let start = sector;
    match verb {
        Verb::Init => init(settings, prov),
        Verb::Attach => attach(settings, prov),
        Verb::Detach => Command::Detach { prov },
        Verb::Setkey => setkey(settings, prov),
        Verb::Delkey => delkey(&settings, prov),
        Verb::Kill => Command::Kill { prov },
        Verb::Backup => Command::Backup { prov, file },
        Verb::Restore => Command::Restore { file, prov, force },
        Verb::Resize => Command::Resize { prov, oldsize },
        Verb::Dump => Command::Dump { prov },
        Verb::Read => Command::Read {
            prov,
            sector,
            count: few,
        },
        Verb::Write => Command::Write { prov, sector, hex },
        Verb::Flush => Command::Flush { prov },
        Verb::List => Command::List,
        Verb::Fill => Command::Fill {
            prov,
            seed,
            start,
            count,
        },
        Verb::Sum => Command::Sum { prov, start, count },
        Verb::Eject => Command::Eject { prov },
        Verb::Submit => Command::Submit {
            prov,
            job: job(&operands),
        },
        Verb::Step => Command::Step { prov, tag },
        Verb::Reap => Command::Reap { prov, tag },
        Verb::Suspend => Command::Suspend { prov },
        Verb::Resume => Command::Resume {
            prov,
            old: settings.old_key,
        },
        Verb::Verify => Command::Verify {
            prov,
            file,
            count,
            restart,
        },
    }
}

// The command of the words after the options of a verb.
fn settle(verb: Verb, settings: Settings, words: WordsLeft) -> Result<Command, Usage>
    ensures { result ≡ settled verb (words.entry.number + length (left words.entry)) settings (left words.entry) }
{
    let count = words.count();
    let total = words.number() + count;
    let Some(form) = verb.operands(words) else {
        return Err(Usage {
            word: total,
            reason: Reason::OperandCount,
        });
    };
    if let Some(reason) = complain(verb, &settings) {
        return Err(Usage {
            word: total,
            reason,
        });
    }
    let operands = take_operands(form, words)?;
    Ok(command(verb, settings, operands))
}

// The command of the words after a verb.
#[tactic(auto, using(crate::proofs::Options::options_taken))]
fn read_command(verb: Verb, words: WordsLeft) -> Result<Command, Usage>
    ensures { result ≡ by_verb (Some verb) (words.entry.number + length (left words.entry)) (left words.entry) }
{
    let (settings, operands) = take_options(verb, words)?;
    settle(verb, settings, operands)
}

// Whether the bytes are UTF-8.
fn is_text(line: &[u8]) -> bool
    ensures { result ≡ is_utf8 line.now }
{
    match std::str::from_utf8(line) {
        Ok(_) => true,
        Err(_) => false,
    }
}

// What a line says.
fn read(line: &[u8], sep: Sep) -> Result<Option<Command>, Usage>
    requires { length line.now ≤ line_limit }
    ensures { result ≡ line_reading sep line.now }
{
    let Some((name, words)) = WordsLeft::new(line, sep).split_first() else {
        return Ok(None);
    };
    if starts_comment(sep, name.bytes) {
        return Ok(None);
    }
    if !is_text(line) {
        return Err(Usage {
            word: 0,
            reason: Reason::NotText,
        });
    }
    let Some(verb) = Verb::named(name.bytes) else {
        return Err(Usage {
            word: 0,
            reason: Reason::UnknownVerb,
        });
    };
    let command = read_command(verb, words)?;
    Ok(Some(command))
}

/// Reads one line of at most 300,000 bytes: no command if the line has no word or, with blanks between words,
/// is a comment; else a command, or what is wrong.
pub fn read_line(line: &[u8], sep: Sep) -> Result<Option<Command>, Usage>
    requires { length line.now ≤ line_limit }
    ensures reading { result ≡ line_reading sep line.now }

    // The places of a command lie in the line.
    ensures places { IfOk result (λ read. IfSome read (CommandIsWithin (length line.now))) }

    // The name of a provider is text.
    ensures text { IfOk result (λ read. IfSome read (ProviderIsText line.now)) }

    // The numbers of a command lie within their bounds, and its digits are hexadecimal.
    ensures bounds { IfOk result (λ read. IfSome read (IsBounded line.now)) }
{
    read(line, sep)
}

/// The command of a line whose words are separated by zero bytes, if the line has one. A line of more than 300,000
/// bytes has none.
pub(crate) fn command_in(line: &[u8]) -> Option<Command>
    ensures said { result ≡ command_in line.now }

    // The places of the command lie in the line.
    ensures places { IfSome result (CommandIsWithin (length line.now)) }

    // The name of the command's provider is text.
    ensures text { IfSome result (ProviderIsText line.now) }

    // The numbers of the command lie within their bounds, and its digits are hexadecimal.
    ensures bounds { IfSome result (IsBounded line.now) }
{
    if line.len() > LINE_LIMIT {
        return None;
    }
    match read_line(line, Sep::Zeros) {
        Ok(said) => said,
        Err(_) => None,
    }
}
