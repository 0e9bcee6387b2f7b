//! The options of a line, read in one pass.
ghost use Rattle.std.specs.Prelude.{◌≡◌, [], ◌+◌, length, MatchResult, IfOk};
ghost use Rattle.command_words.specs.Cursor.{seen, left};
ghost use Rattle.command_words.specs.Pass.{value_given, with_rest, taken_letters, taken_options};
ghost use Rattle.command_words.specs.Settings.{settings_given};

use crate::commands::Usage;
use crate::cursor::{Piece, WordsLeft};
use crate::kinds::{WordKind, kind};
use crate::settings::Settings;
use crate::table::{Letter, Valued, Verb};
use eli_base::Reason;

// Takes an option with its value.
fn put(settings: &mut Settings, option: Valued, value: Piece) -> Result<(), Usage>
    ensures { MatchResult result
        (λ _. value_given settings.old option (seen value.entry) ≡ Ok settings.new)
        (λ usage. value_given settings.old option (seen value.entry) ≡ Err usage) }
{
    match settings.put(option, value) {
        Ok(()) => Ok(()),
        Err(reason) => Err(Usage {
            word: value.number,
            reason,
        }),
    }
}

// Takes an option whose value is the rest of its group, or else waits for the next word.
fn put_rest(settings: &mut Settings, option: Valued, rest: Piece) -> Result<Option<Valued>, Usage>
    ensures { MatchResult result
        (λ waiting. with_rest settings.old option rest.entry.number rest.entry.start rest.entry.bytes.now ≡ Ok (settings.new, waiting))
        (λ usage. with_rest settings.old option rest.entry.number rest.entry.start rest.entry.bytes.now ≡ Err usage) }
{
    if rest.bytes.is_empty() {
        return Ok(Some(option));
    }
    put(settings, option, rest)?;
    Ok(None)
}

// Takes the letters of a group, and returns the option that waits for its value.
fn take_letters(settings: &mut Settings, verb: Verb, group: Piece) -> Result<Option<Valued>, Usage>
    ensures { MatchResult result
        (λ waiting. taken_letters verb group.entry.number group.entry.start group.entry.bytes.now settings.old ≡ Ok (settings.new, waiting))
        (λ usage. taken_letters verb group.entry.number group.entry.start group.entry.bytes.now settings.old ≡ Err usage) }
{
    let number = group.number;
    let mut bytes = group.bytes;
    let mut start = group.start;
    'letters: while let [letter, behind @ ..] = bytes {
        bytes = behind;
        start += 1;
        match verb.letter(*letter) {
            None => {
                return Err(Usage {
                    word: number,
                    reason: Reason::UnknownOption,
                });
            }
            Some(Letter::Alone(switch)) => settings.set(switch),
            Some(Letter::WithValue(option)) => {
                let rest = Piece {
                    bytes,
                    start,
                    number,
                };
                return put_rest(settings, option, rest);
            }
        }
    }
    Ok(None)
}

/// Takes the options of a verb from the words after it. The words that are left are the operands.
pub fn take_options<'a>(
    verb: Verb,
    words: WordsLeft<'a>,
) -> Result<(Settings, WordsLeft<'a>), Usage>
    ensures options { let total = words.entry.number + length (left words.entry) in
        let taken = taken_options verb total (left words.entry) (settings_given []) None in
        MatchResult result (λ read. taken ≡ Ok (read.0, left read.1)) (λ usage. taken ≡ Err usage) }
    ensures number { IfOk result (λ read. read.1.number + length (left read.1) ≡ words.entry.number + length (left words.entry)) }
{
    let mut settings = Settings::new();
    let mut at = words;
    let mut waiting = None;
    'words: while let Some((word, behind)) = at.split_first() {
        if let Some(option) = waiting {
            put(&mut settings, option, word)?;
            waiting = None;
            at = behind;
            continue;
        }
        match kind(word.bytes) {
            WordKind::Ends => return Ok((settings, behind)),
            WordKind::Other => return Ok((settings, at)),
            WordKind::Letters(bytes) => {
                let group = Piece {
                    bytes,
                    start: word.start + 1,
                    number: word.number,
                };
                waiting = take_letters(&mut settings, verb, group)?;
            }
        }
        at = behind;
    }
    if waiting.is_some() {
        return Err(Usage {
            word: at.number(),
            reason: Reason::MissingValue,
        });
    }
    Ok((settings, at))
}
