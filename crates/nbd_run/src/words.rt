//! What the words of the command line ask for.
ghost use Rattle.std.specs.Prelude.{◌≡◌, ◌∷◌, [], IfOk, IfSome, MatchOption, length, map, string_bytes, true};
ghost use Rattle.command_words.specs.Bounds.{IsBounded};
ghost use Rattle.command_words.specs.Images.{name_at};
ghost use Rattle.command_words.specs.Places.{CommandIsWithin, ProviderIsText, provider_of};
ghost use Rattle.nbd_run.specs.Words.{AsksForNothing, AsksToAttach, attach_words, attaches, attaches_readonly, wish_of};

use block_traits::NoMemory;
use command_words::{Command, Words, provider_name, read_words};
use std::alloc::Global;

/// What is printed if the words ask for nothing else.
pub(crate) const USAGE: &[u8] =
    b"usage: geli-nbd [-pr] [-n keyno] [-j passfile] [-k keyfile] image\n";

/// What `--help` prints.
pub(crate) const HELP: &[u8] =
    b"usage: geli-nbd [-pr] [-n keyno] [-j passfile] [-k keyfile] image\n       geli-nbd --help | --version\nAttaches the provider in an image, and serves it as a network block device on standard input and output: geli-nbd(8).\n";

/// What `--version` prints: the day of the sources.
pub const VERSION: &[u8] = b"geli-nbd 20261130\n";

/// What words ask for.
#[derive(Clone, Copy, Debug, PartialEq, Eq)]
pub(crate) enum Wish {
    /// Help.
    Help,
    /// The version.
    Version,
    /// Something else.
    Other,
}

/// Whether words are those that ask for help or for the version.
pub(crate) fn wish_of(words: &[String]) -> Wish
    ensures { result ≡ wish_of (map string_bytes words.now) }
{
    match words {
        [word] if word.as_str() == "--help" => Wish::Help,
        [word] if word.as_str() == "--version" => Wish::Version,
        _ => Wish::Other,
    }
}

/// The provider that is to be attached: the name of its image, and the command that attaches it, with its line.
#[derive(Drop)]
pub(crate) struct Asked {
    pub(crate) name: String,
    pub(crate) line: Vec<u8>,
    pub(crate) command: Command,
}

/// Reads words as those of `geli attach`. `None`: they aren't such words, or only try a key.
pub(crate) fn read_attach(alloc: Global, words: Vec<String>) -> Result<Option<Asked>, NoMemory>
    ensures asks { IfOk result (λ read. MatchOption read (AsksForNothing (map string_bytes words.items))
        (λ asked. AsksToAttach (map string_bytes words.items) (string_bytes asked.name) asked.line.items asked.command)) }
    ensures within { IfOk result (λ read. IfSome read (λ asked. CommandIsWithin (length asked.line.items) asked.command)) }
    ensures bounds { IfOk result (λ read. IfSome read (λ asked. IsBounded asked.line.items asked.command)) }
{
    let words = with_verb(alloc, words)?;
    match read_words(alloc, words.as_slice())? {
        Words::One { line, command } => {
            if !attaches(&command) {
                return Ok(None);
            }
            let name = image_name(alloc, line.as_slice(), &command)?;
            Ok(Some(Asked {
                name,
                line,
                command,
            }))
        }
        Words::Script(_) | Words::Usage => Ok(None),
    }
}

// Puts the verb before words.
fn with_verb(alloc: Global, words: Vec<String>) -> Result<Vec<String>, NoMemory>
    ensures { IfOk result (λ put. map string_bytes put.items ≡ attach_words (map string_bytes words.items)) }
{
    let mut words = words;
    words.insert(0, String::from_str(alloc, "attach")?)?;
    Ok(words)
}

// The name of the image of a command that attaches.
fn image_name(alloc: Global, line: &[u8], command: &Command) -> Result<String, NoMemory>
    requires within { CommandIsWithin (length line.now) command.now }
    requires text { ProviderIsText line.now command.now }
    requires verb { attaches command.now ≡ true }
    ensures { IfOk result (λ name. name_at line.now (provider_of command.now) ≡ string_bytes name ∷ []) }
{
    match provider_name(alloc, line, command)?.pop() {
        Some(name) => Ok(name),
        None => unreachable!(),
    }
}

// Whether a command attaches, and doesn't only try a key.
fn attaches(command: &Command) -> bool
    ensures { result ≡ attaches command.now }
{
    match command {
        Command::Attach { only_check, .. } => !*only_check,
        _ => false,
    }
}

/// Whether a command attaches the provider read-only.
pub(crate) fn is_read_only(command: &Command) -> bool
    ensures { result ≡ attaches_readonly command.now }
{
    match command {
        Command::Attach { readonly, .. } => *readonly,
        _ => false,
    }
}
