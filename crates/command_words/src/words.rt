//! What the words of the command line say, read once.
ghost use Rattle.std.specs.Prelude.{◌≡◌, IfOk, length, map, string_bytes};
ghost use Rattle.command_words.specs.Bounds.{IsBounded};
ghost use Rattle.command_words.specs.Changes.{changes_said};
ghost use Rattle.command_words.specs.Images.{name_at};
ghost use Rattle.command_words.specs.Places.{CommandIsWithin, ProviderIsText, provider_of};
ghost use Rattle.command_words.specs.Said.{FitsItsLine, Says, image_names_of};

use crate::commands::Command;
use crate::images::{copied_names, joined, provider_name, script_images};
use crate::lines::command_in;
use block_traits::NoMemory;
use std::alloc::Global;

/// What the words of the command line say.
#[derive(Drop)]
pub enum Words<'a> {
    /// A script, over images of these names.
    Script(&'a [String]),
    /// One command, with the line of the words.
    One {
        /// The words, with zero bytes between them.
        line: Vec<u8>,
        /// The command that they say.
        command: Command,
    },
    /// Neither a script nor a command.
    Usage,
}

/// Reads the words of the command line: `script` and one to sixteen different names, or else one command.
pub fn read_words(alloc: Global, words: &[String]) -> Result<Words<'_>, NoMemory>
    ensures says { IfOk result (Says (map string_bytes words.now)) }
    ensures fits { IfOk result FitsItsLine }
{
    if let Some(names) = script_images(words) {
        return Ok(Words::Script(names));
    }
    let line = joined(alloc, words)?;
    match command_in(&line) {
        Some(command) => Ok(Words::One { line, command }),
        None => Ok(Words::Usage),
    }
}

impl Words<'_> {
    /// The names of the images: those of the script, or the provider of the command, if it has one.
    pub fn images(&self, alloc: Global) -> Result<Vec<String>, NoMemory>
        requires { FitsItsLine self.now }
        ensures { IfOk result (λ images. map string_bytes images.items ≡ image_names_of self.now) }
    {
        match self {
            Words::Script(names) => copied_names(alloc, names),
            Words::One { line, command } => provider_name(alloc, line, command),
            Words::Usage => Ok(Vec::new(alloc)),
        }
    }
}

/// Whether the images are to be changed: those of a script are, and that of a command unless the command only reads.
pub fn changes(said: &Words<'_>) -> bool
    ensures { result ≡ changes_said said.now }
{
    match said {
        Words::One { command, .. } => !command.traits().only_reads,
        Words::Script(_) | Words::Usage => true,
    }
}
