//! The images that the words of a run name.
ghost use Rattle.std.specs.Prelude.{◌≡◌, length, map, IfOk, MatchOption, option_and_then, string_bytes};
ghost use Rattle.std.specs.List.{list_any};
ghost use Rattle.std.specs.Str.{bytes_eq};
ghost use Rattle.command_words.specs.Images.{line_of, name_at, all_differ, are_images, image_names, script_images};
ghost use Rattle.command_words.specs.Places.{CommandIsWithin, ProviderIsText, provider_of};
ghost use Rattle.command_words.specs.Reading.{command_in};

use crate::commands::Command;
use crate::lines::command_in;
use block_traits::NoMemory;
use std::alloc::{AllocError, Global};
use std::marker::Model;
use std::str;

/// The names of images, in order: a list of texts.
#[derive(Debug, Drop)]
pub struct ImageNames {
    names: Vec<String>,
}

impl Model for ImageNames {
    ghost use Rattle.std.specs.Prelude.{ℕ, List, map, string_bytes};

    ghost Value = { List (List ℕ) };

    ghost view = { λ images. map string_bytes images.names.items };
}

impl ImageNames {
    /// The names in order.
    pub fn as_slice(&self) -> &[String]
        ensures { map string_bytes result.now ≡ self.now }
    {
        self.names.as_slice()
    }
}

/// The line of some words, joined by zero bytes.
pub(crate) fn joined(alloc: Global, words: &[String]) -> Result<Vec<u8>, AllocError>
    ensures { IfOk result (λ line. line.items ≡ line_of (map string_bytes words.now)) }
{
    let mut line = Vec::new(alloc);
    let Some((first, others)) = words.split_first() else {
        return Ok(line);
    };
    line.extend_from_slice(first.as_bytes())?;
    for word in others {
        line.push(0)?;
        line.extend_from_slice(word.as_bytes())?;
    }
    Ok(line)
}

// Whether the name is one of the names.
fn occurs(name: &String, names: &[String]) -> bool
    ensures { result ≡ list_any (bytes_eq (string_bytes name.now)) (map string_bytes names.now) }
{
    for other in names {
        if name.as_bytes() == other.as_bytes() {
            return true;
        }
    }
    false
}

// Whether no name occurs twice.
fn all_differ(names: &[String]) -> bool
    ensures { result ≡ all_differ (map string_bytes names.now) }
{
    let mut names = names;
    'names: while let [name, others @ ..] = names {
        if occurs(name, others) {
            return false;
        }
        names = others;
    }
    true
}

// Whether these can be the names of a script's images.
fn are_images(names: &[String]) -> bool
    ensures { result ≡ are_images (map string_bytes names.now) }
{
    !names.is_empty() && names.len() <= 16 && all_differ(names)
}

/// The names after `script`, if the words are that and 1 to 16 different names.
pub(crate) fn script_images(words: &[String]) -> Option<&[String]>
    ensures { MatchOption result (script_images (map string_bytes words.now) ≡ None)
        (λ names. script_images (map string_bytes words.now) ≡ Some (map string_bytes names.now)) }
{
    match words {
        [word, names @ ..] if word.as_str() == "script" && are_images(names) => Some(names),
        _ => None,
    }
}

/// Copies of names.
pub(crate) fn copied_names(alloc: Global, names: &[String]) -> Result<Vec<String>, NoMemory>
    ensures { IfOk result (λ images. map string_bytes images.items ≡ map string_bytes names.now) }
{
    let mut images = Vec::new(alloc);
    for name in names {
        images.push(String::from_str(alloc, name.as_str())?)?;
    }
    Ok(images)
}

/// The name of the provider of a command that was read from the line, if the command has one.
pub fn provider_name(alloc: Global, line: &[u8], command: &Command) -> Result<Vec<String>, NoMemory>
    requires within { CommandIsWithin (length line.now) command.now }
    requires text { ProviderIsText line.now command.now }
    ensures { IfOk result (λ images. map string_bytes images.items ≡ name_at line.now (provider_of command.now)) }
{
    let mut images = Vec::new(alloc);
    if let Some(span) = command.provider() {
        match str::from_utf8(span.bytes_in(line)) {
            Ok(name) => images.push(String::from_str(alloc, name)?)?,
            Err(_) => unreachable!(),
        }
    }
    Ok(images)
}

/// The images that words name: those of a script; or else, if the words are one command, its provider, if it has one.
pub fn images_of(alloc: Global, words: &[String]) -> Result<ImageNames, NoMemory>
    ensures { IfOk result (λ images. images ≡ image_names (map string_bytes words.now)) }
{
    let names = if let Some(names) = script_images(words) {
        copied_names(alloc, names)?
    } else {
        name_in(alloc, joined(alloc, words)?.as_slice())?
    };
    Ok(ImageNames { names })
}

// The name of the provider, if the line is a command that has one.
fn name_in(alloc: Global, line: &[u8]) -> Result<Vec<String>, NoMemory>
    ensures { IfOk result (λ images. map string_bytes images.items ≡ name_at line.now (option_and_then provider_of (command_in line.now))) }
{
    match command_in(line) {
        Some(command) => provider_name(alloc, line, &command),
        None => Ok(Vec::new(alloc)),
    }
}
