//! The components of a key.
ghost use Rattle.std.specs.Prelude.{◌≡◌, ◌+◌, ◌++◌, ◌≤◌, length, IfOk, IfErr, IfSome};
ghost use Rattle.command_words.specs.Places.{KeyIsWithin};
ghost use Rattle.key_components.specs.Answers.{IsAnswer, KeepsFiles, LoadsEach, StopsAtFile};
ghost use Rattle.key_components.specs.Key.{FitsWords, components_of, passphrase_of};

use crate::parts::{Part, load_part};
use block_traits::{ByteList, Cabinet};
use command_words::KeyWords;
use eli_base::Refusal;
use std::alloc::Global;
use user_key::{Components, PassPart};

// What the options say about the passphrase, which the passphrase files make.
fn pass_part(words: &KeyWords, passphrase: ByteList) -> PassPart
    ensures { result ≡ passphrase_of words.now passphrase }
{
    if words.without {
        PassPart::Without
    } else if words.pass.as_slice().is_empty() {
        PassPart::Missing
    } else {
        PassPart::Given(passphrase)
    }
}

/// Loads the components of a key: first its key files, then its passphrase files, each from left to
/// right. After a refusal no further file is loaded.
///
/// The key files are joined, and so are the first lines of the passphrase files. If an option says that there is no
/// passphrase, passphrase files are loaded nevertheless, and the passphrase is `Without`.
///
/// A refusal names the word of the file at which it arises: `CabinetFault` if the cabinet failed; `FileAbsent` if there
/// is no such file; `FileTooLong` with the limit 1,048,576 if the key files up to this one have more bytes together, or
/// this passphrase file has more alone; `FileTooLong` with the limit 1,024 if the first lines of the passphrase files
/// up to this one have more bytes together. `NoMemory` may come at any load. If no file is named, nothing is refused.
#[tactic(auto, using(crate::proofs::Causes::stops_behind))]
pub fn load_components<C: Cabinet>(
    alloc: Global,
    line: &[u8],
    words: &KeyWords,
    files: &mut C,
) -> Result<Components, Refusal>
    requires { KeyIsWithin (length line.now) words.now }

    // If the cabinet reports its files, they decide the result, unless it failed or there was no memory.
    ensures answer { IfSome (C.state files.old).files (λ told. IsAnswer (components_of told line.now words.now) result) }

    // Whether or not the cabinet reports its files, the components are of the kind that the words want, and within the
    // limits.
    ensures fits { IfOk result (FitsWords words.now) }

    // A refusal names the word of a file that was reached, and has a cause that loading this file can have.
    ensures stops { IfErr result (λ refusal. StopsAtFile line.now words.now (C.state files.old) refusal (C.state files.new)) }

    // If no file is named, nothing is refused.
    ensures named { IfErr result (λ _. 1 ≤ length words.now.files + length words.now.pass) }

    // The files are loaded one after another, each once, and none after a file whose word a refusal names.
    ensures asked { LoadsEach (words.now.files ++ words.now.pass) (C.state files.old) result (C.state files.new) }

    // No file changes, and no count falls.
    ensures keeps { KeepsFiles (C.state files.old) (C.state files.new) }

    // Nothing is stored.
    ensures unstored { (C.state files.new).stores ≡ (C.state files.old).stores }
{
    let keyfiles = load_part(alloc, line, Part::KeyFiles, words.files.as_slice(), files)?;
    let passphrase = load_part(alloc, line, Part::Passphrase, words.pass.as_slice(), files)?;
    Ok(Components {
        keyfile_count: words.files.as_slice().len() as u32,
        keyfiles,
        passphrase: pass_part(words, passphrase),
    })
}
