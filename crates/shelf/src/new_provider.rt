//! `geli init`: a provider is made, and its metadata are backed up (geli(8), init).

ghost use Rattle.std.specs.Prelude.{◌≡◌, ℕ, IfSome, List, length};
ghost use Rattle.block_traits.specs.Disk.{DiskState};
ghost use Rattle.block_traits.specs.Streams.{EntropyState};
ghost use Rattle.command_words.specs.Places.{CommandIsWithin, IsWithin, KeyIsWithin};
ghost use Rattle.reply_text.specs.Answer.{answer_of};
ghost use Rattle.command_rows.specs.Steps.{BacksUp};
ghost use Rattle.command_rows.specs.Turn.{GoesThrough};
ghost use Rattle.command_rows.specs.World.{Holding, Idle, reach_of};
ghost use Rattle.command_rows.specs.verbs.Init.{InitRow, iterations_of};
ghost use Rattle.reply_text.specs.Text.{FitsPayload};
ghost use Rattle.shelf.specs.Shelved.{reach_in};
ghost use Rattle.shelf.specs.Verbs.{IsInit};

use crate::Held;
use crate::replies::done_or;
use crate::saving::store_at;
use block_traits::{Cabinet, Disk, Entropy};
use command_words::{Command, KeyWords, Span};
use eli_base::Refusal;
use eli_metadata::{Metadata, encode};
use key_commands::InitOptions;
use key_components::load_components;
use reply_text::Reply;
use std::alloc::Global;

/// How often a new passphrase is hashed if the words don't say.
const ITERATIONS: i32 = 100_000;

// The iterations of a new key: -1 if there is no passphrase, else those that are given, or 100,000.
fn iterations_of(fresh: &KeyWords, given: Option<i32>) -> i32
    ensures { result ≡ iterations_of fresh.now given }
{
    if fresh.without {
        -1
    } else {
        given.unwrap_or(ITERATIONS)
    }
}

// Stores the sector of the metadata under the name at a place of the line, if there is one.
fn back_up<C: Cabinet>(
    alloc: Global,
    line: &[u8],
    backup: Option<Span>,
    meta: &Metadata,
    files: &mut C,
) -> Result<(), Refusal>
    requires { IfSome backup (IsWithin (length line.now)) }
    ensures { (disk : DiskState) (holding : Holding) (entropy : EntropyState) →
        BacksUp line.now backup meta.now
        (reach_of disk holding (C.state files.old) entropy) result
        (reach_of disk holding (C.state files.new) entropy) }
{
    let Some(span) = backup else {
        return Ok(());
    };
    let mut sector = [0; 512];
    encode(meta, &mut sector);
    store_at(alloc, line, span, &sector, files)
}

// Makes a provider of the disk of an idle drawer: loads the files of its key, writes its metadata, and then stores them
// as a backup if one is wanted. A backup that can't be stored leaves the provider that was made.
fn init<D: Disk, C: Cabinet, E: Entropy>(
    alloc: Global,
    disk: &mut D,
    line: &[u8],
    options: &InitOptions,
    fresh: &KeyWords,
    backup: Option<Span>,
    files: &mut C,
    entropy: &mut E,
) -> Result<(), Refusal>
    requires key { KeyIsWithin (length line.now) fresh.now }
    requires backup { IfSome backup (IsWithin (length line.now)) }
    ensures { InitRow line.now options.now fresh.now backup
        (reach_of (D.state disk.old) Idle (C.state files.old) (E.state entropy.old)) result
        (reach_of (D.state disk.new) Idle (C.state files.new) (E.state entropy.new)) }
{
    let parts = load_components(alloc, line, fresh, files)?;
    let meta = key_commands::init(disk, options, &parts, entropy)?;
    back_up(alloc, line, backup, &meta, files)
}

/// Serves `init` on the disk of an idle drawer.
pub fn serve_init<D: Disk, C: Cabinet, E: Entropy>(
    alloc: Global,
    disk: D,
    line: &[u8],
    command: &Command,
    files: &mut C,
    entropy: &mut E,
) -> (Held<D>, Reply)
    requires verb { IsInit command.now }
    requires within { CommandIsWithin (length line.now) command.now }
    ensures serves { (bytes : List ℕ) → GoesThrough line.now command.now
        (reach_of (D.state disk) Idle (C.state files.old) (E.state entropy.old)) (answer_of bytes result.1)
        (reach_in D.state result.0 (C.state files.new) (E.state entropy.new)) }
    ensures payload { FitsPayload 0 result.1 }
{
    match command {
        Command::Init {
            cipher,
            auth,
            keylen,
            sectorsize,
            iterations,
            autoresize,
            fresh,
            backup,
            ..
        } => {
            let options = InitOptions {
                cipher: *cipher,
                auth: *auth,
                keylen: *keylen,
                sectorsize: *sectorsize,
                iterations: iterations_of(fresh, *iterations),
                autoresize: *autoresize,
            };
            let mut disk = disk;
            let answer = init(
                alloc, &mut disk, line, &options, fresh, *backup, files, entropy,
            );
            (Held::Idle(disk), done_or(answer))
        }
        _ => unreachable!(),
    }
}
