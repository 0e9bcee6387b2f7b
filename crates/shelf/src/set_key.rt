//! `geli setkey`: a key is put into a slot of a provider (geli(8)).

ghost use Rattle.std.specs.Prelude.{◌≡◌, ◌<◌, ◌^◌, ℕ, IfOk, IsOk, List, MatchResult, Ok, Err, length};
ghost use Rattle.bio_queue.specs.Requests.{Request};
ghost use Rattle.block_traits.specs.Cabinet.{CabinetState};
ghost use Rattle.block_traits.specs.Streams.{EntropyState};
ghost use Rattle.command_words.specs.Places.{CommandIsWithin, KeyIsWithin};
ghost use Rattle.reply_text.specs.Answer.{answer_of};
ghost use Rattle.command_rows.specs.Turn.{GoesThrough};
ghost use Rattle.eli_metadata.specs.Checks.{settings_of, supported};
ghost use Rattle.key_commands.specs.NewKey.{KeyChange};
ghost use Rattle.command_rows.specs.World.{Holding, Idle, reach_of};
ghost use Rattle.command_rows.specs.verbs.Setkey.{SetkeyAttachedRow, SetkeyIdleRow, StoresKey, if_there, slot_opened_by, usable};
ghost use Rattle.reply_text.specs.Text.{FitsPayload};
ghost use Rattle.shelf.specs.Shelved.{reach_in, reach_on};
ghost use Rattle.shelf.specs.Verbs.{IsSetkey};
ghost use Rattle.user_key.specs.Derivation.{user_key};

use crate::Held;
use crate::reading::read_last;
use crate::replies::done_or;
use crate::trying::admit;
use block_traits::{Cabinet, Disk, LastSector, MetaPlace};
use command_words::{Command, KeyWords};
use eli_base::{MasterKey, Params, Refusal};
use eli_metadata::{Metadata, check, size_gate};
use key_components::load_components;
use key_slots::opened;
use provider::{Provider, rest_tells_all};
use reply_text::Reply;
use std::alloc::Global;
use user_key::{Components, derive};

// The parameters of metadata that an image of so many device sectors can have.
fn fit(meta: &Metadata, sectors: u64) -> Result<Params, Refusal>
    requires { sectors < 2 ^ 44 }
    ensures answer { MatchResult result
        (λ params. usable meta.now sectors ≡ Ok (settings_of params))
        (λ refusal. usable meta.now sectors ≡ Err refusal) }
    ensures checked { IfOk result (λ params. supported meta.now ≡ Ok (settings_of params)) }
{
    let params = check(meta)?;
    size_gate(meta, sectors)?;
    Ok(params)
}

// Refuses a slot other than 0 and 1.
fn needs_slot(slot: Option<u8>) -> Result<(), Refusal>
    ensures { result ≡ if_there slot }
{
    match slot {
        Some(given) if given > 1 => Err(Refusal::KeyNumberOutOfRange { given }),
        _ => Ok(()),
    }
}

// The master key that the components of a key open, and the number of the first slot that they open.
fn open(meta: &Metadata, params: &Params, parts: &Components) -> Result<(MasterKey, u8), Refusal>
    requires { supported meta.now ≡ Ok (settings_of params.now) }
    ensures answer { result ≡ slot_opened_by meta.now (user_key parts.now meta.now.salt meta.now.iterations) }
    ensures slot { IfOk result (λ found. found.1 < 2) }
{
    let key = match derive(parts, &meta.salt, meta.iterations) {
        Ok(key) => key,
        Err(fault) => return Err(Refusal::from(fault)),
    };
    match opened(meta, &key, None) {
        Some(found) => Ok(found),
        None => Err(Refusal::WrongKey),
    }
}

// Puts the new key into a slot.
fn store_key<P: MetaPlace>(
    place: &mut P,
    meta: &Metadata,
    master: &MasterKey,
    slot: u8,
    iterations: Option<i32>,
    parts: &Components,
) -> Result<(), Refusal>
    requires target { slot < 2 }
    requires checked { IsOk (supported meta.now) }
    requires room { 0 < (P.state place.old).size }
    ensures stores { (holding : Holding) (cabinet : CabinetState) (entropy : EntropyState) →
        let asked : KeyChange =
        record { meta = meta.now; master = master.now.bytes; slot = slot; iterations = iterations; parts = parts.now } in
        StoresKey asked (reach_of (P.state place.old) holding cabinet entropy) result
        (reach_of (P.state place.new) holding cabinet entropy) }
    ensures rest { P.rest place.new ≡ P.rest place.old }
{
    match key_commands::setkey(place, meta, master, slot, iterations, parts) {
        Ok(_) => Ok(()),
        Err(refusal) => Err(refusal),
    }
}

// Puts a new key into the named slot of an idle provider, or else into that which the old key opens. The files of both
// keys are loaded once the metadata are admitted.
fn setkey_idle<P: MetaPlace, C: Cabinet>(
    alloc: Global,
    place: &mut P,
    line: &[u8],
    iterations: Option<i32>,
    slot: Option<u8>,
    old: &KeyWords,
    fresh: &KeyWords,
    files: &mut C,
) -> Result<(), Refusal>
    requires old { KeyIsWithin (length line.now) old.now }
    requires fresh { KeyIsWithin (length line.now) fresh.now }
    ensures row { (holding : Holding) (entropy : EntropyState) →
        SetkeyIdleRow line.now iterations slot old.now fresh.now
        (reach_of (P.state place.old) holding (C.state files.old) entropy) result
        (reach_of (P.state place.new) holding (C.state files.new) entropy) }
    ensures rest { P.rest place.new ≡ P.rest place.old }
{
    let meta = read_last(place)?;
    let params = admit(&meta, place.sectors(), None)?;
    needs_slot(slot)?;
    let parts = load_components(alloc, line, old, files)?;
    let next = load_components(alloc, line, fresh, files)?;
    let (master, found) = open(&meta, &params, &parts)?;
    let target = slot.unwrap_or(found);
    store_key(place, &meta, &master, target, iterations, &next)
}

// Puts a new key into a slot of an attached provider, which has the master key. No file of an old key is loaded.
fn setkey_attached<P: MetaPlace, C: Cabinet>(
    alloc: Global,
    place: &mut P,
    line: &[u8],
    iterations: Option<i32>,
    slot: u8,
    master: &MasterKey,
    fresh: &KeyWords,
    files: &mut C,
) -> Result<(), Refusal>
    requires { KeyIsWithin (length line.now) fresh.now }
    ensures row { (holding : Holding) (entropy : EntropyState) →
        SetkeyAttachedRow line.now iterations slot master.now.bytes fresh.now
        (reach_of (P.state place.old) holding (C.state files.old) entropy) result
        (reach_of (P.state place.new) holding (C.state files.new) entropy) }
    ensures rest { P.rest place.new ≡ P.rest place.old }
{
    let meta = read_last(place)?;
    fit(&meta, place.sectors())?;
    needs_slot(Some(slot))?;
    let parts = load_components(alloc, line, fresh, files)?;
    store_key(place, &meta, master, slot, iterations, &parts)
}

/// Serves `setkey` on the disk of an idle drawer.
pub fn serve_setkey_idle<D: Disk, C: Cabinet>(
    alloc: Global,
    disk: D,
    line: &[u8],
    command: &Command,
    files: &mut C,
) -> (Held<D>, Reply)
    requires verb { IsSetkey command.now }
    requires within { CommandIsWithin (length line.now) command.now }
    ensures serves { (entropy : EntropyState) (bytes : List ℕ) → GoesThrough line.now command.now
        (reach_of (D.state disk) Idle (C.state files.old) entropy) (answer_of bytes result.1)
        (reach_in D.state result.0 (C.state files.new) entropy) }
    ensures payload { FitsPayload 0 result.1 }
{
    match command {
        Command::Setkey {
            iterations,
            slot,
            old,
            fresh,
            ..
        } => {
            let mut place = LastSector::new(disk);
            let answer = setkey_idle(
                alloc,
                &mut place,
                line,
                *iterations,
                *slot,
                old,
                fresh,
                files,
            );
            (Held::Idle(place.into_disk()), done_or(answer))
        }
        _ => unreachable!(),
    }
}

/// Serves `setkey` on an attached drawer, which stays attached.
pub fn serve_setkey_attached<D: Disk, C: Cabinet>(
    alloc: Global,
    provider: &mut Provider<D>,
    line: &[u8],
    command: &Command,
    files: &mut C,
) -> Reply
    requires verb { IsSetkey command.now }
    requires within { CommandIsWithin (length line.now) command.now }
    ensures serves { (queue : List Request) (entropy : EntropyState) (bytes : List ℕ) → GoesThrough line.now command.now
        (reach_on D.state queue provider.old (C.state files.old) entropy) (answer_of bytes result)
        (reach_on D.state queue provider.new (C.state files.new) entropy) }
    ensures payload { FitsPayload 0 result }
{
    rest_tells_all();
    match command {
        Command::Setkey {
            iterations,
            slot,
            fresh,
            ..
        } => {
            let master = provider.master();
            let target = slot.unwrap_or(provider.slot());
            let answer = setkey_attached(
                alloc,
                provider,
                line,
                *iterations,
                target,
                &master,
                fresh,
                files,
            );
            done_or(answer)
        }
        _ => unreachable!(),
    }
}
