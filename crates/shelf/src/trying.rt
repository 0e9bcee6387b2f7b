//! A key is tried on a provider (geli(8), attach).

ghost use Rattle.std.specs.Prelude.{◌≡◌, ◌<◌, ◌^◌, IfOk, OnOk, MatchResult, Bool, Ok, Err, length};
ghost use Rattle.block_traits.specs.Streams.{EntropyState};
ghost use Rattle.command_words.specs.Places.{KeyIsWithin};
ghost use Rattle.eli_metadata.specs.Checks.{settings_of, size_matches, slot_matches, supported};
ghost use Rattle.command_rows.specs.Steps.{admitted, or_refusal, without_value};
ghost use Rattle.shelf.specs.Trying.{IsTrial, attach_refusal, tried_by, tried_in};
ghost use Rattle.command_rows.specs.Trying.{TryRow};
ghost use Rattle.command_rows.specs.World.{Holding, reach_of};
ghost use Rattle.user_key.specs.Derivation.{user_key};
ghost use Rattle.user_key.specs.Refusals.{key_refusal_of};

use crate::reading::read_last;
use block_traits::{Cabinet, MetaPlace};
use command_words::KeyWords;
use eli_base::{Params, Refusal};
use eli_metadata::{Metadata, check, size_gate, slot_gate};
use key_components::load_components;
use provider::{AttachFault, open_slot};
use std::alloc::Global;
use user_key::{Components, UserKey, derive};

/// A provider, and the user key that is tried on it.
#[derive(Drop)]
pub struct Trial {
    /// Its metadata.
    pub meta: Metadata,
    /// Its parameters.
    pub params: Params,
    /// The user key.
    pub key: UserKey,
}

/// The parameters of metadata that an image of so many device sectors can have, and whose named slot is set.
pub fn admit(meta: &Metadata, sectors: u64, slot: Option<u8>) -> Result<Params, Refusal>
    requires { sectors < 2 ^ 44 }
    ensures answer { MatchResult result
        (λ params. admitted meta.now sectors slot ≡ Ok (settings_of params))
        (λ refusal. admitted meta.now sectors slot ≡ Err refusal) }
    ensures checked { IfOk result (λ params. supported meta.now ≡ Ok (settings_of params)) }
    ensures size { OnOk result (size_matches meta.now sectors ≡ Ok tt) }
    ensures slot { OnOk result (slot_matches meta.now slot ≡ Ok tt) }
{
    let params = check(meta)?;
    size_gate(meta, sectors)?;
    slot_gate(meta, slot)?;
    Ok(params)
}

// The user key that the components of a key make for these metadata.
fn make_key(meta: &Metadata, parts: &Components) -> Result<UserKey, Refusal>
    ensures { result ≡ or_refusal key_refusal_of (user_key parts.now meta.now.salt meta.now.iterations) }
{
    match derive(parts, &meta.salt, meta.iterations) {
        Ok(key) => Ok(key),
        Err(fault) => Err(Refusal::from(fault)),
    }
}

/// Makes the key that is to be tried on the provider of an idle drawer, by the slot that is named or else by any. The
/// files of the key are loaded once the metadata are admitted.
pub fn prepare<P: MetaPlace, C: Cabinet>(
    alloc: Global,
    place: &mut P,
    line: &[u8],
    slot: Option<u8>,
    words: &KeyWords,
    files: &mut C,
) -> Result<Trial, Refusal>
    requires { KeyIsWithin (length line.now) words.now }
    ensures row { (readonly : Bool) (holding : Holding) (entropy : EntropyState) →
        TryRow line.now slot readonly words.now
        (reach_of (P.state place.old) holding (C.state files.old) entropy) (tried_by slot readonly result)
        (reach_of (P.state place.new) holding (C.state files.new) entropy) }
    ensures trial { IfOk result (IsTrial (P.state place.new).size slot) }
    ensures rest { P.rest place.new ≡ P.rest place.old }
{
    let meta = read_last(place)?;
    let params = admit(&meta, place.sectors(), slot)?;
    let parts = load_components(alloc, line, words, files)?;
    let key = make_key(&meta, &parts)?;
    Ok(Trial { meta, params, key })
}

/// The refusal of a provider that wasn't attached.
pub fn attach_refusal(fault: AttachFault) -> Refusal
    ensures { result ≡ attach_refusal fault }
{
    match fault {
        AttachFault::TooSmall { size } => Refusal::TooSmall { size },
        AttachFault::WrongKey => Refusal::WrongKey,
        AttachFault::NoMemory => Refusal::NoMemory,
    }
}

/// Refuses a key that opens no slot of those that are asked for, and a provider without a sector.
pub fn try_key(trial: &Trial, slot: Option<u8>) -> Result<(), Refusal>
    requires checked { supported trial.now.meta ≡ Ok (settings_of trial.now.params) }
    requires slot { slot_matches trial.now.meta slot ≡ Ok tt }
    ensures { (readonly : Bool) → result ≡ without_value (tried_in slot readonly trial.now) }
{
    match open_slot(&trial.meta, &trial.params, &trial.key, slot) {
        Ok(_) => Ok(()),
        Err(fault) => Err(attach_refusal(fault)),
    }
}
