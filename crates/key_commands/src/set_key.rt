//! A new key in a slot.
ghost use Rattle.std.specs.Prelude.{◌≡◌, ◌==◌, ◌<◌, ◌^◌, bit_and, IfErr, IfOk, IsOk, Some};
ghost use Rattle.eli_metadata.specs.Format.{IsWhole};
ghost use Rattle.eli_metadata.specs.Checks.{supported};
ghost use Rattle.key_commands.specs.NewKey.{KeyChange, MakesKey, change_refusal, new_iterations};
ghost use Rattle.key_commands.specs.SetKey.{SetsKey};
ghost use Rattle.key_commands.specs.Types.{IsMasterKey};
ghost use Rattle.key_slots.specs.Slots.{IsKeyBits, with_slot, wrapped};

use crate::storing::store;
use crate::types::is_master_key;
use block_traits::MetaPlace;
use eli_base::{MasterKey, Refusal};
use eli_metadata::Metadata;
use key_slots::{put_slot, wrap};
use user_key::{Components, PassPart, UserKey, derive};

// The iterations for a passphrase if none was set up before.
const USUAL_ITERATIONS: i32 = 100_000;

fn new_iterations(given: Option<i32>, passphrase: &PassPart, kept: i32) -> i32
    ensures { result ≡ new_iterations given passphrase.now kept }
{
    match (given, passphrase) {
        (Some(count), _) => count,
        (None, PassPart::Given(_)) if kept < 0 => USUAL_ITERATIONS,
        (None, _) => kept,
    }
}

/// Whether this slot holds a key and the other one doesn't.
pub fn is_only_key(meta: &Metadata, slot: u8) -> bool
    requires { slot < 2 }
    ensures { result ≡ (bit_and meta.now.keys 3 == 2 ^ slot) }
{
    meta.keys & 3 == 1 << slot
}

// The metadata with other iterations, and the master key wrapped by a user key in a slot.
fn with_key(
    meta: &Metadata,
    master: &MasterKey,
    slot: u8,
    iterations: i32,
    key: &UserKey,
) -> Metadata
    requires slot { slot < 2 }
    requires keylen { IsKeyBits meta.now.keylen }
    ensures fields { let m = meta.now in
        result ≡ with_slot (record m { iterations = iterations }) slot (wrapped master.now.bytes key.now.bytes m.keylen) }
    ensures whole { IsWhole result }
    ensures before { IsWhole meta.now }
    ensures master { IsMasterKey master.now.bytes }
{
    let mut new = Metadata {
        iterations,
        ..*meta
    };
    put_slot(&mut new, slot, &wrap(master, key, meta.keylen));
    new.fits_types();
    meta.fits_types();
    is_master_key(*master);
    new
}

// The metadata with a new key, or why there are none.
fn changed(
    meta: &Metadata,
    master: &MasterKey,
    slot: u8,
    iterations: Option<i32>,
    parts: &Components,
) -> Result<Metadata, Refusal>
    requires slot { slot < 2 }
    requires checked { IsOk (supported meta.now) }
    ensures ok { let asked : KeyChange =
        record { meta = meta.now; master = master.now.bytes; slot = slot; iterations = iterations; parts = parts.now } in
        IfOk result (MakesKey asked) }
    ensures err { let asked : KeyChange =
        record { meta = meta.now; master = master.now.bytes; slot = slot; iterations = iterations; parts = parts.now } in
        IfErr result (λ refusal. change_refusal asked ≡ Some refusal) }
{
    if iterations.is_some() && !is_only_key(meta, slot) {
        return Err(Refusal::IterationsNeedOneKey);
    }
    let count = new_iterations(iterations, &parts.passphrase, meta.iterations);
    let key = derive(parts, &meta.salt, count)?;
    Ok(with_key(meta, master, slot, count, &key))
}

/// Wraps the master key for a new user key, made of these components, in the slot `target`, and stores the
/// metadata (geli(8), `setkey`). Returns the metadata that are then in force.
///
/// `meta` are the metadata as they stand, which `check` accepts, and `master` is the master key that one of
/// their slots opens to. The slot's bit is set. The iterations become those that are given, or 100,000 if a
/// passphrase is given and none was set up. All else stays: the salt and the other slot, so each key that opens the
/// other slot still does (`what_setkey_makes_is_of_use`). At each moment the last sector holds what it might hold
/// before or the new metadata, and once the call is done the new metadata alone (`setkey_leaves_old_or_new`).
///
/// Refusals are returned in this order: `IterationsNeedOneKey`, exactly if iterations are given and the slots that
/// hold a key aren't the target alone, and the refusal of `derive` for the components under the new iterations, and
/// then nothing was done; `DeviceFault`, only if the disk failed.
pub fn setkey<P: MetaPlace>(
    place: &mut P,
    meta: &Metadata,
    master: &MasterKey,
    target: u8,
    iterations: Option<i32>,
    parts: &Components,
) -> Result<Metadata, Refusal>
    requires target { target < 2 }
    requires checked { IsOk (supported meta.now) }
    requires room { 0 < (P.state place.old).size }
    ensures sets { let asked : KeyChange =
        record { meta = meta.now; master = master.now.bytes; slot = target; iterations = iterations; parts = parts.now } in
        SetsKey asked (P.state place.old) result (P.state place.new) }
    ensures rest { P.rest place.new ≡ P.rest place.old }
{
    let new = changed(meta, master, target, iterations, parts)?;
    match store(place, &new) {
        Ok(()) => Ok(new),
        Err(_) => Err(Refusal::DeviceFault),
    }
}
