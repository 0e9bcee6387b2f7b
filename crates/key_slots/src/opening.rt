//! A slot opened by a user key.
ghost use Rattle.std.specs.Prelude.{◌≡◌, ℕ, ◌<◌, ◌↔◌, List, Some};
ghost use Rattle.std.specs.Option.{ForSome};
ghost use Rattle.key_slots.specs.Slots.{IsFirstToOpen, IsKeyBits, Opens, OpensAsNamed, slot_bytes, deciphered_slot, has_code, master_in, unwrapped, numbered, opened, unwrapped_any};

use crate::wrapping::{SLOT_SIZE, ZERO_VECTOR, check_code, wrapping_schedule};
use cbc_mode::cbc_open;
use eli_base::MasterKey;
use eli_metadata::Metadata;
use user_key::UserKey;

fn slot_bytes(meta: &Metadata, slot: u8) -> [u8; SLOT_SIZE]
    requires { slot < 2 }
    ensures { result ≡ slot_bytes meta.now slot }
{
    let start = SLOT_SIZE * usize::from(slot);
    let mut bytes = [0u8; SLOT_SIZE];
    bytes.copy_from_slice(&meta.mkeys[start..start + SLOT_SIZE]);
    bytes
}

// The text that a slot deciphers to.
fn deciphered(meta: &Metadata, key: &UserKey, slot: u8) -> [u8; SLOT_SIZE]
    requires slot { slot < 2 }
    requires keylen { IsKeyBits meta.now.keylen }
    ensures { result ≡ deciphered_slot (slot_bytes meta.now slot) key.now.bytes meta.now.keylen }
{
    let mut text = slot_bytes(meta, slot);
    cbc_open(
        &wrapping_schedule(key, meta.keylen),
        &ZERO_VECTOR,
        &mut text,
    );
    text
}

// Whether the code in a slot's text is that of the master key before it.
fn has_code(text: &[u8; SLOT_SIZE], key: &UserKey) -> bool
    ensures { result ≡ has_code key.now.bytes text.now }
{
    &text[128..] == check_code(key, &text[..128]).as_slice()
}

// The master key in a slot's text, if the code after it is right.
fn master_in(text: &[u8; SLOT_SIZE], key: &UserKey) -> Option<MasterKey>
    ensures { result ≡ master_in key.now.bytes text.now }
{
    if !has_code(text, key) {
        return None;
    }
    let mut bytes = [0u8; 128];
    bytes.copy_from_slice(&text[..128]);
    Some(MasterKey { bytes })
}

/// The master key to which a slot opens with this user key: `None` exactly if the slot's bit is clear or the code in
/// the slot doesn't match.
pub fn unwrap(meta: &Metadata, key: &UserKey, slot: u8) -> Option<MasterKey>
    requires slot { slot < 2 }
    requires keylen { IsKeyBits meta.now.keylen }
    ensures answer { result ≡ unwrapped meta.now key.now.bytes slot }
    ensures opens { (master : List ℕ) → Opens meta.now key.now.bytes slot master ↔ (result ≡ Some (record { bytes = master })) }
{
    if meta.is_set(slot) {
        master_in(&deciphered(meta, key, slot), key)
    } else {
        None
    }
}

// The master key to which a slot opens with this user key, and the slot's number.
fn unwrap_numbered(meta: &Metadata, key: &UserKey, slot: u8) -> Option<(MasterKey, u8)>
    requires slot { slot < 2 }
    requires keylen { IsKeyBits meta.now.keylen }
    ensures answer { result ≡ numbered (unwrapped meta.now key.now.bytes slot) slot }
    ensures opens { (master : List ℕ) → Opens meta.now key.now.bytes slot master ↔ (result ≡ Some (record { bytes = master }, slot)) }
{
    let master = unwrap(meta, key, slot)?;
    Some((master, slot))
}

/// The master key and the number of the first slot that opens with this user key: slot 0 before slot 1. `None` exactly
/// if neither opens.
pub fn unwrap_any(meta: &Metadata, key: &UserKey) -> Option<(MasterKey, u8)>
    requires { IsKeyBits meta.now.keylen }
    ensures answer { result ≡ unwrapped_any meta.now key.now.bytes }
    ensures opens { (slot : ℕ) (master : List ℕ) → IsFirstToOpen meta.now key.now.bytes slot master ↔ (result ≡ Some (record { bytes = master }, slot)) }
{
    match unwrap_numbered(meta, key, 0) {
        None => unwrap_numbered(meta, key, 1),
        first => first,
    }
}

/// The master key, and the number of its slot, that a user key opens: of the named slot, or else of the first that
/// opens. None exactly if the named slot doesn't open, or, if none is named, neither slot does.
pub fn opened(meta: &Metadata, key: &UserKey, named: Option<u8>) -> Option<(MasterKey, u8)>
    requires keylen { IsKeyBits meta.now.keylen }
    requires named { ForSome named (λ slot. slot < 2) }
    ensures answer { result ≡ opened meta.now key.now.bytes named }
    ensures opens { (slot : ℕ) (master : List ℕ) → OpensAsNamed meta.now key.now.bytes named slot master ↔ (result ≡ Some (record { bytes = master }, slot)) }
{
    let Some(slot) = named else {
        return unwrap_any(meta, key);
    };
    let master = unwrap(meta, key, slot)?;
    Some((master, slot))
}
