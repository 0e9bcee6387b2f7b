//! Bytes put into a slot.
ghost use Rattle.std.specs.Prelude.{◌≡◌, ◌≢◌, ℕ, ◌<◌, List, IsTrue};
ghost use Rattle.eli_metadata.specs.Checks.{is_set};
ghost use Rattle.key_slots.specs.Slots.{Opens, OpensAsBefore, SameSlot, IsSlotOf, with_slot_bytes, with_slot, without_slot};

use crate::wrapping::SLOT_SIZE;
use eli_metadata::Metadata;

fn put_bytes(mkeys: &mut [u8; 384], slot: u8, bytes: &[u8; SLOT_SIZE])
    requires { slot < 2 }
    ensures { mkeys.new ≡ with_slot_bytes mkeys.old slot bytes.now }
{
    let start = SLOT_SIZE * usize::from(slot);
    mkeys[start..start + SLOT_SIZE].copy_from_slice(bytes);
}

/// Puts a wrapped master key into a slot and sets its bit. All else stays.
///
/// If the bytes are a master key that was wrapped for the metadata's key length, the slot then opens with that user key
/// to that master key. Each user key opens the other slot to the same master key as before, or to none as before.
pub fn put_slot(meta: &mut Metadata, slot: u8, wrapped: &[u8; 192])
    requires { slot < 2 }
    ensures put { meta.new ≡ with_slot meta.old slot wrapped.now }
    ensures opens { (u master : List ℕ) → IsSlotOf wrapped.now u meta.old.keylen master → Opens meta.new u slot master }
    ensures other { (s : ℕ) → s < 2 → s ≢ slot → SameSlot meta.old meta.new s }
    ensures opens_as_before { (s : ℕ) → s < 2 → s ≢ slot → OpensAsBefore meta.old meta.new s }
{
    put_bytes(&mut meta.mkeys, slot, wrapped);
    meta.keys |= 1 << slot;
}

/// Puts filler into a slot and clears its bit. All else stays. Each user key opens the other slot to the same
/// master key as before, or to none as before.
pub fn clear_slot(meta: &mut Metadata, slot: u8, filler: &[u8; 192])
    requires { slot < 2 }
    ensures put { meta.new ≡ without_slot meta.old slot filler.now }
    ensures clear { ¬ IsTrue (is_set meta.new slot) }
    ensures other { (s : ℕ) → s < 2 → s ≢ slot → SameSlot meta.old meta.new s }
    ensures opens_as_before { (s : ℕ) → s < 2 → s ≢ slot → OpensAsBefore meta.old meta.new s }
{
    put_bytes(&mut meta.mkeys, slot, filler);
    meta.keys &= !(1 << slot);
}
