//! What is opened and reserved before a provider is attached.
ghost use Rattle.std.specs.Prelude.{◌≡◌, ◌*◌, ◌/◌, max, IfOk, MatchResult, Ok, vec_len};
ghost use Rattle.eli_base.specs.Keying.{keying_of};
ghost use Rattle.eli_metadata.specs.Checks.{settings_of, slot_matches, supported};
ghost use Rattle.provider.specs.Attached.{buffer_bytes};
ghost use Rattle.provider.specs.Opening.{SlotOpens, SlotFails, params_media};

use crate::AttachFault;
use block_traits::NoMemory;
use eli_base::{Geometry, MasterKey, Params, SectorLayout};
use eli_metadata::Metadata;
use key_slots::opened;
use range_keys::HeldRing;
use std::alloc::Global;
use user_key::UserKey;

/// A slot that a user key opened.
#[derive(Clone, Copy)]
pub struct OpenedSlot {
    /// The master key in it.
    pub master: MasterKey,
    /// Its number.
    pub slot: u8,
}

/// Opens the slot of the metadata that is named, or else the first that the user key opens, for a provider with these
/// parameters. They are those that `check` gave of the metadata, and the gate of slots let this slot through.
///
/// There are two refusals, in this order: `TooSmall`, exactly if the parameters leave no room for a whole logical
/// sector; `WrongKey`, exactly if no slot that is asked for opens.
pub fn open_slot(
    meta: &Metadata,
    params: &Params,
    key: &UserKey,
    named: Option<u8>,
) -> Result<OpenedSlot, AttachFault>
    requires checked { supported meta.now ≡ Ok (settings_of params.now) }
    requires slot { slot_matches meta.now named ≡ Ok tt }
    ensures { MatchResult result
        (λ found. SlotOpens meta.now (params_media params.now) key.now.bytes named found.slot found.master.bytes)
        (SlotFails meta.now params.now key.now.bytes named) }
{
    let Ok(_) = Geometry::of(params) else {
        let size = params.provsize;
        return Err(AttachFault::TooSmall { size });
    };
    match opened(meta, key, named) {
        Some((master, slot)) => Ok(OpenedSlot { master, slot }),
        None => Err(AttachFault::WrongKey),
    }
}

// The bytes of the buffer that a provider keeps: those of the device sectors of some logical sectors.
fn buffer_bytes(layout: SectorLayout) -> usize
    ensures { result ≡ max 1 (64 / layout.units) * (512 * layout.units) }
{
    (64 / layout.units).max(1) * (512 * layout.units)
}

/// The memory that a provider keeps: its keys, and a buffer for the device sectors of some logical sectors.
pub fn reserve(
    alloc: Global,
    master: &MasterKey,
    params: &Params,
) -> Result<(HeldRing, Vec<u8>), NoMemory>
    ensures keying { IfOk result (λ kept. kept.0.keying ≡ keying_of params.now master.now) }
    ensures buffer { IfOk result (λ kept. vec_len kept.1 ≡ buffer_bytes kept.0.keying.auth kept.0.keying.sectorsize) }
{
    let ring = HeldRing::new(alloc, master, params)?;
    let buffer = vec![in alloc; 0; buffer_bytes(ring.get().layout())]?;
    Ok((ring, buffer))
}
