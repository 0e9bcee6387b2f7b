//! Keys that are taken out of the metadata.
ghost use Rattle.std.specs.Prelude.{◌≡◌, ◌<◌};
ghost use Rattle.key_commands.specs.DeleteKeys.{DeletesKeys, Deletion};

use crate::overwriting::{Which, cleared, deletion_refusal, filler_size, pass_sectors};
use block_traits::{Entropy, MetaPlace, overwrite_last};
use eli_base::Refusal;
use eli_metadata::Metadata;

/// Takes the keys of the named slots out of the metadata: clears the slots' bits, and overwrites the slots, five
/// times with random bytes and then with zeros (geli(8), `delkey`). Returns the metadata that are then in force.
///
/// `meta` are the metadata as they stand. Each pass stores them with other bytes in the named slots. From the first
/// flush on, the last sector holds no metadata in which a named slot is set (`delkey_leaves_old_or_cleared`). A slot
/// that isn't named is kept (`delkey_keeps_the_other_key`).
///
/// Refusals are returned in this order: `KeyNumberOutOfRange`, `KeyNotSet` and, unless `force`, `LastKey` (one slot
/// is named, and the other holds no key), and then nothing was done; `EntropyFault`, only if the entropy failed, and
/// then the disk is as it was; `DeviceFault`, only if the disk failed. `All` is served even if no slot holds a key.
/// The random bytes are taken in one call, before the first event of the disk.
pub fn delkey<P: MetaPlace, E: Entropy>(
    place: &mut P,
    meta: &Metadata,
    which: Which,
    force: bool,
    entropy: &mut E,
) -> Result<Metadata, Refusal>
    requires { 0 < (P.state place.old).size }
    ensures deletes { let asked : Deletion = record { meta = meta.now; which = which; force = force } in
        DeletesKeys asked (P.state place.old) (E.state entropy.old)
        result (P.state place.new) (E.state entropy.new) }
    ensures rest { P.rest place.new ≡ P.rest place.old }
{
    if let Some(refusal) = deletion_refusal(meta, which, force) {
        return Err(refusal);
    }
    let mut buffer = [0; 1920];
    let random = &mut buffer[..filler_size(which)];
    if entropy.fill(random).is_err() {
        return Err(Refusal::EntropyFault);
    }
    match overwrite_last(place, &pass_sectors(meta, which, random)) {
        Ok(()) => Ok(cleared(meta, which)),
        Err(_) => Err(Refusal::DeviceFault),
    }
}
