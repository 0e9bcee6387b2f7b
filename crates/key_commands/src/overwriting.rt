//! Slots that are cleared and overwritten.
ghost use Rattle.std.specs.Prelude.{◌≡◌, ◌<◌, ◌≤◌, IfNone, length};
ghost use Rattle.block_traits.specs.Overwriting.{zeros};
ghost use Rattle.eli_metadata.specs.Format.{IsWhole};
ghost use Rattle.eli_metadata.specs.Checks.{is_set};
ghost use Rattle.key_commands.specs.Overwriting.{IsThere, IsThere-prop, deletion_refusal, filler_size, named_size, pass_sectors, without_keys};

use crate::set_key::is_only_key;
use block_traits::{Pass, Sector, passes};
use eli_base::Refusal;
use eli_metadata::{Metadata, encode};
use key_slots::clear_slot;

/// The slots that lose their keys (geli(8), `delkey`).
#[derive(Clone, Copy, Debug, PartialEq, Eq)]
pub enum Which {
    /// Both slots: `-a`.
    All,
    /// The slot of this number: `-n`.
    One(u8),
}

// The passes with random bytes. The last pass, the sixth, has zeros.
const RANDOM_PASSES: usize = 5;

// The bytes of both slots.
const ZEROS: [u8; 384] = [0; 384];

/// Why the slots can't be cleared, if so.
pub fn deletion_refusal(meta: &Metadata, which: Which, force: bool) -> Option<Refusal>
    ensures answer { result ≡ deletion_refusal meta.now which force }
    ensures there { IfNone result (IsThere which) }
{
    let Which::One(slot) = which else {
        return None;
    };
    if slot > 1 {
        return Some(Refusal::KeyNumberOutOfRange { given: slot });
    }
    if !meta.is_set(slot) {
        return Some(Refusal::KeyNotSet { slot });
    }
    if !force && is_only_key(meta, slot) {
        return Some(Refusal::LastKey { slot });
    }
    None
}

fn named_size(which: Which) -> usize
    ensures size { result ≡ named_size which }
    ensures bound { result ≤ 384 }
{
    match which {
        Which::All => 384,
        Which::One(_) => 192,
    }
}

/// How many random bytes all passes take.
pub fn filler_size(which: Which) -> usize
    ensures size { result ≡ filler_size which }
    ensures bound { result ≤ 1920 }
{
    RANDOM_PASSES * named_size(which)
}

// The metadata with these bytes in the slots, which are then clear.
fn without_keys(meta: Metadata, which: Which, bytes: &[u8]) -> Metadata
    requires there { IsThere which }
    requires size { length bytes.now ≡ named_size which }
    ensures fields { result ≡ without_keys meta which bytes.now }
{
    let mut new = meta;
    match which {
        Which::All => {
            new.keys &= !3;
            new.mkeys.copy_from_slice(bytes);
        }
        Which::One(slot) => {
            let mut filler = [0; 192];
            filler.copy_from_slice(bytes);
            clear_slot(&mut new, slot, &filler);
        }
    }
    new
}

/// The metadata with zeros in the slots, which are then clear.
#[tactic(auto, unfolding(block_traits::specs::Overwriting::zeros))]
pub fn cleared(meta: &Metadata, which: Which) -> Metadata
    requires there { IsThere which }
    ensures fields { result ≡ without_keys meta.now which (zeros (named_size which)) }
    ensures whole { IsWhole meta.now }
{
    meta.fits_types();
    without_keys(*meta, which, &ZEROS[..named_size(which)])
}

// A pass makes the sector of the metadata with the pass's bytes in the named slots.
#[derive(Drop)]
struct Clearing {
    meta: Metadata,
    which: Which,
    ghost there: { IsThere which } by { IsThere-prop which },
}

impl Pass for Clearing {
    ghost use Rattle.key_commands.specs.Overwriting.{named_size, sector_without};

    ghost size = { λ pass. named_size pass.which };

    ghost sector = { λ pass. sector_without pass.meta pass.which };

    fn size(&self) -> usize {
        named_size(self.which)
    }

    fn sector(&self, bytes: &[u8]) -> Sector {
        let mut sector = [0; 512];
        encode(&without_keys(self.meta, self.which, bytes), &mut sector);
        sector
    }
}

/// The sectors of the six passes, in order.
pub fn pass_sectors(meta: &Metadata, which: Which, random: &[u8]) -> [Sector; 6]
    requires there { IsThere which }
    requires size { length random.now ≡ filler_size which }
    ensures sectors { result ≡ pass_sectors meta.now which random.now }
    ensures whole { IsWhole meta.now }
{
    meta.fits_types();
    let pass = Clearing { meta: *meta, which };
    passes(&pass, random)
}
