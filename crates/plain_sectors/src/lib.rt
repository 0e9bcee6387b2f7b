//! Logical sectors of a GELI provider without authentication, enciphered in place (geli(8); g_eli_privacy.c).
//!
//! A logical sector is one run of cipher blocks, under the keys of its byte offset on the device.
#![tactic(auto)]

ghost use Rattle.std.specs.Prelude.{◌≡◌, ◌/◌, ◌%◌, length};
ghost use Rattle.eli_base.specs.declared.algorithms.Auth.TheVariants.{Off};
ghost use Rattle.sealing.specs.Sectors.{device_sectors, seal, reading};

use range_keys::KeyRing;
use sealing::{open_run, seal_run};

/// Seals the plain bytes of one logical sector in place, without authentication. `offset` is the sector's place on the
/// device in bytes. What it is sealed to reads as the plain bytes again.
pub fn seal_plain(ring: &mut KeyRing, offset: u64, block: &mut [u8])
    requires off { ring.old.keying.auth ≡ Off }
    requires size { length block.old ≡ ring.old.keying.sectorsize }
    requires place { offset % ring.old.keying.sectorsize ≡ 0 }
    ensures sealed { let k = ring.old.keying in
        seal k (offset / k.sectorsize) block.old ≡ device_sectors k block.new }
    ensures taken_back { let k = ring.old.keying in
        reading k (offset / k.sectorsize) (device_sectors k block.new) ≡ Ok block.old }
    ensures keying { ring.new.keying ≡ ring.old.keying }
{
    let size = ring.layout().size;
    seal_run(ring, offset, &mut block[..size]);
}

/// Opens the bytes of one logical sector in place, without authentication. `offset` is the sector's place on the device
/// in bytes. No bytes are refused.
pub fn open_plain(ring: &mut KeyRing, offset: u64, block: &mut [u8])
    requires off { ring.old.keying.auth ≡ Off }
    requires size { length block.old ≡ ring.old.keying.sectorsize }
    requires place { offset % ring.old.keying.sectorsize ≡ 0 }
    ensures opened { let k = ring.old.keying in
        reading k (offset / k.sectorsize) (device_sectors k block.old) ≡ Ok block.new }
    ensures keying { ring.new.keying ≡ ring.old.keying }
{
    let size = ring.layout().size;
    open_run(ring, offset, &mut block[..size]);
}
