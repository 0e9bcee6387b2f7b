//! Sealing and opening: how the plain bytes of a logical sector of a GELI provider become device sectors, and
//! what device sectors read as (geli(8)).
//!
//! The definitions stand in `specs/Sectors.antt`, for providers with each authentication and without. The two calls
//! encipher and decipher one run of cipher blocks at a byte offset, in place. The laws have empty bodies: their
//! contracts hold of every keying.
#![tactic(auto)]

ghost use Rattle.std.specs.Prelude.{◌≡◌, ◌%◌, length};
ghost use Rattle.sealing.specs.Runs.{sealed_run, opened_run};

mod laws;

use cbc_mode::{cbc_open_sliced, cbc_seal};
use eli_base::Cipher;
pub use laws::{
    device_sector_by_its_number, each_unit_is_read, opening_undoes_sealing,
    sealed_sectors_are_whole, tagged_units_stand_alone,
};
use range_keys::KeyRing;
use xts_mode::{xts_open_sliced, xts_seal_sliced};

/// Enciphers a run of whole cipher blocks in place, under the keys of the byte offset at which it stands.
/// `open_run` takes it back.
pub fn seal_run(ring: &mut KeyRing, offset: u64, block: &mut [u8])
    requires { length block.old % 16 ≡ 0 }
    ensures sealed { block.new ≡ sealed_run ring.old.keying offset block.old }
    ensures taken_back { opened_run ring.old.keying offset block.new ≡ block.old }
    ensures keying { ring.new.keying ≡ ring.old.keying }
{
    match ring.cipher() {
        Cipher::AesXts => {
            let keys = ring.key_at(offset);
            xts_seal_sliced(&keys.first, &keys.second, offset, block);
        }
        Cipher::AesCbc => {
            let vector = ring.iv_at(offset);
            let keys = ring.key_at(offset);
            cbc_seal(keys.first.schedule(), &vector, block);
        }
    }
}

/// Deciphers a run of whole cipher blocks in place, under the keys of the byte offset at which it stands.
pub fn open_run(ring: &mut KeyRing, offset: u64, block: &mut [u8])
    requires { length block.old % 16 ≡ 0 }
    ensures opened { block.new ≡ opened_run ring.old.keying offset block.old }
    ensures keying { ring.new.keying ≡ ring.old.keying }
{
    match ring.cipher() {
        Cipher::AesXts => {
            let keys = ring.key_at(offset);
            xts_open_sliced(&keys.first, &keys.second, offset, block);
        }
        Cipher::AesCbc => {
            let vector = ring.iv_at(offset);
            let keys = ring.key_at(offset);
            cbc_open_sliced(&keys.first, &vector, block);
        }
    }
}
