//! Whether a provider can be used by its metadata.
ghost use Rattle.std.specs.Prelude.{◌≡◌, ◌<◌, ◌^◌, MatchResult, Ok, Err};
ghost use Rattle.eli_metadata.specs.Checks.{supported, settings_of, size_matches, slot_matches, cipher_of, auth_of, is_readonly};

use crate::metadata::{FLAG_AUTH, FLAG_RO};
use crate::{MetaFault, Metadata};
use eli_base::{Auth, Cipher, Params, sector_size_ok};

// The flag `G_ELI_FLAG_ONETIME`, and the flags that g_eli.h doesn't name.
const UNSUPPORTED_FLAGS: u32 = 0xFFFF_FC01;

/// Whether the data of a provider with this metadata can be read and written, and how.
///
/// Faults are reported in this order: `UnsupportedFlags`, with those of the mask 0xFFFFFC01 that are set;
/// `UnsupportedCipher`; `BadKeyLength`; `UnsupportedAuth`, if the flag AUTH is set; `BadSectorSize`; `BadSize`, with
/// `found` 0, if the size is 2^53 bytes or more. Of the flags only AUTH and RO are acted on.
#[tactic(auto, unfolding(crate::specs::Checks::supported))]
pub fn check(meta: &Metadata) -> Result<Params, MetaFault>
    ensures { MatchResult result (λ params. supported meta.now ≡ Ok (settings_of params)) (λ fault. supported meta.now ≡ Err fault) }
{
    let mask = meta.flags & UNSUPPORTED_FLAGS;
    if mask != 0 {
        return Err(MetaFault::UnsupportedFlags { mask });
    }
    let Some(cipher) = cipher(meta.ealgo) else {
        return Err(MetaFault::UnsupportedCipher { found: meta.ealgo });
    };
    if !cipher.allows(meta.keylen) {
        return Err(MetaFault::BadKeyLength { found: meta.keylen });
    }
    let Some(auth) = auth(meta) else {
        return Err(MetaFault::UnsupportedAuth { found: meta.aalgo });
    };
    if !sector_size_ok(meta.sectorsize) {
        return Err(MetaFault::BadSectorSize {
            found: meta.sectorsize,
        });
    }
    if meta.provsize >= 1 << 53 {
        return Err(MetaFault::BadSize {
            kept: meta.provsize,
            found: 0,
        });
    }
    Ok(Params::new(
        meta.version,
        auth,
        cipher,
        meta.keylen,
        meta.sectorsize,
        meta.provsize,
        is_readonly(meta),
    ))
}

fn cipher(ealgo: u16) -> Option<Cipher>
    ensures { result ≡ cipher_of ealgo }
{
    if ealgo == Cipher::AesCbc.number() {
        Some(Cipher::AesCbc)
    } else if ealgo == Cipher::AesXts.number() {
        Some(Cipher::AesXts)
    } else {
        None
    }
}

fn auth(meta: &Metadata) -> Option<Auth>
    ensures { result ≡ auth_of meta.now }
{
    if meta.flags & FLAG_AUTH == 0 {
        return Some(Auth::Off);
    }
    if meta.aalgo == Auth::Sha256.number() {
        Some(Auth::Sha256)
    } else if meta.aalgo == Auth::Sha384.number() {
        Some(Auth::Sha384)
    } else if meta.aalgo == Auth::Sha512.number() {
        Some(Auth::Sha512)
    } else {
        None
    }
}

fn is_readonly(meta: &Metadata) -> bool
    ensures { result ≡ is_readonly meta.now }
{
    meta.flags & FLAG_RO != 0
}

/// Whether the metadata is that of an image of so many device sectors: `BadSize` exactly if its size isn't 512 times
/// their number.
pub fn size_gate(meta: &Metadata, sectors: u64) -> Result<(), MetaFault>
    requires { sectors < 2 ^ 44 }
    ensures { result ≡ size_matches meta.now sectors }
{
    let found = 512 * sectors;
    if meta.provsize != found {
        return Err(MetaFault::BadSize {
            kept: meta.provsize,
            found,
        });
    }
    Ok(())
}

/// Whether some slot holds a key, and so does the named one.
///
/// Faults are reported in this order: `NoValidKeys`, exactly if slots 0 and 1 are clear; `KeyNumberOutOfRange`, exactly
/// if the named slot is above 1; `KeyNotSet`, exactly if it is clear.
pub fn slot_gate(meta: &Metadata, slot: Option<u8>) -> Result<(), MetaFault>
    ensures { result ≡ slot_matches meta.now slot }
{
    if meta.keys & 3 == 0 {
        return Err(MetaFault::NoValidKeys);
    }
    let Some(slot) = slot else {
        return Ok(());
    };
    if slot > 1 {
        return Err(MetaFault::KeyNumberOutOfRange { given: slot });
    }
    if !meta.is_set(slot) {
        return Err(MetaFault::KeyNotSet { slot });
    }
    Ok(())
}
