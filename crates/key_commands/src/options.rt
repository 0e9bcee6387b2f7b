//! What a new provider is to be, and what is refused before anything is done.
ghost use Rattle.std.specs.Prelude.{◌≡◌, ◌<◌, ◌^◌, ◌*◌, ◌==◌, ℕ, List, IsTrue, OnOk, IfErr};
ghost use Rattle.std.specs.Bool.{OnFalse};
ghost use Rattle.eli_base.specs.Algorithms.{allows_length};
ghost use Rattle.eli_base.specs.SectorSize.{is_sector_size};
ghost use Rattle.eli_base.specs.Units.{media_sectors};
ghost use Rattle.key_slots.specs.Slots.{IsKeyBits};
ghost use Rattle.user_key.specs.Derivation.{user_key};
ghost use Rattle.key_commands.specs.Options.{early_refusal, key_refusal};

use eli_base::{Auth, Cipher, Geometry, Params, Refusal, sector_size_ok};
use eli_metadata::VERSION;
use user_key::{Components, refusal};

/// What a new provider is to be, by the options of `geli init` (geli(8)).
#[derive(Clone, Copy, Debug, PartialEq, Eq)]
pub struct InitOptions {
    /// The cipher of the data, `-e`.
    pub cipher: Cipher,
    /// The authentication of the data, `-a`.
    pub auth: Auth,
    /// The length of the data key in bits, `-l`.
    pub keylen: u16,
    /// The bytes of a logical sector, `-s`.
    pub sectorsize: u32,
    /// The iterations of PBKDF2, `-i`: -1 if no passphrase is set up, 0 if PBKDF2 isn't used.
    pub iterations: i32,
    /// Whether the provider is to grow with its image; `-R` says that it isn't.
    pub autoresize: bool,
}

// Whether an image of so many device sectors has no whole logical sector beside its metadata.
fn has_no_media(options: &InitOptions, sectors: u64) -> bool
    requires allowed { IsTrue (allows_length options.now.cipher options.now.keylen) }
    requires sized { IsTrue (is_sector_size options.now.sectorsize) }
    requires small { sectors < 2 ^ 44 }
    ensures answer { result ≡ (media_sectors options.now.auth options.now.sectorsize (512 * sectors) == 0) }
    ensures some { OnFalse result (0 < sectors) }
{
    let params = Params::new(
        VERSION,
        options.auth,
        options.cipher,
        options.keylen,
        options.sectorsize,
        512 * sectors,
        false,
    );
    Geometry::of(&params).is_err()
}

/// Refuses options, components of the key, or an image of so many device sectors, before anything is done.
pub fn check(options: &InitOptions, parts: &Components, sectors: u64) -> Result<(), Refusal>
    requires { sectors < 2 ^ 44 }
    ensures ok { OnOk result (early_refusal options.now parts.now sectors ≡ None) }
    ensures err { IfErr result (λ refusal. early_refusal options.now parts.now sectors ≡ Some refusal) }
    ensures room { OnOk result (0 < sectors) }
    ensures keylen { OnOk result (IsKeyBits options.now.keylen) }
    ensures key { OnOk result ((salt : List ℕ) → key_refusal (user_key parts.now salt options.now.iterations) ≡ None) }
{
    if !options.cipher.allows(options.keylen) {
        return Err(Refusal::BadKeyLength {
            found: options.keylen,
        });
    }
    if !sector_size_ok(options.sectorsize) {
        return Err(Refusal::BadSectorSize {
            found: options.sectorsize,
        });
    }
    if has_no_media(options, sectors) {
        return Err(Refusal::TooSmall {
            size: 512 * sectors,
        });
    }
    match refusal(parts, options.iterations) {
        Some(fault) => Err(Refusal::from(fault)),
        None => Ok(()),
    }
}
