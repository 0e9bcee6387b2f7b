//! A new provider.
ghost use Rattle.std.specs.Prelude.{◌≡◌, ◌<◌, ◌^◌, ◌+◌, ◌++◌};
ghost use Rattle.eli_metadata.specs.Format.{IsWhole};
ghost use Rattle.key_commands.specs.NewProvider.{Inits};
ghost use Rattle.key_commands.specs.NewMetadata.{auth_flag, autoresize_flag, metadata_of};
ghost use Rattle.key_slots.specs.Slots.{IsKeyBits, wrapped};

use crate::options::{InitOptions, check};
use crate::random::{RandomParts, draw};
use block_traits::{Disk, Entropy};
use eli_base::{Auth, Refusal};
use eli_metadata::{FLAG_AUTH, FLAG_AUTORESIZE, Metadata, VERSION, put, replace_metadata};
use key_slots::wrap;
use user_key::{Components, UserKey, derive};

fn flags(options: &InitOptions) -> u32
    ensures { result ≡ auth_flag options.now.auth + autoresize_flag options.now.autoresize }
{
    let auth = match options.auth {
        Auth::Off => 0,
        Auth::Sha256 | Auth::Sha384 | Auth::Sha512 => FLAG_AUTH,
    };
    let autoresize = if options.autoresize {
        FLAG_AUTORESIZE
    } else {
        0
    };
    auth + autoresize
}

// The bytes of both slots.
fn both_slots(slot0: &[u8; 192], slot1: &[u8; 192]) -> [u8; 384]
    ensures { result ≡ slot0.now ++ slot1.now }
{
    let mut mkeys = [0; 384];
    put(&mut mkeys, 0, slot0);
    put(&mut mkeys, 192, slot1);
    mkeys
}

fn metadata_of(options: &InitOptions, sectors: u64, random: &RandomParts, key: &UserKey) -> Metadata
    requires keylen { IsKeyBits options.now.keylen }
    requires small { sectors < 2 ^ 44 }
    ensures fields { result ≡ metadata_of options.now sectors random.now.salt (wrapped random.now.master.bytes key.now.bytes options.now.keylen) random.now.filler }
    ensures whole { IsWhole result }
{
    let meta = Metadata {
        version: VERSION,
        flags: flags(options),
        ealgo: options.cipher.number(),
        keylen: options.keylen,
        aalgo: options.auth.number(),
        provsize: 512 * sectors,
        sectorsize: options.sectorsize,
        keys: 1,
        iterations: options.iterations,
        salt: random.salt,
        mkeys: both_slots(&wrap(&random.master, key, options.keylen), &random.filler),
    };
    meta.fits_types();
    meta
}

/// Makes a new provider of a disk: its last sector gets new metadata, with a new master key that the user
/// key of these components opens in slot 0. Returns the metadata.
///
/// The metadata can be used (`what_init_makes_is_of_use`): reading their sector gives them back, they pass `check`,
/// `size_gate` and `slot_gate` for this disk, and the disk has room for a whole logical sector beside them. The key
/// that `derive` makes with their salt and iterations opens them to the master key among the random bytes.
///
/// At each moment the last sector holds what it might hold before or the new metadata (`init_leaves_old_or_new`).
///
/// Refusals are returned in this order: `BadKeyLength`, `BadSectorSize`, `TooSmall` (in bytes: fewer than two device
/// sectors, or no whole logical sector), and the refusal of the key's components, and then nothing was done;
/// `EntropyFault`, only if the entropy failed, and then the disk is as it was; `DeviceFault`, only if the disk failed.
/// The random bytes are taken in one call, before the first event of the disk.
pub fn init<D: Disk, E: Entropy>(
    disk: &mut D,
    options: &InitOptions,
    parts: &Components,
    entropy: &mut E,
) -> Result<Metadata, Refusal>
    ensures { Inits options.now parts.now (D.state disk.old) (E.state entropy.old)
        result (D.state disk.new) (E.state entropy.new) }
{
    let sectors = disk.sectors();
    check(options, parts, sectors)?;
    let Ok(random) = draw(entropy) else {
        return Err(Refusal::EntropyFault);
    };
    let Ok(key) = derive(parts, &random.salt, options.iterations) else {
        unreachable!();
    };
    let meta = metadata_of(options, sectors, &random, &key);
    match replace_metadata(disk, &meta) {
        Ok(()) => Ok(meta),
        Err(_) => Err(Refusal::DeviceFault),
    }
}
