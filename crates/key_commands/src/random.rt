//! The random bytes of a new provider.
ghost use Rattle.std.specs.Prelude.{◌≡◌, IfOk, OnErr};
ghost use Rattle.block_traits.specs.Streams.{TakesNone};
ghost use Rattle.key_commands.specs.Random.{Draws, filler_in, master_key_in, salt_in};

use crate::types::are_bytes;
use block_traits::{Entropy, EntropyFailed};
use eli_base::MasterKey;

/// The random bytes of a new provider.
#[derive(Clone, Copy, Debug)]
pub struct RandomParts {
    /// The salt of the passphrase.
    pub salt: [u8; 64],
    /// The master key.
    pub master: MasterKey,
    /// What stands in the slot without a key.
    pub filler: [u8; 192],
}

fn salt_in(random: &[u8; 384]) -> [u8; 64]
    ensures { result ≡ salt_in random.now }
{
    let mut salt = [0; 64];
    salt.copy_from_slice(&random[..64]);
    salt
}

fn master_key_in(random: &[u8; 384]) -> MasterKey
    ensures { result.bytes ≡ master_key_in random.now }
{
    let mut bytes = [0; 128];
    bytes.copy_from_slice(&random[64..192]);
    MasterKey { bytes }
}

fn filler_in(random: &[u8; 384]) -> [u8; 192]
    ensures { result ≡ filler_in random.now }
{
    let mut filler = [0; 192];
    filler.copy_from_slice(&random[192..384]);
    filler
}

/// Takes the random bytes of a new provider, all in one call. A failure takes nothing.
pub fn draw<E: Entropy>(entropy: &mut E) -> Result<RandomParts, EntropyFailed>
    ensures ok { IfOk result (λ parts. Draws parts (E.state entropy.old) (E.state entropy.new)) }
    ensures err { OnErr result (TakesNone (E.state entropy.old) (E.state entropy.new)) }
{
    let mut random = [0; 384];
    entropy.fill(&mut random)?;
    are_bytes(random);
    Ok(RandomParts {
        salt: salt_in(&random),
        master: master_key_in(&random),
        filler: filler_in(&random),
    })
}
