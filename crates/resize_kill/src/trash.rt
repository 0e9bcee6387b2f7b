//! What a place of metadata is written over with.

ghost use Rattle.std.specs.Prelude.{◌≡◌, ◌<◌, IfOk, OnOk, OnErr};
ghost use Rattle.block_traits.specs.Disk.{FailsIn, Logs};
ghost use Rattle.block_traits.specs.Overwriting.{overwrite_events};
ghost use Rattle.block_traits.specs.Streams.{TakesNone};
ghost use Rattle.resize_kill.specs.Trash.{TakesTrash, trash_sectors, without_magic};

use block_traits::{Disk, DiskFailed, Entropy, EntropyFailed, Pass, Sector, overwrite, passes};

/// Takes the random bytes of the five random passes, all in one call. A failure takes nothing.
pub fn draw<E: Entropy>(entropy: &mut E) -> Result<[u8; 2480], EntropyFailed>
    ensures ok { IfOk result (λ random. TakesTrash random (E.state entropy.old) (E.state entropy.new)) }
    ensures err { OnErr result (TakesNone (E.state entropy.old) (E.state entropy.new)) }
{
    let mut random = [0; 2480];
    entropy.fill(&mut random)?;
    Ok(random)
}

// A pass makes a sector from its bytes: zeros in place of the magic, and the bytes after them.
#[derive(Clone, Copy)]
struct WithoutMagic;

impl Pass for WithoutMagic {
    ghost size = { λ _. 496 };

    ghost sector = { λ _. without_magic };

    fn size(&self) -> usize {
        496
    }

    #[tactic(auto, unfolding(block_traits::specs::Overwriting::zeros))]
    fn sector(&self, bytes: &[u8]) -> Sector {
        let mut sector = [0; 512];
        sector[16..].copy_from_slice(bytes);
        sector
    }
}

// The sectors of the six passes, in order.
fn trash_sectors(random: &[u8; 2480]) -> [Sector; 6]
    ensures { result ≡ trash_sectors random.now }
{
    passes(&WithoutMagic, random)
}

/// Writes over sector `n` in six passes, each a write and a flush: five with these random bytes, and one with zeros.
/// The first sixteen bytes of each are zeros. If the disk fails, the first of these events were done, and no others.
/// Nothing is read.
pub fn destroy<D: Disk>(disk: &mut D, n: u64, random: &[u8; 2480]) -> Result<(), DiskFailed>
    requires { n < (D.state disk.old).size }
    ensures ok { OnOk result (Logs (overwrite_events n (trash_sectors random.now)) (D.state disk.old) (D.state disk.new)) }
    ensures err { OnErr result (FailsIn (overwrite_events n (trash_sectors random.now)) (D.state disk.old) (D.state disk.new)) }
    ensures unasked { (D.state disk.new).reads ≡ (D.state disk.old).reads }
{
    overwrite(disk, n, &trash_sectors(random))
}
