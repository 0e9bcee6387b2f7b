//! Images as sectors.
ghost use Rattle.std.specs.Prelude.{◌≡◌, IfOk, replicate};
ghost use Rattle.crash_disk.specs.Image.{sectors_of, zero_sector};

use block_traits::Sector;
use std::alloc::{AllocError, Global};

/// So many sectors of zeros.
#[tactic(auto, unfolding(crate::specs::Image::zero_sector))]
pub fn zero_sectors(alloc: Global, count: u64) -> Result<Vec<Sector>, AllocError>
    ensures { IfOk result (λ sectors. sectors.items ≡ replicate count zero_sector) }
{
    let mut sectors = Vec::new(alloc);
    sectors.resize(count as usize, [0u8; 512])?;
    Ok(sectors)
}

/// The whole 512-byte pieces of an image.
pub fn image_sectors(alloc: Global, image: &[u8]) -> Result<Vec<Sector>, AllocError>
    ensures { IfOk result (λ sectors. sectors.items ≡ sectors_of image.now) }
{
    let count = image.len() / 512;
    let mut sectors = Vec::with_capacity(alloc, count)?;
    for n in 0..count {
        let mut sector = [0u8; 512];
        sector.copy_from_slice(&image[512 * n..512 * n + 512]);
        sectors.push_reserved(sector);
    }
    Ok(sectors)
}
