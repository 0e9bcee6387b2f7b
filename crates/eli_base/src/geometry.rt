//! How the logical sectors of a provider stand in its image.
ghost use Rattle.std.specs.Prelude.{◌≡◌, ◌+◌, ◌-◌, ◌*◌, ◌/◌, ◌%◌, ◌^◌, ◌<◌, ◌≤◌, MatchResult, IfOk};
ghost use Rattle.eli_base.specs.Units.{media_sectors, unit_bytes_of, units_per_sector};

use crate::algorithms::Auth;
use crate::parameters::Params;
use thiserror::Error;

/// Why a provider has no geometry.
#[derive(Clone, Copy, Debug, PartialEq, Eq, Error)]
pub enum GeoFault {
    /// An image of `size` bytes has no whole logical sector beside its metadata.
    #[error("an image of {size} bytes has no whole logical sector")]
    TooSmall { size: u64 },
}

/// The device sectors of one logical sector, in ascending order.
#[derive(Clone, Copy, Debug, PartialEq, Eq)]
pub struct UnitSpan {
    /// The number of the first device sector.
    pub first: u64,
    /// How many there are.
    pub count: u64,
}

/// How a logical sector is cut into units, each of which stands in a device sector of its own (geli(8)).
#[derive(Clone, Copy, Debug, PartialEq, Eq)]
pub struct SectorLayout {
    /// The bytes of a logical sector.
    pub size: usize,
    /// The device sectors of one logical sector.
    pub units: usize,
    /// The bytes of plaintext in a unit that is not the last of its logical sector.
    pub unit_bytes: usize,
    pub ghost some_units: { 1 ≤ units },
    pub ghost few_units: { units ≤ 147 },
    pub ghost unit_at_least: { 448 ≤ unit_bytes },
    pub ghost unit_at_most: { unit_bytes ≤ 512 },
}

impl SectorLayout {
    /// The layout of a logical sector of so many bytes.
    pub fn of(auth: Auth, sectorsize: u32) -> SectorLayout
        requires at_least { 512 ≤ sectorsize }
        requires at_most { sectorsize ≤ 65536 }
        ensures size { result.size ≡ sectorsize }
        ensures units { result.units ≡ units_per_sector auth sectorsize }
        ensures unit_bytes { result.unit_bytes ≡ unit_bytes_of auth }
    {
        let size = sectorsize as usize;
        let unit_bytes = auth.data_bytes();
        SectorLayout {
            size,
            units: (size - 1) / unit_bytes + 1,
            unit_bytes,
        }
    }

    /// How many logical sectors an image of so many bytes has room for, beside the metadata.
    pub fn sectors_in(&self, bytes: u64) -> u64
        ensures { result ≡ (bytes - 512) / (512 * self.now.units) }
    {
        bytes.saturating_sub(512) / (512 * self.units as u64)
    }
}

/// How the logical sectors of a provider stand in the device sectors of its image (geli(8)). The last device sector of
/// the image has the metadata, and no unit stands there.
#[derive(Clone, Copy, Debug, PartialEq, Eq)]
pub struct Geometry {
    /// The bytes of a logical sector.
    pub sectorsize: u32,
    /// How many logical sectors the provider has.
    pub sectors: u64,
    /// The device sectors of one logical sector.
    pub units: u64,
    /// The bytes of plaintext in a unit that is not the last of its logical sector.
    pub unit_bytes: u64,
    /// The bytes of plaintext in the last unit.
    pub last_bytes: u64,
    pub ghost bounded: { sectors * units < 2 ^ 44 },
    pub ghost some_sectors: { 1 ≤ sectors },
    pub ghost some_units: { 1 ≤ units },
    pub ghost filled: { (units - 1) * unit_bytes + last_bytes ≡ sectorsize },
    pub ghost last_at_least: { 16 ≤ last_bytes },
    pub ghost last_at_most: { last_bytes ≤ unit_bytes },
    pub ghost unit_at_most: { unit_bytes ≤ 512 },
    pub ghost unit_blocks: { unit_bytes % 16 ≡ 0 },
    pub ghost last_blocks: { last_bytes % 16 ≡ 0 },
}

impl Geometry {
    ghost use Rattle.eli_base.specs.Geometry.{IsGeometryOf};

    /// The geometry of a provider. It is refused exactly if the image has no whole logical sector.
    pub fn of(params: &Params) -> Result<Geometry, GeoFault>
        ensures geometry { MatchResult result
            (λ geometry. IsGeometryOf params.now geometry)
            (λ fault. fault ≡ GeoFault.TooSmall params.now.provsize) }
        ensures fault { let media = media_sectors params.now.auth params.now.sectorsize params.now.provsize in
            MatchResult result (λ _. 1 ≤ media) (λ _. media ≡ 0) }

        // All units and the metadata fit the image.
        ensures room { IfOk result (λ geometry. 512 * (geometry.sectors * geometry.units) + 512 ≤ params.now.provsize) }
    {
        let layout = SectorLayout::of(params.auth, params.sectorsize);
        let (units, unit_bytes) = (layout.units as u64, layout.unit_bytes as u64);
        let sectors = layout.sectors_in(params.provsize);
        if sectors == 0 {
            return Err(GeoFault::TooSmall {
                size: params.provsize,
            });
        }
        Ok(Geometry {
            sectorsize: params.sectorsize,
            sectors,
            units,
            unit_bytes,
            last_bytes: u64::from(params.sectorsize) - (units - 1) * unit_bytes,
        })
    }

    /// The device sectors of the logical sector `sector`.
    pub fn units_of(&self, sector: u64) -> UnitSpan
        requires { sector < self.now.sectors }
        ensures first { result.first ≡ sector * self.now.units }
        ensures count { result.count ≡ self.now.units }
        ensures inside { result.first + result.count ≤ self.now.sectors * self.now.units }
    {
        UnitSpan {
            first: sector * self.units,
            count: self.units,
        }
    }
}
