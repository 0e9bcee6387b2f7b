//! Parameters, geometry and refusals of a GELI provider, after FreeBSD's geli(8) and g_eli.h.
//!
//! A *device sector* is 512 bytes of the image. A *logical sector* has the sector size of the
//! metadata. A *unit* is the part of one logical sector that stands in one device sector.
#![tactic(auto)]

mod algorithms;
mod geometry;
mod laws;
mod parameters;
mod refusals;

pub use algorithms::{Auth, Cipher};
pub use geometry::{GeoFault, Geometry, SectorLayout, UnitSpan};
pub use laws::units_without_authentication;
pub use parameters::{MasterKey, Params, REQUEST_LIMIT, sector_size_ok};
pub use refusals::{Reason, Refusal};
