//! Reads and writes of any range of bytes of an attached provider, as reads and writes of its logical sectors.
#![tactic(auto)]

mod cover;
mod ranges;
mod splices;
mod zeros;

pub use cover::{Cover, cover_of};
pub use ranges::{ByteRange, has_range, read_range, size_of_data};
pub use splices::{Written, write_range};
pub use zeros::zero_range;
