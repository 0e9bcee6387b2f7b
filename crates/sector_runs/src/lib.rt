//! Runs of logical sectors, sealed to and opened from the device sectors of any disk (geli(8); g_eli.c): in memory, and
//! one unit after the other.
//!
//! Data may be authenticated or not. No call needs memory.
#![tactic(auto)]

mod faults;
mod four_sectors;
mod judged;
mod judging;
mod runs;
mod sector_groups;
mod sectors;
mod tagged_units;
mod units;

pub use faults::{BadUnit, ReadFault};
pub use judged::Judged;
pub use judging::judge;
pub use runs::{read_run, write_run};
pub use sector_groups::{open_sectors, seal_sectors};
