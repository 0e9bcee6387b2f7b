//! Backing up and restoring the metadata of a GELI provider (geli(8)).
//!
//! No call allocates memory.
#![tactic(auto)]

mod laws;
mod restoring;
mod saving;

pub use laws::{restore_leaves_old_or_new, what_restore_writes_is_of_use};
pub use restoring::restore;
pub use saving::backup;
