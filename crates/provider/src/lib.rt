//! An attached GELI provider over any disk: what is written is sealed sector by sector, and what is read is
//! opened (geli(8); g_eli.c).
//!
//! Data may be authenticated or not. No call after `attach` fails for want of memory.
#![tactic(auto)]

mod attaching;
mod faults;
mod laws;
mod provider;

pub use attaching::{OpenedSlot, open_slot};
pub use faults::{AttachFault, OutOfRange, WriteFault};
pub use laws::rest_tells_all;
pub use provider::Provider;
pub use sector_runs::{BadUnit, Judged, ReadFault};
