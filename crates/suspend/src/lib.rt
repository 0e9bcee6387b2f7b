//! A GELI provider that is suspended: its disk is kept and no request reaches it, until a key opens the same master key
//! again (geli(8), "suspend" and "resume").
//!
//! Of the master key only its SHA-256 is kept. No call but `resume` takes memory.
#![tactic(auto)]

mod faults;
mod laws;
mod suspended;

pub use faults::ResumeFault;
pub use laws::{rest_tells_all, resumed_master_is_the_same_or_collides};
pub use suspended::Suspended;
