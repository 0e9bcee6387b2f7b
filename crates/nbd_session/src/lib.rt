//! An attached provider is served to one client of the network block device protocol.
#![tactic(auto)]

mod denials;
mod export;
mod laws;
mod served;
mod session;

pub use denials::{Denial, Denials, DeniedKind};
pub use export::export_of;
pub use laws::{
    acknowledged_writes_last, closed_sessions_last, flushed_ranges_keep, sessions_endure_crashes,
};
pub use served::MOST;
pub use session::{EDGE, ROOM, serve};
