//! How a run ended: its status, and what the program exits with.
#![tactic(auto)]

mod exit;
mod status;

pub use exit::{exit_code, status_of};
pub use status::Status;
