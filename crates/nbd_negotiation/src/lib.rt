//! A client of the network block device protocol is greeted, and asks for an export by its options (the NBD project's
//! doc/proto.md, "Fixed newstyle negotiation"). Nothing here knows what is behind the export.
#![tactic(auto)]

mod answers;
mod negotiation;
mod streams;

pub use negotiation::{Outcome, negotiate};
pub use streams::{End, fill, give_all};
