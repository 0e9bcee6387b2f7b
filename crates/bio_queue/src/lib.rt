//! Requests in flight on an attached provider: up to 32 are open at once, and the caller says which one takes the next
//! step.
//!
//! A step is one read of a device sector, one write of one, or one flush. A write is sealed when it is submitted, and a
//! read is opened when it is reaped. `step`, `reap` and `clear` take no memory.
#![tactic(auto)]

mod faults;
mod job;
mod laws;
mod queue;
mod request;

pub use faults::{ReapFault, StepFault, SubmitFault};
pub use job::{Job, Reaped};
pub use laws::{requests_are_served, requests_meet_conditions, requests_stay_of_their_provider};
pub use queue::Queue;
