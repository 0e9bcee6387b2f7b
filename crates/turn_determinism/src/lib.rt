//! Two turns of one line from one world are the same, if nothing outside fails.
//!
//! The definitions stand in `specs/`. Each function here is a law: it has an empty body, and its contract holds of any
//! worlds.
#![tactic(auto)]

mod laws;

pub use laws::{a_line_does_one_thing, same_worlds_stay_the_same};
