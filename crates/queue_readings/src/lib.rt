//! What the calls of a queue do to the cells of its disk, and what they read from them.
//!
//! A play has the steps that were done to the disk, the open requests by writings, and the number of the next write.
//! The functions here are laws: each has an empty body, and its contract holds of every disk.
#![tactic(auto)]

mod laws;

pub use laws::{
    a_job_alone_is_the_call_of_the_provider, calls_are_moves, events_may_stand_between,
    flushes_cover_what_was_done, numbers_may_be_skipped, plays_begin_empty, steps_of_plays_fit,
    writes_may_stand_between,
};
