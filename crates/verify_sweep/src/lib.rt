//! A sweep over the units of a GELI provider with authentication, which lists those that fail (geli(8), "DATA
//! AUTHENTICATION"). It goes in parts: each says where the next one begins.
//!
//! No call takes memory.
#![tactic(auto)]

mod laws;
mod sweeping;

pub use laws::{
    cut_counts_reach_the_end, parts_follow_each_other, parts_list_what_the_whole_lists,
    units_are_listed_once, units_are_those_of_their_sectors,
};
pub use sweeping::{Swept, sweep};
