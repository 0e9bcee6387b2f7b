//! What a command does to the drawers, as rows of steps, and what holds of it whatever its row.
//!
//! The definitions stand in `specs/`; the functions here are laws: each has an empty body, and its contract holds of
//! any two worlds.
#![tactic(auto)]

mod laws;

pub use laws::{
    a_line_changes_only_its_drawer, a_line_counts_failures, a_line_leaves_old_or_new,
    a_line_says_what_its_drawer_becomes, a_line_stores_its_file_alone, a_refusal_has_its_cause,
    a_sweep_lists_each_failing_unit_once, no_cause_is_left_where_all_is_found,
    what_init_makes_can_be_attached,
};
