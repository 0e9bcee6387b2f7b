//! What the sectors of a disk read as, by the writings that came to stand in them.
//!
//! A writing is a unit of a write that was begun, or bytes that came in any other way. The definitions stand in
//! `specs/`; the functions here are laws: each has an empty body, and its contract holds of every disk.
#![tactic(auto)]

mod laws;

pub use laws::{
    altered_image_reads_from_cells, cells_were_ever_there, faults_are_of_units_that_do_not_match,
    flushed_writing_is_alone, forged_units_are_new_tags_or_collisions, image_reads_as_chosen,
    kept_values_are_cells, matching_is_put_there, matching_units_read_as_put,
    moment_is_after_first_steps, other_steps_fit, puts_are_sealed, raw_steps_log_their_events,
    sectors_read_as_they_stand, settled_unit_reads_as_put, steps_endure_crashes,
    tagged_units_fault_or_are_known_or_forged, torn_image_reads_from_cells,
    units_fault_or_are_known_or_forged, units_read_as_written, write_has_its_own_number,
};
