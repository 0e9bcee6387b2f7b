//! The run of the program: it does what the words ask for, prints the replies, and ends with a status.
#![tactic(auto)]

mod bounds;
mod ending;
mod feeding;
mod images;
mod laws;
mod line;
mod outside;
mod requests;
mod serving;
mod site;
mod survivors;
mod top_call;

pub use bounds::{
    a_closing_refusal_has_its_drawer, device_faults_are_counted,
    device_faults_are_counted_until_eject, outside_failures_are_counted,
};
pub use images::{NotShelved, run_images, run_over};
pub use laws::{
    a_line_keeps_the_laws, a_run_breaks_off_for_a_cause, a_run_ends_by_its_words,
    a_run_keeps_its_drawers, a_run_logs_the_events_of_its_lines,
    a_run_without_failures_goes_to_its_end,
};
pub use line::serve_line;
pub use outside::Outside;
pub use reply_text::LineEnd;
pub use requests::{
    flushes_cover_reaped_writes, missing_requests_are_refused, requests_alone_are_lines,
    requests_are_of_their_providers,
};
pub use run_status::Status;
pub use shelf::{AddFault, Drawers, Shelf};
pub use survivors::{
    crashed_runs_attach_and_read, lines_keep_keyings, lines_survive_crashes, runs_survive_crashes,
};
pub use top_call::{geli_main, run};
