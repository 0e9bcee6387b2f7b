//! The run of the words of the command line over the images that they name.
#![tactic(auto)]

mod laws;
mod run;

pub use laws::drawers_survive_in_their_files;
pub use run::run_files;
