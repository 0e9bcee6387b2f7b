//! One image is opened by the words of the command line, and its provider attached and served to one client.
#![tactic(auto)]

mod attaching;
mod ending;
mod opening;
mod run;
mod serving;
mod status;
mod words;

pub use run::{Ran, serve_words, status_of};
pub use status::{Status, exit_code};
pub use words::VERSION;
