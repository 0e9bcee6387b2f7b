//! The commands that destroy a place of metadata by writing over it (geli(8)).
//!
//! `kill` destroys the metadata of a provider, and `resize` moves those of a provider whose image has
//! grown and destroys the old ones. No call allocates memory.
#![tactic(auto)]

mod killing;
mod laws;
mod resizing;
mod trash;

pub use killing::kill;
pub use laws::{
    kill_leaves_no_metadata, resize_leaves_one_of_both, what_resize_writes_is_read_again,
};
pub use resizing::resize;
