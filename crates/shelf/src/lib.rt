//! The drawers that hold the disks, and what a command does to the one that it names.
#![tactic(auto)]

mod attaching;
mod delete_keys;
mod drawer;
mod drawers;
mod killing;
mod new_provider;
mod queueing;
mod reading;
mod replies;
mod requests;
mod resizing;
mod restoring;
mod resuming;
mod saving;
mod set_key;
mod suspending;
mod trying;
mod verifying;
mod workloads;

pub use drawer::{Drawer, Held};
pub use drawers::{AddFault, Drawers, Shelf};
