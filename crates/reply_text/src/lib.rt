//! Replies and their texts: what the program prints for each command.
#![tactic(auto)]

mod bytes;
mod dump;
mod hexadecimal;
mod line_ends;
mod lines;
mod names;
mod reply;
mod rows;
mod verified;

pub use line_ends::{LineEnd, print};
pub use reply::{Reply, write_reply};
pub use rows::{Row, RowList};
