//! The two slots of a GELI provider's metadata, each with the master key wrapped by a user key (g_eli.h).
//!
//! A slot has 192 bytes: the master key and a code that proves it, enciphered by AES-CBC. No call allocates memory.
#![tactic(auto)]

mod opening;
mod placing;
mod wrapping;

pub use opening::{opened, unwrap, unwrap_any};
pub use placing::{clear_slot, put_slot};
pub use wrapping::wrap;
