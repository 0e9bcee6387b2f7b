//! The components of a user key, loaded from the files that a key's options name (geli(8), the options
//! `-J`, `-j`, `-K` and `-k`).
//!
//! A *key file* counts whole. Of a *passphrase file* only the first line counts.
#![tactic(auto)]

mod files;
mod key;
mod parts;

pub use files::{FILE_LIMIT, load_file};
pub use key::load_components;
