//! SHA-256 (FIPS 180-4) of one message that comes in pieces, with the message schedule four words at a time, in
//! vectors.
//!
//! The hasher is used like the kit's, through `Digest` of `sha2`. No call allocates memory.
#![tactic(auto)]

mod blocks;
pub mod constants;
mod functions;
mod hasher;
mod rounds;
pub mod words;

pub use blocks::{digest, word_at};
pub use hasher::Sha256;
