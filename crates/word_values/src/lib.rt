//! The values of words: numbers within their bounds, sizes, hexadecimal digits, and the names of geli(8) for ciphers
//! and authentication.
#![tactic(auto)]

mod values;

pub use values::{auth, cipher, is_hexadecimal, number, old_size};
