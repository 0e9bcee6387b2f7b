//! HMAC (RFC 2104) over SHA-256, SHA-384 and SHA-512, and PBKDF2 (RFC 8018) over HMAC-SHA-512.
//!
//! A hasher is made with a key, takes its message in pieces, and ends with the code. No call allocates memory.
#![tactic(auto)]

mod block;
mod kdf;
mod laws;
mod mac;

pub use kdf::pbkdf2_sha512;
pub use laws::{codes_are_bytes, derived_keys_are_bytes, digests_are_bytes};
pub use mac::{BlockHash, Hmac, Hmac256, Hmac384, Hmac512};
