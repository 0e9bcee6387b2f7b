//! The user key of a GELI provider, which unwraps its master keys (geli(8)).
//!
//! It is made of the bytes of key files and of a passphrase, by HMAC and PBKDF2 with SHA-512.
#![tactic(auto)]

mod components;
mod derivation;
mod passphrase;

pub use components::{Components, KeyFault, PassPart, UserKey};
pub use derivation::{derive, refusal};
pub use passphrase::first_line;
