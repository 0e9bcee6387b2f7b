//! The metadata sector of a GELI provider (g_eli.h, versions 5, 6 and 7): reading, writing and checking it.
#![tactic(auto)]

mod bytes;
mod checks;
mod format;
mod metadata;
mod place;

pub use bytes::put;
pub use checks::{check, size_gate, slot_gate};
pub use format::{decode, encode};
pub use metadata::{FLAG_AUTH, FLAG_AUTORESIZE, FLAG_RO, MetaFault, Metadata, VERSION};
pub use place::{ReadMetaFault, read_metadata, replace_metadata};
