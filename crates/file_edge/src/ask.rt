//! What an opener was asked, for openers that keep it.
use std::fs::OpenOptions;

/// One request, as an opener may keep it.
#[derive(Drop)]
pub enum Ask {
    /// What the name leads to.
    Find(String),
    /// What has the name.
    Look(String),
    /// The file of the name, opened so.
    Open(OpenOptions, String),
    /// A new file of these permissions and this name.
    Make(u32, String),
    /// A new file of these permissions and this name, which something has already.
    Meet(u32, String),
    /// Bytes written at the end of the new file.
    Write(Vec<u8>),
    /// The new file on the disk.
    Sync,
    /// Another name for a file.
    Rename(String, String),
    /// The folder of the name on the disk.
    SyncFolder(String),
    /// A name that is removed.
    Remove(String),
}

/// A request, and whether it was done.
#[derive(Drop)]
pub struct KeptAsk {
    /// The request.
    pub ask: Ask,
    /// Whether it was done.
    pub done: bool,
}
