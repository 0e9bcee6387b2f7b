//! A list of bytes, which contracts see as that list.
ghost use Rattle.std.specs.Prelude.{◌≡◌, List, ℕ};

use std::marker::Model;
use wiping::wipe;

/// Bytes in memory, which are overwritten when they are let go: they may be a passphrase or a key file.
#[derive(Debug)]
pub struct ByteList {
    bytes: Vec<u8>,
}

impl Drop for ByteList {
    fn drop(self) {
        let ByteList { mut bytes } = self;
        wipe(bytes.as_mut_slice());
    }
}

impl Model for ByteList {
    ghost Value = { List ℕ };

    ghost view = { λ list. list.bytes.items };
}

impl ByteList {
    /// Takes the bytes over.
    pub fn from_vec(bytes: Vec<u8>) -> ByteList
        ensures { result ≡ bytes.items }
    {
        ByteList { bytes }
    }

    /// The bytes as they stand.
    pub fn as_slice(&self) -> &[u8]
        ensures { result.now ≡ self.now }
    {
        self.bytes.as_slice()
    }
}
