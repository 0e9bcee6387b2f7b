//! Providers that are served, and bytes of clients.
use crate::vectors::{
    ASKING, BY_NAME, BY_NAME_WITHOUT_ZEROES, GOING, LEAVING, ONLY_READING, REPLIES, REQUESTS,
};
use block_traits::{ByteList, Disk, DiskFailed, Sink, Source};
use crash_disk::{MemDisk, MemEntropy};
use eli_base::{Auth, Cipher};
use eli_metadata::{Metadata, check, size_gate, slot_gate};
use key_commands::{InitOptions, init};
use nbd_negotiation::End;
use nbd_session::{EDGE, ROOM, serve};
use provider::Provider;
use std::alloc::Global;
use std::test::Fail;
use user_key::{Components, PassPart, derive};

// The vectors, each behind a function, so that its digits stand in the code of one function alone.
pub(crate) fn going() -> [&'static str; 2] {
    GOING
}

pub(crate) fn by_name() -> [&'static str; 2] {
    BY_NAME
}

pub(crate) fn by_name_without_zeroes() -> [&'static str; 2] {
    BY_NAME_WITHOUT_ZEROES
}

pub(crate) fn asking() -> [&'static str; 2] {
    ASKING
}

pub(crate) fn leaving() -> [&'static str; 2] {
    LEAVING
}

pub(crate) fn only_reading() -> [&'static str; 2] {
    ONLY_READING
}

pub(crate) fn requests() -> [(&'static str, u16, u16, u64, u64, u32); 25] {
    REQUESTS
}

pub(crate) fn replies() -> [(&'static str, u32, u64); 25] {
    REPLIES
}

// The bytes of hexadecimal digits.
pub(crate) fn bytes_of(alloc: Global, digits: &str) -> Result<Vec<u8>, Fail> {
    match hex::decode(alloc, digits) {
        Ok(bytes) => Ok(bytes),
        Err(_) => Err(Fail::from("no hexadecimal digits")),
    }
}

// So many bytes from a place on; zeros beyond the end.
pub(crate) fn piece<const N: usize>(bytes: &[u8], place: usize) -> [u8; N] {
    let mut found = [0; N];
    for (to, from) in found.iter_mut().zip(bytes.iter().skip(place)) {
        *to = *from;
    }
    found
}

// The bytes of a request.
pub(crate) fn request(kind: (u16, u16), cookie: u64, offset: u64, length: u32) -> [u8; 28] {
    let mut bytes = [0; 28];
    bytes[..4].copy_from_slice(&[0x25, 0x60, 0x95, 0x13]);
    bytes[4..6].copy_from_slice(&kind.1.to_be_bytes());
    bytes[6..8].copy_from_slice(&kind.0.to_be_bytes());
    bytes[8..16].copy_from_slice(&cookie.to_be_bytes());
    bytes[16..24].copy_from_slice(&offset.to_be_bytes());
    bytes[24..].copy_from_slice(&length.to_be_bytes());
    bytes
}

// A key file with some bytes, and no passphrase.
fn components(alloc: Global) -> Result<Components, Fail> {
    Ok(Components {
        keyfile_count: 1,
        keyfiles: ByteList::from_vec(Vec::from_slice(alloc, b"a key")?),
        passphrase: PassPart::Without,
    })
}

// Makes a provider of a disk, under AES-XTS with keys of 128 bits.
pub(crate) fn made(
    alloc: Global,
    disk: &mut MemDisk,
    auth: Auth,
    sectorsize: u32,
) -> Result<Metadata, Fail> {
    let options = InitOptions {
        cipher: Cipher::AesXts,
        auth,
        keylen: 128,
        sectorsize,
        iterations: 0,
        autoresize: true,
    };
    let mut entropy = MemEntropy::new(alloc, &[0x5a; 384])?;
    match init(disk, &options, &components(alloc)?, &mut entropy) {
        Ok(meta) => Ok(meta),
        Err(_) => Err(Fail::from("no provider is made")),
    }
}

// The provider that was made of a disk, attached.
pub(crate) fn attached<D: Disk + Drop>(
    alloc: Global,
    disk: D,
    meta: &Metadata,
    readonly: bool,
) -> Result<Provider<D>, Fail> {
    let key = derive(&components(alloc)?, &meta.salt, meta.iterations)?;
    let Ok(params) = check(meta) else {
        return Err(Fail::from("the metadata aren't good"));
    };
    if size_gate(meta, disk.sectors()).is_err() || slot_gate(meta, None).is_err() {
        return Err(Fail::from("the metadata aren't those of the disk"));
    }
    match Provider::attach(alloc, disk, meta, &params, &key, None, readonly) {
        Ok(provider) => Ok(provider),
        Err(_) => Err(Fail::from("the key opens no slot")),
    }
}

// A provider with 262,144 bytes, as the export of nbdkit.
pub(crate) fn provider_of(
    alloc: Global,
    sectorsize: u32,
    readonly: bool,
) -> Result<Provider<MemDisk>, Fail> {
    let mut disk = MemDisk::new(alloc, 513, 2048)?;
    let meta = made(alloc, &mut disk, Auth::Off, sectorsize)?;
    attached(alloc, disk, &meta, readonly)
}

// What a client sent, and what it was answered.
#[derive(Drop)]
pub(crate) struct Talk {
    pub(crate) said: Vec<u8>,
    pub(crate) answered: Vec<u8>,
}

pub(crate) fn talk_of(alloc: Global, session: [&str; 2]) -> Result<Talk, Fail> {
    let [said, answered] = session;
    Ok(Talk {
        said: bytes_of(alloc, said)?,
        answered: bytes_of(alloc, answered)?,
    })
}

// Where clients are served, one after another.
#[derive(Drop)]
pub(crate) struct Place {
    room: Vec<u8>,
    edge: Vec<u8>,
}

// What came of a session.
#[derive(Drop)]
pub(crate) struct Outcome {
    pub(crate) end: End,
    pub(crate) flushed: Result<(), DiskFailed>,
    pub(crate) disk: MemDisk,
}

impl Place {
    pub(crate) fn new(alloc: Global) -> Result<Place, Fail> {
        Ok(Place {
            room: vec![in alloc; 0; ROOM]?,
            edge: vec![in alloc; 0; EDGE]?,
        })
    }

    // Serves a client.
    pub(crate) fn serves<S: Source, K: Sink>(
        &mut self,
        provider: Provider<MemDisk>,
        input: &mut S,
        output: &mut K,
    ) -> Result<Outcome, Fail> {
        let room: &mut [u8] = &mut self.room;
        let edge: &mut [u8] = &mut self.edge;
        if room.len() != ROOM || edge.len() != EDGE {
            return Err(Fail::from("no room"));
        }
        let (end, disk, flushed, _) = serve(provider, room, edge, input, output);
        Ok(Outcome { end, flushed, disk })
    }
}
