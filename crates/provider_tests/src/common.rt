//! Providers that are made of disks, and attached.
use block_traits::{ByteList, Disk, Event};
use crash_disk::MemEntropy;
use eli_base::{Auth, Cipher};
use eli_metadata::{Metadata, check, size_gate, slot_gate};
use key_commands::{InitOptions, init};
use provider::{Provider, ReadFault, WriteFault};
use std::alloc::{AllocError, Global};
use std::test::Fail;
use user_key::{Components, PassPart, UserKey, derive};

// A key file with the bytes 0x00 to 0x3f and the passphrase `abc`.
fn components(alloc: Global) -> Result<Components, AllocError> {
    let mut keyfile = [0; 64];
    for (i, byte) in keyfile.iter_mut().enumerate() {
        *byte = (i % 64) as u8;
    }
    Ok(Components {
        keyfile_count: 1,
        keyfiles: ByteList::from_vec(Vec::from_slice(alloc, &keyfile)?),
        passphrase: PassPart::Given(ByteList::from_vec(Vec::from_slice(alloc, b"abc")?)),
    })
}

// Makes a provider of a disk, with keys of 128 bits. Each random byte is this one.
pub(crate) fn made<D: Disk>(
    alloc: Global,
    disk: &mut D,
    kind: (Cipher, Auth, u32),
    random: u8,
) -> Result<Metadata, Fail> {
    let options = InitOptions {
        cipher: kind.0,
        auth: kind.1,
        keylen: 128,
        sectorsize: kind.2,
        iterations: 1000,
        autoresize: true,
    };
    let mut entropy = MemEntropy::new(alloc, &[random; 384])?;
    match init(disk, &options, &components(alloc)?, &mut entropy) {
        Ok(meta) => Ok(meta),
        Err(_) => Err(Fail::from("no provider is made")),
    }
}

// The key under these metadata.
pub(crate) fn key_under(alloc: Global, meta: &Metadata) -> Result<UserKey, Fail> {
    Ok(derive(&components(alloc)?, &meta.salt, meta.iterations)?)
}

// The provider that was made of a disk, attached.
pub(crate) fn attached<D: Disk>(
    alloc: Global,
    disk: D,
    meta: &Metadata,
    readonly: bool,
) -> Result<Provider<D>, Fail> {
    let key = key_under(alloc, meta)?;
    let Ok(params) = check(meta) else {
        return Err(Fail::from("the metadata aren't good"));
    };
    if size_gate(meta, disk.sectors()).is_err() || slot_gate(meta, None).is_err() {
        return Err(Fail::from("the metadata aren't those of the disk"));
    }
    match Provider::attach(alloc, disk, meta, &params, &key, None, readonly) {
        Ok(provider) => Ok(provider),
        Err(_) => Err(Fail::from("the key opens no slot")),
    }
}

// Writes whole logical sectors.
pub(crate) fn write<D: Disk>(
    provider: &mut Provider<D>,
    sector: u64,
    from: &[u8],
) -> Result<Result<(), WriteFault>, Fail> {
    let size = provider.sector_size() as usize;
    if from.is_empty() || from.len() % size != 0 {
        return Err(Fail::from("no whole sectors"));
    }
    Ok(provider.write(sector, from))
}

// Reads whole logical sectors.
pub(crate) fn read<D: Disk>(
    provider: &mut Provider<D>,
    sector: u64,
    into: &mut [u8],
) -> Result<Result<(), ReadFault>, Fail> {
    let size = provider.sector_size() as usize;
    if into.is_empty() || into.len() % size != 0 {
        return Err(Fail::from("no whole sectors"));
    }
    Ok(provider.read(sector, into))
}

// Whether these were the events: a number stands for the write of that sector, and none for a flush.
pub(crate) fn are_events(history: &[Event], expected: &[Option<u64>]) -> bool {
    history.len() == expected.len()
        && history.iter().zip(expected).all(|(event, number)| match event {
            Event::Write { n, .. } => *number == Some(*n),
            Event::Flush => number.is_none(),
        })
}
