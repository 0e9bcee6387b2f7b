//! A suspended provider, under whose disk another provider was made.
use crate::common::{attached, key_under, made};
use block_traits::{MetaPlace, Sector};
use crash_disk::MemDisk;
use eli_base::{Auth, Cipher};
use eli_metadata::{Metadata, check, encode, size_gate, slot_gate};
use provider::Provider;
use std::alloc::Global;
use std::process::Abort;
use std::test::Fail;
use suspend::{ResumeFault, Suspended};

// Resumes by metadata, with the key under them.
fn resumed(
    alloc: Global,
    on: Suspended<MemDisk>,
    meta: &Metadata,
) -> Result<Result<Provider<MemDisk>, (Suspended<MemDisk>, ResumeFault)>, Fail> {
    let key = key_under(alloc, meta)?;
    let Ok(params) = check(meta) else {
        return Err(Fail::from("the metadata aren't good"));
    };
    if size_gate(meta, MetaPlace::sectors(&on)).is_err() || slot_gate(meta, None).is_err() {
        return Err(Fail::from("the metadata aren't those of the disk"));
    }
    Ok(on.resume(alloc, meta, &params, &key, None))
}

// The SHA-256 of a master key of 128 bytes 0x5a, by Python's hashlib.
const MARK: [u8; 32] = [
    0x34, 0x9d, 0x65, 0xe9, 0xba, 0x1d, 0xe7, 0xb0, 0xa1, 0x3f, 0x9a, 0x3e, 0xad, 0xcc, 0x5b, 0x02,
    0x02, 0xf1, 0x5d, 0x60, 0x08, 0xfe, 0x94, 0x77, 0xf2, 0xa7, 0xb8, 0x0f, 0x61, 0x94, 0xb2, 0x0f,
];

const KIND: (Cipher, Auth, u32) = (Cipher::AesXts, Auth::Off, 4096);

// The metadata of another provider on such a disk.
fn other(alloc: Global) -> Result<Metadata, Fail> {
    let mut disk = MemDisk::new(alloc, 2048, 8)?;
    made(alloc, &mut disk, KIND, 0xc3)
}

fn has_mark(on: &Suspended<MemDisk>) -> bool {
    on.mark() == MARK
}

// A suspended provider, and its metadata.
fn suspended(rt: &impl Abort, alloc: Global) -> Result<(Suspended<MemDisk>, Metadata), Fail> {
    let mut disk = MemDisk::new(alloc, 2048, 16)?;
    let own = made(alloc, &mut disk, KIND, 0x5a)?;
    let provider = attached(alloc, disk, &own, false)?;
    let (on, flushed) = Suspended::suspend(provider);
    assert!(rt; flushed.is_ok());
    assert!(rt; has_mark(&on));
    Ok((on, own))
}

// Puts other metadata below a suspended provider.
fn store(rt: &impl Abort, on: &mut Suspended<MemDisk>, meta: &Metadata) -> Result<(), Fail> {
    let mut sector: Sector = [0; 512];
    encode(meta, &mut sector);
    if MetaPlace::sectors(on) < 1 {
        return Err(Fail::from("no sector"));
    }
    assert!(rt; on.store(&sector).is_ok());
    Ok(())
}

// Resumes by metadata of another master key, and returns what stays suspended.
fn refused(
    rt: &impl Abort,
    alloc: Global,
    on: Suspended<MemDisk>,
    meta: &Metadata,
) -> Result<Suspended<MemDisk>, Fail> {
    let Err((on, fault)) = resumed(alloc, on, meta)? else {
        return Err(Fail::from("another master key is taken"));
    };
    assert!(rt; matches!(fault, ResumeFault::DifferentKey { kept, opened } if kept != opened));
    Ok(on)
}

// The same provider, after metadata of another master key were stored and refused.
fn still_suspended(
    rt: &impl Abort,
    alloc: Global,
    on: Suspended<MemDisk>,
) -> Result<Suspended<MemDisk>, Fail> {
    let mut on = on;
    let other = other(alloc)?;
    store(rt, &mut on, &other)?;
    refused(rt, alloc, on, &other)
}

// How many sectors the provider has that is resumed.
fn sectors_of_resumed(alloc: Global, on: Suspended<MemDisk>, meta: &Metadata) -> Result<u64, Fail> {
    match resumed(alloc, on, meta)? {
        Ok(provider) => Ok(provider.sectors()),
        Err(_) => Err(Fail::from("its own key isn't taken")),
    }
}

// The key opens the other provider, but to another master key. With its own metadata it is resumed.
#[test]
fn a_key_of_another_master_key(rt: HostRuntime) -> Result<(), Fail> {
    let (on, own) = suspended(&rt, rt.alloc())?;
    let on = still_suspended(&rt, rt.alloc(), on)?;
    assert_eq!(rt; sectors_of_resumed(rt.alloc(), on, &own)?, 255);
    Ok(())
}
