//! Calls of a provider that end with a fault.
use crate::common::{are_events, attached, made, read, write};
use crash_disk::{CallKind, FailAt, MemDisk};
use eli_base::{Auth, Cipher};
use eli_metadata::Metadata;
use provider::{Provider, ReadFault, WriteFault};
use std::alloc::Global;
use std::process::Abort;
use std::test::Fail;

// A read of two sectors is past the end of the only one.
fn reads_no_second(rt: &impl Abort, provider: &mut Provider<MemDisk>) -> Result<(), Fail> {
    let mut into = [0; 8192];
    let past_the_end = ReadFault::OutOfRange {
        sector: 0,
        count: 2,
        media: 1,
    };
    assert_eq!(rt; read(provider, 0, &mut into)?, Err(past_the_end));
    Ok(())
}

// A second sector is past the end, and the first is written.
fn has_one_sector(rt: &impl Abort, provider: &mut Provider<MemDisk>) -> Result<(), Fail> {
    assert_eq!(rt; provider.sectors(), 1);
    reads_no_second(rt, provider)?;
    assert!(rt; write(provider, 0, &[7; 4096])?.is_ok());
    Ok(())
}

// The metadata between two flushes, and the sector: eight device sectors.
fn events_of_one_sector() -> [Option<u64>; 11] {
    let mut events = [None; 11];
    events[1] = Some(8);
    for (n, event) in events.iter_mut().skip(3).enumerate() {
        *event = Some(n as u64);
    }
    events
}

// A disk with one logical sector of 4,096 bytes, which is written, and the metadata.
fn disk_of_one(rt: &impl Abort, alloc: Global) -> Result<(MemDisk, Metadata), Fail> {
    let mut disk = MemDisk::new(alloc, 9, 16)?;
    let kind = (Cipher::AesXts, Auth::Off, 4096);
    let meta = made(alloc, &mut disk, kind, 0x5a)?;
    let mut provider = attached(alloc, disk, &meta, false)?;
    let found = has_one_sector(rt, &mut provider);
    let disk = provider.withdraw();
    found?;
    Ok((disk, meta))
}

// Nothing is written, wherever it were.
fn is_read_only(rt: &impl Abort, provider: &mut Provider<MemDisk>) -> Result<(), Fail> {
    assert_eq!(rt; write(provider, 5, &[7; 4096])?, Err(WriteFault::ReadOnly));
    Ok(())
}

// One logical sector, and the metadata. Attached to be read only, the provider writes nothing.
#[test]
fn a_disk_of_one_logical_sector(rt: HostRuntime) -> Result<(), Fail> {
    let (disk, meta) = disk_of_one(&rt, rt.alloc())?;
    assert!(rt; are_events(disk.history(), &events_of_one_sector()));
    let mut provider = attached(rt.alloc(), disk, &meta, true)?;
    is_read_only(&rt, &mut provider)
}

// A provider of logical sectors of 512 bytes, whose second read fails.
fn failing_at_the_second_read(alloc: Global, auth: Auth) -> Result<Provider<MemDisk>, Fail> {
    let mut disk = MemDisk::new(alloc, 64, 64)?;
    let meta = made(alloc, &mut disk, (Cipher::AesXts, auth, 512), 0x5a)?;
    disk.fail_calls(&[FailAt {
        kind: CallKind::Read,
        nth: 2,
        lands: false,
    }])?;
    attached(alloc, disk, &meta, false)
}

// Whether the fault of the second read is returned, and all bytes are zeros then, although the first unit was read.
fn clears(provider: &mut Provider<MemDisk>) -> Result<bool, Fail> {
    if write(provider, 0, &[7; 1024])?.is_err() {
        return Ok(false);
    }
    let mut into = [9; 1024];
    let answer = read(provider, 0, &mut into)?;
    Ok(answer == Err(ReadFault::DeviceFault) && into == [0; 1024])
}

fn is_cleared(alloc: Global, auth: Auth) -> Result<bool, Fail> {
    let mut provider = failing_at_the_second_read(alloc, auth)?;
    clears(&mut provider)
}

#[test]
fn nothing_is_left_of_a_read_that_failed(rt: HostRuntime) -> Result<(), Fail> {
    let alloc = rt.alloc();
    assert!(&rt; is_cleared(alloc, Auth::Off)?);
    assert!(&rt; is_cleared(alloc, Auth::Sha256)?);
    Ok(())
}
