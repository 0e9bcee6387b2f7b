//! With ample memory no call of a disk in memory lacks it.
use block_traits::Disk;
use crash_disk::{CallKind, FailAt, MemDisk, Pick, Torn, survivor_torn, survivor_whole};
use std::alloc::Global;
use std::process::Abort;
use std::test::Fail;

// The value that all bytes of a sector have.
fn byte_of(disk: &mut MemDisk, n: u64) -> Option<u8> {
    let mut bytes = [0; 512];
    if n >= disk.sectors() || disk.read(n, &mut bytes).is_err() || bytes != [bytes[0]; 512] {
        return None;
    }
    Some(bytes[0])
}

// Writes two of three sectors: the second write fails after it was done.
fn write_two(rt: &impl Abort, disk: &mut MemDisk) -> Result<(), Fail> {
    disk.fail_calls(&[FailAt {
        kind: CallKind::Write,
        nth: 2,
        lands: true,
    }])?;
    if disk.sectors() != 3 {
        return Err(Fail::from("not three sectors"));
    }
    assert!(rt; disk.write(0, &[8; 512]).is_ok() && disk.flush().is_ok());
    assert!(rt; disk.write(1, &[9; 512]).is_err());
    assert_eq!(rt; disk.history().len(), 3);
    Ok(())
}

fn three_bytes(disk: &mut MemDisk) -> [Option<u8>; 3] {
    [byte_of(disk, 0), byte_of(disk, 1), byte_of(disk, 2)]
}

// What a crash leaves after all events, but for sector 1, which has what it had at first.
fn whole(alloc: Global, disk: &MemDisk) -> Result<MemDisk, Fail> {
    let picks = [Pick { n: 1, place: 0 }];
    match survivor_whole(alloc, disk, disk.history().len(), &picks) {
        Ok(left) => Ok(left),
        Err(_) => Err(Fail::from("no such image")),
    }
}

// What a crash leaves after all events, but for sector 1, which is torn.
fn torn(alloc: Global, disk: &MemDisk) -> Result<MemDisk, Fail> {
    let torn = [Torn {
        n: 1,
        bytes: [5; 512],
    }];
    match survivor_torn(alloc, disk, disk.history().len(), &[], &torn) {
        Ok(left) => Ok(left),
        Err(_) => Err(Fail::from("no such torn image")),
    }
}

// What three sectors have after either crash.
fn leave(rt: &impl Abort, alloc: Global, disk: &MemDisk) -> Result<(), Fail> {
    let found = three_bytes(&mut whole(alloc, disk)?);
    assert_eq!(rt; found, [Some(8), Some(7), Some(7)]);
    let found = three_bytes(&mut torn(alloc, disk)?);
    assert_eq!(rt; found, [Some(8), Some(5), Some(7)]);
    Ok(())
}

#[test]
fn images_and_what_a_crash_leaves_of_them(rt: HostRuntime) -> Result<(), Fail> {
    let mut disk = MemDisk::from_image(rt.alloc(), &[7; 1540], 8)?;
    write_two(&rt, &mut disk)?;
    leave(&rt, rt.alloc(), &disk)
}
