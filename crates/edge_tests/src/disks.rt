//! The disks of images over the system's own files.
use block_traits::Disk;
use file_edge::{FileDisk, FileId, FileKind, ImageFile, Opener, SystemFile, SystemFiles};
use image_layers::open_image;
use std::alloc::{AllocError, Global};
use std::fs::{self, File, OpenOptions};
use std::os::unix::fs::symlink;
use std::test::Fail;

// The disk of a file, beside no other.
fn disk_of(rt: &HostRuntime, changes: bool, name: &str) -> Result<FileDisk<SystemFile>, Fail> {
    let mut files = SystemFiles::new(rt.clone()?);
    Ok(FileDisk::open(&mut files, &[], changes, name))
}

// Whether a sector takes this byte at each place.
fn takes(disk: &mut FileDisk<SystemFile>, n: u64, byte: u8) -> bool {
    n < disk.sectors() && disk.write(n, &[byte; 512]).is_ok()
}

// Whether sectors 1 and 2 take this byte at each place, by one write.
fn take(disk: &mut FileDisk<SystemFile>, byte: u8) -> bool {
    2 < disk.sectors() && disk.write_sectors(1, &[byte; 1024]).is_ok()
}

// Whether a sector has this byte at each place.
fn has(disk: &mut FileDisk<SystemFile>, n: u64, byte: u8) -> bool {
    let mut bytes = [0; 512];
    n < disk.sectors() && disk.read(n, &mut bytes).is_ok() && bytes == [byte; 512]
}

// Whether a disk of three sectors has and takes bytes.
fn serves(disk: &mut FileDisk<SystemFile>) -> bool {
    let before = disk.sectors() == 3 && has(disk, 1, 7) && has(disk, 2, 7);
    let one = before
        && takes(disk, 2, 3)
        && disk.flush().is_ok()
        && has(disk, 1, 7)
        && has(disk, 2, 3);
    one && take(disk, 4) && has(disk, 1, 4) && has(disk, 2, 4)
}

// Whether the disk takes bytes if its file has 1,100 left: sector 1 stands before the end, and a write that reaches
// beyond the end is refused whole.
fn serves_the_front(disk: &mut FileDisk<SystemFile>) -> bool {
    takes(disk, 1, 5) && !takes(disk, 2, 6) && !take(disk, 6)
}

// The file becomes shorter: what stands beyond its end then fails. The null device can't be synced.
#[test]
fn a_file_is_a_disk(rt: HostRuntime) -> Result<(), Fail> {
    let name = "file_disk_test.img";
    fs::write(&rt, name, [7u8; 1636].as_slice())?;
    let mut disk = disk_of(&rt, true, name)?;
    assert!(rt; serves(&mut disk), "before");
    OpenOptions::new()
        .write(true)
        .open(&rt, name)?
        .set_len(1100)?;
    assert!(rt; serves_the_front(&mut disk), "behind");
    let file = fs::read(&rt, name)?;
    fs::remove_file(&rt, name)?;
    assert_eq!(rt; file.len(), 1100);
    assert!(rt; file.starts_with(&[7; 512]));
    assert!(rt; file.get(512..1024) == Some([5; 512].as_slice()));
    assert!(rt; file.ends_with(&[4; 76]));
    let null = FileId {
        device: 1,
        number: 2,
    };
    let mut null = FileDisk::of_file(SystemFile::new(File::open(&rt, "/dev/null")?), null, 0);
    assert!(rt; null.flush().is_err());
    Ok(())
}

// The sectors of the disk of a file: two if none is opened.
fn sectors_of(rt: &HostRuntime, changes: bool, name: &str) -> Result<u64, Fail> {
    Ok(disk_of(rt, changes, name)?.sectors())
}

// While one disk has a file, a second one that is to be changed has none, and one that is read has it.
#[test]
fn an_image_is_held_by_one_disk(rt: HostRuntime) -> Result<(), Fail> {
    let name = "held_test.img";
    fs::write(&rt, name, [7u8; 1536].as_slice())?;
    let held = disk_of(&rt, true, name)?;
    assert_eq!(rt; sectors_of(&rt, true, name)?, 2);
    assert_eq!(rt; sectors_of(&rt, false, name)?, 3);
    assert_eq!(rt; held.sectors(), 3);
    fs::remove_file(&rt, name)?;
    for name in ["/dev/null", ".", "no_such_file"] {
        assert_eq!(rt; sectors_of(&rt, true, name)?, 2, "{name}");
    }
    Ok(())
}

// Whether the image of a name takes a last sector that is flushed.
fn ends_image(rt: &HostRuntime, name: &str) -> Result<bool, Fail> {
    let mut opener = SystemFiles::new(rt.clone()?);
    let mut files = Vec::new(rt.alloc());
    let mut image = open_image(rt.alloc(), &mut opener, &mut files, true, name)?;
    let Some(last) = image.sectors().checked_sub(1) else {
        return Ok(false);
    };
    Ok(image.write(last, &[9; 512]).is_ok() && image.flush().is_ok())
}

// Whether a file of three sectors is left with zeros, and this byte throughout its last sector. The file is removed.
fn is_left(rt: &HostRuntime, name: &str, last: u8) -> Result<bool, Fail> {
    let file = fs::read(rt, name)?;
    fs::remove_file(rt, name)?;
    Ok(file.len() == 1536 && file.starts_with(&[0; 1024]) && file.ends_with(&[last; 512]))
}

const FILES: [(&str, u8); 5] = [
    ("plain.img", 9),
    ("behind.img", 9),
    ("left.img", 0),
    ("right.img", 9),
    ("other.img", 0),
];

// The last sectors of the files that are named change, and nothing else does.
#[test]
fn images_end_in_their_files(rt: HostRuntime) -> Result<(), Fail> {
    for (name, _) in FILES {
        fs::write(&rt, name, [0u8; 1536].as_slice())?;
    }
    for name in ["plain.img", "behind:behind.img", "join:left.img:right.img"] {
        assert!(&rt; ends_image(&rt, name)?, "{name}");
    }
    for (name, last) in FILES {
        assert!(&rt; is_left(&rt, name, last)?, "{name}");
    }
    Ok(())
}

// Sectors, each of which has one byte at each place, the first 1.
fn run_of(alloc: Global, sectors: u8) -> Result<Vec<u8>, AllocError> {
    let mut bytes = Vec::new(alloc);
    for byte in 0..sectors {
        bytes.extend_from_slice(&[byte.saturating_add(1); 512])?;
    }
    Ok(bytes)
}

// Whether the image of a name takes a run from sector 1 on that is flushed, after its first and third sector, which
// have zeros, were read.
fn takes_run_as(rt: &HostRuntime, name: &str, run: &[u8]) -> Result<bool, Fail> {
    let mut opener = SystemFiles::new(rt.clone()?);
    let mut files = Vec::new(rt.alloc());
    let mut image = open_image(rt.alloc(), &mut opener, &mut files, true, name)?;
    for n in [0, 2] {
        let mut bytes = [7; 512];
        if n >= image.sectors() || image.read(n, &mut bytes).is_err() || bytes != [0; 512] {
            return Ok(false);
        }
    }
    if run.len() % 512 != 0 || 1 + run.len() as u64 / 512 > image.sectors() {
        return Ok(false);
    }
    Ok(image.write_sectors(1, run).is_ok() && image.flush().is_ok())
}

// A run over the seam of a join, and one of more sectors than may wait, are left in order, and nothing else changes.
#[test]
fn runs_end_in_their_files(rt: HostRuntime) -> Result<(), Fail> {
    let run = run_of(rt.alloc(), 4)?;
    fs::write(&rt, "seam1.img", [0u8; 1536].as_slice())?;
    fs::write(&rt, "seam2.img", [0u8; 1536].as_slice())?;
    assert!(&rt; takes_run_as(&rt, "join:seam1.img:seam2.img", &run)?);
    let left = fs::read(&rt, "seam1.img")?;
    let right = fs::read(&rt, "seam2.img")?;
    assert!(rt; left.starts_with(&[0; 512]) && left.get(512..) == run.get(..1024));
    assert!(rt; right.get(..1024) == run.get(1024..));
    assert!(rt; right.get(1024..) == Some([0; 512].as_slice()));
    fs::remove_file(&rt, "seam1.img")?;
    fs::remove_file(&rt, "seam2.img")?;
    Ok(())
}

#[test]
fn more_than_may_wait_ends_in_its_file(rt: HostRuntime) -> Result<(), Fail> {
    let mut run = run_of(rt.alloc(), 250)?;
    run.extend_from_slice(run_of(rt.alloc(), 20)?.as_slice())?;
    let mut zeros = Vec::new(rt.alloc());
    zeros.resize(run.len().saturating_add(1024), 0)?;
    fs::write(&rt, "waits.img", zeros.as_slice())?;
    assert!(&rt; takes_run_as(&rt, "behind:waits.img", &run)?);
    let left = fs::read(&rt, "waits.img")?;
    fs::remove_file(&rt, "waits.img")?;
    assert_eq!(rt; left.len(), zeros.len());
    assert!(rt; left.starts_with(&[0; 512]) && left.ends_with(&[0; 512]));
    assert!(rt; left.get(512..left.len().saturating_sub(512)) == Some(run.as_slice()));
    Ok(())
}

// Each call of a file that has an image does just what it says. What is found under a name has the right kind.
#[test]
fn a_file_of_the_system_keeps_its_promises(rt: HostRuntime) -> Result<(), Fail> {
    let name = "promises.img";
    let run = run_of(rt.alloc(), 5)?;
    fs::write(&rt, name, run.as_slice())?;
    let mut files = SystemFiles::new(rt.clone()?);
    let mut file = files.open(OpenOptions::new().read(true).write(true), name)?;
    assert_eq!(rt; file.end()?, 2560);
    let mut into = [0; 1024];
    file.read_bytes(512, &mut into)?;
    assert!(rt; run.get(512..1536) == Some(into.as_slice()));
    assert!(rt; file.read_bytes(2048, &mut into).is_err());
    file.lock()?;
    file.write_bytes(1024, &[9; 1024])?;
    file.sync()?;
    let left = fs::read(&rt, name)?;
    assert!(rt; left.get(..1024) == run.get(..1024));
    assert!(rt; left.get(1024..2048) == Some([9; 1024].as_slice()));
    assert!(rt; left.get(2048..) == run.get(2048..));
    symlink(&rt, name, "promises.link")?;
    assert!(rt; files.find("promises.link")?.kind == FileKind::Regular);
    assert!(rt; files.look("promises.link")?.kind == FileKind::Other);
    assert!(rt; files.find(".")?.kind == FileKind::Other);
    assert!(rt; files.find("/dev/null")?.kind == FileKind::Other);
    fs::remove_file(&rt, "promises.link")?;
    fs::remove_file(&rt, name)?;
    Ok(())
}
