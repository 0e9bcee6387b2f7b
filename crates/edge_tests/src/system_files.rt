//! What the system's calls do beyond what a few small files show.
use block_traits::{Cabinet, Entropy};
use file_edge::{FileCabinet, ImageFile, Opener, RandomFile, SystemFile, SystemFiles};
use std::alloc::{AllocError, Global};
use std::fs::{self, OpenOptions};
use std::test::Fail;

type Files = SystemFiles<HostRuntime>;

// A file that is opened to be read and written, and locked.
fn held(files: &mut Files, name: &str) -> Option<SystemFile> {
    let mut file = files
        .open(OpenOptions::new().read(true).write(true), name)
        .ok()?;
    if file.lock().is_err() {
        return None;
    }
    Some(file)
}

// Whether whole sectors are written from a sector on.
fn writes(file: &mut SystemFile, n: u32, from: &[u8]) -> bool {
    if from.len() % 512 != 0 || !file.is_held() {
        return false;
    }
    file.write_bytes(512 * n as u64, from).is_ok()
}

// Whether whole sectors are read from a sector on.
fn reads(file: &mut SystemFile, n: u32, into: &mut [u8]) -> bool {
    if into.len() % 512 != 0 {
        return false;
    }
    file.read_bytes(512 * n as u64, into).is_ok()
}

// So many bytes, each by its place.
fn counted(alloc: Global, count: u32) -> Result<Vec<u8>, AllocError> {
    let mut bytes = Vec::new(alloc);
    for i in 0..count {
        bytes.push((i % 251) as u8)?;
    }
    Ok(bytes)
}

// Whether the sector at 4 GiB and 512 bytes is written, and the one at 512 bytes isn't.
fn writes_far(file: &mut SystemFile) -> bool {
    let far = (1 << 23) + 1;
    let mut front = [7; 512];
    let mut there = [7; 512];
    writes(file, far, &[9; 512])
        && reads(file, 1, &mut front)
        && reads(file, far, &mut there)
        && front == [0; 512]
        && there == [9; 512]
}

// An image of 5 GiB that holds nothing: its end, and a sector above 4 GiB.
#[test]
fn offsets_above_4_gib_are_kept(rt: HostRuntime) -> Result<(), Fail> {
    let name = "far.img";
    fs::write(&rt, name, b"".as_slice())?;
    OpenOptions::new()
        .write(true)
        .open(&rt, name)?
        .set_len(5 << 30)?;
    let mut files = SystemFiles::new(rt.clone()?);
    let done = match held(&mut files, name) {
        Some(mut file) => file.end()? == 5 << 30 && writes_far(&mut file),
        None => false,
    };
    fs::remove_file(&rt, name)?;
    assert!(rt; done);
    Ok(())
}

// Whether a run is written and read again, whole.
fn keeps(file: &mut SystemFile, run: &[u8], into: &mut [u8]) -> bool {
    writes(file, 1, run) && reads(file, 1, into) && *into == *run
}

// 64 KiB are one write and one read.
#[test]
fn a_long_run_is_written_and_read_whole(rt: HostRuntime) -> Result<(), Fail> {
    let name = "long_run.img";
    let run = counted(rt.alloc(), 65536)?;
    let mut into = Vec::from_slice(rt.alloc(), &run)?;
    into.fill(0);
    fs::write(&rt, name, run.as_slice())?;
    let mut files = SystemFiles::new(rt.clone()?);
    let done = match held(&mut files, name) {
        Some(mut file) => keeps(&mut file, &run, &mut into),
        None => false,
    };
    fs::remove_file(&rt, name)?;
    assert!(rt; done);
    Ok(())
}

// A key file of 5,000 bytes under a long name is loaded to its end.
#[test]
fn a_key_file_of_5000_bytes_is_loaded(rt: HostRuntime) -> Result<(), Fail> {
    let name = "a_key_file_of_5000_bytes";
    let bytes = counted(rt.alloc(), 5000)?;
    fs::write(&rt, name, bytes.as_slice())?;
    let mut files = FileCabinet::new(SystemFiles::new(rt.clone()?), Vec::new(rt.alloc()));
    let loaded = files.load(rt.alloc(), name.as_bytes(), 5000);
    fs::remove_file(&rt, name)?;
    assert!(rt; loaded.is_ok_and(|loaded| loaded.as_slice() == bytes.as_slice()));
    Ok(())
}

// A name stays that a rename doesn't give and that a new file doesn't take. The folder that is synced is that of the
// name.
#[test]
fn names_that_are_not_given_stay(rt: HostRuntime) -> Result<(), Fail> {
    let name = "stays";
    fs::write(&rt, name, b"stays".as_slice())?;
    let mut files = SystemFiles::new(rt.clone()?);
    assert!(rt; files.rename("no_such_file", name).is_err());
    assert!(rt; files.make(0o600, name).is_err());
    assert!(rt; files.sync_folder("no_such_folder/name").is_err());
    assert_eq!(rt; fs::read(&rt, name)?.as_slice(), b"stays".as_slice());
    let id = files.find(name)?.id;
    files.rename(name, "stays.new")?;
    assert!(rt; files.find("stays.new")?.id == id);
    files.remove("stays.new");
    assert!(rt; files.find("stays.new").is_err());
    assert!(rt; files.find("/proc")?.id.device != files.find(".")?.id.device);
    Ok(())
}

// Whether a file that is opened to be read takes no write, although it is locked.
fn only_reads(files: &mut Files, name: &str) -> bool {
    match files.open(OpenOptions::new().read(true), name) {
        Ok(mut file) => file.lock().is_ok() && !writes(&mut file, 0, &[9; 512]),
        Err(_) => false,
    }
}

// A file is opened as was asked, and isn't locked any more once it is let go.
#[test]
fn a_file_that_is_let_go_is_free(rt: HostRuntime) -> Result<(), Fail> {
    let name = "let_go.img";
    fs::write(&rt, name, [7u8; 512].as_slice())?;
    let mut files = SystemFiles::new(rt.clone()?);
    let reads = only_reads(&mut files, name);
    let free = held(&mut SystemFiles::new(rt.clone()?), name).is_some();
    fs::remove_file(&rt, name)?;
    assert!(rt; reads && free);
    Ok(())
}

// Whether the first eight of the bytes come again, at a place that is a multiple of eight.
fn repeats(bytes: &[u8]) -> bool {
    let first = bytes.get(..8);
    for (i, eight) in bytes.chunks(8).enumerate() {
        if i > 0 && Some(eight) == first {
            return true;
        }
    }
    false
}

#[test]
fn random_bytes_do_not_repeat(rt: HostRuntime) -> Result<(), Fail> {
    let mut bytes = counted(rt.alloc(), 4096)?;
    let mut random = RandomFile::open(&mut SystemFiles::new(rt.clone()?));
    assert!(rt; random.fill(&mut bytes).is_ok());
    assert!(rt; !repeats(&bytes));
    Ok(())
}
