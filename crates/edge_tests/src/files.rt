//! A cabinet over the system's own files.
use block_traits::{Cabinet, LoadFault};
use file_edge::{FileCabinet, SystemFiles};
use image_layers::open_image;
use std::fs;
use std::os::unix::fs::{MetadataExt, symlink};
use std::test::Fail;

type Files = FileCabinet<SystemFiles<HostRuntime>>;

// Whether bytes are stored under a name.
fn stores(rt: &HostRuntime, files: &mut Files, name: &str, bytes: &[u8]) -> bool {
    files.store(rt.alloc(), name.as_bytes(), bytes).is_ok()
}

// Whether a file of five bytes has these.
fn has(rt: &HostRuntime, files: &mut Files, name: &str, bytes: &[u8]) -> bool {
    match files.load(rt.alloc(), name.as_bytes(), 5) {
        Ok(loaded) => loaded.as_slice() == bytes,
        Err(_) => false,
    }
}

// Why a file isn't loaded.
fn fault_of(rt: &HostRuntime, files: &mut Files, name: &str) -> Option<LoadFault> {
    files.load(rt.alloc(), name.as_bytes(), 4096).err()
}

// Whether a file is for its owner alone, and nothing is left beside it.
fn is_left_alone(rt: &HostRuntime) -> Result<bool, Fail> {
    let mode = fs::metadata(rt, "cabinet_test")?.mode();
    Ok(mode & 0o777 == 0o600 && !fs::exists(rt, "cabinet_test.new0")?)
}

#[test]
fn files_are_a_cabinet(rt: HostRuntime) -> Result<(), Fail> {
    let name = "cabinet_test";
    let mut files = FileCabinet::new(SystemFiles::new(rt.clone()?), Vec::new(rt.alloc()));
    assert!(rt; stores(&rt, &mut files, name, b"the longer one"));
    assert!(rt; stores(&rt, &mut files, name, b"five!"));
    assert!(rt; has(&rt, &mut files, name, b"five!"));
    assert!(&rt; is_left_alone(&rt)?);
    symlink(&rt, name, "cabinet_test.link")?;
    assert!(rt; !stores(&rt, &mut files, "cabinet_test.link", b"new"));
    fs::remove_file(&rt, "cabinet_test.link")?;
    fs::remove_file(&rt, name)?;
    assert!(rt; fault_of(&rt, &mut files, name) == Some(LoadFault::Absent));
    assert!(rt; fault_of(&rt, &mut files, ".") == Some(LoadFault::Failed));
    Ok(())
}

// Whether the cabinet refuses to load and to store a file.
fn refuses(rt: &HostRuntime, files: &mut Files, name: &str) -> bool {
    fault_of(rt, files, name) == Some(LoadFault::Failed) && !stores(rt, files, name, b"new")
}

// The files of a run's images are no keys and no backups, under whatever name.
#[test]
fn an_image_is_no_file_of_the_cabinet(rt: HostRuntime) -> Result<(), Fail> {
    let alloc = rt.alloc();
    fs::write(&rt, "spared.img", [7u8; 1536].as_slice())?;
    fs::write(&rt, "second.img", [7u8; 1536].as_slice())?;
    symlink(&rt, "spared.img", "spared.soft")?;
    fs::hard_link(&rt, "spared.img", "spared.hard")?;
    let mut opener = SystemFiles::new(rt.clone()?);
    let mut images = Vec::new(alloc);
    let _disk = open_image(
        alloc,
        &mut opener,
        &mut images,
        true,
        "join:spared.img:second.img",
    )?;
    let mut files = FileCabinet::new(opener, images);
    for name in ["spared.hard", "spared.soft", "second.img", "spared.img"] {
        assert!(rt; refuses(&rt, &mut files, name), "{name}");
        fs::remove_file(&rt, name)?;
    }
    Ok(())
}
