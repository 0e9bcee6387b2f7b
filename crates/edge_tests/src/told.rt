//! Runs of words over files in memory that report what they hold.
use crate::disk_file::DiskFile;
use crate::mem_files::{Changes, MemFiles, counted, none_seen};
use crate::mem_folder::MemFolder;
use crate::seen_disk::{Seen, SeenDisk};
use block_traits::{Disk, Event};
use crash_disk::{CallKind, FailAt, MemSink, MemSource};
use file_edge::FileDisk;
use geli_core::Status;
use image_layers::open_image;
use image_run::run_files;
use sha2::{Digest, Sha256};
use std::alloc::{AllocError, Global};
use std::cell::RefCell;
use std::process::Abort;
use std::rc::Rc;
use std::test::Fail;

// A run of words, of which the status is kept.
fn status_of<R: Abort + Drop>(
    alloc: Global,
    words: &[String],
    opener: MemFiles<R>,
    input: &mut MemSource,
    output: &mut MemSink,
) -> Status {
    match run_files(alloc, words, opener, input, output) {
        Ok((status, _shelf, _files, _entropy)) => status,
        Err(_) => Status::NoMemory,
    }
}

// A script over the image; these calls of the image fail.
fn run_script<R: Abort + Drop>(
    rt: R,
    alloc: Global,
    fails: &[FailAt],
    script: &[u8],
    output: &mut MemSink,
    seen: &Seen,
) -> Result<Status, Fail> {
    let opener = MemFiles::new(
        rt,
        alloc,
        Vec::from_slice(alloc, fails)?,
        1,
        seen.clone()?,
        Rc::new(alloc, RefCell::new(Vec::new(alloc)))?,
    )?;
    let mut words = Vec::new(alloc);
    words.push(String::from_str(alloc, "script")?)?;
    words.push(String::from_str(alloc, "a.img")?)?;
    let mut input = MemSource::new(alloc, script, &[], &[])?;
    Ok(status_of(alloc, &words, opener, &mut input, output))
}

// SHA-256 of events: of a write `W`, the number as eight bytes, least significant first, and the bytes; of a flush `F`.
fn digest_of(events: &[Event]) -> [u8; 32] {
    let mut hasher = Sha256::new();
    for event in events {
        match event {
            Event::Write { n, bytes } => {
                hasher.update(b"W");
                hasher.update(n.to_le_bytes());
                hasher.update(bytes);
            }
            Event::Flush => hasher.update(b"F"),
        }
    }
    hasher.finalize()
}

const INIT: &str = "init -s 4096 -K k -J p -i 1000 a.img\nattach -k k -j p a.img\n";

const SESSION: [&str; 3] = [
    "list\nwrite a.img 254 ",
    "\nread a.img 254 1\nread a.img 255 1\nwrite a.img 0 00\nflush a.img\nattach -k k -j p a.img\ndetach a.img\nread a.img 254 1\nattach -r -k k -j p a.img\nread a.img 254 1\nwrite a.img 254 ",
    "\nflush b.img\n",
];

// The parts of a script, joined by 4,096 bytes of 0x5a, as digits.
fn joined(alloc: Global, parts: &[&str]) -> Result<Vec<u8>, AllocError> {
    let mut script = Vec::from_slice(alloc, INIT.as_bytes())?;
    for (i, part) in parts.iter().enumerate() {
        if i > 0 {
            for _ in 0..4096 {
                script.extend_from_slice(b"5a")?;
            }
        }
        script.extend_from_slice(part.as_bytes())?;
    }
    Ok(script)
}

// The session of the acceptance cases, through all of the program but what opens files: its output, and each event of
// the image.
#[test]
fn an_ordinary_session_leaves_its_bytes(rt: HostRuntime) -> Result<(), Fail> {
    let alloc = rt.alloc();
    let seen: Seen = Rc::new(alloc, RefCell::new(Vec::new(alloc)))?;
    let mut output = MemSink::new(alloc, &[], &[], 40000)?;
    let script = joined(alloc, &SESSION)?;
    let status = run_script(rt.clone()?, alloc, &[], &script, &mut output, &seen)?;
    assert!(rt; status == Status::SomeRefused);
    assert_eq!(rt; Sha256::digest(output.bytes()), OUTPUT);
    let events = seen.try_borrow()?;
    assert_eq!(rt; events.len(), 14);
    assert_eq!(rt; digest_of(&events), EVENTS);
    Ok(())
}

// What a script on a new provider prints and leaves if these calls of its image fail.
fn replies<R: Abort + Drop>(
    rt: R,
    alloc: Global,
    fails: &[FailAt],
    parts: &[&str],
    seen: &Seen,
) -> Result<MemSink, Fail> {
    let mut output = MemSink::new(alloc, &[], &[], 4096)?;
    let script = joined(alloc, parts)?;
    let _ = run_script(rt, alloc, fails, &script, &mut output, seen)?;
    Ok(output)
}

// The sixth write of a sector fails, the fifth of eight that are one write of the file: its first four sectors are
// left.
#[test]
fn a_write_that_fails_leaves_its_front(rt: HostRuntime) -> Result<(), Fail> {
    let alloc = rt.alloc();
    let fails = [FailAt {
        kind: CallKind::Write,
        nth: 6,
        lands: false,
    }];
    let seen: Seen = Rc::new(alloc, RefCell::new(Vec::new(alloc)))?;
    let output = replies(
        rt.clone()?,
        alloc,
        &fails,
        &["write a.img 254 ", "\n"],
        &seen,
    )?;
    assert_eq!(rt;
        output.bytes(),
        b"ok\nok\nerror 26 DeviceFault\n".as_slice()
    );
    let events = seen.try_borrow()?;
    assert_eq!(rt; events.len(), 8);
    assert!(rt; matches!(events.get(6), Some(Event::Write { n: 2035, .. })));
    Ok(())
}

// The third sync fails, and no later one is asked for: the flush after it and the closing fail too.
#[test]
fn after_a_sync_that_failed_none_is_answered(rt: HostRuntime) -> Result<(), Fail> {
    let alloc = rt.alloc();
    let fails = [FailAt {
        kind: CallKind::Flush,
        nth: 3,
        lands: false,
    }];
    let seen: Seen = Rc::new(alloc, RefCell::new(Vec::new(alloc)))?;
    let output = replies(
        rt.clone()?,
        alloc,
        &fails,
        &["flush a.img\nflush a.img\n"],
        &seen,
    )?;
    let fault = "error 26 DeviceFault\n";
    assert!(rt;
        output
            .bytes()
            .starts_with(b"ok\nok\nerror 26 DeviceFault\nerror 26 DeviceFault\n")
    );
    assert_eq!(rt; output.bytes().len(), 6 + 3 * fault.len());
    assert_eq!(rt; seen.try_borrow()?.len(), 3);
    Ok(())
}

// Whether the image of a name takes a sector that is flushed, and a second flush.
fn takes_two_flushes<R: Abort + Drop>(
    rt: R,
    alloc: Global,
    name: &str,
    n: u64,
    seen: &Seen,
) -> Result<bool, Fail> {
    let mut opener = MemFiles::new(
        rt,
        alloc,
        Vec::new(alloc),
        4,
        seen.clone()?,
        Rc::new(alloc, RefCell::new(Vec::new(alloc)))?,
    )?;
    let mut files = Vec::new(alloc);
    let mut image = open_image(alloc, &mut opener, &mut files, true, name)?;
    Ok(
        n < image.sectors()
            && image.write(n, &[9; 512]).is_ok()
            && image.flush().is_ok()
            && image.flush().is_ok(),
    )
}

// A flush of a layer syncs its files: that of `behind:` after the waiting write, that of `join:` also the second file.
#[test]
fn a_flush_of_a_layer_syncs_its_files(rt: HostRuntime) -> Result<(), Fail> {
    let alloc = rt.alloc();
    for (name, n) in [
        ("b.img", 7),
        ("behind:b.img", 7),
        ("join:a.img:b.img", 2055),
    ] {
        let seen = none_seen(alloc)?;
        assert!(&rt;
            takes_two_flushes(rt.clone()?, alloc, name, n, &seen)?,
            "{name}"
        );
        let events = seen.try_borrow()?;
        assert_eq!(&rt; events.len(), 3, "{name}");
        assert!(&rt;
            matches!(events.first(), Some(Event::Write { n: 7, .. })),
            "{name}"
        );
        assert!(&rt; matches!(events.get(1), Some(Event::Flush)), "{name}");
        assert!(&rt; matches!(events.get(2), Some(Event::Flush)), "{name}");
    }
    Ok(())
}

// Whether a disk says that room was wanting only once a write of it failed so, and says it still after a write that was
// done.
fn says_that_room_was_wanting(image: &mut FileDisk<DiskFile<SeenDisk>>) -> bool {
    2 < image.sectors()
        && image.write(1, &[9; 512]).is_ok()
        && !image.wants_room()
        && image.write(1, &[9; 512]).is_err()
        && image.wants_room()
        && image.write(1, &[9; 512]).is_ok()
        && image.wants_room()
}

// The second write fails, as on a device that is full.
#[test]
fn a_full_device_is_told(rt: HostRuntime) -> Result<(), Fail> {
    let alloc = rt.alloc();
    let mut fails = Vec::new(alloc);
    fails.push(FailAt {
        kind: CallKind::Write,
        nth: 2,
        lands: false,
    })?;
    let changes: Changes = Rc::new(alloc, RefCell::new(Vec::new(alloc)))?;
    let mut opener = MemFiles::new(rt.clone()?, alloc, fails, 1, none_seen(alloc)?, changes)?;
    let mut image = FileDisk::open(&mut opener, &[], true, "a.img");
    let says = says_that_room_was_wanting(&mut image);
    assert!(rt; says);
    Ok(())
}

// SHA-256 of the lines that the case `ordinary-session` wants.
const OUTPUT: [u8; 32] = [
    0x1a, 0xa5, 0x61, 0x46, 0x58, 0x03, 0xdb, 0xcf, 0xc5, 0xab, 0x01, 0xc5, 0x2a, 0x48, 0x02, 0x59,
    0xd6, 0x97, 0xd1, 0xb1, 0x00, 0xa0, 0x05, 0x25, 0xb3, 0x09, 0x87, 0xf3, 0xd7, 0x0e, 0xa0, 0xc3,
];

// The digest of the 14 events that the case `ordinary-session` wants.
const EVENTS: [u8; 32] = [
    0x7c, 0xb2, 0xd3, 0xfb, 0x07, 0x81, 0xb8, 0x36, 0xb3, 0x85, 0x54, 0xa5, 0xc7, 0x9e, 0x88, 0xc0,
    0x46, 0x42, 0x44, 0xb3, 0xb3, 0x4c, 0x13, 0xd0, 0x8d, 0xe8, 0xc4, 0x1d, 0xde, 0xe2, 0x0f, 0x92,
];

// A run of words over the image: what the input has, which of its calls fail, and the room of the output.
#[derive(Clone, Copy)]
struct Given<'a> {
    words: &'a [&'a str],
    input: &'a [u8],
    fails: &'a [u64],
    room: u64,
}

// The folder before a run.
fn folder<R: Abort + Drop>(rt: R, alloc: Global) -> Result<MemFolder<R>, Fail> {
    let changes: Changes = Rc::new(alloc, RefCell::new(Vec::new(alloc)))?;
    let files = MemFiles::new(rt, alloc, Vec::new(alloc), 1, none_seen(alloc)?, changes)?;
    Ok(files.folder)
}

// How such a run of words ends, and the folder that it leaves.
fn end_of<R: Abort + Drop>(
    rt: R,
    alloc: Global,
    given: Given<'_>,
    changes: &Changes,
) -> Result<(Status, MemFolder<R>), Fail> {
    let opener = MemFiles::new(
        rt,
        alloc,
        Vec::new(alloc),
        1,
        none_seen(alloc)?,
        changes.clone()?,
    )?;
    let mut words = Vec::new(alloc);
    for word in given.words {
        words.push(String::from_str(alloc, word)?)?;
    }
    let mut input = MemSource::new(alloc, given.input, &[], given.fails)?;
    let mut output = MemSink::new(alloc, &[], &[], given.room)?;
    Ok(
        match run_files(alloc, &words, opener, &mut input, &mut output) {
            Ok((status, _shelf, files, _entropy)) => (status, files.into_opener().folder),
            Err((opener, _)) => (Status::NoMemory, opener.folder),
        },
    )
}

// How a run is to end: its status, what it asks of names, and the name that it stores, which is empty if there is none.
#[derive(Clone, Copy)]
struct Wanted<'a> {
    status: Status,
    asked: &'a [u8],
    stored: &'a str,
}

// An end with which nothing is stored.
fn end<'a>(status: Status, asked: &'a [u8]) -> Wanted<'a> {
    Wanted {
        status,
        asked,
        stored: "",
    }
}

// Whether a run ends as wanted, and each name has the bytes that it had before, but for the one that is stored.
fn asks<R: Abort + Drop>(
    rt: R,
    alloc: Global,
    before: &MemFolder<R>,
    given: Given<'_>,
    wanted: Wanted<'_>,
) -> Result<bool, Fail> {
    let changes: Changes = Rc::new(alloc, RefCell::new(Vec::new(alloc)))?;
    let (status, folder) = end_of(rt, alloc, given, &changes)?;
    let asked = changes.try_borrow()?;
    Ok(
        status == wanted.status
            && asked.as_slice() == wanted.asked
            && folder.is_left_but_for(before, wanted.stored),
    )
}

// The words of a script over the image, with this input.
fn over<'a>(input: &'a [u8], fails: &'a [u64]) -> Given<'a> {
    Given {
        words: &["script", "a.img"],
        input,
        fails,
        room: 4096,
    }
}

// One command, whose output has this room.
fn alone<'a>(words: &'a [&'a str], room: u64) -> Given<'a> {
    Given {
        words,
        input: &[],
        fails: &[],
        room,
    }
}

// Just the images, the random bytes and the files that lines load are opened; an image is opened to be changed unless
// the command only reads. No file is made, replaced or removed but the one that a line names to be stored. Each other
// file has its bytes, and three words are served.
#[test]
fn a_run_changes_no_name_but_those_it_stores(rt: HostRuntime) -> Result<(), Fail> {
    let alloc = rt.alloc();
    let before = folder(rt.clone()?, alloc)?;
    let script = over(b"init -P -K k a.img\nbackup a.img b\n", &[]);
    let stores = Wanted {
        status: Status::Done,
        asked: b"Ooomwsrf",
        stored: "b",
    };
    assert!(rt; asks(rt.clone()?, alloc, &before, script, stores)?);
    let backup = alone(&["backup", "a.img", "b"], 99);
    let refused = end(Status::SomeRefused, b"oo");
    assert!(rt; asks(rt.clone()?, alloc, &before, backup, refused)?);
    Ok(())
}

// A run that ends early, whatever its status, opens only such files, and changes none.
#[test]
fn a_run_that_ends_early_changes_no_name(rt: HostRuntime) -> Result<(), Fail> {
    let alloc = rt.alloc();
    let before = folder(rt.clone()?, alloc)?;
    let long = vec![in alloc; b'x'; 300_001]?;
    let usage = end(Status::BadWords, b"o");
    let destroy = alone(&["destroy", "a.img"], 999);
    assert!(rt; asks(rt.clone()?, alloc, &before, destroy, usage)?);
    let unread = end(Status::ReadFault, b"Oo");
    assert!(rt; asks(rt.clone()?, alloc, &before, over(b"list\n", &[1]), unread)?);
    let unprinted = end(Status::WriteFault, b"oo");
    let dump = alone(&["dump", "a.img"], 0);
    assert!(rt; asks(rt.clone()?, alloc, &before, dump, unprinted)?);
    let too_long = end(Status::LineTooLong, b"Oo");
    assert!(rt; asks(rt.clone()?, alloc, &before, over(&long, &[]), too_long)?);
    Ok(())
}

// The 128 digits of the 64 random bytes from a place on; the device's bytes count up from 0 to 250, over and over.
fn random_digits(alloc: Global, from: u64) -> Result<Vec<u8>, AllocError> {
    let mut digits = Vec::new(alloc);
    for i in 0..64 {
        let byte = (from.saturating_add(i) % 251) as u8;
        digits.push(b"0123456789abcdef"[(byte / 16) as usize])?;
        digits.push(b"0123456789abcdef"[(byte % 16) as usize])?;
    }
    Ok(digits)
}

// Whether some of the bytes are these.
fn has(bytes: &[u8], part: &[u8]) -> bool {
    for at in 0..bytes.len() {
        if bytes[at..].starts_with(part) {
            return true;
        }
    }
    false
}

// A run over both images, and what it printed.
fn over_both<R: Abort + Drop>(rt: R, alloc: Global, script: &[u8]) -> Result<MemSink, Fail> {
    let changes: Changes = Rc::new(alloc, RefCell::new(Vec::new(alloc)))?;
    let mut opener = MemFiles::new(rt, alloc, Vec::new(alloc), 1, none_seen(alloc)?, changes)?;
    opener
        .folder
        .give("long", None, Some(counted(alloc, 2000)?));
    let mut other = counted(alloc, 600)?;
    for _ in 600..2000 {
        other.push(7)?;
    }
    opener.folder.give("other", None, Some(other));
    opener
        .folder
        .give("front", None, Some(counted(alloc, 600)?));
    let mut words = Vec::new(alloc);
    for word in ["script", "a.img", "b.img"] {
        words.push(String::from_str(alloc, word)?)?;
    }
    let mut input = MemSource::new(alloc, script, &[], &[])?;
    let mut output = MemSink::new(alloc, &[], &[], 40000)?;
    let _ = status_of(alloc, &words, opener, &mut input, &mut output);
    Ok(output)
}

// Each provider takes 384 random bytes, of which the first 64 are its salt: the second takes those after the first's.
#[test]
fn two_providers_take_successive_random_bytes(rt: HostRuntime) -> Result<(), Fail> {
    let alloc = rt.alloc();
    let script = b"init -P -K k a.img\ninit -P -K k b.img\ndump a.img\ndump b.img\n";
    let output = over_both(rt.clone()?, alloc, script)?;
    assert!(rt; output.bytes().starts_with(b"ok\nok\n"));
    assert!(rt; has(output.bytes(), &random_digits(alloc, 0)?));
    assert!(rt; has(output.bytes(), &random_digits(alloc, 384)?));
    Ok(())
}

// A key file of 2,000 bytes opens what was made with it. One of which only the first 600 bytes are equal doesn't, nor
// do those 600 bytes.
#[test]
fn a_key_file_counts_to_its_end(rt: HostRuntime) -> Result<(), Fail> {
    let alloc = rt.alloc();
    let mut script = Vec::from_slice(alloc, b"init -P -K long a.img\n")?;
    for key in ["other", "front", "long"] {
        script.extend_from_slice(b"attach -C -p -k ")?;
        script.extend_from_slice(key.as_bytes())?;
        script.extend_from_slice(b" a.img\n")?;
    }
    let output = over_both(rt.clone()?, alloc, &script)?;
    assert_eq!(rt;
        output.bytes(),
        b"ok\nerror 15 WrongKey\nerror 15 WrongKey\nok\n".as_slice()
    );
    Ok(())
}
