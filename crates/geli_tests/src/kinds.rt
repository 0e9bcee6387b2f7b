//! A shelf whose boxes have disks of three kinds: none of them is affected by what another does.
use crate::common::{CountingDisk, stock, words};
use block_traits::Disk;
use crash_disk::{CallKind, FailAt, MemDisk, MemEntropy, MemSink, MemSource};
use geli_core::{Shelf, geli_main};
use std::alloc::Global;
use std::cell::Cell;
use std::rc::Rc;
use std::test::Fail;

// A disk in memory of 64 sectors.
fn image(alloc: Global) -> Result<MemDisk, Fail> {
    Ok(MemDisk::new(alloc, 64, 64)?)
}

// A disk whose first forty writes fail.
fn failing(alloc: Global) -> Result<MemDisk, Fail> {
    let mut disk = image(alloc)?;
    let mut fails = [FailAt {
        kind: CallKind::Write,
        nth: 0,
        lands: false,
    }; 40];
    for (before, fail) in fails.iter_mut().enumerate() {
        fail.nth = before as u64 + 1;
    }
    disk.fail_calls(&fails)?;
    Ok(disk)
}

// Puts a disk on the shelf.
fn add(shelf: &mut Shelf, name: &str, disk: Box<dyn Disk>) -> Result<(), Fail> {
    match shelf.add(name, disk) {
        Ok(()) => Ok(()),
        Err(_) => Err(Fail::from("the shelf has no room")),
    }
}

// What a script prints over the shelf; the words name all of its images.
fn printed(alloc: Global, shelf: &mut Shelf, line: &str, script: &str) -> Result<MemSink, Fail> {
    let mut output = MemSink::new(alloc, &[], &[], 1024)?;
    geli_main(
        alloc,
        &words(alloc, line)?,
        &mut MemSource::new(alloc, script.as_bytes(), &[], &[])?,
        &mut output,
        &mut stock(alloc)?,
        &mut MemEntropy::new(alloc, &[0x5a; 1536])?,
        shelf,
    );
    Ok(output)
}

const ALONE: &str = "init -P -K k a.img\nattach -p -k k a.img\nfill a.img 7 0 1\n";

const BY_TURNS: &str = "init -P -K k a.img\ninit -P -K k b.img\ninit -P -K k c.img\n\
    attach -p -k k a.img\nattach -p -k k b.img\nattach -p -k k c.img\n\
    fill a.img 7 0 1\ninit -P -K k b.img\nfill c.img 7 0 1\n";

const REPLIES: &str =
    "ok\nerror 26 DeviceFault\nok\nok\nerror 5 BadMagic\nok\nok\nerror 26 DeviceFault\nok\n";

// A shelf with a disk of each kind; the calls of the third are counted.
fn three_kinds(alloc: Global, calls: Rc<Cell<u64>>) -> Result<Shelf, Fail> {
    let mut shelf = Shelf::new(alloc)?;
    add(&mut shelf, "a.img", Box::new(alloc, image(alloc)?)?)?;
    add(&mut shelf, "b.img", Box::new(alloc, failing(alloc)?)?)?;
    let counting = CountingDisk::new(image(alloc)?, calls);
    add(&mut shelf, "c.img", Box::new(alloc, counting)?)?;
    Ok(shelf)
}

// A shelf with the first alone.
fn first_alone(alloc: Global) -> Result<Shelf, Fail> {
    let mut shelf = Shelf::new(alloc)?;
    add(&mut shelf, "a.img", Box::new(alloc, image(alloc)?)?)?;
    Ok(shelf)
}

// The first disk does what it does if it is alone on a shelf. The third gets a flush, a write and a flush, a read, a
// write of one sector, and the flush of the closing.
#[test]
fn three_kinds_on_one_shelf(rt: HostRuntime) -> Result<(), Fail> {
    let calls = Rc::new(rt.alloc(), Cell::new(0))?;
    let mut shelf = three_kinds(rt.alloc(), calls.clone()?)?;
    let output = printed(rt.alloc(), &mut shelf, "script a.img b.img c.img", BY_TURNS)?;
    assert!(&rt; output.bytes() == REPLIES.as_bytes());
    assert_eq!(rt; calls.get(), 6);
    let mut alone = first_alone(rt.alloc())?;
    let output = printed(rt.alloc(), &mut alone, "script a.img", ALONE)?;
    assert!(&rt; output.bytes() == b"ok\nok\nok\n".as_slice());
    assert!(&rt; alone.events("a.img").is_some() && alone.events("a.img") == shelf.events("a.img"));
    Ok(())
}
