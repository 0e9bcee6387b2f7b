//! `geli dump IMAGE` over boxed disks. What each last sector is answered stands in the case files.
use crate::common::words;
use block_traits::{Disk, Sector};
use crash_disk::{MemCabinet, MemDisk, MemEntropy, MemSink, MemSource};
use geli_core::{Shelf, geli_main};
use std::alloc::Global;
use std::test::Fail;

// The first 47 bytes of the metadata: version 7, flags 0x200, AES-XTS, 128 bits, no authentication,
// 1,048,576 bytes, sectors of 4,096 bytes, slot 0 set, 1,000 iterations.
const HEAD: &[u8] =
    b"GEOM::ELI\0\0\0\0\0\0\0\x07\0\0\0\0\x02\0\0\x16\0\x80\0\0\0\0\0\x10\0\0\0\0\0\0\x10\0\0\x01\xe8\x03\0\0";

// The MD5 of these 47 bytes and of a salt and slots of zeros, by python3's hashlib.
const DIGEST: &[u8] = b"\x52\xeb\x10\x78\xb5\x82\x36\xa5\xab\x0b\x65\xf2\x43\x88\x88\x71";

// Puts bytes at a place of a sector, as far as it reaches.
fn put(sector: &mut Sector, place: usize, bytes: &[u8]) {
    if let Some(part) = sector.get_mut(place..) {
        for (to, from) in part.iter_mut().zip(bytes) {
            *to = *from;
        }
    }
}

// The metadata's sector.
pub(crate) fn metadata() -> Sector {
    let mut sector = [0; 512];
    put(&mut sector, 0, HEAD);
    put(&mut sector, 495, DIGEST);
    sector
}

// A shelf with one image, which has the metadata.
fn shelf_of_one(alloc: Global) -> Result<Shelf, Fail> {
    let mut image = MemDisk::new(alloc, 2, 64)?;
    image.alter(1, &metadata())?;
    let disk: Box<dyn Disk> = Box::new(alloc, image)?;
    let mut shelf = Shelf::new(alloc)?;
    match shelf.add("a.img", disk) {
        Ok(()) => Ok(shelf),
        Err(_) => Err(Fail::from("the shelf has no room")),
    }
}

// How many sectors the second disk of a name has that comes back.
fn sectors_of_the_second(alloc: Global, shelf: &mut Shelf) -> Result<u64, Fail> {
    let second: Box<dyn Disk> = Box::new(alloc, MemDisk::new(alloc, 3, 0)?)?;
    match shelf.add("a.img", second) {
        Err((back, _)) => Ok(back.sectors()),
        Ok(()) => Err(Fail::from("two disks of one name")),
    }
}

// The number of the status of `dump`, and how many bytes it prints.
fn dumped(alloc: Global, shelf: &mut Shelf) -> Result<(u8, usize), Fail> {
    let words = words(alloc, "dump a.img")?;
    let mut input = MemSource::new(alloc, b"", &[], &[])?;
    let mut output = MemSink::new(alloc, &[], &[], 2048)?;
    let mut files = MemCabinet::new(alloc);
    let mut entropy = MemEntropy::new(alloc, b"")?;
    let ended = geli_main(
        alloc,
        &words,
        &mut input,
        &mut output,
        &mut files,
        &mut entropy,
        shelf,
    );
    Ok((ended.number(), output.bytes().len()))
}

// A shelf of boxed disks gives back the box that it refuses, and shows the events of those that it has.
#[test]
fn a_shelf_of_boxed_disks(rt: HostRuntime) -> Result<(), Fail> {
    let mut shelf = shelf_of_one(rt.alloc())?;
    assert_eq!(rt; sectors_of_the_second(rt.alloc(), &mut shelf)?, 3);
    assert_eq!(rt; dumped(rt.alloc(), &mut shelf)?, (0, 1031));
    assert!(rt; shelf.events("a.img") == Some([].as_slice()));
    assert!(rt; shelf.events("b.img").is_none());
    Ok(())
}
