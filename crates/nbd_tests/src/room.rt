//! The error of a write that the disk fails at, by whether the disk says that room was wanting.
use crate::common::{attached, made, piece, request};
use block_traits::{Disk, DiskFailed, Event, Sector};
use crash_disk::{CallKind, FailAt, MemDisk, MemSink, MemSource};
use eli_base::Auth;
use nbd_session::{EDGE, ROOM, serve};
use std::alloc::Global;
use std::test::Fail;

// A disk that says whether room was wanting.
#[derive(Drop)]
pub(crate) struct FullDisk {
    pub(crate) disk: MemDisk,
    pub(crate) wants: bool,
}

impl Disk for FullDisk {
    ghost use Rattle.crash_disk.specs.MemDisk.{mem_disk_of};

    ghost state = { λ full. mem_disk_of full.disk };

    ghost wants_room = { λ full. full.wants };

    fn sectors(&self) -> u64 {
        self.disk.sectors()
    }

    fn read(&mut self, n: u64, into: &mut Sector) -> Result<(), DiskFailed> {
        self.disk.read(n, into)
    }

    fn count_reads(&mut self, many: u64) {
        self.disk.count_reads(many);
    }

    fn write(&mut self, n: u64, from: &Sector) -> Result<(), DiskFailed> {
        self.disk.write(n, from)
    }

    fn flush(&mut self) -> Result<(), DiskFailed> {
        self.disk.flush()
    }

    fn events(&self) -> Option<&[Event]> {
        self.disk.events()
    }

    fn wants_room(&self) -> bool {
        self.wants
    }
}

// What a client says: its flags, NBD_OPT_GO for no name, and a write (1) of three bytes within a sector, or a request
// for as many zeros (6), with NBD_CMD_FLAG_FUA.
fn said(alloc: Global, code: u16) -> Result<Vec<u8>, Fail> {
    let mut said = Vec::from_slice(alloc, b"\0\0\0\x03IHAVEOPT\0\0\0\x07\0\0\0\x06\0\0\0\0\0\0")?;
    said.extend_from_slice(&request((code, 1), 7, 1, 3))?;
    if code == 1 {
        said.extend_from_slice(b"abc")?;
    }
    Ok(said)
}

// The number of the error of the reply if a call of the disk fails. Making the provider takes a write and two flushes.
fn error_of(alloc: Global, code: u16, kind: CallKind, nth: u64, wants: bool) -> Result<u32, Fail> {
    let mut disk = MemDisk::new(alloc, 513, 256)?;
    let meta = made(alloc, &mut disk, Auth::Off, 4096)?;
    disk.fail_calls(&[FailAt {
        kind,
        nth,
        lands: false,
    }])?;
    let provider = attached(alloc, FullDisk { disk, wants }, &meta, false)?;
    let said = said(alloc, code)?;
    let mut input = MemSource::new(alloc, said.as_slice(), &[], &[])?;
    let mut output = MemSink::new(alloc, &[], &[], 256)?;
    let mut room = vec![in alloc; 0; ROOM]?;
    let mut edge = vec![in alloc; 0; EDGE]?;
    if room.len() != ROOM || edge.len() != EDGE {
        return Err(Fail::from("no room"));
    }
    let _ = serve(provider, &mut room, &mut edge, &mut input, &mut output);
    // After the negotiation and the magic number of a reply.
    Ok(u32::from_be_bytes(piece(output.bytes(), 108)))
}

// Just a write of the disk that fails for want of room is answered with NBD_ENOSPC (28). An edge that can't be read and
// a flush that fails are NBD_EIO (5), whatever the disk says of an earlier write.
#[test]
fn a_full_disk_says_so(rt: HostRuntime) -> Result<(), Fail> {
    let alloc = rt.alloc();
    for code in [1, 6] {
        for (kind, nth, wants, error) in [
            (CallKind::Read, 1, true, 5),
            (CallKind::Write, 2, true, 28),
            (CallKind::Write, 2, false, 5),
            (CallKind::Flush, 3, true, 5),
        ] {
            let found = error_of(alloc, code, kind, nth, wants)?;
            assert_eq!(&rt; found, error, "{code} {kind:?} {wants}");
        }
    }
    Ok(())
}
