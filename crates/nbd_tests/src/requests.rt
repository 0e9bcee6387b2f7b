//! Requests and what refuses them, as doc/proto.md says; and what no client sends.
use crate::common::{Place, attached, made, request};
use block_traits::Event;
use crash_disk::{MemDisk, MemSink, MemSource};
use eli_base::Auth;
use nbd_negotiation::End;
use provider::Provider;
use std::alloc::Global;
use std::test::Fail;

// The flags of a client of fixed newstyle without zeros, and NBD_OPT_GO for no name, without wishes.
const BEGINS: [u8; 26] = [
    0, 0, 0, 3, b'I', b'H', b'A', b'V', b'E', b'O', b'P', b'T', 0, 0, 0, 7, 0, 0, 0, 6, 0, 0, 0, 0,
    0, 0,
];

// How many bytes answer these: greeting, two pieces of information, and that the export is served.
const BEGUN: usize = 104;

// NBD_CMD_READ, NBD_CMD_WRITE, NBD_CMD_DISC, NBD_CMD_FLUSH, NBD_CMD_TRIM and NBD_CMD_WRITE_ZEROES.
const READ: u16 = 0;

const WRITE: u16 = 1;

const DISCONNECT: u16 = 2;

const FLUSH: u16 = 3;

const TRIM: u16 = 4;

const ZEROES: u16 = 6;

// A provider with 64 sectors of 4,096 bytes.
fn provider_of(alloc: Global, readonly: bool) -> Result<Provider<MemDisk>, Fail> {
    let mut disk = MemDisk::new(alloc, 513, 256)?;
    let meta = made(alloc, &mut disk, Auth::Off, 4096)?;
    attached(alloc, disk, &meta, readonly)
}

// A provider with a code for integrity, of which no sector was written.
fn unwritten(alloc: Global, sectorsize: u32) -> Result<Provider<MemDisk>, Fail> {
    let mut disk = MemDisk::new(alloc, 513, 512)?;
    let meta = made(alloc, &mut disk, Auth::Sha256, sectorsize)?;
    attached(alloc, disk, &meta, false)
}

// Bytes that a client sends.
#[derive(Drop)]
pub(crate) struct Client {
    pub(crate) said: Vec<u8>,
}

impl Client {
    pub(crate) fn new(alloc: Global) -> Result<Client, Fail> {
        Ok(Client {
            said: Vec::from_slice(alloc, &BEGINS)?,
        })
    }

    // A request without bytes.
    pub(crate) fn asks(
        &mut self,
        kind: (u16, u16),
        cookie: u64,
        offset: u64,
        length: u32,
    ) -> Result<(), Fail> {
        self.said
            .extend_from_slice(&request(kind, cookie, offset, length))?;
        Ok(())
    }

    // A request with so many bytes of one value.
    pub(crate) fn writes(
        &mut self,
        flags: u16,
        offset: u64,
        length: u32,
        byte: u8,
    ) -> Result<(), Fail> {
        self.asks((WRITE, flags), 1, offset, length)?;
        for _ in 0..length {
            self.said.push(byte)?;
        }
        Ok(())
    }
}

// What a client was answered after the negotiation, why the session ended, and the events since the provider was
// attached.
#[derive(Drop)]
pub(crate) struct Answer {
    pub(crate) end: End,
    pub(crate) bytes: Vec<u8>,
    pub(crate) events: usize,
    last: bool,
}

pub(crate) fn answered_to(
    alloc: Global,
    place: &mut Place,
    client: &Client,
    provider: Provider<MemDisk>,
) -> Result<Answer, Fail> {
    let mut input = MemSource::new(alloc, client.said.as_slice(), &[], &[])?;
    let mut output = MemSink::new(alloc, &[], &[], 65_536)?;
    let outcome = place.serves(provider, &mut input, &mut output)?;
    let Some(replies) = output.bytes().get(BEGUN..) else {
        return Err(Fail::from("no negotiation"));
    };
    Ok(Answer {
        end: outcome.end,
        bytes: Vec::from_slice(alloc, replies)?,
        events: outcome.disk.history().len(),
        last: matches!(outcome.disk.history().last(), Some(Event::Flush)),
    })
}

// The bytes of a reply without bytes.
pub(crate) fn reply(error: u8, cookie: u8) -> [u8; 16] {
    [
        0x67, 0x44, 0x66, 0x98, 0, 0, 0, error, 0, 0, 0, 0, 0, 0, 0, cookie,
    ]
}

// Events of making a provider: a flush, its metadata and a flush.
pub(crate) const MADE: usize = 3;

const SIZE: u64 = 262_144;

const MOST: u32 = 33_554_432;

// Requests that are refused: whether the export is read-only, the request's code, flags, offset and length, and the
// number of the error: NBD_EPERM is 1, NBD_EINVAL 22, NBD_ENOSPC 28.
const REFUSED: [(bool, u16, u16, u64, u32, u8); 34] = [
    (false, READ, 0, 0, 0, 22),
    (false, READ, 0, 0, MOST + 1, 22),
    (false, READ, 0, 0, 4_294_967_295, 22),
    (false, READ, 0, SIZE, 1, 22),
    (false, READ, 0, SIZE - 1, 2, 22),
    (false, READ, 0, 18_446_744_073_709_551_615, 1, 22),
    (false, READ, 2, 0, 1, 22),
    (false, READ, 4, 0, 1, 22),
    (false, READ, 16, 0, 1, 22),
    (false, READ, 32_768, 0, 1, 22),
    (false, WRITE, 0, 0, 0, 22),
    (false, WRITE, 2, 0, 0, 22),
    (false, ZEROES, 0, 0, 0, 22),
    (false, ZEROES, 0, 0, MOST + 1, 28),
    (false, ZEROES, 1, 0, 4_294_967_295, 28),
    (false, ZEROES, 4, 0, 4_294_967_295, 22),
    (false, ZEROES, 0, SIZE, 1, 28),
    (false, ZEROES, 3, SIZE - 1, 2, 28),
    (false, ZEROES, 0, 18_446_744_073_709_551_615, 4096, 28),
    (false, ZEROES, 4, 0, 1, 22),
    (false, ZEROES, 16, 0, 1, 22),
    (false, ZEROES, 17, SIZE, 1, 22),
    (false, FLUSH, 2, 0, 0, 22),
    (false, FLUSH, 16, 0, 0, 22),
    (false, TRIM, 0, 0, 4096, 22),
    (false, TRIM, 1, 0, 4096, 22),
    (false, 5, 0, 0, 4096, 22),
    (false, 7, 0, 0, 4096, 22),
    (false, 8, 0, 0, 4096, 22),
    (false, 65_535, 65_535, 0, 4096, 22),
    (true, WRITE, 0, 0, 0, 1),
    (true, ZEROES, 0, 0, 4096, 1),
    (true, ZEROES, 16, SIZE, MOST + 1, 1),
    (true, READ, 0, SIZE, 1, 22),
];

// A client that sends a request, a flush and the end.
fn flushing(alloc: Global, kind: (u16, u16), offset: u64, length: u32) -> Result<Client, Fail> {
    let mut client = Client::new(alloc)?;
    client.asks(kind, 7, offset, length)?;
    client.asks((FLUSH, 0), 9, 0, 0)?;
    client.asks((DISCONNECT, 0), 11, 0, 0)?;
    Ok(client)
}

// An error in reply to the request, and none to the flush.
fn refused_and_flushed(alloc: Global, error: u8) -> Result<Vec<u8>, Fail> {
    let mut bytes = Vec::from_slice(alloc, &reply(error, 7))?;
    bytes.extend_from_slice(&reply(0, 9))?;
    Ok(bytes)
}

// Each of these requests is answered, nothing is done for it, and the session goes on.
#[test]
fn requests_are_refused(rt: HostRuntime) -> Result<(), Fail> {
    let alloc = rt.alloc();
    let mut place = Place::new(alloc)?;
    for (readonly, code, flags, offset, length, error) in REFUSED {
        let client = flushing(alloc, (code, flags), offset, length)?;
        let answer = answered_to(alloc, &mut place, &client, provider_of(alloc, readonly)?)?;
        let expected = refused_and_flushed(alloc, error)?;
        assert_eq!(&rt;
            answer.bytes.as_slice(),
            expected.as_slice(),
            "{code} {flags} {offset} {length}"
        );
        assert_eq!(&rt; answer.end, End::Closed);
        assert_eq!(&rt; answer.events, MADE + 2);
    }
    Ok(())
}

// Writes that are refused: whether the export is read-only, the flags, the offset and the length, and the number of the
// error.
const WRITES: [(bool, u16, u64, u32, u8); 7] = [
    (true, 0, 0, 5, 1),
    (true, 2, SIZE, 5, 1),
    (false, 2, 0, 5, 22),
    (false, 16, SIZE, 5, 22),
    (false, 0, SIZE, 1, 28),
    (false, 1, SIZE - 4, 5, 28),
    (false, 0, 18_446_744_073_709_551_615, 5, 28),
];

// A client that writes and ends.
fn writing(alloc: Global, flags: u16, offset: u64, length: u32) -> Result<Client, Fail> {
    let mut client = Client::new(alloc)?;
    client.writes(flags, offset, length, 0x25)?;
    client.asks((DISCONNECT, 0), 2, 0, 0)?;
    Ok(client)
}

// A write is taken whole and then refused; what is on the disk stays.
#[test]
fn writes_are_refused_behind_their_bytes(rt: HostRuntime) -> Result<(), Fail> {
    let alloc = rt.alloc();
    let mut place = Place::new(alloc)?;
    for (readonly, flags, offset, length, error) in WRITES {
        let client = writing(alloc, flags, offset, length)?;
        let answer = answered_to(alloc, &mut place, &client, provider_of(alloc, readonly)?)?;
        assert_eq!(&rt; answer.bytes.as_slice(), reply(error, 1).as_slice());
        assert_eq!(&rt; answer.end, End::Closed);
        assert_eq!(&rt; answer.events, MADE + 1);
    }
    Ok(())
}

// A client that writes a sector, sends these bytes, and asks for a flush.
fn saying(alloc: Global, wrong: &[u8; 28]) -> Result<Client, Fail> {
    let mut client = Client::new(alloc)?;
    client.writes(0, 0, 4096, 0x25)?;
    client.said.extend_from_slice(wrong)?;
    client.asks((FLUSH, 0), 9, 0, 0)?;
    Ok(client)
}

// What no client sends ends the session, and the disk is flushed. What was asked before is answered.
#[test]
fn what_no_client_says_ends_it(rt: HostRuntime) -> Result<(), Fail> {
    let alloc = rt.alloc();
    let mut place = Place::new(alloc)?;
    for wrong in [request((WRITE, 0), 5, 0, MOST + 1), [0x25; 28], [0; 28]] {
        let client = saying(alloc, &wrong)?;
        let answer = answered_to(alloc, &mut place, &client, provider_of(alloc, false)?)?;
        assert_eq!(&rt; answer.bytes.as_slice(), reply(0, 1).as_slice());
        assert_eq!(&rt; answer.end, End::Malformed);
        assert_eq!(&rt; answer.events, MADE + 9);
        assert!(&rt; answer.last);
    }
    Ok(())
}

// A client's requests for so many bytes of the second sector: to be read, to be written in part, then whole, and in
// part again.
fn of_the_second_sector(alloc: Global, size: u32) -> Result<Client, Fail> {
    let start = u64::from(size);
    let mut client = Client::new(alloc)?;
    client.asks((READ, 0), 1, start, 1)?;
    client.writes(0, start + 1, 3, 0x25)?;
    client.asks((ZEROES, 0), 1, start, size.saturating_sub(1))?;
    client.writes(0, start, size, 0x33)?;
    client.writes(1, start + 1, 2, 0x25)?;
    client.asks((ZEROES, 3), 1, start + 3, 1)?;
    client.asks((READ, 0), 1, start, 5)?;
    client.asks((READ, 0), 1, (start + start).saturating_sub(1), 2)?;
    client.asks((DISCONNECT, 0), 2, 0, 0)?;
    Ok(client)
}

// The replies to such a client.
fn of_a_sector_that_had_no_tag(alloc: Global) -> Result<Vec<u8>, Fail> {
    let mut expected = Vec::new(alloc);
    for error in [5, 5, 5, 0, 0, 0, 0] {
        expected.extend_from_slice(&reply(error, 1))?;
    }
    expected.extend_from_slice(&[0x33, 0x25, 0x25, 0, 0x33])?;
    expected.extend_from_slice(&reply(5, 1))?;
    Ok(expected)
}

// Under a code for integrity a sector that was never written has no tag: it can't be read, and so not written in part.
// Once it was written whole it can be; the one after it still can't.
#[test]
fn sectors_that_were_never_written(rt: HostRuntime) -> Result<(), Fail> {
    let alloc = rt.alloc();
    let mut place = Place::new(alloc)?;
    let expected = of_a_sector_that_had_no_tag(alloc)?;
    for size in [512, 4096, 65_536] {
        let client = of_the_second_sector(alloc, size)?;
        let answer = answered_to(alloc, &mut place, &client, unwritten(alloc, size)?)?;
        assert_eq!(&rt; answer.bytes.as_slice(), expected.as_slice(), "{size}");
        assert_eq!(&rt; answer.end, End::Closed);
    }
    Ok(())
}

// The head of an option: `IHAVEOPT`, its code, and so many bytes of data.
fn option(code: u32, length: u32) -> [u8; 16] {
    let mut head = [0; 16];
    head[..8].copy_from_slice(b"IHAVEOPT");
    head[8..12].copy_from_slice(&code.to_be_bytes());
    head[12..].copy_from_slice(&length.to_be_bytes());
    head
}

// What a client is answered that sends these flags and asks for this option, which has so many bytes of data.
fn asked(
    alloc: Global,
    place: &mut Place,
    flags: [u8; 4],
    head: &[u8; 16],
    data: usize,
) -> Result<(End, usize), Fail> {
    let mut said = Vec::from_slice(alloc, &flags)?;
    said.extend_from_slice(head)?;
    for _ in 0..data {
        said.push(0)?;
    }
    let mut input = MemSource::new(alloc, said.as_slice(), &[], &[])?;
    let mut output = MemSink::new(alloc, &[], &[], 65_536)?;
    let provider = provider_of(alloc, false)?;
    let outcome = place.serves(provider, &mut input, &mut output)?;
    Ok((outcome.end, output.bytes().len()))
}

// NBD_OPT_LIST, and an option that isn't known.
const LIST: u32 = 3;

const STRANGE: u32 = 99;

// Flags that aren't known, another magic number, too much data, and an option of a client that takes no replies: none
// of them is answered after the greeting. An option with just as much data as is allowed is answered.
#[test]
fn what_ends_the_negotiation(rt: HostRuntime) -> Result<(), Fail> {
    let alloc = rt.alloc();
    let mut place = Place::new(alloc)?;
    for (flags, head, data, end, answered) in [
        ([0, 0, 0, 4], option(LIST, 0), 0, End::Malformed, 18),
        ([1, 0, 0, 3], option(LIST, 0), 0, End::Malformed, 18),
        ([0, 0, 0, 3], [0; 16], 0, End::Malformed, 18),
        (
            [0, 0, 0, 3],
            option(STRANGE, 16_385),
            16_385,
            End::Malformed,
            18,
        ),
        ([0, 0, 0, 0], option(LIST, 0), 0, End::Malformed, 18),
        ([0, 0, 0, 2], option(STRANGE, 0), 0, End::Malformed, 18),
        (
            [0, 0, 0, 3],
            option(STRANGE, 16_384),
            16_384,
            End::Closed,
            38,
        ),
        ([0, 0, 0, 1], option(LIST, 0), 0, End::Closed, 62),
        ([0, 0, 0, 1], option(LIST, 1), 1, End::Closed, 38),
    ] {
        let outcome = asked(alloc, &mut place, flags, &head, data)?;
        assert_eq!(&rt; outcome, (end, answered), "{flags:?} {data}");
    }
    Ok(())
}
