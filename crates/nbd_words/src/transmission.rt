//! Requests and their replies (doc/proto.md, "Transmission phase").
ghost use Rattle.std.specs.Prelude.{◌≡◌};
ghost use Rattle.nbd_words.specs.Transmission.{error_number, flags_limit, has_fua, reply_head, request_in, request_kind};

use byteorder::{BigEndian, ByteOrder};

/// The bytes of a simple reply before the bytes that were read.
pub const REPLY_HEAD: usize = 16;

const REQUEST_MAGIC: u32 = 0x2560_9513;

const REPLY_MAGIC: u32 = 0x6744_6698;

// `NBD_CMD_FLAG_FUA` and `NBD_CMD_FLAG_NO_HOLE`.
const FUA: u16 = 1;

const NO_HOLE: u16 = 2;

/// A request, but for the bytes of a write (doc/proto.md, "Request message").
#[derive(Clone, Copy, Debug, PartialEq, Eq)]
pub struct Request {
    /// Its flags: `flags_limit` says which ones a request of its kind may have.
    pub flags: u16,
    /// What is asked for, as `request_kind` says.
    pub code: u16,
    /// The number by which the client knows the reply.
    pub cookie: u64,
    /// The first byte of the export that the request is about.
    pub offset: u64,
    /// How many bytes.
    pub length: u32,
}

/// What is asked for (doc/proto.md, "Request types").
#[derive(Clone, Copy, Debug, PartialEq, Eq)]
pub enum RequestKind {
    /// `NBD_CMD_READ`: the bytes of a range.
    Read,
    /// `NBD_CMD_WRITE`: a range gets the bytes that follow the request.
    Write,
    /// `NBD_CMD_DISC`: the session ends, without a reply.
    Disconnect,
    /// `NBD_CMD_FLUSH`: what was answered is on the disk.
    Flush,
    /// `NBD_CMD_WRITE_ZEROES`: a range gets zeros, and no bytes follow the request.
    WriteZeroes,
    /// Anything else, such as `NBD_CMD_TRIM`.
    Unknown,
}

/// The error of a reply, or none (doc/proto.md, "Error values").
#[derive(Clone, Copy, Debug, PartialEq, Eq)]
pub enum ReplyError {
    /// It was done.
    Done,
    /// `NBD_EPERM`: the export is read-only.
    ReadOnly,
    /// `NBD_EIO`: the disk failed, or a unit has another tag than that of its ciphertext.
    Failed,
    /// `NBD_EINVAL`: the request isn't one that is served.
    Invalid,
    /// `NBD_ENOSPC`: a write passes the end.
    PassesEnd,
    /// `NBD_ENOSPC` too: the disk had no room for a write.
    NoRoom,
}

/// The request in these bytes. `None`: they don't begin with the magic number of requests.
pub fn request_in(bytes: &[u8; 28]) -> Option<Request>
    ensures { result ≡ request_in bytes.now }
{
    if BigEndian::read_u32(&bytes[..4]) != REQUEST_MAGIC {
        return None;
    }
    Some(Request {
        flags: BigEndian::read_u16(&bytes[4..6]),
        code: BigEndian::read_u16(&bytes[6..8]),
        cookie: BigEndian::read_u64(&bytes[8..16]),
        offset: BigEndian::read_u64(&bytes[16..24]),
        length: BigEndian::read_u32(&bytes[24..28]),
    })
}

/// What a request asks for.
pub fn request_kind(code: u16) -> RequestKind
    ensures { result ≡ request_kind code }
{
    match code {
        0 => RequestKind::Read,
        1 => RequestKind::Write,
        2 => RequestKind::Disconnect,
        3 => RequestKind::Flush,
        6 => RequestKind::WriteZeroes,
        _ => RequestKind::Unknown,
    }
}

/// The highest flags of a request of this kind: `NBD_CMD_FLAG_FUA` (1), which any may have, and in a request for zeros
/// `NBD_CMD_FLAG_NO_HOLE` (2) too.
pub fn flags_limit(kind: RequestKind) -> u16
    ensures { result ≡ flags_limit kind }
{
    match kind {
        RequestKind::WriteZeroes => FUA + NO_HOLE,
        _ => FUA,
    }
}

/// Whether flags have `NBD_CMD_FLAG_FUA`: the request is to be on the disk when it is answered.
pub fn has_fua(flags: u16) -> bool
    ensures { result ≡ has_fua flags }
{
    flags % 2 == FUA
}

impl ReplyError {
    /// Its number in a reply.
    pub fn number(self) -> u32
        ensures { result ≡ error_number self }
    {
        match self {
            ReplyError::Done => 0,
            ReplyError::ReadOnly => 1,
            ReplyError::Failed => 5,
            ReplyError::Invalid => 22,
            ReplyError::PassesEnd | ReplyError::NoRoom => 28,
        }
    }
}

/// The head of a simple reply (doc/proto.md, "Simple reply message"). The bytes of a read that was done follow it.
pub fn reply_head(error: ReplyError, cookie: u64) -> [u8; 16]
    ensures { result ≡ reply_head error cookie }
{
    let mut head = [0; 16];
    BigEndian::write_u32(&mut head[..4], REPLY_MAGIC);
    BigEndian::write_u32(&mut head[4..8], error.number());
    BigEndian::write_u64(&mut head[8..16], cookie);
    head
}
