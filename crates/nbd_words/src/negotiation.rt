//! What is said before an export is served (doc/proto.md, "Fixed newstyle negotiation").
ghost use Rattle.std.specs.Prelude.{◌≡◌, length};
ghost use Rattle.nbd_words.specs.Negotiation.{block_size_info, client_flags_in, export_info, greeting, has_info_shape, option_head_in, option_kind, option_reply_head, option_reply_number, plain_export, transmission_flags};

use byteorder::{BigEndian, ByteOrder};

// The server's first bytes: `NBDMAGIC`, `IHAVEOPT`, and its handshake flags: fixed newstyle, and no zeros if the client
// wants none.
const GREETING: [u8; 18] = [
    0x4e, 0x42, 0x44, 0x4d, 0x41, 0x47, 0x49, 0x43, 0x49, 0x48, 0x41, 0x56, 0x45, 0x4f, 0x50, 0x54,
    0x00, 0x03,
];

/// The most bytes of an option's data: a name has at most 4,096, and there is room for many wishes.
pub const INFO_LIMIT: u32 = 16_384;

const OPTION_MAGIC: u64 = 0x4948_4156_454f_5054;

const REPLY_MAGIC: u64 = 0x0003_e889_0455_65a9;

// Transmission flags: that there are flags, flushes, FUA and requests for zeros; and that the export is read-only.
const FLAGS: u16 = 77;

const READ_ONLY: u16 = 2;

/// What a client says of itself, before its options.
#[derive(Clone, Copy, Debug, PartialEq, Eq)]
pub struct ClientFlags {
    /// `NBD_FLAG_C_FIXED_NEWSTYLE`: it knows that each option is answered.
    pub fixed_newstyle: bool,
    /// `NBD_FLAG_C_NO_ZEROES`: it wants no zeros after the reply to `NBD_OPT_EXPORT_NAME`.
    pub no_zeroes: bool,
}

/// The head of an option: its code, and how many bytes of data follow.
#[derive(Clone, Copy, Debug, PartialEq, Eq)]
pub struct OptionHead {
    /// Which option.
    pub code: u32,
    /// How many bytes of data.
    pub length: u32,
}

/// What a client may ask for (doc/proto.md, "Option types").
#[derive(Clone, Copy, Debug, PartialEq, Eq)]
pub enum OptionKind {
    /// `NBD_OPT_EXPORT_NAME`: to be served, without a reply.
    ExportName,
    /// `NBD_OPT_ABORT`: to end.
    Abort,
    /// `NBD_OPT_LIST`: which exports there are.
    List,
    /// `NBD_OPT_INFO`: what an export is.
    Info,
    /// `NBD_OPT_GO`: what an export is, and to be served.
    Go,
    /// Anything else.
    Unknown,
}

/// The replies to an option (doc/proto.md, "Option reply types").
#[derive(Clone, Copy, Debug, PartialEq, Eq)]
pub enum OptionReply {
    /// `NBD_REP_ACK`: it was done.
    Acknowledged,
    /// `NBD_REP_SERVER`: the name of an export follows.
    Server,
    /// `NBD_REP_INFO`: a piece of information follows.
    Info,
    /// `NBD_REP_ERR_UNSUP`: there is no such option here.
    Unsupported,
    /// `NBD_REP_ERR_INVALID`: the data of the option don't have the right shape.
    Invalid,
}

/// What a client is told of an export.
#[derive(Clone, Copy, Debug, PartialEq, Eq)]
pub struct Export {
    /// How many bytes it has.
    pub size: u64,
    /// Its transmission flags, as `transmission_flags` gives them.
    pub flags: u16,
    /// The preferred number of bytes of a request, a power of two.
    pub preferred: u32,
    /// The most bytes that a request may have.
    pub most: u32,
}

/// The server's first bytes.
pub fn greeting() -> [u8; 18]
    ensures { result ≡ greeting }
{
    GREETING
}

/// What a client says of itself. `None`: it has other flags than these two.
pub fn client_flags_in(bytes: &[u8; 4]) -> Option<ClientFlags>
    ensures { result ≡ client_flags_in bytes.now }
{
    let (fixed_newstyle, no_zeroes) = match BigEndian::read_u32(bytes) {
        0 => (false, false),
        1 => (true, false),
        2 => (false, true),
        3 => (true, true),
        _ => return None,
    };
    Some(ClientFlags {
        fixed_newstyle,
        no_zeroes,
    })
}

/// The head of an option. `None`: these bytes don't begin with the magic number of options.
pub fn option_head_in(bytes: &[u8; 16]) -> Option<OptionHead>
    ensures { result ≡ option_head_in bytes.now }
{
    if BigEndian::read_u64(&bytes[..8]) != OPTION_MAGIC {
        return None;
    }
    Some(OptionHead {
        code: BigEndian::read_u32(&bytes[8..12]),
        length: BigEndian::read_u32(&bytes[12..16]),
    })
}

/// What an option asks for.
pub fn option_kind(code: u32) -> OptionKind
    ensures { result ≡ option_kind code }
{
    match code {
        1 => OptionKind::ExportName,
        2 => OptionKind::Abort,
        3 => OptionKind::List,
        6 => OptionKind::Info,
        7 => OptionKind::Go,
        _ => OptionKind::Unknown,
    }
}

impl OptionReply {
    /// Its number in a reply.
    pub fn number(self) -> u32
        ensures { result ≡ option_reply_number self }
    {
        match self {
            OptionReply::Acknowledged => 1,
            OptionReply::Server => 2,
            OptionReply::Info => 3,
            OptionReply::Unsupported => 0x8000_0001,
            OptionReply::Invalid => 0x8000_0003,
        }
    }
}

/// The head of a reply to an option: which option, what it is answered with, and how many bytes of data follow.
pub fn option_reply_head(code: u32, reply: OptionReply, length: u32) -> [u8; 20]
    ensures { result ≡ option_reply_head code reply length }
{
    let mut head = [0; 20];
    BigEndian::write_u64(&mut head[..8], REPLY_MAGIC);
    BigEndian::write_u32(&mut head[8..12], code);
    BigEndian::write_u32(&mut head[12..16], reply.number());
    BigEndian::write_u32(&mut head[16..20], length);
    head
}

/// Whether the data of `NBD_OPT_INFO` or `NBD_OPT_GO` have the right shape: the length of a name and the name, then the
/// number of wishes and the wishes, of two bytes each.
pub fn info_request_fits(bytes: &[u8]) -> bool
    ensures { result ≡ has_info_shape bytes.now }
{
    if bytes.len() < 6 {
        return false;
    }
    let name = BigEndian::read_u32(&bytes[..4]) as usize;
    if bytes.len() - 6 < name {
        return false;
    }
    let wishes = BigEndian::read_u16(&bytes[4 + name..6 + name]) as usize;
    bytes.len() - 6 - name == 2 * wishes
}

/// The transmission flags of an export: flushes, FUA and requests for zeros are served. If it is read-only, no writes
/// are.
pub fn transmission_flags(readonly: bool) -> u16
    ensures { result ≡ transmission_flags readonly }
{
    if readonly { FLAGS + READ_ONLY } else { FLAGS }
}

/// The information `NBD_INFO_EXPORT`.
pub fn export_info(export: &Export) -> [u8; 12]
    ensures { result ≡ export_info export.now }
{
    let mut info = [0; 12];
    BigEndian::write_u64(&mut info[2..10], export.size);
    BigEndian::write_u16(&mut info[10..12], export.flags);
    info
}

/// The information `NBD_INFO_BLOCK_SIZE`: requests of any length are served, even of one byte.
pub fn block_size_info(export: &Export) -> [u8; 14]
    ensures { result ≡ block_size_info export.now }
{
    let mut info = [0; 14];
    BigEndian::write_u16(&mut info[..2], 3);
    BigEndian::write_u32(&mut info[2..6], 1);
    BigEndian::write_u32(&mut info[6..10], export.preferred);
    BigEndian::write_u32(&mut info[10..14], export.most);
    info
}

/// The reply to `NBD_OPT_EXPORT_NAME`: size, flags and 124 zeros, which a client may ask to leave out.
pub fn plain_export(export: &Export) -> [u8; 134]
    ensures { result ≡ plain_export export.now }
{
    let mut info = [0; 134];
    BigEndian::write_u64(&mut info[..8], export.size);
    BigEndian::write_u16(&mut info[8..10], export.flags);
    info
}
