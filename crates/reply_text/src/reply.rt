//! The reply to a command, and how it is printed.
ghost use Rattle.std.specs.Prelude.{◌≡◌, ◌++◌, ◌∷◌, [], length};
ghost use Rattle.text_page.specs.Output.{Prints, Puts};
ghost use Rattle.reply_text.specs.Text.{FitsPayload, reply_text, list_text, refusal_text, refusal_fields, fields_text, decimal_fields, numbers_line, reason_name, refusal_head, field};
ghost use Rattle.std.specs.Fmt.{decimal};

use crate::bytes::write_ok_bytes;
use crate::dump::write_dump;
use crate::names::{reason_name, refusal_name};
use crate::rows::{Row, RowList, write_rows};
use crate::verified::write_verified;
use block_traits::Sink;
use eli_base::{Reason, Refusal};
use eli_metadata::Metadata;
use itoa::Buffer;
use text_page::{Page, WriteEnd, give_page, put, write_pieces};

// How many bytes the page of a reply has. Each reply clears its page, so a short reply gets a short page.
const LONG_PAGE: usize = 16384;

const SHORT_PAGE: usize = 1280;

// The most bytes of a payload whose reply has room on the short page.
const SHORT_PAYLOAD: u32 = 512;

/// The reply to one command.
#[derive(Drop)]
pub enum Reply {
    /// The command was done.
    Done,
    /// The command was done, and the reply is the first bytes of the payload.
    Payload {
        /// How many bytes the reply is.
        length: u32,
    },
    /// A digest of bytes.
    Digest([u8; 32]),
    /// The drawers.
    Rows(RowList),
    /// The metadata that was read.
    Dump(Metadata),
    /// A request was opened.
    Tag {
        /// The tag of the request.
        tag: u8,
    },
    /// A step of a request was made.
    Left {
        /// How many units are left.
        left: u64,
    },
    /// A sweep was made, and the offsets that it lists are the first numbers of the payload.
    Verified {
        /// How many units fail.
        bad: u32,
        /// The logical sector where the next sweep begins.
        next: u64,
    },
    /// The command was refused.
    Refused(Refusal),
}

/// Prints a reply. `WriteEnd` comes only if the sink's count of faults rose, and the sink then took
/// the first bytes of the reply's text and no others. Allocates no memory.
pub fn write_reply<K: Sink>(reply: &Reply, payload: &[u8], output: &mut K) -> Result<(), WriteEnd>
    requires { FitsPayload (length payload.now) reply.now }
    ensures { Prints (reply_text reply.now payload.now) (K.state output.old) result (K.state output.new) }
{
    match reply {
        Reply::Payload { length } if *length > SHORT_PAYLOAD => {
            write_by(reply, payload, &mut Page::<LONG_PAGE>::new(), output)
        }
        Reply::Rows(_) | Reply::Dump(_) | Reply::Verified { .. } => {
            write_by(reply, payload, &mut Page::<LONG_PAGE>::new(), output)
        }
        Reply::Done
        | Reply::Payload { .. }
        | Reply::Digest(_)
        | Reply::Tag { .. }
        | Reply::Left { .. }
        | Reply::Refused(_) => write_by(reply, payload, &mut Page::<SHORT_PAGE>::new(), output),
    }
}

// Prints a reply, with a page that is empty at first.
fn write_by<K: Sink, const N: usize>(
    reply: &Reply,
    payload: &[u8],
    page: &mut Page<N>,
    output: &mut K,
) -> Result<(), WriteEnd>
    requires fits { FitsPayload (length payload.now) reply.now }
    requires blank { page.old.items ≡ [] }
    ensures { Prints (reply_text reply.now payload.now) (K.state output.old) result (K.state output.new) }
{
    write_whole(reply, payload, page, output)?;
    give_page(page, output)
}

// Puts the text of a reply.
fn write_whole<K: Sink, const N: usize>(
    reply: &Reply,
    payload: &[u8],
    page: &mut Page<N>,
    output: &mut K,
) -> Result<(), WriteEnd>
    requires { FitsPayload (length payload.now) reply.now }
    ensures { Puts (reply_text reply.now payload.now) page.old.items (K.state output.old) result page.new.items (K.state output.new) }
{
    match reply {
        Reply::Done => put(b"ok\n", page, output),
        Reply::Payload { length } => write_ok_bytes(&payload[..*length as usize], page, output),
        Reply::Digest(digest) => write_ok_bytes(digest, page, output),
        Reply::Rows(rows) => write_list(rows.as_slice(), page, output),
        Reply::Dump(meta) => write_dump(meta, page, output),
        Reply::Tag { tag } => write_numbers_line(b"ok", &[u64::from(*tag)], page, output),
        Reply::Left { left } => write_numbers_line(b"ok", &[*left], page, output),
        Reply::Verified { bad, next } => write_verified(payload, *bad, *next, page, output),
        Reply::Refused(refusal) => write_refusal(refusal, page, output),
    }
}

// Puts the drawers and `ok`.
fn write_list<K: Sink, const N: usize>(
    rows: &[Row],
    page: &mut Page<N>,
    output: &mut K,
) -> Result<(), WriteEnd>
    ensures { Puts (list_text rows.now) page.old.items (K.state output.old) result page.new.items (K.state output.new) }
{
    write_rows(rows, page, output)?;
    put(b"ok\n", page, output)
}

fn write_refusal<K: Sink, const N: usize>(
    refusal: &Refusal,
    page: &mut Page<N>,
    output: &mut K,
) -> Result<(), WriteEnd>
    ensures { Puts (refusal_text refusal.now) page.old.items (K.state output.old) result page.new.items (K.state output.new) }
{
    write_head(refusal, page, output)?;
    write_fields(refusal, page, output)?;
    put(b"\n", page, output)
}

// Puts the number and the name of a refusal.
fn write_head<K: Sink, const N: usize>(
    refusal: &Refusal,
    page: &mut Page<N>,
    output: &mut K,
) -> Result<(), WriteEnd>
    ensures { Puts (refusal_head refusal.now) page.old.items (K.state output.old) result page.new.items (K.state output.new) }
{
    put(b"error ", page, output)?;
    write_number(refusal.number(), page, output)?;
    write_field(refusal_name(refusal), page, output)
}

// Puts a space and a text.
fn write_field<K: Sink, const N: usize>(
    text: &[u8],
    page: &mut Page<N>,
    output: &mut K,
) -> Result<(), WriteEnd>
    ensures { Puts (field text.now) page.old.items (K.state output.old) result page.new.items (K.state output.new) }
{
    write_pieces(&[b" ", text], page, output)
}

fn write_number<K: Sink, const N: usize>(
    number: u8,
    page: &mut Page<N>,
    output: &mut K,
) -> Result<(), WriteEnd>
    ensures { Puts (decimal number) page.old.items (K.state output.old) result page.new.items (K.state output.new) }
{
    let mut digits = Buffer::new();
    put(digits.format(number).as_bytes(), page, output)
}

fn write_number_field<K: Sink, const N: usize>(
    number: u64,
    page: &mut Page<N>,
    output: &mut K,
) -> Result<(), WriteEnd>
    ensures { Puts (field (decimal number)) page.old.items (K.state output.old) result page.new.items (K.state output.new) }
{
    let mut digits = Buffer::new();
    write_field(digits.format(number).as_bytes(), page, output)
}

pub(crate) fn write_numbers<K: Sink, const N: usize>(
    numbers: &[u64],
    page: &mut Page<N>,
    output: &mut K,
) -> Result<(), WriteEnd>
    ensures { Puts (decimal_fields numbers.now) page.old.items (K.state output.old) result page.new.items (K.state output.new) }
{
    for number in numbers {
        write_number_field(*number, page, output)?;
    }
    Ok(())
}

/// Puts a word, numbers and a newline.
pub(crate) fn write_numbers_line<K: Sink, const N: usize>(
    word: &[u8],
    numbers: &[u64],
    page: &mut Page<N>,
    output: &mut K,
) -> Result<(), WriteEnd>
    ensures { Puts (numbers_line word.now numbers.now) page.old.items (K.state output.old) result page.new.items (K.state output.new) }
{
    put(word, page, output)?;
    write_numbers(numbers, page, output)?;
    put(b"\n", page, output)
}

// Puts the number of a word and the reason.
fn write_usage<K: Sink, const N: usize>(
    word: u32,
    reason: Reason,
    page: &mut Page<N>,
    output: &mut K,
) -> Result<(), WriteEnd>
    ensures { Puts (decimal_fields (word ∷ []) ++ field (reason_name reason)) page.old.items (K.state output.old) result page.new.items (K.state output.new) }
{
    write_numbers(&[word.into()], page, output)?;
    write_field(reason_name(reason), page, output)
}

// The fields of a refusal: the numbers that it carries, or the number of a word and the reason.
#[derive(Clone, Copy)]
enum Fields {
    Nothing,
    One(u64),
    Two(u64, u64),
    Three(u64, u64, u64),
    Usage(u32, Reason),
}

// The fields of each refusal. Refusals without a field are listed too, so that none is forgotten.
fn fields_of(refusal: &Refusal) -> Fields
    ensures { fields_text result ≡ refusal_fields refusal.now }
{
    match *refusal {
        Refusal::Usage { word, reason } => Fields::Usage(word, reason),
        Refusal::KeyNumberOutOfRange { given: number }
        | Refusal::KeyNotSet { slot: number }
        | Refusal::LastKey { slot: number }
        | Refusal::NoRequest { tag: number }
        | Refusal::RequestDone { tag: number } => Fields::One(number.into()),
        Refusal::UnsupportedCipher { found }
        | Refusal::UnsupportedAuth { found }
        | Refusal::BadKeyLength { found } => Fields::One(found.into()),
        Refusal::BadVersion { found: number }
        | Refusal::BadSectorSize { found: number }
        | Refusal::UnsupportedFlags { mask: number }
        | Refusal::FileAbsent { word: number }
        | Refusal::CabinetFault { word: number }
        | Refusal::RequestsOpen { count: number } => Fields::One(number.into()),
        Refusal::Integrity { offset: number }
        | Refusal::BackupTooShort { length: number }
        | Refusal::TooSmall { size: number } => Fields::One(number),
        Refusal::BadSize { kept, found } => Fields::Two(kept, found),
        Refusal::OldSizeMismatch { kept, given } => Fields::Two(kept, given),
        Refusal::NotGrown { size, given } => Fields::Two(size, given),
        Refusal::RequestNotDone { tag, left } => Fields::Two(tag.into(), left),
        Refusal::BadPlace { place, media } => Fields::Two(place, media),
        Refusal::BadPlaceFile { word, length } => Fields::Two(word.into(), length),
        Refusal::FileTooLong { word, limit } => Fields::Two(word.into(), limit),
        Refusal::BadLength { given, sectorsize } => Fields::Two(given, sectorsize.into()),
        Refusal::OutOfRange {
            sector,
            count,
            media,
        } => Fields::Three(sector, count, media),
        Refusal::UnknownProvider
        | Refusal::NotAttached
        | Refusal::StillAttached
        | Refusal::BadMagic
        | Refusal::BadHash
        | Refusal::NoValidKeys
        | Refusal::WrongKey
        | Refusal::NoKeyComponents
        | Refusal::PassphraseNotSet
        | Refusal::IterationsNeedOneKey
        | Refusal::PassphraseNeeded
        | Refusal::ReadOnly
        | Refusal::DeviceFault
        | Refusal::EntropyFault
        | Refusal::NoMemory
        | Refusal::KeyNumberNeeded
        | Refusal::QueueFull
        | Refusal::Suspended
        | Refusal::NotSuspended
        | Refusal::DifferentKey
        | Refusal::NotAuthenticated => Fields::Nothing,
    }
}

#[tactic(auto, using(text_page::proofs::Printing::puts_nothing))]
fn write_fields<K: Sink, const N: usize>(
    refusal: &Refusal,
    page: &mut Page<N>,
    output: &mut K,
) -> Result<(), WriteEnd>
    ensures { Puts (refusal_fields refusal.now) page.old.items (K.state output.old) result page.new.items (K.state output.new) }
{
    match fields_of(refusal) {
        Fields::Nothing => Ok(()),
        Fields::One(number) => write_numbers(&[number], page, output),
        Fields::Two(first, second) => write_numbers(&[first, second], page, output),
        Fields::Three(first, second, third) => write_numbers(&[first, second, third], page, output),
        Fields::Usage(word, reason) => write_usage(word, reason, page, output),
    }
}
