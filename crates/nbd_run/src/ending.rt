//! What the log is told of how a session ended.
ghost use Rattle.std.specs.Prelude.{◌≡◌, ◌⊎◌, [], None, Some};
ghost use Rattle.block_traits.specs.Streams.{TookAll, TookPart};
ghost use Rattle.nbd_run.specs.Ending.{IsToldBy, cause_words, end_text, end_text_by, flush_words, kind_words, place_words};
ghost use Rattle.nbd_session.specs.Denials.{some_denied};
ghost use Rattle.text_page.specs.Output.{Prints, Puts};

use block_traits::Sink;
use itoa::Buffer;
use nbd_session::{Denial, Denials, DeniedKind};
use nbd_words::ReplyError;
use text_page::{Page, WriteEnd, give_page, write_pieces};

/// Tells the log what was denied and whether the last flush was made, if something was denied or the flush failed.
pub(crate) fn tell_end<L: Sink>(denied: &Denials, flushed: bool, log: &mut L)
    ensures { IsToldBy (some_denied denied.now) flushed denied.now (L.state log.old) (L.state log.new) }
{
    if denied.are_some() || !flushed {
        log_end(denied, flushed, log);
    }
}

// Prints that to the log, as far as the log takes it.
fn log_end<L: Sink>(denied: &Denials, flushed: bool, log: &mut L)
    ensures { TookAll (end_text denied.now flushed) (L.state log.old) (L.state log.new)
        ⊎ TookPart (end_text denied.now flushed) (L.state log.old) (L.state log.new) }
{
    match write_end(denied, flushed, log) {
        Ok(()) => {}
        Err(_) => {}
    }
}

// Prints that to the log.
fn write_end<L: Sink>(denied: &Denials, flushed: bool, log: &mut L) -> Result<(), WriteEnd>
    ensures { Prints (end_text denied.now flushed) (L.state log.old) result (L.state log.new) }
{
    write_by(denied, flushed, &mut Page::<256>::new(), log)
}

// Prints it, with a page that is empty at first.
fn write_by<L: Sink>(
    denied: &Denials,
    flushed: bool,
    page: &mut Page<256>,
    log: &mut L,
) -> Result<(), WriteEnd>
    requires { page.old.items ≡ [] }
    ensures { Prints (end_text denied.now flushed) (L.state log.old) result (L.state log.new) }
{
    write_lines(denied, flushed, page, log)?;
    give_page(page, log)
}

// Puts the lines on a page.
fn write_lines<L: Sink>(
    denied: &Denials,
    flushed: bool,
    page: &mut Page<256>,
    log: &mut L,
) -> Result<(), WriteEnd>
    ensures { Puts (end_text denied.now flushed) page.old.items (L.state log.old) result page.new.items (L.state log.new) }
{
    match denied.first {
        Some(first) => write_first(denied, &first, flushed, page, log),
        None => write_counts(denied, flushed, page, log),
    }
}

fn write_counts<L: Sink>(
    denied: &Denials,
    flushed: bool,
    page: &mut Page<256>,
    log: &mut L,
) -> Result<(), WriteEnd>
    ensures { Puts (end_text_by None denied.now flushed) page.old.items (L.state log.old) result page.new.items (L.state log.new) }
{
    let mut writes = Buffer::new();
    let mut zeros = Buffer::new();
    let mut flushes = Buffer::new();
    let pieces = [
        b"refused: writes ",
        writes.format(denied.writes).as_bytes(),
        b", zeros ",
        zeros.format(denied.zeros).as_bytes(),
        b", flushes ",
        flushes.format(denied.flushes).as_bytes(),
        b"\nlast flush: ",
        flush_words(flushed),
        b"\n",
    ];
    write_pieces(&pieces, page, log)
}

fn write_first<L: Sink>(
    denied: &Denials,
    first: &Denial,
    flushed: bool,
    page: &mut Page<256>,
    log: &mut L,
) -> Result<(), WriteEnd>
    ensures { Puts (end_text_by (Some first.now) denied.now flushed) page.old.items (L.state log.old) result page.new.items (L.state log.new) }
{
    let mut writes = Buffer::new();
    let mut zeros = Buffer::new();
    let mut flushes = Buffer::new();
    let mut offset = Buffer::new();
    let pieces = [
        b"refused: writes ",
        writes.format(denied.writes).as_bytes(),
        b", zeros ",
        zeros.format(denied.zeros).as_bytes(),
        b", flushes ",
        flushes.format(denied.flushes).as_bytes(),
        b"\nfirst refused: ",
        kind_words(first.kind),
        place_words(first.kind, offset.format(first.offset).as_bytes()),
        b", ",
        cause_words(first.error),
        b"\nlast flush: ",
        flush_words(flushed),
        b"\n",
    ];
    write_pieces(&pieces, page, log)
}

fn kind_words(kind: DeniedKind) -> &'static [u8]
    ensures { result.now ≡ kind_words kind }
{
    match kind {
        DeniedKind::Write => b"write at ",
        DeniedKind::Zeros => b"zeros at ",
        DeniedKind::Flush => b"flush",
    }
}

// A flush is of the whole disk, so its place isn't told.
fn place_words(kind: DeniedKind, digits: &[u8]) -> &[u8]
    ensures { result.now ≡ place_words kind digits.now }
{
    match kind {
        DeniedKind::Write | DeniedKind::Zeros => digits,
        DeniedKind::Flush => b"",
    }
}

fn cause_words(error: ReplyError) -> &'static [u8]
    ensures { result.now ≡ cause_words error }
{
    match error {
        ReplyError::Done => b"none",
        ReplyError::ReadOnly => b"read-only",
        ReplyError::Failed => b"input or output error",
        ReplyError::Invalid => b"invalid request",
        ReplyError::PassesEnd => b"past the end",
        ReplyError::NoRoom => b"no space left on the device",
    }
}

fn flush_words(flushed: bool) -> &'static [u8]
    ensures { result.now ≡ flush_words flushed }
{
    if flushed { b"made" } else { b"failed" }
}
