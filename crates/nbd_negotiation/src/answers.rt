//! The replies to options.
ghost use Rattle.std.specs.Prelude.{◌≡◌};
ghost use Rattle.nbd_negotiation.specs.Options.{answer_by, bare_reply, info_answer, list_answer, listed, plain_answer, told};
ghost use Rattle.nbd_negotiation.specs.Streams.{GivesBytes};

use crate::streams::{End, give_all};
use block_traits::Sink;
use nbd_words::{
    ClientFlags, Export, OptionKind, OptionReply, block_size_info, export_info, info_request_fits,
    option_reply_head, plain_export,
};

// There is one export; its name is empty.
fn listing(code: u32) -> [u8; 44]
    ensures { result ≡ listed code }
{
    let mut text = [0; 44];
    text[..20].copy_from_slice(&option_reply_head(code, OptionReply::Server, 4));
    text[24..].copy_from_slice(&option_reply_head(code, OptionReply::Acknowledged, 0));
    text
}

// What the export is, and its block sizes.
fn telling(code: u32, export: &Export) -> [u8; 86]
    ensures { result ≡ told code export.now }
{
    let mut text = [0; 86];
    text[..20].copy_from_slice(&option_reply_head(code, OptionReply::Info, 12));
    text[20..32].copy_from_slice(&export_info(export));
    text[32..52].copy_from_slice(&option_reply_head(code, OptionReply::Info, 14));
    text[52..66].copy_from_slice(&block_size_info(export));
    text[66..].copy_from_slice(&option_reply_head(code, OptionReply::Acknowledged, 0));
    text
}

// A reply without data.
fn give_bare<K: Sink>(code: u32, reply: OptionReply, output: &mut K) -> Result<(), End>
    ensures { GivesBytes (bare_reply code reply) (K.state output.old) result (K.state output.new) }
{
    give_all(&option_reply_head(code, reply, 0), output)
}

// The export, without a reply's head. The zeros after it are for a client that wants them.
fn give_export<K: Sink>(export: &Export, client: &ClientFlags, output: &mut K) -> Result<(), End>
    ensures { GivesBytes (plain_answer export.now client.now) (K.state output.old) result (K.state output.new) }
{
    let info = plain_export(export);
    let shown = if client.no_zeroes { 10 } else { 134 };
    give_all(&info[..shown], output)
}

fn give_list<K: Sink>(code: u32, bytes: &[u8], output: &mut K) -> Result<(), End>
    ensures { GivesBytes (list_answer code bytes.now) (K.state output.old) result (K.state output.new) }
{
    if !bytes.is_empty() {
        return give_bare(code, OptionReply::Invalid, output);
    }
    give_all(&listing(code), output)
}

fn give_info<K: Sink>(code: u32, bytes: &[u8], export: &Export, output: &mut K) -> Result<(), End>
    ensures { GivesBytes (info_answer code bytes.now export.now) (K.state output.old) result (K.state output.new) }
{
    if !info_request_fits(bytes) {
        return give_bare(code, OptionReply::Invalid, output);
    }
    give_all(&telling(code, export), output)
}

/// Gives the reply to an option with these data, in one piece.
pub fn give_answer<K: Sink>(
    code: u32,
    kind: OptionKind,
    bytes: &[u8],
    export: &Export,
    client: &ClientFlags,
    output: &mut K,
) -> Result<(), End>
    ensures { GivesBytes (answer_by kind code bytes.now export.now client.now) (K.state output.old) result (K.state output.new) }
{
    match kind {
        OptionKind::ExportName => give_export(export, client, output),
        OptionKind::Abort => give_bare(code, OptionReply::Acknowledged, output),
        OptionKind::List => give_list(code, bytes, output),
        OptionKind::Info | OptionKind::Go => give_info(code, bytes, export, output),
        OptionKind::Unknown => give_bare(code, OptionReply::Unsupported, output),
    }
}
