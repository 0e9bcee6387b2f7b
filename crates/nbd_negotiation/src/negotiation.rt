//! What a client asks for before it is served.
ghost use Rattle.std.specs.Prelude.{◌≡◌, ◌≤◌, length};
ghost use Rattle.nbd_negotiation.specs.Options.{is_export_name, is_taken, outcome_by};
ghost use Rattle.nbd_negotiation.specs.Negotiation.{AnswersOption, AnswersRun, Negotiates, TakesClient};

use crate::answers::give_answer;
use crate::streams::{End, fill, give_all};
use block_traits::{Sink, Source};
use nbd_words::{
    ClientFlags, Export, INFO_LIMIT, OptionHead, OptionKind, client_flags_in, greeting,
    info_request_fits, option_head_in, option_kind,
};

/// What an option leads to.
#[derive(Clone, Copy, Debug, PartialEq, Eq)]
pub enum Outcome {
    /// To another option.
    More,
    /// To requests.
    Serving,
    /// To the end of the session.
    Ending,
}

/// Greets a client and replies to its options, until it wants the export to be served, under any name. An error says
/// why it isn't to be served. The room has at least 16,384 bytes, the most that an option may have as data.
pub fn negotiate<S: Source, K: Sink>(
    input: &mut S,
    output: &mut K,
    room: &mut [u8],
    export: &Export,
) -> Result<(), End>
    requires { 16384 ≤ length room.old }
    ensures { Negotiates export.now (S.state input.old) (S.state input.new) (K.state output.old) result (K.state output.new) }
{
    give_all(&greeting(), output)?;
    let client = take_client(input)?;
    answer_options(input, output, room, export, &client)
}

// Takes the flags of a client.
fn take_client<S: Source>(input: &mut S) -> Result<ClientFlags, End>
    ensures { TakesClient (S.state input.old) result (S.state input.new) }
{
    let mut flags = [0; 4];
    fill(input, &mut flags)?;
    match client_flags_in(&flags) {
        Some(client) => Ok(client),
        None => Err(End::Malformed),
    }
}

// Replies to options until the client wants to be served.
fn answer_options<S: Source, K: Sink>(
    input: &mut S,
    output: &mut K,
    room: &mut [u8],
    export: &Export,
    client: &ClientFlags,
) -> Result<(), End>
    requires { 16384 ≤ length room.old }
    ensures { AnswersRun export.now client.now (S.state input.old) (S.state input.new) (K.state output.old) result (K.state output.new) }
{
    let mut many: u64 = 0;
    'many: while many < u64::MAX {
        match answer_option(input, output, room, export, client) {
            Ok(Outcome::More) => many += 1,
            Ok(Outcome::Serving) => return Ok(()),
            Ok(Outcome::Ending) => return Err(End::Closed),
            Err(end) => return Err(end),
        }
    }
    Err(End::Malformed)
}

// Takes an option and replies to it.
fn answer_option<S: Source, K: Sink>(
    input: &mut S,
    output: &mut K,
    room: &mut [u8],
    export: &Export,
    client: &ClientFlags,
) -> Result<Outcome, End>
    requires { 16384 ≤ length room.old }
    ensures { AnswersOption export.now client.now (S.state input.old) (S.state input.new) (K.state output.old) result (K.state output.new) }
{
    let mut head = [0; 16];
    fill(input, &mut head)?;
    let Some(option) = option_head_in(&head) else {
        return Err(End::Malformed);
    };
    if !is_taken(client, &option) {
        return Err(End::Malformed);
    }
    let bytes = &mut room[..option.length as usize];
    fill(input, bytes)?;
    let kind = option_kind(option.code);
    give_answer(option.code, kind, bytes, export, client, output)?;
    Ok(outcome_of(kind, bytes))
}

fn is_export_name(kind: OptionKind) -> bool
    ensures { result ≡ is_export_name kind }
{
    match kind {
        OptionKind::ExportName => true,
        OptionKind::Abort
        | OptionKind::List
        | OptionKind::Info
        | OptionKind::Go
        | OptionKind::Unknown => false,
    }
}

// Whether an option of this client is taken.
fn is_taken(client: &ClientFlags, option: &OptionHead) -> bool
    ensures { result ≡ is_taken client.now option.now }
{
    option.length <= INFO_LIMIT
        && (client.fixed_newstyle || is_export_name(option_kind(option.code)))
}

// What an option with these data leads to.
fn outcome_of(kind: OptionKind, bytes: &[u8]) -> Outcome
    ensures { result ≡ outcome_by kind bytes.now }
{
    match kind {
        OptionKind::ExportName => Outcome::Serving,
        OptionKind::Abort => Outcome::Ending,
        OptionKind::Go => {
            if info_request_fits(bytes) {
                Outcome::Serving
            } else {
                Outcome::More
            }
        }
        OptionKind::List | OptionKind::Info | OptionKind::Unknown => Outcome::More,
    }
}
