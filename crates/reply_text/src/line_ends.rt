//! The answer to a line is printed, and how the line ends by it.
ghost use Rattle.std.specs.Prelude.{◌≡◌, ℕ, List, Some, length};
ghost use Rattle.reply_text.specs.Answer.{answer_of};
ghost use Rattle.reply_text.specs.LineEnds.{PrintsAnswer, end_of, is_refusal};
ghost use Rattle.reply_text.specs.Text.{FitsPayload};

use crate::reply::{Reply, write_reply};
use block_traits::Sink;
use text_page::WriteEnd;

/// How a line ended.
#[derive(Clone, Copy, Debug, PartialEq, Eq)]
pub enum LineEnd {
    /// The line says nothing, and nothing was printed.
    Silent,
    /// What was printed is no refusal.
    Accepted,
    /// A refusal was printed.
    Refused,
}

impl LineEnd {
    /// Whether a refusal was printed.
    pub fn is_refusal(self) -> bool
        ensures { result ≡ is_refusal self }
    {
        match self {
            LineEnd::Silent | LineEnd::Accepted => false,
            LineEnd::Refused => true,
        }
    }
}

fn end_of(reply: &Reply) -> LineEnd
    ensures { (bytes : List ℕ) → result ≡ end_of (Some (answer_of bytes reply.now)) }
{
    match reply {
        Reply::Refused(_) => LineEnd::Refused,
        Reply::Done => LineEnd::Accepted,
        Reply::Payload { .. } => LineEnd::Accepted,
        Reply::Digest(_) => LineEnd::Accepted,
        Reply::Rows(_) => LineEnd::Accepted,
        Reply::Dump(_) => LineEnd::Accepted,
        Reply::Tag { .. } => LineEnd::Accepted,
        Reply::Left { .. } => LineEnd::Accepted,
        Reply::Verified { .. } => LineEnd::Accepted,
    }
}

/// Prints a reply, whose payload stands at the front of these bytes.
#[tactic(auto, using(crate::proofs::AnswerTexts::text_of_reply))]
pub fn print<K: Sink>(reply: &Reply, payload: &[u8], output: &mut K) -> Result<LineEnd, WriteEnd>
    requires { FitsPayload (length payload.now) reply.now }
    ensures { PrintsAnswer (Some (answer_of payload.now reply.now)) (K.state output.old) result (K.state output.new) }
{
    write_reply(reply, payload, output)?;
    Ok(end_of(reply))
}
