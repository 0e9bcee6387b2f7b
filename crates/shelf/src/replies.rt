//! What a command returns, as a reply.
ghost use Rattle.std.specs.Prelude.{◌≡◌, ◌*◌, ◌≤◌, ℕ, List, IfOk, IfSome};
ghost use Rattle.reply_text.specs.Answer.{answer_of};
ghost use Rattle.command_rows.specs.Requests.{bytes_given, bytes_read};
ghost use Rattle.eli_base.specs.Requests.{request_limit};
ghost use Rattle.command_rows.specs.Turn.{digest_or, done_or, dump_or, left_or, payload_or, reaped_or, tag_or};
ghost use Rattle.command_rows.specs.Turn.{verified_or};
ghost use Rattle.reply_text.specs.Text.{FitsPayload};
ghost use Rattle.shelf.specs.Verifying.{swept_part};

use eli_base::Refusal;
use eli_metadata::Metadata;
use reply_text::Reply;
use verify_sweep::Swept;

/// The reply of a command that returns nothing else.
pub fn done_or(answer: Result<(), Refusal>) -> Reply
    ensures reply { (bytes : List ℕ) → answer_of bytes result ≡ done_or answer }
    ensures payload { FitsPayload 0 result }
{
    match answer {
        Ok(()) => Reply::Done,
        Err(refusal) => Reply::Refused(refusal),
    }
}

/// The reply of `dump`.
pub fn dump_or(answer: Result<Metadata, Refusal>) -> Reply
    ensures reply { (bytes : List ℕ) → answer_of bytes result ≡ dump_or answer }
    ensures payload { FitsPayload 0 result }
{
    match answer {
        Ok(meta) => Reply::Dump(meta),
        Err(refusal) => Reply::Refused(refusal),
    }
}

/// The reply of a command that returns bytes, which stand in the buffer.
pub fn payload_or(answer: Result<u32, Refusal>) -> Reply
    requires { IfOk answer (λ bytes. bytes ≤ request_limit) }
    ensures reply { (bytes : List ℕ) → answer_of bytes result ≡ payload_or (bytes_read bytes answer) }
    ensures payload { FitsPayload request_limit result }
{
    match answer {
        Ok(length) => Reply::Payload { length },
        Err(refusal) => Reply::Refused(refusal),
    }
}

/// The reply of `sum`.
pub fn digest_or(answer: Result<[u8; 32], Refusal>) -> Reply
    ensures reply { (bytes : List ℕ) → answer_of bytes result ≡ digest_or answer }
    ensures payload { FitsPayload 0 result }
{
    match answer {
        Ok(digest) => Reply::Digest(digest),
        Err(refusal) => Reply::Refused(refusal),
    }
}

/// The reply of `submit`.
pub fn tag_or(answer: Result<u8, Refusal>) -> Reply
    ensures reply { (bytes : List ℕ) → answer_of bytes result ≡ tag_or answer }
    ensures payload { FitsPayload 0 result }
{
    match answer {
        Ok(tag) => Reply::Tag { tag },
        Err(refusal) => Reply::Refused(refusal),
    }
}

/// The reply of `step`.
pub fn left_or(answer: Result<u64, Refusal>) -> Reply
    ensures reply { (bytes : List ℕ) → answer_of bytes result ≡ left_or answer }
    ensures payload { FitsPayload 0 result }
{
    match answer {
        Ok(left) => Reply::Left { left },
        Err(refusal) => Reply::Refused(refusal),
    }
}

/// The reply of `reap`: bytes of a read stand in the buffer.
pub fn reaped_or(answer: Result<Option<u32>, Refusal>) -> Reply
    requires { IfOk answer (λ given. IfSome given (λ bytes. bytes ≤ request_limit)) }
    ensures reply { (bytes : List ℕ) → answer_of bytes result ≡ reaped_or (bytes_given bytes answer) }
    ensures payload { FitsPayload request_limit result }
{
    match answer {
        Ok(Some(length)) => Reply::Payload { length },
        Ok(None) => Reply::Done,
        Err(refusal) => Reply::Refused(refusal),
    }
}

/// The reply of `verify`: the offsets stand in the buffer.
pub fn verified_or(answer: Result<Swept, Refusal>) -> Reply
    requires { IfOk answer (λ swept. 8 * swept.bad ≤ request_limit) }
    ensures reply { (bytes : List ℕ) → answer_of bytes result ≡ verified_or (swept_part bytes answer) }
    ensures payload { FitsPayload request_limit result }
{
    match answer {
        Ok(swept) => Reply::Verified {
            bad: swept.bad,
            next: swept.next,
        },
        Err(refusal) => Reply::Refused(refusal),
    }
}
