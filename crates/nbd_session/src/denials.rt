//! What a session refused: the writes, the requests for zeros and the flushes that were answered with an error.
ghost use Rattle.std.specs.Prelude.{◌≡◌};
ghost use Rattle.nbd_session.specs.Denials.{MayCount, with_denied, denial_where, no_denials, some_denied};

use nbd_words::ReplyError;

/// What was to be done by a request that was answered with an error.
#[derive(Clone, Copy, Debug, PartialEq, Eq)]
pub enum DeniedKind {
    /// Bytes were to be written.
    Write,
    /// Zeros were to be written.
    Zeros,
    /// The disk was to be flushed.
    Flush,
}

/// A request to change or to flush the disk that was answered with an error.
#[derive(Clone, Copy, Debug, PartialEq, Eq)]
pub struct Denial {
    /// What was to be done.
    pub kind: DeniedKind,
    /// The offset of the request.
    pub offset: u64,
    /// The error of its reply.
    pub error: ReplyError,
}

/// How many requests to change or to flush the disk were answered with an error, and the first of them.
#[derive(Clone, Copy, Debug, PartialEq, Eq)]
pub struct Denials {
    /// The writes among them.
    pub writes: u64,
    /// The requests for zeros.
    pub zeros: u64,
    /// The flushes.
    pub flushes: u64,
    /// The first of them all.
    pub first: Option<Denial>,
}

impl Denials {
    /// Nothing was denied.
    pub fn none() -> Denials
        ensures { result ≡ no_denials }
    {
        Denials {
            writes: 0,
            zeros: 0,
            flushes: 0,
            first: None,
        }
    }

    /// Whether something was denied.
    pub fn are_some(&self) -> bool
        ensures { result ≡ some_denied self.now }
    {
        self.first.is_some()
    }
}

// A request of this kind was denied, if its reply is an error.
pub(crate) fn denial_where(error: ReplyError, kind: DeniedKind, offset: u64) -> Option<Denial>
    ensures { result ≡ denial_where error kind offset }
{
    if error == ReplyError::Done {
        return None;
    }
    Some(Denial {
        kind,
        offset,
        error,
    })
}

// With one more, if it was denied.
pub(crate) fn with_denied(denials: &Denials, denial: Option<Denial>) -> Denials
    requires { MayCount denials.now }
    ensures { result ≡ with_denied denials.now denial }
{
    let Some(denial) = denial else {
        return *denials;
    };
    let Denials {
        writes,
        zeros,
        flushes,
        first,
    } = *denials;
    let first = Some(first.unwrap_or(denial));
    match denial.kind {
        DeniedKind::Write => Denials {
            writes: writes + 1,
            zeros,
            flushes,
            first,
        },
        DeniedKind::Zeros => Denials {
            writes,
            zeros: zeros + 1,
            flushes,
            first,
        },
        DeniedKind::Flush => Denials {
            writes,
            zeros,
            flushes: flushes + 1,
            first,
        },
    }
}
