//! How a run ended.
ghost use Rattle.std.specs.Prelude.{◌≡◌};
ghost use Rattle.std.specs.Process.{exit_status};
ghost use Rattle.nbd_run.specs.Status.{run_number, session_status};

use nbd_negotiation::End;
use std::process::ExitCode;

/// How a run ended. Each status has a number, with which the program exits.
#[derive(Clone, Copy, Debug, PartialEq, Eq)]
pub enum Status {
    /// The client ended, each of its writes and flushes was done, and so was the last flush. Or a text was printed.
    Done,
    /// The provider wasn't attached; or a write, a request for zeros or a flush was refused, or the last flush failed,
    /// however the session ended.
    SomeRefused,
    /// The words ask for nothing that the program does.
    BadWords,
    /// The source failed, and nothing was refused.
    ReadFault,
    /// The sink failed, and nothing was refused.
    WriteFault,
    /// There was no memory, and nothing was served.
    NoMemory,
    /// The client sent what no client sends, and nothing was refused.
    Malformed,
}

impl Status {
    /// The number of the status, from 0 to 6.
    pub fn number(&self) -> u8
        ensures { result ≡ run_number self.now }
    {
        match self {
            Status::Done => 0,
            Status::SomeRefused => 1,
            Status::BadWords => 2,
            Status::ReadFault => 3,
            Status::WriteFault => 4,
            Status::NoMemory => 5,
            Status::Malformed => 6,
        }
    }
}

/// The exit code of a status.
pub fn exit_code(status: Status) -> ExitCode
    ensures { exit_status result ≡ run_number status }
{
    ExitCode::from(status.number())
}

/// The status of a session, by why it ended, whether a request to change or to flush the disk was answered with an
/// error, and whether the last flush was made. What was refused comes first, and then why it ended.
pub(crate) fn session_status(end: End, denied: bool, flushed: bool) -> Status
    ensures { result ≡ session_status end denied flushed }
{
    if denied || !flushed {
        return Status::SomeRefused;
    }
    match end {
        End::ReadFault => Status::ReadFault,
        End::WriteFault => Status::WriteFault,
        End::Malformed => Status::Malformed,
        End::Closed => Status::Done,
    }
}
