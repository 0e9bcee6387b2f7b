//! What the program exits with.
ghost use Rattle.std.specs.Prelude.{◌≡◌, MatchResult};
ghost use Rattle.std.specs.Process.{exit_status};
ghost use Rattle.run_status.specs.Status.{status_number};

use crate::Status;
use std::process::ExitCode;

/// The exit code of a status.
pub fn exit_code(status: Status) -> ExitCode
    ensures { exit_status result ≡ status_number status }
{
    ExitCode::from(status.number())
}

/// The status of a run, or want of memory; the shelf, the files and the random bytes are let go.
pub fn status_of<S: Drop, C: Drop, E: Drop, X: Drop>(ran: Result<(Status, S, C, E), X>) -> Status
    ensures { MatchResult ran (λ left. result ≡ left.0) (λ _. result ≡ Status.NoMemory) }
{
    match ran {
        Ok((status, _, _, _)) => status,
        Err(_) => Status::NoMemory,
    }
}
