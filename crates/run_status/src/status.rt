//! How a run ended.
ghost use Rattle.std.specs.Prelude.{◌≡◌};
ghost use Rattle.run_status.specs.Status.{status_number};

/// How a run ended. Each status has a number, with which the program exits.
#[derive(Clone, Copy, Debug, PartialEq, Eq)]
pub enum Status {
    /// The input was read to its end, or one command was given, and nothing was refused.
    Done,
    /// The input was read to its end, or one command was given, and some command was refused.
    SomeRefused,
    /// The words ask for nothing that the program does.
    BadWords,
    /// The source failed.
    ReadFault,
    /// The sink failed.
    WriteFault,
    /// There was no memory, and nothing was done.
    NoMemory,
    /// A line is too long.
    LineTooLong,
    /// The input is too long.
    ScriptTooLong,
}

impl Status {
    /// The number of the status, from 0 to 7.
    pub fn number(&self) -> u8
        ensures { result ≡ status_number self.now }
    {
        match self {
            Status::Done => 0,
            Status::SomeRefused => 1,
            Status::BadWords => 2,
            Status::ReadFault => 3,
            Status::WriteFault => 4,
            Status::NoMemory => 5,
            Status::LineTooLong => 6,
            Status::ScriptTooLong => 7,
        }
    }
}
