//! The words of the command line.
ghost use Rattle.std.specs.Prelude.{IfOk};
ghost use Rattle.file_edge.specs.Words.{HasWords};

use std::alloc::{AllocError, Global};
use std::env::Args;
use std::io::{self, ErrorKind};

/// The words of the command line: the arguments without the program's name. Arguments that are no text are no words,
/// and ask for nothing.
pub fn words_of(alloc: Global, args: io::Result<Args>) -> Result<Vec<String>, AllocError>
    ensures { IfOk result (λ words. HasWords args words.items) }
{
    match args {
        Ok(args) => args.skip(1).collect(alloc),
        Err(error) if error.kind() == ErrorKind::OutOfMemory => Err(AllocError),
        Err(_) => Ok(Vec::new(alloc)),
    }
}
