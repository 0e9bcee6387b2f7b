//! `geli restore`: metadata are written back from a file (geli(8)).

ghost use Rattle.std.specs.Prelude.{◌≡◌, length};
ghost use Rattle.block_traits.specs.Streams.{EntropyState};
ghost use Rattle.command_words.specs.Places.{IsWithin};
ghost use Rattle.command_rows.specs.World.{Idle, reach_of};
ghost use Rattle.command_rows.specs.verbs.Restore.{RestoreRow};

use block_traits::{Cabinet, Disk};
use command_words::Span;
use eli_base::Refusal;
use key_components::{FILE_LIMIT, load_file};
use std::alloc::Global;

/// Writes the metadata of the file at a place of the line to the disk of an idle drawer; if the sizes differ, only when
/// forced.
pub fn restore<D: Disk, C: Cabinet>(
    alloc: Global,
    disk: &mut D,
    line: &[u8],
    file: Span,
    force: bool,
    files: &mut C,
) -> Result<(), Refusal>
    requires { IsWithin (length line.now) file }
    ensures { (entropy : EntropyState) → RestoreRow line.now file force
        (reach_of (D.state disk.old) Idle (C.state files.old) entropy) result
        (reach_of (D.state disk.new) Idle (C.state files.new) entropy) }
{
    let bytes = load_file(alloc, line, file, FILE_LIMIT, files)?;
    backup_restore::restore(disk, bytes.as_slice(), force)?;
    Ok(())
}
