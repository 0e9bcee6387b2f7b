//! `geli backup`: metadata are stored in a file (geli(8)).

ghost use Rattle.std.specs.Prelude.{◌≡◌, length};
ghost use Rattle.block_traits.specs.Disk.{DiskState};
ghost use Rattle.block_traits.specs.Streams.{EntropyState};
ghost use Rattle.command_words.specs.Places.{IsWithin};
ghost use Rattle.command_rows.specs.Steps.{StoresBytes, store_refusal};
ghost use Rattle.command_rows.specs.World.{Holding, reach_of};
ghost use Rattle.command_rows.specs.verbs.Backup.{BackupRow};

use block_traits::{Cabinet, MetaPlace, StoreFault};
use command_words::Span;
use eli_base::Refusal;
use std::alloc::Global;

// The refusal of the file that the word names, by the fault of the store.
fn store_refusal(word: u32, fault: StoreFault) -> Refusal
    ensures { result ≡ store_refusal word fault }
{
    match fault {
        StoreFault::Failed => Refusal::CabinetFault { word },
        StoreFault::NoMemory => Refusal::NoMemory,
    }
}

/// Stores bytes under the name at a place of the line.
pub fn store_at<C: Cabinet>(
    alloc: Global,
    line: &[u8],
    span: Span,
    bytes: &[u8],
    files: &mut C,
) -> Result<(), Refusal>
    requires { IsWithin (length line.now) span }
    ensures { (disk : DiskState) (holding : Holding) (entropy : EntropyState) →
        StoresBytes line.now span bytes.now
        (reach_of disk holding (C.state files.old) entropy) result
        (reach_of disk holding (C.state files.new) entropy) }
{
    match files.store(alloc, span.bytes_in(line), bytes) {
        Ok(()) => Ok(()),
        Err(fault) => Err(store_refusal(span.word, fault)),
    }
}

/// Stores the last sector, if it has metadata, in the file at a place of the line.
pub fn backup<P: MetaPlace, C: Cabinet>(
    alloc: Global,
    place: &mut P,
    line: &[u8],
    file: Span,
    files: &mut C,
) -> Result<(), Refusal>
    requires { IsWithin (length line.now) file }
    ensures row { (holding : Holding) (entropy : EntropyState) → BackupRow line.now file
        (reach_of (P.state place.old) holding (C.state files.old) entropy) result
        (reach_of (P.state place.new) holding (C.state files.new) entropy) }
    ensures rest { P.rest place.new ≡ P.rest place.old }
{
    let mut sector = [0; 512];
    backup_restore::backup(place, &mut sector)?;
    store_at(alloc, line, file, &sector, files)
}
