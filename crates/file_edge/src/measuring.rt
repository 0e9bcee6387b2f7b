//! An open file is looked at before it is served as an image.
ghost use Rattle.std.specs.Prelude.{◌≡◌, ◌<◌, ◌^◌, IfSome, IsNone, false};
ghost use Rattle.file_edge.specs.ImageFile.{IsUncalled};
ghost use Rattle.file_edge.specs.Measuring.{FindsEnd, IsMeasured, LocksToChange, TakesSize, unserved};
ghost use Rattle.file_edge.specs.Told.{EndsTold};

use crate::found::{FileId, is_free};
use crate::image_file::ImageFile;

/// Which file it is, and its size in bytes if it is served.
#[derive(Clone, Copy, Debug, PartialEq, Eq)]
pub struct Measured {
    /// Which file it is.
    pub id: FileId,
    /// Its size; none: it isn't served.
    pub length: Option<u64>,
}

fn unserved(id: FileId) -> Measured
    ensures { result ≡ unserved id }
{
    Measured { id, length: None }
}

// Whether a file may be used: one that is to be changed is locked first.
fn hold<F: ImageFile>(file: &mut F, changes: bool) -> bool
    requires uncalled { IsUncalled (F.calls file.old) }
    requires free { F.held file.old ≡ false }
    ensures locks { LocksToChange (⟦<F as ImageFile>⟧) changes result file.old file.new }
    ensures told { F.told file.new ≡ F.told file.old }
    ensures free { result ≡ false → F.held file.new ≡ false }
{
    if changes {
        return file.lock().is_ok();
    }
    true
}

// The size of a file that isn't too large, if it may be used.
fn take<F: ImageFile>(file: &mut F, changes: bool, size: u64) -> Option<u64>
    requires uncalled { IsUncalled (F.calls file.old) }
    requires free { F.held file.old ≡ false }
    ensures takes { TakesSize (⟦<F as ImageFile>⟧) changes size result file.old file.new }
    ensures told { F.told file.new ≡ F.told file.old }
    ensures size { IfSome result (λ is. is ≡ size) }
    ensures free { IsNone result → F.held file.new ≡ false }
{
    if hold(file, changes) {
        Some(size)
    } else {
        None
    }
}

// The size of a file, if it has an end below 2^53 bytes and may be used.
fn find_end<F: ImageFile>(file: &mut F, changes: bool) -> Option<u64>
    requires uncalled { IsUncalled (F.calls file.old) }
    requires free { F.held file.old ≡ false }
    ensures end { FindsEnd (⟦<F as ImageFile>⟧) changes result file.old file.new }
    ensures told { IfSome result (EndsTold (F.told file.new)) }
    ensures small { IfSome result (λ size. size < 2 ^ 53) }
    ensures free { IsNone result → F.held file.new ≡ false }
{
    match file.end() {
        Ok(size) if size < 1 << 53 => take(file, changes, size),
        _ => None,
    }
}

/// What an open file serves as, which was just opened under a name that led to the file `id`. It is served if it is a
/// regular file or a block device, none of these images, and has an end below 2^53 bytes. If it is to be changed, it is
/// locked too. A file that isn't served isn't held: it can only be let go.
pub(crate) fn measure<F: ImageFile>(
    file: &mut F,
    images: &[FileId],
    changes: bool,
    id: FileId,
) -> Measured
    requires uncalled { IsUncalled (F.calls file.old) }
    requires free { F.held file.old ≡ false }
    ensures looks { IsMeasured (⟦<F as ImageFile>⟧) images.now changes file.old id result file.new }
    ensures told { IfSome result.length (EndsTold (F.told file.new)) }
    ensures small { IfSome result.length (λ size. size < 2 ^ 53) }
    ensures free { IsNone result.length → F.held file.new ≡ false }
{
    match file.found() {
        Ok(found) => {
            if !is_free(images, &found) {
                return unserved(found.id);
            }
            Measured {
                id: found.id,
                length: find_end(file, changes),
            }
        }
        Err(_) => unserved(id),
    }
}
