//! What follows from what `restore` did: that the metadata are read back, and what the last sector may hold whenever
//! power fails.

ghost use Rattle.std.specs.Prelude.{ℕ, Bool, List};
ghost use Rattle.block_traits.specs.Disk.{DiskState, last_sector};
ghost use Rattle.block_traits.specs.Moments.{KeepsAlone, KeepsOldOr};
ghost use Rattle.eli_metadata.specs.Format.{encoded};
ghost use Rattle.eli_metadata.specs.Place.{IsSectorOf};
ghost use Rattle.eli_metadata.specs.declared.metadata.Metadata.{Metadata};
ghost use Rattle.backup_restore.specs.Restoring.{GivesMetadata, IsBackedUp, WritesBack, WritesPart};

/// The metadata that `restore` writes are read back from their sector, which is that of the backup unless the size
/// was forced.
pub fn what_restore_writes_is_of_use()
    ensures { (bytes : List ℕ) (force : Bool) (sectors : ℕ) (m : Metadata) → GivesMetadata bytes force sectors m →
        IsBackedUp bytes force m }
{}

/// Whenever power fails in `restore`, each value that the last sector may hold is one from before or the new
/// metadata. Once `restore` is done, the new metadata are the only value.
pub fn restore_leaves_old_or_new()
    ensures done { (bytes : List ℕ) (force : Bool) (disk disk' : DiskState) (m : Metadata) → WritesBack bytes force disk m disk' →
        KeepsOldOr (IsSectorOf m) (last_sector disk) disk.content disk'.content × KeepsAlone (encoded m) (last_sector disk) disk'.content }
    ensures part { (bytes : List ℕ) (force : Bool) (disk disk' : DiskState) → (part : WritesPart bytes force disk disk') →
        KeepsOldOr (IsSectorOf part.m) (last_sector disk) disk.content disk'.content }
{}
