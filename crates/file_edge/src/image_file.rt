//! An open file: an image by byte offsets, a key file or the random device from its front.
ghost use Rattle.std.specs.Prelude.{◌≡◌, ◌+◌, ◌/◌, ◌%◌, ◌∷◌, [], ℕ, List, Option, Bool, IfOk, IfSome, OnErr, OnOk, Result, is_ok, length, option_map, take, true};
ghost use Rattle.std.specs.Io.KnownBytes.{prepend_known};
ghost use Rattle.std.specs.Result.{result_ok};
ghost use Rattle.std.specs.declared.io.Error.{Error};
ghost use Rattle.block_traits.specs.Disk.{write_events};
ghost use Rattle.block_traits.specs.declared.disk.Event.TheVariants.{Flush};
ghost use Rattle.file_edge.specs.Asked.{more};
ghost use Rattle.file_edge.specs.ImageFile.{Call, IsUncalled, Lock, ReadAt, SyncData, WriteAt, read_bytes};
ghost use Rattle.file_edge.specs.Told.{EndsTold, Leaves, ReadsTold, Told, contents};
ghost use Rattle.file_edge.specs.declared.found.Found.{Found};

use crate::found::Found;
use block_traits::ByteList;
use std::alloc::Global;
use std::io;

/// An open file. What is asked of it is proved for every such file. So a contract can say where a sector stands, what
/// is brought to the disk and which bytes are loaded, although nothing says what the system returns.
///
/// A file may report its sectors, which are its whole 512-byte pieces: what they held at first, and each write and sync
/// since. It then always does so, keeps their number, is changed by nobody else, and writes each sector whole or not at
/// all. It may also report the bytes that are left to be read from its front.
pub trait ImageFile: Drop {
    /// Whether this may be found of it.
    ghost tells: { Self → Result Found Error → Type 0 };

    /// Whether a lock may have this result, and what the file then is; true: no other open file holds it.
    ghost locks: { Self → Bool → Self → Type 0 };

    /// Whether its end may be found at this byte offset, and what the file then is; none: it isn't found.
    ghost ends: { Self → Option ℕ → Self → Type 0 };

    /// Whether bytes at a byte offset may be read as these; none: they aren't read.
    ghost reads: { Self → ℕ → Option (List ℕ) → Type 0 };

    /// Whether a write of these bytes at a byte offset may have this result.
    ghost writes: { Self → ℕ → List ℕ → Result Unit Error → Type 0 };

    /// Whether a sync may have this result; true: what was written is on the disk.
    ghost syncs: { Self → Bool → Type 0 };

    /// Whether it is locked. Only a file that is held may be written.
    ghost held: { Self → Bool };

    /// All that it was asked to lock, to read, to write and to sync, in order, if that is reported.
    ghost calls: { Self → Option (List Call) };

    /// What its sectors held at first and what was done to them since, if that is reported.
    ghost told: { Self → Option Told };

    /// The bytes that are left to be read from its front, if that is reported.
    ghost left: { Self → Option (List ℕ) };

    /// Whether so many bytes may be filled with these, and what the file then is; none: that fails.
    ghost fills: { ℕ → Self → Option (List ℕ) → Self → Type 0 };

    /// Whether all that is left, of more than so many bytes the first of them, may be read as this.
    ghost holds: { Self → ℕ → Result (List ℕ) Error → Type 0 };

    /// What is found of it.
    fn found(&self) -> io::Result<Found>
        ensures { tells self.now result };

    /// Locks it, without waiting, for as long as it is open. It is locked before any call is noted.
    fn lock(&mut self) -> io::Result<()>
        requires uncalled { IsUncalled (calls self.old) }
        ensures locks { locks self.old (is_ok result) self.new }
        ensures held { held self.new ≡ is_ok result }
        ensures calls { calls self.new ≡ more (Lock ∷ []) (calls self.old) }
        ensures told { told self.new ≡ told self.old };

    /// Whether it is locked.
    fn is_held(&self) -> bool
        ensures { result ≡ held self.now };

    /// The byte offset of the end. Nothing is left to be read from the front then.
    fn end(&mut self) -> io::Result<u64>
        ensures ends { ends self.old (result_ok result) self.new }
        ensures found { IfOk result (EndsTold (told self.old)) }
        ensures held { held self.new ≡ held self.old }
        ensures calls { calls self.new ≡ calls self.old }
        ensures told { told self.new ≡ told self.old }
        ensures left { OnOk result (left self.new ≡ option_map (λ _. []) (left self.old)) };

    /// Reads whole sectors at a byte offset, all or none.
    fn read_bytes(&mut self, at: u64, into: &mut [u8]) -> io::Result<()>
        requires at { at % 512 ≡ 0 }
        requires whole { length into.old % 512 ≡ 0 }
        ensures reads { reads self.old at (read_bytes result into.new) }
        ensures calls { calls self.new ≡ more (ReadAt at (length into.old) ∷ []) (calls self.old) }
        ensures bytes { OnOk result (ReadsTold (told self.old) at into.new) }
        ensures told { contents (told self.new) ≡ contents (told self.old) };

    /// Writes whole sectors at a byte offset. If that failed, some of the first were written and nothing else.
    fn write_bytes(&mut self, at: u64, from: &[u8]) -> io::Result<()>
        requires held { held self.old ≡ true }
        requires at { at % 512 ≡ 0 }
        requires whole { length from.now % 512 ≡ 0 }
        ensures writes { writes self.old at from.now result }
        ensures calls { calls self.new ≡ more (WriteAt at from.now ∷ []) (calls self.old) }
        ensures told { Leaves (write_events (at / 512) from.now) (at / 512 + length from.now / 512) (is_ok result)
            (contents (told self.old)) (contents (told self.new)) };

    /// Brings what was written to the disk. A sync that failed was done or wasn't.
    fn sync(&mut self) -> io::Result<()>
        ensures syncs { syncs self.old (is_ok result) }
        ensures calls { calls self.new ≡ more (SyncData ∷ []) (calls self.old) }
        ensures told { Leaves (Flush ∷ []) 0 (is_ok result) (contents (told self.old)) (contents (told self.new)) };

    /// Fills all of `into` with the first bytes that are left. A failure takes none of the bytes that are reported, and
    /// `into` may then hold any bytes.
    fn fill_all(&mut self, into: &mut [u8]) -> io::Result<()>
        ensures fills { fills (length into.old) self.old (read_bytes result into.new) self.new }
        ensures ok { OnOk result (left self.old ≡ prepend_known into.new (left self.new)) }
        ensures err { OnErr result (left self.new ≡ left self.old) };

    /// Reads all that is left, but of more than `most` bytes the first of them.
    fn read_all(self, alloc: Global, most: u64) -> io::Result<ByteList>
        ensures holds { holds self most result }
        ensures known { IfOk result (λ bytes. IfSome (left self) (λ left. bytes ≡ take most left)) };
}
