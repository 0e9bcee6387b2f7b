//! A cabinet: a store of whole files, each with a name.
ghost use Rattle.std.specs.Prelude.{◌≡◌, ◌≤◌, OnOk, OnErr, IfOk, IsErrOf, length};
ghost use Rattle.block_traits.specs.Cabinet.{CabinetState, LoadGives, stored};
ghost use Rattle.block_traits.specs.Causes.{Counted, Rose};

use crate::ByteList;
use std::alloc::Global;

/// Why a file wasn't loaded.
#[derive(Clone, Copy, Debug, PartialEq, Eq)]
pub enum LoadFault {
    /// No file has the name.
    Absent,
    /// The file is longer than the limit.
    TooLong,
    /// The cabinet failed.
    Failed,
    /// There was no memory.
    NoMemory,
}

/// Why a file wasn't stored.
#[derive(Clone, Copy, Debug, PartialEq, Eq)]
pub enum StoreFault {
    /// The cabinet failed.
    Failed,
    /// There was no memory.
    NoMemory,
}

/// A cabinet: a store of whole files, each with a name.
pub trait Cabinet {
    /// The cabinet's files, if it reports them, as it does always or never. Then counts, none of which falls: of
    /// failures, of files that were absent or too long, of loads and of stores.
    ghost state: { Self → CabinetState };

    /// Loads the whole file of this name, if it has at most `limit` bytes. No file changes. The load is counted
    /// whatever the result.
    fn load(&mut self, alloc: Global, name: &[u8], limit: u64) -> Result<ByteList, LoadFault>
        ensures gives { LoadGives (state self.old).files name.now limit result }
        ensures within { IfOk result (λ bytes. length bytes ≤ limit) }
        ensures files { (state self.new).files ≡ (state self.old).files }
        ensures later { (state self.old).faults ≤ (state self.new).faults }
        ensures failed { IsErrOf result LoadFault.Failed → Rose (state self.old).faults (state self.new).faults }
        ensures more_misses { (state self.old).misses ≤ (state self.new).misses }
        ensures absent { IsErrOf result LoadFault.Absent → Rose (state self.old).misses (state self.new).misses }
        ensures too_long { IsErrOf result LoadFault.TooLong → Rose (state self.old).misses (state self.new).misses }
        ensures asked { Counted 1 (state self.old).loads (state self.new).loads }
        ensures unstored { (state self.new).stores ≡ (state self.old).stores };

    /// Makes or replaces the file of this name, and leaves the others. After a failure a cabinet that reports its files
    /// has the files that it had. Nothing is loaded. The store is counted whatever the result.
    fn store(&mut self, alloc: Global, name: &[u8], bytes: &[u8]) -> Result<(), StoreFault>
        ensures ok { OnOk result ((state self.new).files ≡ stored name.now bytes.now (state self.old).files) }
        ensures err { OnErr result ((state self.new).files ≡ (state self.old).files) }
        ensures later { (state self.old).faults ≤ (state self.new).faults }
        ensures failed { IsErrOf result StoreFault.Failed → Rose (state self.old).faults (state self.new).faults }
        ensures more_misses { (state self.old).misses ≤ (state self.new).misses }
        ensures unasked { (state self.new).loads ≡ (state self.old).loads }
        ensures stored { Counted 1 (state self.old).stores (state self.new).stores };
}
