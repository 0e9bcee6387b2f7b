//! A provider between its suspending and its resuming.
ghost use Rattle.std.specs.Prelude.{◌≡◌, ℕ, ◌∷◌, [], List, MatchResult, OnOk, OnErr, Ok};
ghost use Rattle.block_traits.specs.Disk.{DiskState, FailsIn, Logs};
ghost use Rattle.eli_metadata.specs.Checks.{settings_of, size_matches, slot_matches, supported};
ghost use Rattle.provider.specs.Answers.{Means, Target};
ghost use Rattle.sha2.specs.Sha256.{sha256};
ghost use Rattle.suspend.specs.Rest.{suspended_rest};
ghost use Rattle.suspend.specs.Resuming.{OpensTo, ResumeAnswers, ResumeFails};
ghost use Rattle.suspend.specs.Suspension.{KeepsOfProvider};

use crate::ResumeFault;
use block_traits::{Disk, DiskFailed, Event, MetaPlace, NoMemory, Sector, store_last};
use eli_base::{MasterKey, Params};
use eli_metadata::Metadata;
use provider::{OpenedSlot, Provider, open_slot};
use sha2::{Digest, Sha256};
use std::alloc::Global;
use std::marker::Model;
use user_key::UserKey;

// The SHA-256 of the 128 bytes of a master key.
fn digest_of(master: &MasterKey) -> [u8; 32]
    ensures { result ≡ sha256 master.now.bytes }
{
    Sha256::digest(&master.bytes)
}

// What is kept of a provider beside its disk.
#[derive(Clone, Copy)]
struct Kept {
    sectorsize: u32,
    sectors: u64,
    slot: u8,
    readonly: bool,
    mark: [u8; 32],
}

/// A suspended provider, which has its disk. It has no keys: of the master key it keeps the SHA-256.
///
/// Contracts see the disk, and what is kept of the provider.
// The bound is `Drop` and not `Disk`, so that the type may be named at a boxed disk.
#[derive(Drop)]
pub struct Suspended<D: Drop> {
    disk: D,
    kept: Kept,
}

impl<D: Drop> Model for Suspended<D> {
    ghost use Rattle.std.specs.Prelude.{◌≡◌};
    ghost use Rattle.suspend.specs.Suspension.{Suspension};

    ghost Value = { Suspension D };

    ghost view = { λ s. record { disk = s.disk; sectorsize = s.kept.sectorsize; sectors = s.kept.sectors; slot = s.kept.slot; readonly = s.kept.readonly; mark = s.kept.mark } };

    // It keeps these and nothing else: a further field would be missing in this record.
    ghost invariant = { λ s. s ≡ record { disk = s.disk; kept = record { sectorsize = s.kept.sectorsize; sectors = s.kept.sectors; slot = s.kept.slot; readonly = s.kept.readonly; mark = s.kept.mark } } };
}

impl<D: Disk> Suspended<D> {
    /// Suspends a provider: its disk is flushed once, nothing is read, and its keys are let go. It is suspended even if
    /// the flush fails.
    pub fn suspend(on: Provider<D>) -> (Suspended<D>, Result<(), DiskFailed>)
        ensures kept { KeepsOfProvider D.state on result.0 }
        ensures ok { OnOk result.1 (Logs (Event.Flush ∷ []) (D.state on.disk) (D.state result.0.disk)) }
        ensures err { OnErr result.1 (FailsIn (Event.Flush ∷ []) (D.state on.disk) (D.state result.0.disk)) }
        ensures unasked { (D.state result.0.disk).reads ≡ (D.state on.disk).reads }
    {
        let kept = Kept {
            sectorsize: on.sector_size(),
            sectors: on.sectors(),
            slot: on.slot(),
            readonly: on.read_only(),
            mark: digest_of(&on.master()),
        };
        let mut disk = on.withdraw();
        let answer = disk.flush();
        (Suspended { disk, kept }, answer)
    }

    /// The bytes of a logical sector, as they were at suspending.
    pub fn sector_size(&self) -> u32
        ensures { result ≡ self.now.sectorsize }
    {
        self.kept.sectorsize
    }

    /// How many logical sectors there were at suspending.
    pub fn sectors(&self) -> u64
        ensures { result ≡ self.now.sectors }
    {
        self.kept.sectors
    }

    /// The number of the slot that gave the master key.
    pub fn slot(&self) -> u8
        ensures { result ≡ self.now.slot }
    {
        self.kept.slot
    }

    /// Whether the provider was read-only.
    pub fn read_only(&self) -> bool
        ensures { result ≡ self.now.readonly }
    {
        self.kept.readonly
    }

    /// The SHA-256 of the 128 bytes of the master key.
    pub fn mark(&self) -> [u8; 32]
        ensures { result ≡ self.now.mark }
    {
        self.kept.mark
    }

    // The slot of these metadata that the key opens, if it has the master key that the provider had; else why the
    // provider isn't resumed.
    fn open_again(
        &self,
        meta: &Metadata,
        params: &Params,
        key: &UserKey,
        slot: Option<u8>,
    ) -> Result<OpenedSlot, ResumeFault>
        requires checked { supported meta.now ≡ Ok (settings_of params.now) }
        requires size { size_matches meta.now (D.state self.now.disk).size ≡ Ok tt }
        requires slot { slot_matches meta.now slot ≡ Ok tt }
        ensures { let target : Target = record { meta = meta.now; params = params.now; disk = D.state self.now.disk } in
            let means : Means = record { key = key.now.bytes; named = slot; readonly = self.now.readonly } in
            MatchResult result
            (λ found. OpensTo target means found.slot found.master.bytes × (sha256 found.master.bytes ≡ self.now.mark))
            (λ fault. ResumeFails target means self.now.mark fault) }
    {
        let found = open_slot(meta, params, key, slot)?;
        let kept = self.kept.mark;
        let opened = digest_of(&found.master);
        if opened != kept {
            return Err(ResumeFault::DifferentKey { kept, opened });
        }
        Ok(found)
    }

    /// Attaches the provider again, by metadata of its disk: with the master key of the slot that is named, or else of
    /// the first slot that `key` opens, which has to be the master key that it had. Its keying is that of the metadata.
    /// It is read-only if it was so or the metadata say so.
    ///
    /// `params` are those that `check` gave of the metadata, and both gates let this disk and this slot through.
    ///
    /// After a refusal it is suspended as before. In this order: `TooSmall`, exactly if the disk has no whole logical
    /// sector; `WrongKey`, exactly if no slot that is asked for opens; `DifferentKey`, exactly if the SHA-256 of the
    /// master key that opened isn't the one that was kept; `NoMemory`. No call of the disk is made.
    pub fn resume(
        self,
        alloc: Global,
        meta: &Metadata,
        params: &Params,
        key: &UserKey,
        slot: Option<u8>,
    ) -> Result<Provider<D>, (Suspended<D>, ResumeFault)>
        requires checked { supported meta.now ≡ Ok (settings_of params.now) }
        requires size { size_matches meta.now (D.state self.disk).size ≡ Ok tt }
        requires slot { slot_matches meta.now slot ≡ Ok tt }
        ensures { let target : Target = record { meta = meta.now; params = params.now; disk = D.state self.disk } in
            let means : Means = record { key = key.now.bytes; named = slot; readonly = self.readonly } in
            ResumeAnswers target means self result }
    {
        let found = match self.open_again(meta, params, key, slot) {
            Ok(found) => found,
            Err(fault) => return Err((self, fault)),
        };
        let Suspended { disk, kept } = self;
        match Provider::attach_opened(alloc, disk, params, &found, kept.readonly) {
            Ok(provider) => Ok(provider),
            Err((disk, NoMemory)) => Err((Suspended { disk, kept }, ResumeFault::NoMemory)),
        }
    }

    /// Flushes the disk once, and gives it back even if that fails. Nothing is read.
    pub fn detach(self) -> (D, Result<(), DiskFailed>)
        ensures ok { OnOk result.1 (Logs (Event.Flush ∷ []) (D.state self.disk) (D.state result.0)) }
        ensures err { OnErr result.1 (FailsIn (Event.Flush ∷ []) (D.state self.disk) (D.state result.0)) }
        ensures unasked { (D.state result.0).reads ≡ (D.state self.disk).reads }
    {
        let mut disk = self.disk;
        let flushed = disk.flush();
        (disk, flushed)
    }

    /// Gives the disk back as it is. No call of it is made.
    pub fn withdraw(self) -> D
        ensures { result ≡ self.disk }
    {
        let disk = self.disk;
        disk
    }
}

/// A suspended provider as a place of metadata: it has the disk's state, and keeps what was kept of the provider.
impl<D: Disk> MetaPlace for Suspended<D> {
    ghost state = { λ s. D.state s.disk };

    ghost rest = { suspended_rest };

    fn sectors(&self) -> u64 {
        self.disk.sectors()
    }

    fn load_sector(&mut self, n: u64, into: &mut Sector) -> Result<(), DiskFailed> {
        self.disk.read(n, into)
    }

    fn store(&mut self, from: &Sector) -> Result<(), DiskFailed> {
        store_last(&mut self.disk, from)
    }
}
