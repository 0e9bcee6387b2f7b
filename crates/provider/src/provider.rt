//! An attached provider: a disk whose logical sectors are read and written under one keying.
//!
//! The invariant: the ring holds the keys of that keying, and the buffer has the size of the device sectors of as
//! many logical sectors as fit in 32 KiB, or of one if none does. All memory is reserved by `attach`, so no later
//! call fails for want of it. Callers may rely on keying, slot and read-only state staying as they are (`IsKept`).
//!
//! A request is checked before the disk is called: a write first for read-only, then each for its range. A refused
//! `read` or `open_from` leaves the caller's bytes all zeros, so nothing of a sector whose tag is wrong gets out. A
//! `write` that the disk refuses has written a prefix of its sealed device sectors, in ascending order. A refused
//! `attach` gives the disk back, and no call of it was made.
//!
//! Data is sealed into the buffer and then written by as few calls of the disk as the buffer allows. So the buffer
//! holds sealed bytes only, never plaintext, and needs no clearing.
ghost use Rattle.std.specs.Prelude.{◌≡◌, ◌≢◌, ℕ, ◌+◌, ◌*◌, ◌/◌, ◌%◌, ◌^◌, ◌<◌, ◌≤◌, ◌↔◌, ◌∷◌, [], List, IsTrue, OnOk, OnErr, None, Ok, Err, IfErr, IfOk, IfSome, MatchResult, false, is_ok, length, replicate, true};
ghost use Rattle.block_traits.specs.Causes.{Counted};
ghost use Rattle.block_traits.specs.Disk.{DiskState, FailsIn, Gives, GivesEach, Logs};
ghost use Rattle.block_traits.specs.Parts.{parts};
ghost use Rattle.eli_metadata.specs.Checks.{settings_of, size_matches, slot_matches, supported};
ghost use Rattle.provider.specs.Answers.{AttachAnswers, Means, ReadAnswers, Target, WriteAnswers, request};
ghost use Rattle.provider.specs.Attached.{IsKept, attached_with, has_tags, media};
ghost use Rattle.provider.specs.Rest.{rest_of};
ghost use Rattle.range_keys.specs.Ring.{IsKeying};
ghost use Rattle.sealing.specs.Data.{opened_data, sealed_sectors};
ghost use Rattle.sealing.specs.Sectors.{unit_reading_at, units};
ghost use Rattle.sector_runs.specs.Verdicts.{Judges};

use crate::attaching::{OpenedSlot, open_slot, reserve};
use crate::{AttachFault, OutOfRange, WriteFault};
use block_traits::{Disk, DiskFailed, Event, MetaPlace, NoMemory, Sector, store_last};
use eli_base::{Auth, Cipher, MasterKey, Params};
use eli_metadata::Metadata;
use range_keys::HeldRing;
use sector_runs::{
    BadUnit, Judged, ReadFault, judge, open_sectors, read_run, seal_sectors, write_run,
};
use std::alloc::Global;
use std::marker::Model;
use user_key::UserKey;

/// An attached provider, which has its disk.
///
/// Contracts see the disk, the keying, the slot that gave the master key, and whether the provider is read-only.
// The bound is `Drop` and not `Disk`, so that the type may be named at a boxed disk.
#[derive(Drop)]
pub struct Provider<D: Drop> {
    disk: D,
    ring: HeldRing,
    slot: u8,
    readonly: bool,
    // Logical sectors are sealed here, before one write of the disk, and device sectors are looked at here.
    buffer: Vec<u8>,
}

impl<D: Drop> Model for Provider<D> {
    ghost use Rattle.std.specs.Prelude.{◌≡◌, vec_len};
    ghost use Rattle.provider.specs.Attached.{Attached, buffer_bytes};

    ghost Value = { Attached D };

    ghost view = { λ p. record { disk = p.disk; keying = p.ring.keying; slot = p.slot; readonly = p.readonly } };

    ghost invariant = { λ p. vec_len p.buffer ≡ buffer_bytes p.ring.keying.auth p.ring.keying.sectorsize };
}

impl<D: Disk> Provider<D> {
    /// Attaches the provider on this disk, whose metadata are `meta`: with the master key of the slot that is named, or
    /// else of the first slot that `key` opens. It is read-only if `readonly` or the metadata say so.
    ///
    /// `params` are those that `check` returned for the metadata, and both gates let this disk and this slot through.
    ///
    /// The disk comes back with the fault. In this order: `TooSmall`, exactly if the disk has no whole logical
    /// sector; `WrongKey`, exactly if no slot that is asked for opens; `NoMemory`. No call of the disk is made.
    /// The memory that later calls can't do without is reserved here: the keys, and a buffer for the device sectors
    /// of some logical sectors.
    pub fn attach(
        alloc: Global,
        disk: D,
        meta: &Metadata,
        params: &Params,
        key: &UserKey,
        slot: Option<u8>,
        readonly: bool,
    ) -> Result<Provider<D>, (D, AttachFault)>
        requires checked { supported meta.now ≡ Ok (settings_of params.now) }
        requires size { size_matches meta.now (D.state disk).size ≡ Ok tt }
        requires slot { slot_matches meta.now slot ≡ Ok tt }
        ensures { let target : Target = record { meta = meta.now; params = params.now; disk = D.state disk } in
            let means : Means = record { key = key.now.bytes; named = slot; readonly = readonly } in
            AttachAnswers target means disk result }
    {
        let found = match open_slot(meta, params, key, slot) {
            Ok(found) => found,
            Err(fault) => return Err((disk, fault)),
        };
        match Provider::attach_opened(alloc, disk, params, &found, readonly) {
            Ok(provider) => Ok(provider),
            Err((disk, NoMemory)) => Err((disk, AttachFault::NoMemory)),
        }
    }

    /// Attaches the provider on this disk with the master key of a slot that was opened for these parameters. It is
    /// read-only if `readonly` or the parameters say so.
    ///
    /// If there is no memory, the disk comes back. No call of it is made.
    pub fn attach_opened(
        alloc: Global,
        disk: D,
        params: &Params,
        found: &OpenedSlot,
        readonly: bool,
    ) -> Result<Provider<D>, (D, NoMemory)>
        ensures attached { IfOk result (λ p. p ≡ attached_with params.now found.now.master found.now.slot readonly disk) }
        ensures back { IfErr result (λ refused. refused.0 ≡ disk) }
    {
        let OpenedSlot { master, slot } = *found;
        let Ok((ring, buffer)) = reserve(alloc, &master, params) else {
            return Err((disk, NoMemory));
        };
        Ok(Provider {
            disk,
            ring,
            slot,
            readonly: readonly || params.readonly,
            buffer,
        })
    }

    /// The bytes of a logical sector.
    pub fn sector_size(&self) -> u32
        ensures size { result ≡ self.now.keying.sectorsize }
        ensures at_least { 512 ≤ result }
        ensures at_most { result ≤ 65536 }
        ensures whole { result % 512 ≡ 0 }
    {
        self.ring.get().layout().size as u32
    }

    /// How many logical sectors there are.
    pub fn sectors(&self) -> u64
        ensures { result ≡ media self.now.keying (D.state self.now.disk) }
    {
        self.ring
            .get()
            .layout()
            .sectors_in(512 * self.disk.sectors())
    }

    /// Whether the provider has `count` logical sectors from number `sector` on.
    pub fn check_range(&self, sector: u64, count: u64) -> Result<(), OutOfRange>
        ensures answer { let there = media self.now.keying (D.state self.now.disk) in
            MatchResult result (λ _. sector + count ≤ there)
            (λ past. (there < sector + count) × (past ≡ record { sector = sector; count = count; media = there })) }
        ensures end { OnOk result (sector + count < 2 ^ 64) }
    {
        let media = self.sectors();
        if count > media || sector > media - count {
            return Err(OutOfRange {
                sector,
                count,
                media,
            });
        }
        Ok(())
    }

    /// How many device sectors a logical sector takes.
    pub fn units(&self) -> u64
        ensures units { result ≡ units self.now.keying }
        ensures at_least { 1 ≤ result }
        ensures at_most { result ≤ 147 }
    {
        self.ring.get().layout().units as u64
    }

    /// Whether the data are authenticated.
    pub fn authenticated(&self) -> bool
        ensures { result ≡ has_tags self.now.keying.auth }
    {
        match self.ring.get().auth() {
            Auth::Off => false,
            Auth::Sha256 | Auth::Sha384 | Auth::Sha512 => true,
        }
    }

    /// The number of the slot that gave the master key.
    pub fn slot(&self) -> u8
        ensures { result ≡ self.now.slot }
    {
        self.slot
    }

    /// Whether the provider is read-only.
    pub fn read_only(&self) -> bool
        ensures { result ≡ self.now.readonly }
    {
        self.readonly
    }

    /// Whether room was wanting at the last write of the disk that failed. It counts nothing and changes nothing.
    pub fn wants_room(&self) -> bool
        ensures { result ≡ D.wants_room self.now.disk }
    {
        self.disk.wants_room()
    }

    /// The cipher of its keying.
    pub fn cipher(&self) -> Cipher
        ensures { result ≡ self.now.keying.cipher }
    {
        self.ring.get().cipher()
    }

    /// A law: the keying is one that a provider may have.
    pub fn is_of_a_keying(&self)
        ensures { IsKeying self.now.keying }
    {
        self.ring.get().layout();
    }

    /// The master key.
    pub fn master(&self) -> MasterKey
        ensures { result.bytes ≡ self.now.keying.master }
    {
        self.ring.get().master()
    }

    /// Reads logical sectors from number `sector` on into `into`, whose length is a positive multiple of the sector
    /// size.
    ///
    /// `OutOfRange` comes exactly if the request passes the end, and then no call of the disk is made. Sectors that a
    /// look doesn't serve are read unit by unit, each opened before the next one is read. The first fault ends the
    /// request. `DeviceFault` comes only if the device failed and all units before were accepted. `Integrity` comes
    /// exactly if a unit is the first whose tag isn't that of its ciphertext, with the unit's byte offset on the
    /// device. After a refusal `into` is all zeros.
    pub fn read(&mut self, sector: u64, into: &mut [u8]) -> Result<(), ReadFault>
        requires some { 0 < length into.old }
        requires whole { length into.old % self.old.keying.sectorsize ≡ 0 }
        ensures answer { ReadAnswers D.state (request D.state self.old sector into.old) into.new self.old self.new result }
        ensures cleared { OnErr result (into.new ≡ replicate (length into.old) 0) }
        ensures kept { IsKept self.old self.new }
    {
        let answer = self.read_sectors(sector, into);
        if answer.is_err() {
            into.fill(0);
        }
        answer
    }

    // Reads logical sectors as `read` does, but after a refusal `into` may hold any bytes.
    fn read_sectors(&mut self, sector: u64, into: &mut [u8]) -> Result<(), ReadFault>
        requires some { 0 < length into.old }
        requires whole { length into.old % self.old.keying.sectorsize ≡ 0 }
        ensures answer { ReadAnswers D.state (request D.state self.old sector into.old) into.new self.old self.new result }
        ensures kept { IsKept self.old self.new }
    {
        let size = self.ring.get().layout().size;
        self.check_range(sector, (into.len() / size) as u64)?;
        let buffer = &mut self.buffer;
        read_run(self.ring.get_mut(), &mut self.disk, sector, into, buffer)
    }

    /// Counts so many reads of the disk, which a look has served. None of them is made.
    pub fn count_reads(&mut self, many: u64)
        ensures asked { Counted many (D.state self.old.disk).reads (D.state self.new.disk).reads }
        ensures logs { Logs [] (D.state self.old.disk) (D.state self.new.disk) }
        ensures kept { IsKept self.old self.new }
    {
        self.disk.count_reads(many);
    }

    /// Writes logical sectors from number `sector` on, whose plain bytes are `from`; its length is a positive
    /// multiple of the sector size.
    ///
    /// In this order: `ReadOnly`, exactly if the provider is read-only; `OutOfRange`, exactly if the request passes
    /// the end; and then no call of the disk is made. `DeviceFault` comes only if the device failed. The device
    /// sectors of the sealed bytes are written in ascending order, up to the first that fails. Nothing is read. The
    /// provider stays attached.
    pub fn write(&mut self, sector: u64, from: &[u8]) -> Result<(), WriteFault>
        requires some { 0 < length from.now }
        requires whole { length from.now % self.old.keying.sectorsize ≡ 0 }
        ensures answer { WriteAnswers D.state (request D.state self.old sector from.now) from.now self.old self.new result }
        ensures unasked { (D.state self.new.disk).reads ≡ (D.state self.old.disk).reads }
        ensures kept { IsKept self.old self.new }
    {
        if self.readonly {
            return Err(WriteFault::ReadOnly);
        }
        let size = self.ring.get().layout().size;
        self.check_range(sector, (from.len() / size) as u64)?;
        let buffer = &mut self.buffer;
        if write_run(self.ring.get_mut(), &mut self.disk, sector, from, buffer).is_err() {
            return Err(WriteFault::DeviceFault);
        }
        Ok(())
    }

    /// Flushes the disk, and reads nothing.
    pub fn flush(&mut self) -> Result<(), DiskFailed>
        ensures ok { OnOk result (Logs (Event.Flush ∷ []) (D.state self.old.disk) (D.state self.new.disk)) }
        ensures err { OnErr result (FailsIn (Event.Flush ∷ []) (D.state self.old.disk) (D.state self.new.disk)) }
        ensures unasked { (D.state self.new.disk).reads ≡ (D.state self.old.disk).reads }
        ensures kept { IsKept self.old self.new }
    {
        self.disk.flush()
    }

    /// Seals the plain bytes of logical sectors from number `sector` on into `out`, their device sectors one after the
    /// other. No call of the disk is made.
    pub fn seal_into(&mut self, sector: u64, plain: &[u8], out: &mut [u8])
        requires whole { length plain.now % self.old.keying.sectorsize ≡ 0 }
        requires inside { sector + length plain.now / self.old.keying.sectorsize ≤ media self.old.keying (D.state self.old.disk) }
        requires out { length out.old ≡ length plain.now / self.old.keying.sectorsize * (512 * units self.old.keying) }
        ensures sealed { let count = length plain.now / self.old.keying.sectorsize in
            parts 512 (count * units self.old.keying) out.new ≡ sealed_sectors self.old.keying sector count plain.now }
        ensures stays { self.new ≡ self.old }
    {
        seal_sectors(self.ring.get_mut(), sector, plain, out);
    }

    /// Opens logical sectors from number `sector` on into `out`, from the bytes of their device sectors, one after the
    /// other. No call of the disk is made.
    ///
    /// `BadUnit` comes exactly if the tag of a unit isn't that of its ciphertext, with the byte offset of the first
    /// such unit, and `out` is then all zeros.
    pub fn open_from(&mut self, sector: u64, device: &[u8], out: &mut [u8]) -> Result<(), BadUnit>
        requires whole { length out.old % self.old.keying.sectorsize ≡ 0 }
        requires inside { sector + length out.old / self.old.keying.sectorsize ≤ media self.old.keying (D.state self.old.disk) }
        requires device { length device.now ≡ length out.old / self.old.keying.sectorsize * (512 * units self.old.keying) }
        ensures opened { let count = length out.old / self.old.keying.sectorsize in
            let answer = opened_data self.old.keying sector count (parts 512 (count * units self.old.keying) device.now) in
            MatchResult result (λ _. answer ≡ Ok out.new) (λ bad. answer ≡ Err bad.offset) }
        ensures cleared { OnErr result (out.new ≡ replicate (length out.old) 0) }
        ensures stays { self.new ≡ self.old }
    {
        let answer = open_sectors(self.ring.get_mut(), sector, device, out);
        if answer.is_err() {
            out.fill(0);
        }
        answer
    }

    /// Reads device sector `n`, which has a unit of a logical sector. It is refused only if the device failed.
    pub fn get_unit(&mut self, n: u64, into: &mut Sector) -> Result<(), DiskFailed>
        requires { n < media self.old.keying (D.state self.old.disk) * units self.old.keying }
        ensures bytes { OnOk result (Gives (D.state self.old.disk) n into.new) }
        ensures ok { OnOk result (Logs [] (D.state self.old.disk) (D.state self.new.disk)) }
        ensures err { OnErr result (FailsIn [] (D.state self.old.disk) (D.state self.new.disk)) }
        ensures asked { Counted 1 (D.state self.old.disk).reads (D.state self.new.disk).reads }
        ensures kept { IsKept self.old self.new }
    {
        self.disk.read(n, into)
    }

    /// Looks at as many device sectors as `into` has room for at once, the first of number `n`, if the disk lets that
    /// be done. `true` says that `into` has them and that a read of each is counted. `false` says that nothing has
    /// changed, and `into` may hold any bytes.
    pub fn look(&mut self, n: u64, into: &mut [u8]) -> bool
        requires whole { length into.old % 512 ≡ 0 }
        requires inside { n + length into.old / 512 ≤ media self.old.keying (D.state self.old.disk) * units self.old.keying }
        ensures stand { result ≡ true → GivesEach (D.state self.old.disk) n into.new }
        ensures asked { result ≡ true → Counted (length into.old / 512) (D.state self.old.disk).reads (D.state self.new.disk).reads }
        ensures logs { result ≡ true → Logs [] (D.state self.old.disk) (D.state self.new.disk) }
        ensures missed { result ≡ false → D.state self.new.disk ≡ D.state self.old.disk }
        ensures kept { IsKept self.old self.new }
    {
        if !self.disk.peek(n, into) {
            return false;
        }
        self.disk.count_reads((into.len() / 512) as u64);
        true
    }

    /// Checks the next units of device sectors that stand one after the other, the first of number `n`: whether the tag
    /// of each is that of its ciphertext. No call of the disk is made.
    pub fn judge(&self, n: u64, device: &[u8]) -> Judged
        requires on { self.now.keying.auth ≢ Auth.Off }
        requires some { 512 ≤ length device.now }
        requires inside { n < media self.now.keying (D.state self.now.disk) * units self.now.keying }
        ensures { Judges self.now.keying n device.now result }
    {
        judge(self.ring.get(), n, device)
    }

    /// Whether these bytes are accepted as the unit in device sector `n`: whether the tag in them is that of their
    /// ciphertext. No call of the disk is made.
    pub fn unit_ok(&mut self, n: u64, from: &Sector) -> bool
        requires on { self.old.keying.auth ≢ Auth.Off }
        requires inside { n < media self.old.keying (D.state self.old.disk) * units self.old.keying }
        ensures answer { result ≡ is_ok (unit_reading_at self.old.keying n from.now) }
        ensures stays { self.new ≡ self.old }
    {
        self.judge(n, from).accepts(0)
    }

    /// Writes device sector `n`, which has a unit of a logical sector. It is refused only if the device failed. A
    /// write that failed was either done or not.
    pub fn put_unit(&mut self, n: u64, from: &Sector) -> Result<(), DiskFailed>
        requires { n < media self.old.keying (D.state self.old.disk) * units self.old.keying }
        ensures ok { OnOk result (Logs (Event.Write n from.now ∷ []) (D.state self.old.disk) (D.state self.new.disk)) }
        ensures err { OnErr result (FailsIn (Event.Write n from.now ∷ []) (D.state self.old.disk) (D.state self.new.disk)) }
        ensures unasked { (D.state self.new.disk).reads ≡ (D.state self.old.disk).reads }
        ensures kept { IsKept self.old self.new }
    {
        self.disk.write(n, from)
    }

    /// Flushes the disk, and gives it back either way. Nothing is read.
    pub fn detach(self) -> (D, Result<(), DiskFailed>)
        ensures ok { OnOk result.1 (Logs (Event.Flush ∷ []) (D.state self.disk) (D.state result.0)) }
        ensures err { OnErr result.1 (FailsIn (Event.Flush ∷ []) (D.state self.disk) (D.state result.0)) }
        ensures unasked { (D.state result.0).reads ≡ (D.state self.disk).reads }
    {
        let mut disk = self.disk;
        let flushed = disk.flush();
        (disk, flushed)
    }

    /// Gives the disk back as it is. No call of it is made.
    pub fn withdraw(self) -> D
        ensures { result ≡ self.disk }
    {
        let disk = self.disk;
        disk
    }
}

/// It has the disk's state, and keeps its keying, its slot and whether it is read-only.
impl<D: Disk> MetaPlace for Provider<D> {
    ghost state = { λ p. D.state p.disk };

    ghost rest = { rest_of };

    fn sectors(&self) -> u64 {
        self.disk.sectors()
    }

    fn load_sector(&mut self, n: u64, into: &mut Sector) -> Result<(), DiskFailed> {
        self.disk.read(n, into)
    }

    fn store(&mut self, from: &Sector) -> Result<(), DiskFailed> {
        store_last(&mut self.disk, from)
    }
}
