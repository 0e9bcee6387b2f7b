//! A request that is open.
ghost use Rattle.std.specs.Prelude.{◌≡◌, ◌↔◌, ◌+◌, ◌*◌, ◌<◌, ◌≤◌, ◌++◌, ◌∷◌, [], ℕ, List, OnOk, OnErr, IfOk, IsTrue, MatchResult, length, drop, take};
ghost use Rattle.block_traits.specs.Causes.{Counted};
ghost use Rattle.block_traits.specs.Disk.{FailsIn, Gives, Logs};
ghost use Rattle.block_traits.specs.Parts.{parts};
ghost use Rattle.provider.specs.Attached.{IsKept, media};
ghost use Rattle.sealing.specs.Sectors.{units};
ghost use Rattle.bio_queue.specs.Owners.{IsMadeFor};

use crate::{Job, Reaped};
use block_traits::{Disk, DiskFailed, NoMemory, Sector};
use eli_base::REQUEST_LIMIT;
use provider::{BadUnit, Provider};
use std::alloc::Global;
use std::marker::Model;

/// A request that is open.
///
/// Contracts see its tag, what was asked, how many of its units are done, how many it has, and the device sectors of
/// a write, or those of a read that were read so far.
#[derive(Drop)]
pub struct OpenRequest {
    tag: u8,
    job: Job,
    done: u32,
    units: u32,
    // The number of its first device sector.
    first: u64,
    // The bytes of its device sectors.
    device: Vec<u8>,
}

impl Model for OpenRequest {
    ghost use Rattle.std.specs.Prelude.{vec_len};
    ghost use Rattle.bio_queue.specs.Kept.{IsHeld, shown};
    ghost use Rattle.bio_queue.specs.Requests.{Request};

    ghost Value = { Request };

    ghost view = { λ r. record { tag = r.tag; job = r.job; done = r.done; units = r.units; device = shown r.job r.done r.units r.device.items } };

    ghost invariant = { λ r. IsHeld r.job r.done r.units r.first (vec_len r.device) };
}

// Whether a provider would make so many units of so many logical sectors from this one on.
fn is_made_for<D: Disk>(on: &Provider<D>, sector: u64, count: u32, units: u32) -> bool
    ensures { IsTrue result ↔ IsMadeFor on.now.keying (media on.now.keying (D.state on.now.disk)) sector count units }
{
    let many = u64::from(count);
    let there = on.sectors();
    many >= 1
        && many * u64::from(on.sector_size()) <= REQUEST_LIMIT
        && many <= there
        && sector <= there - many
        && u64::from(units) == many * on.units()
}

// The device sector that stands after `done` others among their bytes.
fn unit_of(device: &[u8], done: usize) -> Sector
    requires { 512 * done + 512 ≤ length device.now }
    ensures { result ≡ take 512 (drop (512 * done) device.now) }
{
    let mut unit = [0; 512];
    let place = 512 * done;
    unit.copy_from_slice(&device[place..place + 512]);
    unit
}

// Reads device sector `n` to the place that it has after `done` others among their bytes.
fn read_unit<D: Disk>(
    on: &mut Provider<D>,
    n: u64,
    done: usize,
    device: &mut [u8],
) -> Result<(), DiskFailed>
    requires there { n < media on.old.keying (D.state on.old.disk) * units on.old.keying }
    requires room { 512 * done + 512 ≤ length device.old }
    ensures read { OnOk result ((bytes : List ℕ) × Gives (D.state on.old.disk) n bytes × (parts 512 (done + 1) device.new ≡ parts 512 done device.old ++ bytes ∷ [])) }
    ensures stays { OnErr result (device.new ≡ device.old) }
    ensures ok { OnOk result (Logs [] (D.state on.old.disk) (D.state on.new.disk)) }
    ensures err { OnErr result (FailsIn [] (D.state on.old.disk) (D.state on.new.disk)) }
    ensures asked { Counted 1 (D.state on.old.disk).reads (D.state on.new.disk).reads }
    ensures kept { IsKept on.old on.new }
{
    let mut unit: Sector = [0; 512];
    on.get_unit(n, &mut unit)?;
    let place = 512 * done;
    device[place..place + 512].copy_from_slice(&unit);
    Ok(())
}

impl OpenRequest {
    ghost use Rattle.bio_queue.specs.Answers.{AsksReads, CanBeReaped, CanStep, Gave, HasBadUnit, IsAsked, IsGiven, JobIsInRange, asked};
    ghost use Rattle.eli_base.specs.Requests.{request_limit};
    ghost use Rattle.bio_queue.specs.Owners.{IsOf};
    ghost use Rattle.bio_queue.specs.Requests.{Request, left_of, next_of, step_events, stepped};

    /// The request of a job, of which nothing is done. A write is sealed.
    pub fn new<D: Disk>(
        alloc: Global,
        on: &mut Provider<D>,
        tag: u8,
        job: &Job,
        from: &[u8],
    ) -> Result<OpenRequest, NoMemory>
        requires asked { IsAsked on.old.keying.sectorsize job.now from.now }
        requires in_range { JobIsInRange (media on.old.keying (D.state on.old.disk)) job.now }
        ensures made { IfOk result (λ request. request ≡ asked on.old.keying tag job.now from.now) }
        ensures stays { on.new ≡ on.old }
    {
        let each = on.units();
        match *job {
            Job::Read { sector, count } => {
                let units = count * each as u32;
                let device = vec![in alloc; 0; 512 * units as usize]?;
                Ok(OpenRequest {
                    tag,
                    job: *job,
                    done: 0,
                    units,
                    first: sector * each,
                    device,
                })
            }
            Job::Write { sector, count } => {
                let units = count * each as u32;
                let mut device = vec![in alloc; 0; 512 * units as usize]?;
                on.is_of_a_keying();
                on.seal_into(sector, from, device.as_mut_slice());
                Ok(OpenRequest {
                    tag,
                    job: *job,
                    done: 0,
                    units,
                    first: sector * each,
                    device,
                })
            }
            Job::Flush => Ok(OpenRequest {
                tag,
                job: *job,
                done: 0,
                units: 1,
                first: 0,
                device: Vec::new(alloc),
            }),
        }
    }

    /// The tag.
    pub fn tag(&self) -> u8
        ensures { result ≡ self.now.tag }
    {
        self.tag
    }

    /// How many units are left.
    pub fn left(&self) -> u64
        ensures left { result ≡ left_of self.now }
    {
        u64::from(self.units - self.done)
    }

    /// Whether this provider, as it is now, would make such a request of the job.
    pub fn is_of<D: Disk>(&self, on: &Provider<D>) -> bool
        ensures { IsTrue result ↔ IsOf on.now.keying (media on.now.keying (D.state on.now.disk)) self.now }
    {
        match self.job {
            Job::Read { sector, count } => is_made_for(on, sector, count, self.units),
            Job::Write { sector, count } => is_made_for(on, sector, count, self.units),
            Job::Flush => self.units == 1,
        }
    }

    /// Does the next unit. If the device fails, the request is as before.
    pub fn step<D: Disk>(&mut self, on: &mut Provider<D>) -> Result<(), DiskFailed>
        requires more { self.old.done < self.old.units }
        requires there { CanStep on.old.keying (D.state on.old.disk) self.old }
        ensures ok { OnOk result (Logs (step_events self.old) (D.state on.old.disk) (D.state on.new.disk)) }
        ensures stepped { OnOk result ((bytes : List ℕ) × IsGiven (D.state on.old.disk) self.old.job (next_of self.old) bytes × (self.new ≡ stepped self.old bytes)) }
        ensures err { OnErr result (FailsIn (step_events self.old) (D.state on.old.disk) (D.state on.new.disk)) }
        ensures stays { OnErr result (self.new ≡ self.old) }
        ensures asked { AsksReads self.old.job (D.state on.old.disk) (D.state on.new.disk) }
        ensures kept { IsKept on.old on.new }
    {
        let n = self.first + u64::from(self.done);
        match self.job {
            Job::Read { .. } => read_unit(on, n, self.done as usize, &mut self.device)?,
            Job::Write { .. } => on.put_unit(n, &unit_of(&self.device, self.done as usize))?,
            Job::Flush => on.flush()?,
        }
        self.done += 1;
        Ok(())
    }

    /// What the request gives once all its units are done: the bytes of a read, at the front of `into`. After a refusal
    /// `into` may hold any bytes.
    pub fn give<D: Disk>(&self, on: &mut Provider<D>, into: &mut [u8]) -> Result<Reaped, BadUnit>
        requires room { request_limit ≤ length into.old }
        requires none { left_of self.now ≡ 0 }
        requires there { CanBeReaped on.old.keying (D.state on.old.disk) self.now }
        ensures gives { MatchResult result
            (Gave on.old.keying self.now.job self.now.device into.old into.new)
            (λ bad. HasBadUnit on.old.keying self.now.job self.now.device bad.offset) }
        ensures stays { on.new ≡ on.old }
    {
        match self.job {
            Job::Read { sector, count } => {
                let length = count * on.sector_size();
                on.open_from(sector, &self.device, &mut into[..length as usize])?;
                Ok(Reaped::Bytes { length })
            }
            Job::Write { .. } => Ok(Reaped::Written),
            Job::Flush => Ok(Reaped::Flushed),
        }
    }
}
