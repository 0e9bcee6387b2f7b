//! The requests that are open on a provider, from `submit` to `reap`.
//!
//! The invariant: the requests stand in ascending order of their tags, all tags are below 32, and the vector has room
//! for 32 requests. So no tag is used twice, at most 32 are open, and `submit` needs no memory for a place in the
//! list. Callers may rely on a tag naming at most one request, and on `submit` giving the least tag that isn't in
//! use.
//!
//! A refusal leaves the queue as it was, with one exception: if the data of a read isn't authentic (`Integrity`),
//! `reap` takes the request out all the same. If the device fails in `step`, the unit isn't counted as done, though
//! its write or flush may have happened.
//!
//! A write is sealed by `submit` and a read is opened by `reap`, so a step is one call of the disk and needs no
//! memory.
//!
//! The queue can't know that it serves one provider alone, since its type doesn't name one. So `step` and `reap` have
//! a condition on the request, and `has_request` checks it for callers that can't know.
ghost use Rattle.std.specs.Prelude.{◌≡◌, ◌↔◌, ◌+◌, ◌<◌, ◌≤◌, [], IfOk, IfSome, IsTrue, MatchResult, length, vec_capacity, vec_len};
ghost use Rattle.std.specs.List.{insert};
ghost use Rattle.eli_base.specs.Requests.{request_limit};
ghost use Rattle.provider.specs.Attached.{IsKept, media};
ghost use Rattle.bio_queue.specs.Answers.{CanBeReaped, CanStep, IsAdmitted, IsAsked, JobIsRefused, OnNoCall, ReapAnswers, StepAnswers, SubmitAnswers};
ghost use Rattle.bio_queue.specs.Kept.{gap_from, request_place};
ghost use Rattle.bio_queue.specs.Owners.{IsOpenRequest};
ghost use Rattle.bio_queue.specs.Requests.{AscendsFrom, request_with};

use crate::request::OpenRequest;
use crate::{Job, ReapFault, Reaped, StepFault, SubmitFault};
use block_traits::{Disk, NoMemory};
use provider::Provider;
use std::alloc::Global;
use std::marker::Model;

// How many requests may be open.
const ROOM: usize = 32;

/// The requests that are open on a provider.
///
/// Contracts see them as a list in order of their tags.
#[derive(Drop)]
pub struct Queue {
    requests: Vec<OpenRequest>,
}

impl Model for Queue {
    ghost use Rattle.std.specs.Prelude.{◌≤◌, List, vec_capacity};
    ghost use Rattle.bio_queue.specs.Requests.{AscendsFrom, Request};

    ghost Value = { List Request };

    ghost view = { λ q. q.requests.items };

    ghost invariant = { λ q. AscendsFrom 0 q.requests.items × (32 ≤ vec_capacity q.requests) };
}

impl Queue {
    /// No request, with room for all that may be open.
    pub fn new(alloc: Global) -> Result<Queue, NoMemory>
        ensures { IfOk result (λ queue. queue ≡ []) }
    {
        Ok(Queue {
            requests: Vec::with_capacity(alloc, ROOM)?,
        })
    }

    /// How many requests are open.
    pub fn len(&self) -> u32
        ensures { result ≡ length self.now }
    {
        self.requests.len() as u32
    }

    /// Drops all requests.
    pub fn clear(&mut self)
        ensures { self.new ≡ [] }
    {
        self.requests.clear();
    }

    /// A law: the requests stand in order of their tags, which are below 32; so there are at most 32.
    pub fn keeps_order(&self)
        ensures order { AscendsFrom 0 self.now }
        ensures few { length self.now ≤ 32 }
    {
        let _ = self.requests.len();
    }

    /// Whether an open request has this tag and is one of this provider: the provider, as it is now, would make it of
    /// its job, in its sectors, with as many units, for no more bytes than a request may have. If so, the conditions of
    /// `step` and `reap` hold. A queue that began empty and served this provider alone has no other requests.
    pub fn has_request<D: Disk>(&self, on: &Provider<D>, tag: u8) -> bool
        ensures { IsTrue result ↔ IsOpenRequest on.now.keying (media on.now.keying (D.state on.now.disk)) tag self.now }
    {
        match find(&self.requests, tag) {
            Some(place) => self.requests[place].is_of(on),
            None => false,
        }
    }

    /// Opens a request for a job, and returns the least tag that isn't in use. A write is sealed here, from its plain
    /// bytes `from`. No call of the disk is made, and the provider is as before.
    ///
    /// In this order: `ReadOnly`, exactly if the provider is read-only and the job is a write; `OutOfRange`, exactly if
    /// the job passes the end; `QueueFull`, exactly if 32 requests are open; `NoMemory`. After a refusal the queue is
    /// as before.
    pub fn submit<D: Disk>(
        &mut self,
        on: &mut Provider<D>,
        job: &Job,
        from: &[u8],
    ) -> Result<u8, SubmitFault>
        requires { IsAsked on.old.keying.sectorsize job.now from.now }
        ensures answer { SubmitAnswers on.old.keying on.old.readonly (D.state on.old.disk) job.now from.now self.old self.new result }
        ensures stays { on.new ≡ on.old }
    {
        admit(on, job)?;
        if self.requests.len() >= ROOM {
            return Err(SubmitFault::QueueFull);
        }
        let place = least_free(&self.requests);
        let alloc = *self.requests.allocator();
        let Ok(request) = OpenRequest::new(alloc, on, place as u8, job, from) else {
            return Err(SubmitFault::NoMemory);
        };
        put_in(&mut self.requests, place, request);
        Ok(place as u8)
    }

    /// Does the next unit of the request with this tag, in ascending order of device sectors, or its one flush, and
    /// returns how many units are left.
    ///
    /// In this order: `NoRequest`, exactly if no request has the tag; `AllDone`, exactly if no unit is left. After
    /// these two the queue and the provider are as before. `DeviceFault` comes only if the device failed: the unit
    /// isn't done, and what it would have written or flushed may be done or not.
    pub fn step<D: Disk>(&mut self, on: &mut Provider<D>, tag: u8) -> Result<u64, StepFault>
        requires { IfSome (request_with tag self.old) (CanStep on.old.keying (D.state on.old.disk)) }
        ensures answer { StepAnswers tag self.old self.new (D.state on.old.disk) (D.state on.new.disk) result }
        ensures kept { IsKept on.old on.new }
        ensures stays { OnNoCall result (on.new ≡ on.old) }
    {
        let Some(place) = find(&self.requests, tag) else {
            return Err(StepFault::NoRequest);
        };
        let request = &mut self.requests[place];
        if request.left() == 0 {
            return Err(StepFault::AllDone);
        }
        if request.step(on).is_err() {
            return Err(StepFault::DeviceFault);
        }
        Ok(request.left())
    }

    /// Takes out the request with this tag, whose units are all done. The bytes of a read are put at the front of
    /// `into`. No call of the disk is made, and the provider is as before.
    ///
    /// In this order: `NoRequest`, exactly if no request has the tag; `NotDone`, exactly if units are left. After these
    /// two the queue and `into` are as before. `Integrity` comes exactly if the tag of a unit that was read isn't that
    /// of its ciphertext, with the byte offset of the first such unit; the request is then taken out too, and `into` is
    /// all zeros.
    pub fn reap<D: Disk>(
        &mut self,
        on: &mut Provider<D>,
        tag: u8,
        into: &mut [u8],
    ) -> Result<Reaped, ReapFault>
        requires room { request_limit ≤ length into.old }
        requires there { IfSome (request_with tag self.old) (CanBeReaped on.old.keying (D.state on.old.disk)) }
        ensures answer { ReapAnswers on.old.keying tag self.old self.new into.old into.new result }
        ensures stays { on.new ≡ on.old }
    {
        let Some(place) = find(&self.requests, tag) else {
            return Err(ReapFault::NoRequest);
        };
        let left = self.requests[place].left();
        if left > 0 {
            return Err(ReapFault::NotDone { left });
        }
        let request = self.requests.remove(place);
        match request.give(on, into) {
            Ok(reaped) => Ok(reaped),
            Err(bad) => {
                into.fill(0);
                Err(ReapFault::Integrity { offset: bad.offset })
            }
        }
    }
}

// Refuses logical sectors of which some aren't there.
fn check_range<D: Disk>(on: &Provider<D>, sector: u64, count: u32) -> Result<(), SubmitFault>
    ensures { let there = media on.now.keying (D.state on.now.disk) in
        MatchResult result (λ _. sector + count ≤ there) (λ fault. (there < sector + count) × (fault ≡ SubmitFault.OutOfRange sector count there)) }
{
    Ok(on.check_range(sector, u64::from(count))?)
}

// Refuses a job that the provider doesn't take.
fn admit<D: Disk>(on: &Provider<D>, job: &Job) -> Result<(), SubmitFault>
    ensures { let there = media on.now.keying (D.state on.now.disk) in
        MatchResult result (λ _. IsAdmitted on.now.readonly there job.now) (JobIsRefused on.now.readonly there job.now) }
{
    match *job {
        Job::Read { sector, count } => check_range(on, sector, count),
        Job::Write { sector, count } => {
            if on.read_only() {
                return Err(SubmitFault::ReadOnly);
            }
            check_range(on, sector, count)
        }
        Job::Flush => Ok(()),
    }
}

// The place of the request with this tag.
fn find(requests: &[OpenRequest], tag: u8) -> Option<usize>
    ensures found { result ≡ request_place tag requests.now }
    ensures bound { IfSome result (λ place. place < length requests.now) }
{
    for (place, request) in requests.iter().enumerate() {
        if request.tag() == tag {
            return Some(place);
        }
    }
    None
}

// The place of the first request whose tag is greater than its place.
fn least_free(requests: &[OpenRequest]) -> usize
    ensures gap { result ≡ gap_from 0 requests.now }
    ensures bound { result ≤ length requests.now }
{
    for (place, request) in requests.iter().enumerate() {
        if request.tag() as usize != place {
            return place;
        }
    }
    requests.len()
}

// Puts a request at a place; there is room for it.
fn put_in(requests: &mut Vec<OpenRequest>, place: usize, request: OpenRequest)
    requires inside { place ≤ vec_len requests.old }
    requires room { vec_len requests.old < vec_capacity requests.old }
    ensures items { requests.new.items ≡ insert requests.old.items place request }
    ensures capacity { vec_capacity requests.old ≤ vec_capacity requests.new }
{
    let _ = requests.insert(place, request);
}
