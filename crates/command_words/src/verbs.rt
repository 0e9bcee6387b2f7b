//! What each verb is: which drawer it needs, and what it may do with this drawer; and which provider a command names.
ghost use Rattle.std.specs.Prelude.{◌≡◌};
ghost use Rattle.command_words.specs.Places.{provider_of};
ghost use Rattle.command_words.specs.Traits.{allocating, job_writes, letting_go, only_reading, plain, queueing, requesting};
ghost use Rattle.command_words.specs.Traits.{submitting, traits_of, writing};

use crate::commands::{Command, JobWords};
use crate::spans::Span;

/// Which drawer a verb needs, by what the drawer does with its disk.
#[derive(Clone, Copy, Debug, PartialEq, Eq)]
pub enum Needs {
    /// An idle one.
    AnIdle,
    /// An attached one.
    AnAttached,
    /// A suspended one.
    ASuspended,
    /// An attached or a suspended one.
    NoIdle,
    /// An idle or an attached one.
    NoSuspended,
    /// Any, or none.
    AnyOne,
}

/// What a verb is.
#[derive(Clone, Copy, Debug, PartialEq, Eq)]
pub struct Traits {
    /// Which drawer it needs.
    pub drawer: Needs,
    /// Whether it may be refused for want of memory.
    pub lacks_memory: bool,
    /// Whether a provider that is read-only refuses it.
    pub writes_data: bool,
    /// Whether a provider without authentication refuses it.
    pub needs_tags: bool,
    /// Whether it stores a file once its events are done.
    pub stores_last: bool,
    /// Whether it leaves its drawer idle.
    pub lets_go: bool,
    /// Whether it changes the requests that are open on its drawer.
    pub changes_requests: bool,
    /// Whether it is a request, which leaves an attached drawer attached whatever the reply.
    pub is_request: bool,
    /// Whether it takes its drawer out of the list.
    pub takes_out: bool,
    /// Whether it only reads its image if it is the only command of a run.
    pub only_reads: bool,
}

// A verb that needs such a drawer, and of which nothing else holds.
fn plain(drawer: Needs) -> Traits
    ensures { result ≡ plain drawer }
{
    Traits {
        drawer,
        lacks_memory: false,
        writes_data: false,
        needs_tags: false,
        stores_last: false,
        lets_go: false,
        changes_requests: false,
        is_request: false,
        takes_out: false,
        only_reads: false,
    }
}

// A verb that may be refused for want of memory.
fn allocating(drawer: Needs) -> Traits
    ensures { result ≡ allocating drawer }
{
    Traits {
        lacks_memory: true,
        ..plain(drawer)
    }
}

// A verb that leaves its drawer idle.
fn letting_go(drawer: Needs) -> Traits
    ensures { result ≡ letting_go drawer }
{
    Traits {
        lets_go: true,
        ..plain(drawer)
    }
}

// A verb that only reads its image.
fn only_reading(drawer: Needs) -> Traits
    ensures { result ≡ only_reading drawer }
{
    Traits {
        only_reads: true,
        ..plain(drawer)
    }
}

// A request.
fn requesting() -> Traits
    ensures { result ≡ requesting }
{
    Traits {
        is_request: true,
        ..plain(Needs::AnAttached)
    }
}

// A request that a read-only provider refuses.
fn writing() -> Traits
    ensures { result ≡ writing }
{
    Traits {
        writes_data: true,
        ..requesting()
    }
}

// A request that changes the open requests.
fn queueing() -> Traits
    ensures { result ≡ queueing }
{
    Traits {
        changes_requests: true,
        ..requesting()
    }
}

// The verb `submit`.
fn submitting(job: &JobWords) -> Traits
    ensures { result ≡ submitting job.now }
{
    Traits {
        lacks_memory: true,
        writes_data: job_writes(job),
        ..queueing()
    }
}

// Whether a read-only provider refuses the request.
fn job_writes(job: &JobWords) -> bool
    ensures { result ≡ job_writes job.now }
{
    match job {
        JobWords::Read { .. } | JobWords::Flush => false,
        JobWords::Write { .. } => true,
    }
}

impl Command {
    // The provider that the command names, if it names one, and what its verb is.
    fn profile(&self) -> (Option<Span>, Traits)
        ensures provider { result.0 ≡ provider_of self.now }
        ensures traits { result.1 ≡ traits_of self.now }
    {
        match self {
            Command::List => (None, allocating(Needs::AnyOne)),
            Command::Dump { prov } => (Some(*prov), only_reading(Needs::AnyOne)),
            Command::Init { prov, backup, .. } => {
                let traits = Traits {
                    stores_last: backup.is_some(),
                    ..allocating(Needs::AnIdle)
                };
                (Some(*prov), traits)
            }
            Command::Attach {
                prov,
                only_check,
                ..
            } => {
                let traits = Traits {
                    only_reads: *only_check,
                    ..allocating(Needs::AnIdle)
                };
                (Some(*prov), traits)
            }
            Command::Detach { prov } => (Some(*prov), letting_go(Needs::NoIdle)),
            Command::Setkey { prov, .. } => (Some(*prov), allocating(Needs::NoSuspended)),
            Command::Delkey { prov, .. } => (Some(*prov), plain(Needs::NoSuspended)),
            Command::Kill { prov } => (Some(*prov), letting_go(Needs::AnyOne)),
            Command::Backup { prov, .. } => {
                let traits = Traits {
                    lacks_memory: true,
                    ..only_reading(Needs::AnyOne)
                };
                (Some(*prov), traits)
            }
            Command::Restore { prov, .. } => (Some(*prov), allocating(Needs::AnIdle)),
            Command::Resize { prov, .. } => (Some(*prov), plain(Needs::AnIdle)),
            Command::Read { prov, .. } => (Some(*prov), requesting()),
            Command::Write { prov, .. } => (Some(*prov), writing()),
            Command::Flush { prov } => (Some(*prov), requesting()),
            Command::Fill { prov, .. } => (Some(*prov), writing()),
            Command::Sum { prov, .. } => (Some(*prov), requesting()),
            Command::Eject { prov } => {
                let traits = Traits {
                    takes_out: true,
                    ..plain(Needs::AnyOne)
                };
                (Some(*prov), traits)
            }
            Command::Submit { prov, job } => (Some(*prov), submitting(job)),
            Command::Step { prov, .. } => (Some(*prov), queueing()),
            Command::Reap { prov, .. } => (Some(*prov), queueing()),
            Command::Suspend { prov } => (Some(*prov), plain(Needs::AnAttached)),
            Command::Resume { prov, .. } => (Some(*prov), allocating(Needs::ASuspended)),
            Command::Verify { prov, .. } => {
                let traits = Traits {
                    needs_tags: true,
                    ..allocating(Needs::AnAttached)
                };
                (Some(*prov), traits)
            }
        }
    }

    /// The provider that the command names, if it names one.
    pub fn provider(&self) -> Option<Span>
        ensures { result ≡ provider_of self.now }
    {
        self.profile().0
    }

    /// What the command's verb is.
    pub fn traits(&self) -> Traits
        ensures { result ≡ traits_of self.now }
    {
        self.profile().1
    }
}
