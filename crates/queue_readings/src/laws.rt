//! What holds of the calls of a queue and of plays, whatever the disk.
ghost use Rattle.std.specs.Prelude.{◌≡◌, ℕ, ◌+◌, ◌*◌, ◌≤◌, [], ◌∷◌, ◌++◌, List, Result, Some, length, take, All, Contains};
ghost use Rattle.aes_core.specs.Schedule.{AreBytes};
ghost use Rattle.block_traits.specs.Content.{Content, IsEventOf};
ghost use Rattle.block_traits.specs.Disk.{DiskState, Logs};
ghost use Rattle.block_traits.specs.declared.disk.Event.{Event};
ghost use Rattle.eli_base.specs.Keying.{Keying};
ghost use Rattle.sector_runs.specs.Writing.{data_writes};
ghost use Rattle.range_keys.specs.Ring.{IsKeying};
ghost use Rattle.readings.specs.Steps.{Flush, Step};
ghost use Rattle.readings.specs.Survivors.{AreSteps};
ghost use Rattle.readings.specs.Writes.{data_steps, raw_steps};
ghost use Rattle.bio_queue.specs.Requests.{Request};
ghost use Rattle.bio_queue.specs.declared.faults.ReapFault.{ReapFault};
ghost use Rattle.bio_queue.specs.declared.job.Job.{Job};
ghost use Rattle.bio_queue.specs.declared.job.Reaped.{Reaped};
ghost use Rattle.queue_readings.specs.Alone.{DoesAsProvider, IsDoneAlone};
ghost use Rattle.queue_readings.specs.Play.{IsCovered, IsPlay, Play, Shows};
ghost use Rattle.queue_readings.specs.Moves.{AreMade, QueueCall, InFlight, IsPlayed, ShowsIn};

/// A queue without requests, on a provider whose disk reports its content, shows a play without steps.
pub fn plays_begin_empty()
    ensures { (k : Keying) (c : Content) (d : DiskState) → IsKeying k → d.content ≡ Some c →
        Shows k c (record { steps = []; tasks = []; next = 0 }) [] d }
{}

/// Calls on a queue and its provider, one after the other, are the moves of a play, each with its answer, and the play
/// shows in what they leave. So the disk logged exactly the events of its steps: none for a submitted job, a read or a
/// reaped request, the next unit of a write, or one flush; and what is reaped of a read is what the writings say that
/// stood in its device sectors at its own steps.
pub fn calls_are_moves()
    ensures { (c : Content) (calls : List QueueCall) (m : Play) (old new : InFlight) →
        ShowsIn old.keying c m old → AreMade calls old new → IsPlayed c calls m old new }
{}

/// A write of the provider may stand between the calls: it takes the next number, and places its units, or if the
/// device failed, the first of them.
pub fn writes_may_stand_between()
    ensures { (k : Keying) (c : Content) (m : Play) (queue : List Request) (d new : DiskState) (sector count many : ℕ) (bytes : List ℕ) →
        Shows k c m queue d → AreBytes bytes → count * k.sectorsize ≤ length bytes → Logs (take many (data_writes k sector count bytes)) d new →
        Shows k c (record { steps = m.steps ++ take many (data_steps m.next k sector count bytes); tasks = m.tasks; next = m.next + 1 }) queue new }
{}

/// Other events of the disk may stand between the calls too, such as a flush or the writes of metadata: they are
/// steps that place their bytes as they are.
pub fn events_may_stand_between()
    ensures { (k : Keying) (c : Content) (m : Play) (queue : List Request) (d new : DiskState) (events : List Event) →
        Shows k c m queue d → All (IsEventOf (length c.base)) events → Logs events d new →
        Shows k c (record { steps = m.steps ++ raw_steps events; tasks = m.tasks; next = m.next }) queue new }
{}

/// The next write may have any higher number.
pub fn numbers_may_be_skipped()
    ensures { (k : Keying) (c : Content) (m : Play) (queue : List Request) (d : DiskState) (number : ℕ) → Shows k c m queue d → m.next ≤ number →
        Shows k c (record { steps = m.steps; tasks = m.tasks; next = number }) queue d }
{}

/// The steps of a play fit one another, so that what holds of steps holds of them: what each logical sector reads as
/// now, and what a crash between any two steps leaves.
pub fn steps_of_plays_fit()
    ensures { (k : Keying) (c : Content) (m : Play) → IsPlay k c m → AreSteps m.steps }
{}

/// A flush covers each step that was done before it: among them those of each write that was reaped before the flush
/// was submitted.
pub fn flushes_cover_what_was_done()
    ensures { (steps more : List Step) (s : Step) → Contains steps s → IsCovered ((steps ++ more) ++ Flush ∷ []) s }
{}

/// A job that is submitted, done step by step and reaped, with no other call between and no device fault, gives what
/// the call of the provider gives: the same events, and the same answer.
pub fn a_job_alone_is_the_call_of_the_provider()
    ensures { (job : Job) (from before after : List ℕ) (answer : Result Reaped ReapFault) (old new : InFlight) →
        IsKeying old.keying → IsDoneAlone job from before after answer old new →
        DoesAsProvider job from before after answer old new }
{}
