//! What holds of queues, whatever the disk.
ghost use Rattle.std.specs.Prelude.{◌≡◌, ◌⊎◌, ℕ, Bool, [], List, Result, IfSome, None};
ghost use Rattle.block_traits.specs.Disk.{DiskState};
ghost use Rattle.eli_base.specs.Keying.{Keying};
ghost use Rattle.provider.specs.Attached.{media};
ghost use Rattle.bio_queue.specs.Answers.{CanBeReaped, CanStep, IsAsked, ReapAnswers, StepAnswers, SubmitAnswers};
ghost use Rattle.bio_queue.specs.Owners.{AreAllOf, IsOpenRequest};
ghost use Rattle.bio_queue.specs.Requests.{Request, request_with};
ghost use Rattle.bio_queue.specs.declared.faults.ReapFault.{ReapFault};
ghost use Rattle.bio_queue.specs.declared.faults.StepFault.{StepFault};
ghost use Rattle.bio_queue.specs.declared.faults.SubmitFault.{SubmitFault};
ghost use Rattle.bio_queue.specs.declared.job.Job.{Job};
ghost use Rattle.bio_queue.specs.declared.job.Reaped.{Reaped};

/// A law: a request of the provider meets the conditions of `step` and `reap` on it.
pub fn requests_meet_conditions()
    ensures { (k : Keying) (d : DiskState) (tag : ℕ) (queue : List Request) → IsOpenRequest k (media k d) tag queue →
        IfSome (request_with tag queue) (CanStep k d) × IfSome (request_with tag queue) (CanBeReaped k d) }
{}

/// A law: if all requests are of the provider, the one with a tag is, or none has the tag.
pub fn requests_are_served()
    ensures { (k : Keying) (media tag : ℕ) (queue : List Request) → AreAllOf k media queue →
        (request_with tag queue ≡ None) ⊎ IsOpenRequest k media tag queue }
{}

/// A law: the requests of a queue that began empty are all of the provider, and stay so with each call on it.
pub fn requests_stay_of_their_provider()
    ensures none { (k : Keying) (media : ℕ) → AreAllOf k media [] }
    ensures submit { (k : Keying) (readonly : Bool) (d : DiskState) (job : Job) (from : List ℕ) (old new : List Request) (answer : Result ℕ SubmitFault) →
        IsAsked k.sectorsize job from → SubmitAnswers k readonly d job from old new answer → AreAllOf k (media k d) old → AreAllOf k (media k d) new }
    ensures step { (k : Keying) (tag : ℕ) (old new : List Request) (before after : DiskState) (answer : Result ℕ StepFault) →
        StepAnswers tag old new before after answer → AreAllOf k (media k before) old → AreAllOf k (media k after) new }
    ensures reap { (k : Keying) (media tag : ℕ) (old new : List Request) (before after : List ℕ) (answer : Result Reaped ReapFault) →
        ReapAnswers k tag old new before after answer → AreAllOf k media old → AreAllOf k media new }
{}
