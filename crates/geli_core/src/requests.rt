//! What holds of requests in flight over lines.
ghost use Rattle.std.specs.Prelude.{◌≡◌, ◌↔◌, ◌∷◌, ℕ, List, Ok, Option, Result, Some};
ghost use Rattle.command_words.specs.Reading.{line_reading};
ghost use Rattle.command_words.specs.declared.commands.Command.TheVariants.{Reap, Step};
ghost use Rattle.command_words.specs.declared.commands.JobWords.{JobWords};
ghost use Rattle.command_words.specs.declared.spans.Sep.{Sep};
ghost use Rattle.command_words.specs.declared.spans.Span.{Span};
ghost use Rattle.reply_text.specs.Answer.{Answer, Done, Refused};
ghost use Rattle.command_rows.specs.Turn.{Serves};
ghost use Rattle.command_rows.specs.World.{Attachment, DrawerState, HoldKeyings, IsAmong, IsAttached, Reach, World};
ghost use Rattle.eli_base.specs.declared.refusals.Refusal.{Refusal};
ghost use Rattle.eli_base.specs.declared.refusals.Refusal.TheVariants.{NoRequest};
ghost use Rattle.geli_core.specs.Requests.{CoversReaped, DoesAsLine, HaveNoRequests, HoldOwn, HoldsOwn, IsRequestDoneAlone, LacksTag};
ghost use Rattle.geli_core.specs.Trace.{Run, ServedLine};
ghost use Rattle.range_keys.specs.Ring.{IsKeying};

/// The requests that are open on a drawer of a run are of its provider, as it is, if none was open on any drawer at
/// first. So it is on each shelf to which its disks were added. What a line asks for is made of the provider that is
/// attached, which stays as it is while they are open.
pub fn requests_are_of_their_providers()
    ensures { (sep : Sep) (lines : List ServedLine) (old new : World) →
        Run sep old lines new → HoldKeyings old.drawers → HaveNoRequests old.drawers → HoldOwn new.drawers }
{}

/// On an attached drawer whose requests are of its provider, `step` and `reap` are refused with `NoRequest` exactly if
/// no open request has the tag.
pub fn missing_requests_are_refused()
    ensures step { (line : List ℕ) (prov : Span) (tag : ℕ) (a : Attachment) (old new : Reach) (said : Answer) →
        old.holding ≡ IsAttached a → HoldsOwn old.holding old.disk → Serves line (Step prov tag) old said new →
        (said ≡ Refused (NoRequest tag)) ↔ LacksTag tag old.holding }
    ensures reap { (line : List ℕ) (prov : Span) (tag : ℕ) (a : Attachment) (old new : Reach) (said : Answer) →
        old.holding ≡ IsAttached a → HoldsOwn old.holding old.disk → Serves line (Reap prov tag) old said new →
        (said ≡ Refused (NoRequest tag)) ↔ LacksTag tag old.holding }
{}

/// A flush covers each write that was reaped before it was submitted, whatever lines come between: after the lines from
/// the `reap` on, a flush follows each unit of the write. The request was submitted in the run, on a drawer whose disk
/// reports its content.
pub fn flushes_cover_reaped_writes()
    ensures { (sep : Sep) (served : List ServedLine) (entry start : World) (reap : ServedLine) (prov : Span) (tag : ℕ)
        (rest : List ServedLine) (end : World) (drawer : DrawerState) →
        Run sep entry served start → HoldKeyings entry.drawers → line_reading sep reap.line ≡ Ok (Some (Reap prov tag)) → reap.answer ≡ Some Done →
        Run sep start (reap ∷ rest) end → IsAmong end.drawers drawer → CoversReaped sep entry served start reap prov tag rest drawer }
{}

/// A request that is submitted, done step by step and reaped, with no other line between and no step that the disk
/// failed, does and returns what `read`, `write` or `flush` does in its place. A read logs nothing and returns the
/// bytes of its logical sectors as they stood when it was submitted, or the first unit whose tag differs. A write logs
/// the same events as `write`; a flush is one flush.
pub fn requests_alone_are_lines()
    ensures { (line : List ℕ) (asked : JobWords) (a : Attachment) (old new : Reach) (answer : Result (Option (List ℕ)) Refusal) →
        old.holding ≡ IsAttached a → IsKeying a.keying → IsRequestDoneAlone line asked a old answer new → DoesAsLine line asked a old answer new }
{}
