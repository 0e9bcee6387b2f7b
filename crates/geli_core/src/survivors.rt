//! What a run leaves if power fails at any moment of it.
ghost use Rattle.std.specs.Prelude.{ℕ, List, IfSome};
ghost use Rattle.block_traits.specs.Content.{Content};
ghost use Rattle.command_words.specs.declared.spans.Sep.{Sep};
ghost use Rattle.geli_core.specs.Headline.{ReadsAfterCrashes};
ghost use Rattle.geli_core.specs.Lawful.{RunsLawfully};
ghost use Rattle.geli_core.specs.Script.{Whole};
ghost use Rattle.geli_core.specs.Survivors.{EachSurvives, EachSurvivesRun, EnduresCrashes};
ghost use Rattle.geli_core.specs.Trace.{IsTrace, Run, ServedLine, Trace};
ghost use Rattle.run_status.specs.declared.status.Status.{Status};
ghost use Rattle.readings.specs.Steps.{Step};
ghost use Rattle.command_rows.specs.World.{DrawerState, HoldKeyings, IsAmong, World};

use block_traits::Disk;

/// What is attached after some lines has a keying that a provider may have, if that was so before them. It is so of the
/// drawers of every shelf, as the law `Drawers::hold_keyings` says. These laws are about any two worlds, and so must
/// say it.
pub fn lines_keep_keyings()
    ensures { (sep : Sep) (lines : List ServedLine) (old new : World) →
        Run sep old lines new → HoldKeyings old.drawers → HoldKeyings new.drawers }
{}

/// Each drawer that is there after some lines was there before, and did the steps of its lines: a `write` placed the
/// units of its logical sectors, or the first of them if the disk failed, with a number of its own and under the keying
/// that was attached; all else is bytes that came in some other way. The history of its disk grew by exactly the events
/// of the steps. So if power fails at any moment of the lines, each image that is left reads as `Endures` promises. A
/// drawer that a line takes away has all of this after the lines before that one.
pub fn lines_survive_crashes()
    ensures { (sep : Sep) (lines : List ServedLine) (old new : World) →
        Run sep old lines new → HoldKeyings old.drawers → EachSurvives sep old lines new }
{}

/// Each drawer that is there after a run survives crashes as after its lines (`lines_survive_crashes`). Its last step
/// is the flush of its closing, if it was flushed.
pub fn runs_survive_crashes()
    ensures { (entry exit : World) (trace : Trace) → IsTrace entry trace exit → HoldKeyings entry.drawers → EachSurvivesRun entry trace exit }
{}

/// The headline as one sentence. Power fails at any moment of a run, before or within any write of a device sector; the
/// image that is left of a drawer, whole, torn or altered, is attached with a key of one of its slots. Then there was
/// no memory; or the provider has the keying of the metadata and the master key of that slot, which is one that a
/// provider may have. And each read of it returns, logical sector by logical sector, what the writings say that the
/// image chose from the cells of the run; or the range passes the end, or the disk failed.
///
/// Clause `steps` says this of any steps that endure crashes; clause `lines` of those of a drawer that is there after
/// some lines, by what is said of it there. Clause `runs` says it of those at exit, by what `geli_main`, `run` and
/// `run_images` ensure of a run.
pub fn crashed_runs_attach_and_read<D: Disk>()
    ensures steps { (steps : List Step) (c : Content) → EnduresCrashes steps c → ReadsAfterCrashes D.state steps c }
    ensures lines { (sep : Sep) (entry now : World) (served : List ServedLine) (survive : EachSurvives sep entry served now) (drawer : DrawerState) →
        (among : IsAmong now.drawers drawer) →
        let left = survive drawer among in IfSome left.before.disk.content (ReadsAfterCrashes D.state left.play.steps) }
    ensures runs { (words : List (List ℕ)) (old new : Whole) (status : Status) (run : RunsLawfully words old status new) (drawer : DrawerState) →
        (among : IsAmong new.world.drawers drawer) →
        let left = run.exit drawer among in IfSome left.before.disk.content (ReadsAfterCrashes D.state left.play.steps) }
{}
