//! What holds of whole runs.
ghost use Rattle.std.specs.Prelude.{◌≡◌, ℕ, List, Option, Some, slice_get};
ghost use Rattle.geli_core.specs.Laws.{LineKeepsLaws};
ghost use Rattle.command_words.specs.Reading.{line_reading};
ghost use Rattle.command_words.specs.declared.spans.Sep.{Sep};
ghost use Rattle.geli_core.specs.Complete.{Completes};
ghost use Rattle.geli_core.specs.Histories.{KeepsDrawers, RunsAt};
ghost use Rattle.geli_core.specs.Lawful.{RunsLawfully};
ghost use Rattle.geli_core.specs.Run.{ServesLine};
ghost use Rattle.geli_core.specs.Script.{Ends, StatusHasCause, Whole};
ghost use Rattle.geli_core.specs.Trace.{Run, ServedLine};
ghost use Rattle.run_status.specs.declared.status.Status.{Status};
ghost use Rattle.reply_text.specs.Answer.{Answer};
ghost use Rattle.command_rows.specs.World.{DrawerState, World};

/// While lines are served each drawer keeps its name, until a line takes it out. The history of its disk grows by
/// exactly the events of the lines that name it, one after the other; the events of a line are those of its row. A
/// drawer that no line names is there as it was, with what is attached on it.
pub fn a_run_logs_the_events_of_its_lines()
    ensures { (sep : Sep) (lines : List ServedLine) (old new : World) (before : DrawerState) (place : ℕ) →
        Run sep old lines new → slice_get old.drawers place ≡ Some before → RunsAt sep lines before new.drawers }
{}

/// What holds of each line, whatever its row: a refusal of a command has its cause, as `a_refusal_has_its_cause` of the
/// shelf says. If the drawer that it names has what its verb needs (`Fits` of the shelf), and no count of faults rises,
/// the line is served or there was no memory. This holds for every verb that names a drawer but `eject`, also those on
/// metadata, over disks and cabinets that report their content. Want of memory is the reply only to a verb that may
/// lack it (`lacks_memory` of `Traits`). Only the drawer that the line names changes or is taken out, and its disk logs
/// events of the line. It logs none if there was no memory, but for a backup that `init` stores last. What the drawer
/// does with its disk changes as `a_line_says_what_its_drawer_becomes` of the rows says. A line that changes metadata
/// leaves the old or the new whenever power fails, as `a_line_leaves_old_or_new` of the shelf says. The counts of the
/// cabinet and the entropy do what `a_line_counts_failures` of the shelf says, and the files what
/// `a_line_stores_its_file_alone` of the rows says.
pub fn a_line_keeps_the_laws()
    ensures { (sep : Sep) (line : List ℕ) (old : World) (answer : Option Answer) (new : World) →
        ServesLine sep line old answer new → LineKeepsLaws (line_reading sep line) line old answer new }
{}

/// A run whose status says that it broke off has a cause of that: if no count of faults rose, and the input is within
/// its limits, the run goes to its end.
pub fn a_run_breaks_off_for_a_cause()
    ensures { (words : List (List ℕ)) (old new : Whole) (status : Status) → RunsLawfully words old status new → StatusHasCause status old new }
{}

/// How a run may end, by what the words ask for.
pub fn a_run_ends_by_its_words()
    ensures { (words : List (List ℕ)) (old new : Whole) (status : Status) → RunsLawfully words old status new → Ends words status }
{}

/// A script or one command that is served goes to its end if the sink didn't fail. For a script, the source must not
/// fail either, and must give fewer than 2^40 bytes and no line of more than 300,000. Then all is served and printed,
/// and the status is Done or SomeRefused, by the replies. Or there was no memory, and nothing was done.
pub fn a_run_without_failures_goes_to_its_end()
    ensures { (words : List (List ℕ)) (old new : Whole) (status : Status) (run : RunsLawfully words old status new) →
        Completes words old run.trace status new }
{}

/// Whatever the status, each drawer is there as before, in order, and the history of its disk only grew. A drawer is
/// missing only if a line that was served took it out.
pub fn a_run_keeps_its_drawers()
    ensures { (words : List (List ℕ)) (old new : Whole) (status : Status) (run : RunsLawfully words old status new) →
        KeepsDrawers old.world run.trace new.world }
{}
