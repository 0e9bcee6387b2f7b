//! How many refusals for a failure a run may print.
ghost use Rattle.std.specs.Prelude.{◌≡◌, ◌⊎◌, ℕ, List, Some, slice_get};
ghost use Rattle.std.specs.List.{AllByRecursion};
ghost use Rattle.command_words.specs.Reading.{line_reading};
ghost use Rattle.command_words.specs.declared.spans.Sep.{Sep};
ghost use Rattle.geli_core.specs.Bounds.{ClosesWithFailures, CountsOutside, KeepsAll, RisesBy, RisesNamed, RisesUntilOut, device_faults};
ghost use Rattle.geli_core.specs.Trace.{IsTrace, Run, ServedLine, Trace, answers_of};
ghost use Rattle.command_rows.specs.World.{DrawerState, NamesDiffer, World, place_of};

/// Each refusal that the end of a run prints belongs to a drawer of its own, which was attached after the lines, and
/// whose disk's count of faults rose while it was closed.
pub fn a_closing_refusal_has_its_drawer()
    ensures { (entry exit : World) (trace : Trace) → IsTrace entry trace exit → ClosesWithFailures entry trace exit }
{}

/// If no line takes a drawer out: the lines that name a drawer and are answered with a failure of its disk are at most
/// as many as that disk's count of faults rose by. This holds unless the count stands at its last value, 2^64 - 1.
pub fn device_faults_are_counted()
    ensures { (sep : Sep) (lines : List ServedLine) (old new : World) (name : List ℕ) (place : ℕ) (before : DrawerState) →
        Run sep old lines new → AllByRecursion (λ (l : ServedLine). KeepsAll (line_reading sep l.line)) lines → place_of name old.drawers ≡ Some place →
        slice_get old.drawers place ≡ Some before → RisesBy (device_faults sep name lines) before place new }
{}

/// Device faults are counted as in `device_faults_are_counted`, also if lines may take drawers out; no two drawers have
/// the same name. At the end the drawer is there, perhaps at an earlier place. Or one of the lines takes it out, and
/// its disk's count of faults rose as said before that line.
pub fn device_faults_are_counted_until_eject()
    ensures { (sep : Sep) (lines : List ServedLine) (old new : World) (name : List ℕ) (place : ℕ) (before : DrawerState) →
        Run sep old lines new → NamesDiffer old.drawers → place_of name old.drawers ≡ Some place → slice_get old.drawers place ≡ Some before →
        RisesNamed (device_faults sep name lines) before name new ⊎ RisesUntilOut sep old lines (device_faults sep name lines) before name }
{}

/// The lines that are answered with a failure of the cabinet are at most as many as its count of faults rose by. Those
/// that are answered with a failure of the entropy are at most as many as its count rose by. Those that are answered
/// that a file was absent, or longer than a file may be, are at most as many as the cabinet's count of misses rose by.
/// Each holds unless that count stands at its last value, 2^64 - 1.
pub fn outside_failures_are_counted()
    ensures { (sep : Sep) (lines : List ServedLine) (old new : World) → Run sep old lines new → CountsOutside (answers_of lines) old new }
{}
