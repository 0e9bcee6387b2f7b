//! That a line does one thing.
ghost use Rattle.std.specs.Prelude.{◌≡◌, ℕ, List};
ghost use Rattle.reply_text.specs.Answer.{Answer};
ghost use Rattle.command_rows.specs.Turn.{Turn};
ghost use Rattle.command_rows.specs.World.{World};
ghost use Rattle.command_words.specs.declared.commands.Command.{Command};
ghost use Rattle.turn_determinism.specs.Quiet.{HasMemory, IsQuiet};
ghost use Rattle.turn_determinism.specs.Same.{IsSameTurn, IsSameWorld};
ghost use Rattle.turn_determinism.specs.Told.{IsTold};

/// A line does one thing: two turns of one line from one world have the same reply and leave the same world. This holds
/// if the objects that the line reaches report what they hold, no count of their faults rises in either turn, and
/// neither reply is want of memory.
///
/// In both turns these agree: all drawers, with their names, the sizes, the contents and the counts of their disks, and
/// what they do with them; the files; the random bytes that are left; and the counts of faults, of reads and of calls
/// of the entropy. How often files were loaded agrees too, unless a file is refused, being absent or too long. Counts
/// that aren't below 2^64 - 1 count as equal.
pub fn a_line_does_one_thing()
    ensures { (line : List ℕ) (command : Command) (old : World) (answer answer' : Answer) (new new' : World) →
        IsTold line command old → IsQuiet line command old new → IsQuiet line command old new' →
        HasMemory answer → HasMemory answer' →
        Turn line command old answer new → Turn line command old answer' new' →
        IsSameTurn old answer new old answer' new' }
{}

/// Worlds that are the same stay so: a line has the same reply in both, and leaves both the same. So this carries on
/// from line to line.
pub fn same_worlds_stay_the_same()
    ensures { (line : List ℕ) (command : Command) (old old' : World) (answer answer' : Answer) (new new' : World) →
        IsSameWorld old old' → IsTold line command old → IsQuiet line command old new → IsQuiet line command old' new' →
        HasMemory answer → HasMemory answer' →
        Turn line command old answer new → Turn line command old' answer' new' →
        IsSameTurn old answer new old' answer' new' }
{}
