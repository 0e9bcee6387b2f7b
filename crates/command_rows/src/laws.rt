//! What holds of the line of each command, and of a sweep in parts.
ghost use Rattle.std.specs.Prelude.{◌≡◌, ℕ, Bool, List, Option, Result, Ok, Some, IfSome, IsSome, IsTrue};
ghost use Rattle.block_traits.specs.Disk.{DiskState};
ghost use Rattle.command_words.specs.Places.{bytes_at, provider_of};
ghost use Rattle.command_words.specs.declared.commands.Command.{Command};
ghost use Rattle.command_words.specs.declared.spans.Span.{Span};
ghost use Rattle.eli_base.specs.Keying.{Keying};
ghost use Rattle.eli_base.specs.declared.refusals.Refusal.{Refusal};
ghost use Rattle.eli_base.specs.declared.refusals.Refusal.TheVariants.{NoMemory};
ghost use Rattle.eli_metadata.specs.declared.metadata.Metadata.{Metadata};
ghost use Rattle.reply_text.specs.Answer.{Answer, Refused};
ghost use Rattle.command_rows.specs.Becoming.{BecomesSo};
ghost use Rattle.command_rows.specs.Causes.{Caused, may_lack_memory};
ghost use Rattle.command_rows.specs.Counts.{CountsFailures};
ghost use Rattle.command_rows.specs.Fits.{FindsAt, Fits};
ghost use Rattle.command_rows.specs.Histories.{OnlySteps};
ghost use Rattle.command_rows.specs.Opening.{NamesSameKey, OpensOrFails};
ghost use Rattle.command_rows.specs.Steps.{LoadsComponents, MakesProvider};
ghost use Rattle.command_rows.specs.Stops.{LeavesOldOrNew};
ghost use Rattle.command_rows.specs.Storing.{StoresItsFile};
ghost use Rattle.command_rows.specs.Trying.{TryRow};
ghost use Rattle.command_rows.specs.Turn.{Turn};
ghost use Rattle.command_rows.specs.World.{Attachment, Reach, World};
ghost use Rattle.command_rows.specs.verbs.Verify.{ListsEachOnce, ListsUnits};
ghost use Rattle.user_key.specs.declared.components.Components.{Components};

use command_words::KeyWords;
use key_commands::InitOptions;

/// What `init` makes opens again. Say that `attach` finds the content that an `init` left which made the provider,
/// whether or not its backup was stored. Say too that its words name the same key, and that it names slot 0 or no slot.
/// Then it refuses nothing, unless the disk or the cabinet fails or memory runs out. The backup comes last and leaves
/// the disk as it is.
pub fn what_init_makes_can_be_attached()
    ensures { (options : InitOptions) (line line' : List ℕ) (fresh words : KeyWords) (slot : Option ℕ) (readonly : Bool)
        (parts : Components) (m : Metadata) (before loaded made start after : Reach) (answer : Result Attachment Refusal) →
        LoadsComponents line fresh before (Ok parts) loaded → MakesProvider options parts loaded (Ok m) made →
        IsSome before.disk.content → start.disk.content ≡ made.disk.content →
        NamesSameKey line fresh before.cabinet line' words start.cabinet → IfSome slot (λ named. named ≡ 0) →
        TryRow line' slot readonly words start answer after → OpensOrFails start answer after }
{}

/// A line changes only the drawer that it names: the others keep their names, their disks and what they do with them,
/// and stay in order. `eject` takes it out of the list, and those after it move up. Otherwise the history of its disk
/// grows by the events of the line. A line that is served has those of its row, which its verb says (`events` of
/// `Verb`). A line that is refused has none, with two exceptions: if the disk failed it has the first ones, and if the
/// backup of `init` isn't stored it may have all.
pub fn a_line_changes_only_its_drawer()
    ensures { (line : List ℕ) (command : Command) (old : World) (answer : Answer) (new : World) →
        Turn line command old answer new → OnlySteps line command answer old.drawers new.drawers }
{}

/// Each refusal has its cause, so a line without one is served. Which verbs a refusal may come to is said by each verb,
/// in its `Traits` and its `Verb`.
///
/// - If no drawer has the name that a line gives, and only then, the refusal is `UnknownProvider`; what a drawer does
///   with its disk refuses a line only as the verb needs (`needs`, `refused_by`).
/// - A read-only provider refuses only a verb that writes data, one without authentication only a verb that needs tags,
///   and want of memory only a verb that may lack it (`writes_data`, `needs_tags`, `lacks_memory`).
/// - Besides, an attached provider refuses a line only for what the verb asks of it (`asks`): the length or the range
///   of that, the first unit of it whose tag differs, or the open requests.
/// - A file refuses a line only as the verb says (`bad_file`): if it is the first wrong one of those that the line
///   names.
/// - What stands in the last sector, the files, the image and the words refuse a line only as the verb says
///   (`grounds`), of the disk and the cabinet as they were before.
/// - That the disk, the cabinet or the entropy failed shows in their counts.
pub fn a_refusal_has_its_cause()
    ensures { (line : List ℕ) (command : Command) (old : World) (refusal : Refusal) (new : World) →
        Turn line command old (Refused refusal) new → Caused line command refusal old new }
{}

/// A line is served if all causes of `a_refusal_has_its_cause` are ruled out. If a line finds what its verb needs
/// (`Fits`) in a drawer and, if it loads files, in a cabinet that report what they hold, and no count of faults rises,
/// no cause is left but want of memory. So it is refused for that alone, and only if its verb may lack memory. `dump`
/// and `backup` need metadata in the last sector. `attach` needs an idle drawer, metadata that are admitted, and files
/// by which the words name a key that opens a slot that is asked for. `read` needs an attached provider that has the
/// sectors, whose tags fit.
pub fn no_cause_is_left_where_all_is_found()
    ensures cause { (line : List ℕ) (command : Command) (prov : Span) (refusal : Refusal) (old new : World) →
        provider_of command ≡ Some prov → FindsAt (bytes_at line prov) (Fits line command) old new →
        Caused line command refusal old new → refusal ≡ NoMemory }
    ensures answer { (line : List ℕ) (command : Command) (prov : Span) (refusal : Refusal) (old new : World) →
        provider_of command ≡ Some prov → FindsAt (bytes_at line prov) (Fits line command) old new →
        Turn line command old (Refused refusal) new → (refusal ≡ NoMemory) × IsTrue (may_lack_memory command) }
{}

/// No line makes a count of the cabinet or the entropy fall. That the cabinet or the entropy failed is reported only if
/// its count of faults rose, and that a file was absent or too long only if the count of misses did, except for
/// passphrases that are longer than their own limit.
pub fn a_line_counts_failures()
    ensures { (line : List ℕ) (command : Command) (old : World) (answer : Answer) (new : World) →
        Turn line command old answer new → CountsFailures old answer new }
{}

/// A sweep lists just the units that fail: of the device sectors that its line read, an offset is listed exactly if the
/// unit there fails, and once.
pub fn a_sweep_lists_each_failing_unit_once()
    ensures { (k : Keying) (n count : ℕ) (offsets : List ℕ) (old new : DiskState) →
        ListsUnits k n count offsets old new → ListsEachOnce k n count offsets old }
{}

/// A line that changes metadata leaves the old or the new whenever power fails. At each moment of `setkey`, `init` and
/// `restore` each value that the last sector of the named drawer may hold is one from before or the new metadata; once
/// the line is done, they are the only one. The new metadata are made of what the line names: the key of `init` and the
/// new key of `setkey` are of the components that its words name, and so is the old key of an idle drawer; those of
/// `restore` are the backup in the named file. This is said of the files from before the line, if the cabinet reports
/// them. `setkey` leaves all but its slot, its bit and the iterations, which still make the other slot's key; so does
/// `delkey` but for the slots that are named, which are clear in each value that may be held once a flush landed, and
/// zeros once it's done. Until the first flush of `resize` landed, each value that a sector may hold is one from
/// before; from then on, unless a sector is altered, the last sector has the new metadata or the old place the old
/// ones; once it's done the last sector holds the new metadata alone. Once a flush of `kill` landed, no value that the
/// last sector may hold is metadata. A line that is refused may have stopped at any event of these, or it leaves the
/// content as it is.
pub fn a_line_leaves_old_or_new()
    ensures { (line : List ℕ) (command : Command) (old : World) (answer : Answer) (new : World) →
        Turn line command old answer new → LeavesOldOrNew line command answer old new }
{}

/// What a drawer does with its disk changes by few verbs, and only as they say. After a line that leaves it in the list
/// it is idle only if it was so before, or by `detach` or `kill`. It is attached only if it was so, with the same slot,
/// keying and read-only state and, but for `submit`, `step` and `reap`, with the same open requests, or by `attach` or
/// `resume` that are done, with a key that opens the metadata of the disk. After `resume` the master key has the digest
/// that was kept. It is suspended only if it was so, and then exactly the same is kept, or by `suspend`, and then what
/// is kept is that of the provider as it was, even if the flush failed.
///
/// A drawer that a line finds suspended and leaves suspended or attached has logged nothing, so no line writes it:
/// `kill` and `detach` leave it idle.
pub fn a_line_says_what_its_drawer_becomes()
    ensures { (line : List ℕ) (command : Command) (old : World) (answer : Answer) (new : World) →
        Turn line command old answer new → BecomesSo line command answer old new }
{}

/// The files stay but for the one that `backup`, `init -B` or `verify` names, and of that one no more than one store is
/// made. No other verb makes a store. If a store fails, all files stay.
pub fn a_line_stores_its_file_alone()
    ensures { (line : List ℕ) (command : Command) (old : World) (answer : Answer) (new : World) →
        Turn line command old answer new → StoresItsFile line command old new }
{}
