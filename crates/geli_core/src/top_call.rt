//! The run: the words are read, and a script or one command is served.
ghost use Rattle.std.specs.Prelude.{◌≡◌, ℕ, List, None, Some, length, map, string_bytes};
ghost use Rattle.block_traits.specs.Streams.{SourceState};
ghost use Rattle.command_words.specs.Bounds.{IsBounded};
ghost use Rattle.command_words.specs.Images.{script_images};
ghost use Rattle.command_words.specs.Places.{CommandIsWithin};
ghost use Rattle.command_words.specs.Reading.{command_in};
ghost use Rattle.command_words.specs.Said.{FitsItsLine, Says};
ghost use Rattle.geli_core.specs.Images.{OutsideState, outside_of, whole_with};
ghost use Rattle.geli_core.specs.Lawful.{RunsLawfully};
ghost use Rattle.geli_core.specs.Script.{PrintsUsage, RunsLine, RunsScript};
ghost use Rattle.geli_core.specs.Served.{RunsUnless, Traced, whole_of};
ghost use Rattle.geli_core.specs.Sites.{BorrowsAsBefore, ReachesAsBefore, outside_now, site_now};
ghost use Rattle.shelf.specs.Shelved.{drawers_of};

use crate::outside::Outside;
use crate::site::Site;
use block_traits::{Cabinet, Disk, Entropy, Sink, Source};
use command_words::{Command, LINE_LIMIT, Words, read_words};
use run_status::Status;
use shelf::{Drawers, Shelf};
use std::alloc::Global;
use text_page::write_text;
use wiping::{scrub, wipe};

const USAGE: &[u8] = b"usage: geli script IMAGE... or geli VERB ...\n";

/// Does what the words of the command line ask for, on the disks of the shelf, and prints the replies.
///
/// `script` and one to sixteen different names ask for a script: lines are read from the input to its end, and each is
/// served and its reply printed before the next. All other words are one command, and the input isn't read. At the end
/// the drawers are closed, and a refusal is printed for each flush that failed. If the words are neither, the usage
/// line is printed.
pub fn geli_main<S: Source, K: Sink, C: Cabinet, E: Entropy>(
    alloc: Global,
    words: &[String],
    input: &mut S,
    output: &mut K,
    files: &mut C,
    entropy: &mut E,
    shelf: &mut Shelf,
) -> Status
    ensures runs { RunsLawfully (map string_bytes words.now)
        (whole_with (drawers_of (⟦<Box<dyn Disk> as Disk>⟧).state shelf.old.drawers)
        (outside_of (C.state files.old) (E.state entropy.old) (S.state input.old) (K.state output.old))) result
        (whole_with (drawers_of (⟦<Box<dyn Disk> as Disk>⟧).state shelf.new.drawers)
        (outside_of (C.state files.new) (E.state entropy.new) (S.state input.new) (K.state output.new))) }
    ensures unread { script_images (map string_bytes words.now) ≡ None → input.new ≡ input.old }
{
    let Ok(said) = read_words(alloc, words) else {
        return end_without_memory(shelf);
    };
    let mut outside = Outside::new(input, output, files, entropy);
    run(alloc, &said, shelf, &mut outside)
}

// Ends a run for which there was no memory: nothing was done.
fn end_without_memory<D: Disk>(shelf: &Drawers<D>) -> Status
    ensures { (words : List (List ℕ)) (outside : OutsideState) → RunsLawfully words
        (whole_with (drawers_of D.state shelf.now.drawers) outside) result
        (whole_with (drawers_of D.state shelf.now.drawers) outside) }
{
    shelf.hold_keyings();
    shelf.names_differ();
    Status::NoMemory
}

/// Runs words that were already read, over drawers of disks of any one type.
pub fn run<S: Source, K: Sink, C: Cabinet, E: Entropy, D: Disk>(
    alloc: Global,
    said: &Words<'_>,
    shelf: &mut Drawers<D>,
    outside: &mut Outside<'_, S, K, C, E>,
) -> Status
    requires { FitsItsLine said.now }
    ensures same { ReachesAsBefore outside.old outside.new }
    ensures runs { (words : List (List ℕ)) → Says words said.now → RunsLawfully words
        (whole_with (drawers_of D.state shelf.old.drawers) (outside_now S.state K.state C.state E.state outside.old)) result
        (whole_with (drawers_of D.state shelf.new.drawers) (outside_now S.state K.state C.state E.state outside.new)) }
    ensures unread { (words : List (List ℕ)) → Says words said.now → script_images words ≡ None →
        outside.new.input.now ≡ outside.old.input.now }
{
    // What is said of crashes rests on what is attached at entry, and what is said of counts on names that differ.
    shelf.hold_keyings();
    shelf.names_differ();
    let input = &mut *outside.input;
    let mut site = Site::new(
        shelf,
        &mut *outside.output,
        &mut *outside.files,
        &mut *outside.entropy,
    );
    match said {
        Words::Script(_) => site.run_script(alloc, input),
        Words::One { line, command } => site.run_command(line, command),
        Words::Usage => print_usage(site.output),
    }
}

impl<K: Sink, C: Cabinet, E: Entropy, D: Disk> Site<'_, K, C, E, D> {
    // Runs a script.
    fn run_script<S: Source>(&mut self, alloc: Global, input: &mut S) -> Status
        ensures same { BorrowsAsBefore self.old self.new }
        ensures runs { RunsUnless (Traced RunsScript)
            (whole_of (site_now K.state C.state E.state D.state self.old) (S.state input.old)) result
            (whole_of (site_now K.state C.state E.state D.state self.new) (S.state input.new)) }
    {
        let Ok(mut line) = Vec::with_capacity(alloc, LINE_LIMIT) else {
            return Status::NoMemory;
        };
        let mut refused = false;
        let ending = self.feed_source(input, &mut line, &mut refused);
        let status = self.end_script(ending, line.as_slice(), refused);
        wipe(line.as_mut_slice());
        scrub(&mut self.mark);
        status
    }

    // Runs one command, which its line says.
    fn run_command(&mut self, line: &[u8], command: &Command) -> Status
        requires within { CommandIsWithin (length line.now) command.now }
        requires bounds { IsBounded line.now command.now }
        ensures same { BorrowsAsBefore self.old self.new }
        ensures runs { (source : SourceState) → command_in line.now ≡ Some command.now →
            RunsUnless (Traced (RunsLine line.now (Some command.now)))
            (whole_of (site_now K.state C.state E.state D.state self.old) source) result
            (whole_of (site_now K.state C.state E.state D.state self.new) source) }
    {
        match self.serve_command(line, command) {
            Ok(end) => {
                let status = self.close_and_print(end.is_refusal());
                scrub(&mut self.mark);
                status
            }
            Err(_) => {
                self.shelf.close();
                scrub(&mut self.mark);
                Status::WriteFault
            }
        }
    }
}

fn print_usage<K: Sink>(output: &mut K) -> Status
    ensures { PrintsUsage (K.state output.old) result (K.state output.new) }
{
    match write_text(USAGE, output) {
        Ok(()) => Status::BadWords,
        Err(_) => Status::WriteFault,
    }
}
