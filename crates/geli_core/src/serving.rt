//! One line is read, served and printed.
ghost use Rattle.std.specs.Prelude.{◌≡◌, ◌≤◌, ◌||◌, Some, false, length};
ghost use Rattle.command_words.specs.Bounds.{IsBounded};
ghost use Rattle.command_words.specs.Places.{CommandIsWithin};
ghost use Rattle.command_words.specs.Reading.{line_limit, line_reading};
ghost use Rattle.command_words.specs.Traits.{traits_of};
ghost use Rattle.command_words.specs.declared.spans.Sep.{Sep};
ghost use Rattle.geli_core.specs.Run.{ServesAndPrints};
ghost use Rattle.geli_core.specs.Sites.{BorrowsAsBefore, site_now};
ghost use Rattle.shelf.specs.Shelved.{IsWiped};

use crate::site::Site;
use block_traits::{Cabinet, Disk, Entropy, Sink};
use command_words::{Command, Sep, read_line};
use eli_base::Refusal;
use reply_text::{LineEnd, Reply, print};
use text_page::WriteEnd;
use wiping::scrub;

/// Whether one of two is true.
pub(crate) fn either(first: bool, second: bool) -> bool
    ensures { result ≡ (first || second) }
{
    first || second
}

impl<K: Sink, C: Cabinet, E: Entropy, D: Disk> Site<'_, K, C, E, D> {
    /// Reads, serves and prints one line of at most 300,000 bytes.
    pub(crate) fn serve_and_print(&mut self, line: &[u8], sep: Sep) -> Result<LineEnd, WriteEnd>
        requires { length line.now ≤ line_limit }
        ensures same { BorrowsAsBefore self.old self.new }
        ensures serves { ServesAndPrints sep line.now
            (site_now K.state C.state E.state D.state self.old).world
            (site_now K.state C.state E.state D.state self.old).sink result
            (site_now K.state C.state E.state D.state self.new).world
            (site_now K.state C.state E.state D.state self.new).sink }
    {
        let read = read_line(line, sep);
        match read {
            Ok(None) => Ok(LineEnd::Silent),
            Err(usage) => {
                let word = usage.word;
                let reason = usage.reason;
                print(
                    &Reply::Refused(Refusal::Usage { word, reason }),
                    &[],
                    self.output,
                )
            }
            Ok(Some(command)) => self.serve_command(line, &command),
        }
    }

    /// Serves a command of this line, and prints its reply. After all but a request the buffer of requests is zeros.
    pub(crate) fn serve_command(
        &mut self,
        line: &[u8],
        command: &Command,
    ) -> Result<LineEnd, WriteEnd>
        requires within { CommandIsWithin (length line.now) command.now }
        requires bounds { IsBounded line.now command.now }
        ensures same { BorrowsAsBefore self.old self.new }
        ensures serves { (sep : Sep) → line_reading sep line.now ≡ Ok (Some command.now) → ServesAndPrints sep line.now
            (site_now K.state C.state E.state D.state self.old).world
            (site_now K.state C.state E.state D.state self.old).sink result
            (site_now K.state C.state E.state D.state self.new).world
            (site_now K.state C.state E.state D.state self.new).sink }
        ensures wiped { (traits_of command.now).is_request ≡ false → IsWiped self.new.shelf.now }
    {
        let reply = self.shelf.serve(line, command, self.files, self.entropy);
        let end = print(&reply, self.shelf.payload(), self.output);
        self.forget_unless(command.traits().is_request);
        end
    }

    // Unless a request was served, overwrites the buffer of requests, and what the calls so far left on the stack.
    fn forget_unless(&mut self, is_request: bool)
        ensures same { BorrowsAsBefore self.old self.new }
        ensures drawers { self.new.shelf.now.drawers ≡ self.old.shelf.now.drawers }
        ensures stays { (self.new.output.now ≡ self.old.output.now) × (self.new.files.now ≡ self.old.files.now)
            × (self.new.entropy.now ≡ self.old.entropy.now) }
        ensures wiped { is_request ≡ false → IsWiped self.new.shelf.now }
    {
        if !is_request {
            self.shelf.forget();
            scrub(&mut self.mark);
        }
    }
}
