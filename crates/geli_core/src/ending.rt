//! The end of a run: the drawers are closed, and what was refused decides on the status.
ghost use Rattle.std.specs.Prelude.{◌≡◌, ◌≤◌, ℕ, List, IfErr, length};
ghost use Rattle.block_traits.specs.Streams.{SourceState};
ghost use Rattle.std.specs.Io.KnownBytes.{prepend_known};
ghost use Rattle.command_words.specs.Reading.{line_limit};
ghost use Rattle.text_page.specs.Output.{Prints};
ghost use Rattle.geli_core.specs.Run.{answers_text, closing_answers};
ghost use Rattle.geli_core.specs.Script.{MetNothing, RunsScript, script_limit};
ghost use Rattle.geli_core.specs.Served.{ClosesAndPrints, EndsLines, FeedsUpTo, IsServed, SiteState, StopsWithin, Traced, status_by, whole_of};
ghost use Rattle.geli_core.specs.Sites.{BorrowsAsBefore, site_now};

use crate::feeding::{Ending, Stop};
use crate::serving::either;
use crate::site::Site;
use block_traits::{Cabinet, Disk, Entropy, Sink};
use command_words::Sep;
use eli_base::Refusal;
use reply_text::{Reply, write_reply};
use run_status::Status;
use text_page::WriteEnd;

// Prints a refusal for each flush that failed.
fn print_failures<K: Sink>(failed: u32, output: &mut K) -> Result<(), WriteEnd>
    ensures prints { Prints (answers_text (closing_answers failed)) (K.state output.old) result (K.state output.new) }
    ensures some { IfErr result (λ _. 1 ≤ failed) }
{
    for printed in 0..failed {
        let _ = printed;
        write_reply(&Reply::Refused(Refusal::DeviceFault), &[], output)?;
    }
    Ok(())
}

fn status_by(refused: bool) -> Status
    ensures { result ≡ status_by refused }
{
    if refused {
        Status::SomeRefused
    } else {
        Status::Done
    }
}

impl<K: Sink, C: Cabinet, E: Entropy, D: Disk> Site<'_, K, C, E, D> {
    /// Closes the drawers, prints a refusal for each flush that failed, and returns the status.
    pub(crate) fn close_and_print(&mut self, refused: bool) -> Status
        ensures same { BorrowsAsBefore self.old self.new }
        ensures closes { ClosesAndPrints refused (site_now K.state C.state E.state D.state self.old) result
            (site_now K.state C.state E.state D.state self.new) }
    {
        let failed = self.shelf.close();
        match print_failures(failed, self.output) {
            Ok(()) => status_by(either(refused, failed > 0)),
            Err(_) => Status::WriteFault,
        }
    }

    // Serves a last line without a newline, if there is one, and returns whether anything was refused.
    fn serve_last(&mut self, line: &[u8], refused: bool) -> Result<bool, WriteEnd>
        requires { length line.now ≤ line_limit }
        ensures same { BorrowsAsBefore self.old self.new }
        ensures ends { (bytes : List ℕ) (old : SiteState) →
            IsServed bytes old line.now refused (site_now K.state C.state E.state D.state self.old) →
            EndsLines bytes old result (site_now K.state C.state E.state D.state self.new) }
    {
        if line.is_empty() {
            return Ok(refused);
        }
        let end = self.serve_and_print(line, Sep::Blanks)?;
        Ok(either(refused, end.is_refusal()))
    }

    /// Ends a script whose bytes were looked at so far: at the end of the input the last line is served, and the
    /// refusals of the closing are printed.
    pub(crate) fn end_script(&mut self, ending: Ending, line: &[u8], refused: bool) -> Status
        requires { length line.now ≤ line_limit }
        ensures same { BorrowsAsBefore self.old self.new }
        ensures ends { (bytes : List ℕ) (old : SiteState) (source after : SourceState) →
            FeedsUpTo bytes old source ending line.now refused (site_now K.state C.state E.state D.state self.old) after →
            Traced RunsScript (whole_of old source) result (whole_of (site_now K.state C.state E.state D.state self.new) after) }
    {
        match ending {
            Ending::AtEnd => self.end_lines(line, refused),
            Ending::SourceFailed => {
                self.shelf.close();
                Status::ReadFault
            }
            Ending::Full => {
                self.shelf.close();
                Status::ScriptTooLong
            }
            Ending::Stopped(stop) => self.end_stopped(stop),
        }
    }

    // Ends a script that stopped within its input.
    fn end_stopped(&mut self, stop: Stop) -> Status
        ensures same { BorrowsAsBefore self.old self.new }
        ensures ends { (bytes : List ℕ) (old : SiteState) (source after : SourceState) →
            StopsWithin bytes old stop (site_now K.state C.state E.state D.state self.old) → length bytes ≤ script_limit →
            source.left ≡ prepend_known bytes after.left → MetNothing source after →
            Traced RunsScript (whole_of old source) result (whole_of (site_now K.state C.state E.state D.state self.new) after) }
    {
        self.shelf.close();
        match stop {
            Stop::TooLong => Status::LineTooLong,
            Stop::Unprinted => Status::WriteFault,
        }
    }

    // Ends a script whose input was looked at to its end.
    fn end_lines(&mut self, line: &[u8], refused: bool) -> Status
        requires { length line.now ≤ line_limit }
        ensures same { BorrowsAsBefore self.old self.new }
        ensures ends { (bytes : List ℕ) (old : SiteState) (source after : SourceState) →
            FeedsUpTo bytes old source Ending.AtEnd line.now refused (site_now K.state C.state E.state D.state self.old) after →
            Traced RunsScript (whole_of old source) result (whole_of (site_now K.state C.state E.state D.state self.new) after) }
    {
        match self.serve_last(line, refused) {
            Ok(refused) => self.close_and_print(refused),
            Err(_) => {
                self.shelf.close();
                Status::WriteFault
            }
        }
    }
}
