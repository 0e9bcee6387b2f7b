//! One line, with what holds of it whatever its row.
ghost use Rattle.std.specs.Prelude.{◌≤◌, length};
ghost use Rattle.command_words.specs.Reading.{line_limit};
ghost use Rattle.shelf.specs.Shelved.{world_of};
ghost use Rattle.geli_core.specs.Laws.{ServesLawfully};

use crate::site::Site;
use block_traits::{Cabinet, Disk, Entropy, Sink};
use command_words::Sep;
use reply_text::LineEnd;
use shelf::Drawers;
use text_page::WriteEnd;

/// Reads, serves and prints one line of at most 300,000 bytes. It returns `Silent` exactly if the line says nothing,
/// and `Refused` exactly if the printed reply is a refusal. It returns `WriteEnd` only if the sink failed; the line was
/// served all the same.
///
/// What the law `a_line_keeps_the_laws` says holds of each such line, whatever its row: why it is refused, that it is
/// served if there is no cause of a refusal, and which lines never lack memory. It also says which drawer changes, and
/// what the last sector of that may hold at each moment of a line that changes metadata, whenever power fails.
pub fn serve_line<K: Sink, C: Cabinet, E: Entropy, D: Disk>(
    shelf: &mut Drawers<D>,
    line: &[u8],
    sep: Sep,
    output: &mut K,
    files: &mut C,
    entropy: &mut E,
) -> Result<LineEnd, WriteEnd>
    requires { length line.now ≤ line_limit }
    ensures { ServesLawfully sep line.now
        (world_of D.state shelf.old (C.state files.old) (E.state entropy.old))
        (K.state output.old) result
        (world_of D.state shelf.new (C.state files.new) (E.state entropy.new))
        (K.state output.new) }
{
    let mut site = Site::new(shelf, output, files, entropy);
    site.serve_and_print(line, sep)
}
