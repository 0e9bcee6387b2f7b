//! The metadata of a disk, with which commands begin.

ghost use Rattle.std.specs.Prelude.{◌≡◌};
ghost use Rattle.command_rows.specs.Steps.{Reads};

use block_traits::MetaPlace;
use eli_base::Refusal;
use eli_metadata::{Metadata, read_metadata};

/// The metadata, or why there are none.
pub fn read_last<P: MetaPlace>(place: &mut P) -> Result<Metadata, Refusal>
    ensures reads { Reads (P.state place.old) result (P.state place.new) }
    ensures rest { P.rest place.new ≡ P.rest place.old }
{
    Ok(read_metadata(place)?)
}
