//! Metadata stored in their place.
ghost use Rattle.std.specs.Prelude.{◌≡◌, ◌<◌, IsTrue, Ok, OnOk, OnErr};
ghost use Rattle.block_traits.specs.Disk.{FailsIn, Logs, store_events};
ghost use Rattle.eli_metadata.specs.Format.{encoded, is_served, metadata_in};

use block_traits::{DiskFailed, MetaPlace};
use eli_metadata::{Metadata, encode};

/// Stores metadata in their place, and reads nothing. Metadata of a version that is served can be read back.
pub fn store<P: MetaPlace>(place: &mut P, meta: &Metadata) -> Result<(), DiskFailed>
    requires { 0 < (P.state place.old).size }
    ensures read { IsTrue (is_served meta.now.version meta.now.flags) → metadata_in (encoded meta.now) ≡ Ok meta.now }
    ensures ok { OnOk result (Logs (store_events (P.state place.old) (encoded meta.now)) (P.state place.old) (P.state place.new)) }
    ensures err { OnErr result (FailsIn (store_events (P.state place.old) (encoded meta.now)) (P.state place.old) (P.state place.new)) }
    ensures unasked { (P.state place.new).reads ≡ (P.state place.old).reads }
    ensures rest { P.rest place.new ≡ P.rest place.old }
{
    let mut sector = [0; 512];
    encode(meta, &mut sector);
    place.store(&sector)
}
