//! What a client is told of a provider.
ghost use Rattle.std.specs.Prelude.{◌≡◌, IsTrue};
ghost use Rattle.eli_base.specs.SectorSize.{is_sector_size};
ghost use Rattle.nbd_session.specs.Export.{export_for};
ghost use Rattle.nbd_session.specs.Requests.{side_of};

use block_traits::Disk;
use byte_ranges::size_of_data;
use nbd_words::{Export, transmission_flags};
use provider::Provider;

/// What a client is told of a provider. The preferred number of bytes of a request is a power of two.
pub fn export_of<D: Disk>(provider: &Provider<D>, most: u32) -> Export
    ensures told { result ≡ export_for (side_of provider.now) (D.state provider.now.disk) most }
    ensures preferred { IsTrue (is_sector_size result.preferred) }
{
    provider.is_of_a_keying();
    Export {
        size: size_of_data(provider),
        flags: transmission_flags(provider.read_only()),
        preferred: provider.sector_size().max(4096),
        most,
    }
}
