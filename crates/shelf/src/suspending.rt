//! `geli suspend`: the keys of a provider are let go, and no request is served until it is resumed (geli(8)).

ghost use Rattle.block_traits.specs.Cabinet.{CabinetState};
ghost use Rattle.block_traits.specs.Streams.{EntropyState};
ghost use Rattle.shelf.specs.Shelved.{attachment_of, reach_in, reach_on};
ghost use Rattle.command_rows.specs.verbs.Suspend.{SuspendRow};

use crate::Held;
use crate::requests::or_device_fault;
use bio_queue::Queue;
use block_traits::Disk;
use eli_base::Refusal;
use provider::Provider;
use suspend::Suspended;

/// Suspends the provider, even if the flush of its disk fails; it is refused while requests are open. The room of the
/// queue is kept, so that resuming needs no more.
pub fn suspend<D: Disk>(provider: Provider<D>, queue: Queue) -> (Held<D>, Result<(), Refusal>)
    ensures { (cabinet : CabinetState) (entropy : EntropyState) →
        SuspendRow (attachment_of queue provider)
        (reach_on D.state queue provider cabinet entropy) result.1
        (reach_in D.state result.0 cabinet entropy) }
{
    let count = queue.len();
    if count > 0 {
        let refusal = Refusal::RequestsOpen { count };
        return (Held::Attached(provider, queue), Err(refusal));
    }
    let (suspended, flushed) = Suspended::suspend(provider);
    (Held::Suspended(suspended, queue), or_device_fault(flushed))
}
