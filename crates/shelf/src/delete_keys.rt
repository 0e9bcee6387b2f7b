//! `geli delkey`: keys are taken out of the slots of a provider (geli(8)).

ghost use Rattle.std.specs.Prelude.{◌≡◌, ℕ, List};
ghost use Rattle.bio_queue.specs.Requests.{Request};
ghost use Rattle.block_traits.specs.Cabinet.{CabinetState};
ghost use Rattle.reply_text.specs.Answer.{answer_of};
ghost use Rattle.command_rows.specs.Turn.{GoesThrough};
ghost use Rattle.command_rows.specs.World.{Holding, Idle, reach_of};
ghost use Rattle.command_rows.specs.verbs.Delkey.{DeletesRow, named_slots};
ghost use Rattle.reply_text.specs.Text.{FitsPayload};
ghost use Rattle.shelf.specs.Shelved.{reach_in, reach_on};
ghost use Rattle.shelf.specs.Verbs.{IsDelkey};

use crate::Held;
use crate::reading::read_last;
use crate::replies::done_or;
use block_traits::{Disk, Entropy, LastSector, MetaPlace};
use command_words::Command;
use eli_base::Refusal;
use key_commands::Which;
use provider::{Provider, rest_tells_all};
use reply_text::Reply;

// Both slots, or the one of this number.
fn named_slots(all: bool, slot: Option<u8>) -> Result<Which, Refusal>
    ensures { result ≡ named_slots all slot }
{
    match slot {
        _ if all => Ok(Which::All),
        Some(slot) => Ok(Which::One(slot)),
        None => Err(Refusal::KeyNumberNeeded),
    }
}

// Takes the keys out of both slots, or out of the one of this number.
fn delkey<P: MetaPlace, E: Entropy>(
    place: &mut P,
    all: bool,
    force: bool,
    slot: Option<u8>,
    entropy: &mut E,
) -> Result<(), Refusal>
    ensures row { (holding : Holding) (cabinet : CabinetState) →
        DeletesRow all force slot
        (reach_of (P.state place.old) holding cabinet (E.state entropy.old)) result
        (reach_of (P.state place.new) holding cabinet (E.state entropy.new)) }
    ensures rest { P.rest place.new ≡ P.rest place.old }
{
    let meta = read_last(place)?;
    let which = named_slots(all, slot)?;
    match key_commands::delkey(place, &meta, which, force, entropy) {
        Ok(_) => Ok(()),
        Err(refusal) => Err(refusal),
    }
}

/// Serves `delkey` on the disk of an idle drawer.
pub fn serve_delkey_idle<D: Disk, E: Entropy>(
    disk: D,
    line: &[u8],
    command: &Command,
    entropy: &mut E,
) -> (Held<D>, Reply)
    requires { IsDelkey command.now }
    ensures serves { (cabinet : CabinetState) (bytes : List ℕ) → GoesThrough line.now command.now
        (reach_of (D.state disk) Idle cabinet (E.state entropy.old)) (answer_of bytes result.1)
        (reach_in D.state result.0 cabinet (E.state entropy.new)) }
    ensures payload { FitsPayload 0 result.1 }
{
    match command {
        Command::Delkey {
            all,
            force,
            slot,
            ..
        } => {
            let mut place = LastSector::new(disk);
            let answer = delkey(&mut place, *all, *force, *slot, entropy);
            (Held::Idle(place.into_disk()), done_or(answer))
        }
        _ => unreachable!(),
    }
}

/// Serves `delkey` on an attached drawer, which stays attached: if no slot is named, it is the provider's.
pub fn serve_delkey_attached<D: Disk, E: Entropy>(
    provider: &mut Provider<D>,
    line: &[u8],
    command: &Command,
    entropy: &mut E,
) -> Reply
    requires { IsDelkey command.now }
    ensures serves { (queue : List Request) (cabinet : CabinetState) (bytes : List ℕ) → GoesThrough line.now command.now
        (reach_on D.state queue provider.old cabinet (E.state entropy.old)) (answer_of bytes result)
        (reach_on D.state queue provider.new cabinet (E.state entropy.new)) }
    ensures payload { FitsPayload 0 result }
{
    rest_tells_all();
    match command {
        Command::Delkey {
            all,
            force,
            slot,
            ..
        } => {
            let slot = slot.or(Some(provider.slot()));
            let answer = delkey(provider, *all, *force, slot, entropy);
            done_or(answer)
        }
        _ => unreachable!(),
    }
}
