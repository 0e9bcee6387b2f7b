//! The run over disks, which are put on a shelf under their names.
ghost use Rattle.std.specs.Prelude.{◌≡◌, ℕ, List, None, IfErr, IfOk, OnErr, OnOk, length, map, string_bytes};
ghost use Rattle.command_words.specs.Images.{script_images};
ghost use Rattle.command_words.specs.Said.{FitsItsLine, Says};
ghost use Rattle.command_rows.specs.World.{NamesDiffer};
ghost use Rattle.geli_core.specs.Images.{IsNotShelved, RunsOver, disks_back, idle_drawers};
ghost use Rattle.geli_core.specs.Sites.{HasAsBefore, ReachesAsBefore, outside_now};
ghost use Rattle.shelf.specs.Shelved.{drawers_of};

use crate::outside::Outside;
use crate::top_call::{geli_main, run};
use block_traits::{Cabinet, Disk, Entropy, Sink, Source};
use command_words::Words;
use run_status::Status;
use shelf::{AddFault, Drawers, Shelf};
use std::alloc::Global;

/// Why no shelf took all of the disks, and the disks themselves, handed back.
#[derive(Drop)]
pub struct NotShelved<D: Drop> {
    /// Why the shelf refused one.
    pub fault: AddFault,
    /// The shelf with the disks before that one, if there was memory for a shelf.
    pub shelf: Option<Drawers<D>>,
    /// The disk that was refused, if there was a shelf.
    pub disk: Option<D>,
    /// The disks after it.
    pub rest: Vec<D>,
}

/// Puts disks on a shelf, each under the name at its place, and does over the shelf what the words of the command line
/// ask for. The shelf comes back as the run left it. A shelf that doesn't take all of them is a refusal: the disks come
/// back as they were, and nothing was read, printed, stored or drawn.
pub fn run_images<S: Source, K: Sink, C: Cabinet, E: Entropy>(
    alloc: Global,
    words: &[String],
    names: &[String],
    disks: Vec<Box<dyn Disk>>,
    outside: &mut Outside<'_, S, K, C, E>,
) -> Result<(Status, Shelf), NotShelved<Box<dyn Disk>>>
    requires { length disks.items ≡ length names.now }
    ensures same { ReachesAsBefore outside.old outside.new }
    ensures runs { IfOk result (λ ran. RunsOver (map string_bytes words.now) (map string_bytes names.now)
        (map (⟦<Box<dyn Disk> as Disk>⟧).state disks.items)
        (outside_now S.state K.state C.state E.state outside.old) ran.0
        (drawers_of (⟦<Box<dyn Disk> as Disk>⟧).state ran.1.drawers)
        (outside_now S.state K.state C.state E.state outside.new)) }
    ensures unread { OnOk result
        (script_images (map string_bytes words.now) ≡ None → outside.new.input.now ≡ outside.old.input.now) }
    ensures refused { IfErr result (λ refused. IsNotShelved refused.fault
        (idle_drawers (map string_bytes names.now) (map (⟦<Box<dyn Disk> as Disk>⟧).state disks.items))) }
    ensures kept { IfErr result (λ refused.
        disks_back (⟦<Box<dyn Disk> as Disk>⟧).state refused ≡ map (⟦<Box<dyn Disk> as Disk>⟧).state disks.items) }
    ensures nothing { OnErr result (HasAsBefore outside.old outside.new) }
{
    let mut shelf = shelved(alloc, names, disks)?;
    let status = geli_main(
        alloc,
        words,
        &mut *outside.input,
        &mut *outside.output,
        &mut *outside.files,
        &mut *outside.entropy,
        &mut shelf,
    );
    Ok((status, shelf))
}

/// Runs words that were already read, over drawers of these names and disks. The disks are of any one type and needn't
/// be boxed.
pub fn run_over<S: Source, K: Sink, C: Cabinet, E: Entropy, D: Disk>(
    alloc: Global,
    said: &Words<'_>,
    names: &[String],
    disks: Vec<D>,
    outside: &mut Outside<'_, S, K, C, E>,
) -> Result<(Status, Drawers<D>), NotShelved<D>>
    requires fits { FitsItsLine said.now }
    requires named { length disks.items ≡ length names.now }
    ensures same { ReachesAsBefore outside.old outside.new }
    ensures runs { IfOk result (λ ran. (words : List (List ℕ)) → Says words said.now →
        RunsOver words (map string_bytes names.now) (map D.state disks.items)
        (outside_now S.state K.state C.state E.state outside.old) ran.0 (drawers_of D.state ran.1.drawers)
        (outside_now S.state K.state C.state E.state outside.new)) }
    ensures unread { OnOk result ((words : List (List ℕ)) → Says words said.now → script_images words ≡ None →
        outside.new.input.now ≡ outside.old.input.now) }
    ensures refused { IfErr result (λ refused.
        IsNotShelved refused.fault (idle_drawers (map string_bytes names.now) (map D.state disks.items))) }
    ensures kept { IfErr result (λ refused. disks_back D.state refused ≡ map D.state disks.items) }
    ensures nothing { OnErr result (HasAsBefore outside.old outside.new) }
{
    let mut shelf = shelved(alloc, names, disks)?;
    let status = run(alloc, said, &mut shelf, outside);
    Ok((status, shelf))
}

// A shelf of these disks, each under its name.
fn shelved<D: Disk>(
    alloc: Global,
    names: &[String],
    disks: Vec<D>,
) -> Result<Drawers<D>, NotShelved<D>>
    requires { length disks.items ≡ length names.now }
    ensures drawers { IfOk result (λ shelf.
        drawers_of D.state shelf.drawers ≡ idle_drawers (map string_bytes names.now) (map D.state disks.items)) }
    ensures differ { OnOk result (NamesDiffer (idle_drawers (map string_bytes names.now) (map D.state disks.items))) }
    ensures refused { IfErr result (λ refused.
        IsNotShelved refused.fault (idle_drawers (map string_bytes names.now) (map D.state disks.items))) }
    ensures kept { IfErr result (λ refused. disks_back D.state refused ≡ map D.state disks.items) }
{
    let Ok(mut shelf) = Drawers::new(alloc) else {
        return Err(NotShelved {
            fault: AddFault::NoMemory,
            shelf: None,
            disk: None,
            rest: disks,
        });
    };
    let mut disks = disks;
    for name in names {
        match shelf.add(name.as_str(), disks.remove(0)) {
            Ok(()) => {}
            Err((disk, fault)) => {
                return Err(NotShelved {
                    fault,
                    shelf: Some(shelf),
                    disk: Some(disk),
                    rest: disks,
                });
            }
        }
    }
    Ok(shelf)
}
