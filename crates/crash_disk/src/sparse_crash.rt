//! What a crash leaves of a disk in memory that keeps written sectors alone.
ghost use Rattle.std.specs.Prelude.{◌≡◌, ◌<◌, ◌≤◌, [], List, IfOk, IfErr, IfSome, IfNone, OnOk, length};
ghost use Rattle.std.specs.Bool.{OnTrue, OnFalse};
ghost use Rattle.block_traits.specs.Content.{IsSector, at_moment};
ghost use Rattle.block_traits.specs.Crash.{IsImage, IsTorn};
ghost use Rattle.crash_disk.specs.Survivor.{AllGood, AllGoodTears, IsBad, IsBadTear, IsFault, IsGood, IsGoodTear, IsTornImage, choice_of};
ghost use Rattle.crash_disk.specs.MemDisk.{fresh};
ghost use Rattle.crash_disk.specs.SparseDisk.{after_put, sparse_disk_of, sparse_state_of};
ghost use Rattle.crash_disk.specs.declared.survivor.Torn.{Torn};

use crate::SparseDisk;
use crate::survivor::{Pick, SurvivorFault, Torn, is_picked, is_torn, kept_value};
use block_traits::{Disk, NoMemory, Sector};
use std::alloc::Global;

/// The disk that a crash leaves after the first events, as `survivor_torn` makes it of a `MemDisk`, or with no torn
/// entry, as `survivor_whole` does.
pub fn sparse_survivor(
    alloc: Global,
    disk: &SparseDisk,
    moment: usize,
    picks: &[Pick],
    torn: &[Torn],
) -> Result<SparseDisk, SurvivorFault>
    requires { moment ≤ length (sparse_state_of disk.now).content.history }
    ensures image { let left = at_moment moment (sparse_state_of disk.now).content in
        IfOk result (λ survivor. IsTornImage left (choice_of left picks.now) torn.now (sparse_state_of survivor).content.base) }
    ensures torn { let left = at_moment moment (sparse_state_of disk.now).content in
        IfOk result (λ survivor. IsTorn left (sparse_state_of survivor).content.base) }
    ensures good { let left = at_moment moment (sparse_state_of disk.now).content in
        IfOk result (λ _. AllGood left picks.now (length picks.now)) }
    ensures good_torn { let left = at_moment moment (sparse_state_of disk.now).content in
        IfOk result (λ _. AllGoodTears left picks.now torn.now (length torn.now)) }
    ensures rest { IfOk result (λ survivor. sparse_state_of survivor ≡ fresh (sparse_state_of survivor).content.base (sparse_state_of disk.now).room) }
    ensures bad { IfErr result (IsFault (at_moment moment (sparse_state_of disk.now).content) picks.now torn.now) }
{
    let mut made = picked_disk(alloc, disk, moment, picks)?;
    for (index, tear) in torn.iter().enumerate() {
        if !can_tear(disk, moment, picks, &torn[..index], tear.n) {
            return Err(SurvivorFault::BadTorn { index });
        }
        let Ok(()) = put(&mut made, tear.n, &tear.bytes) else {
            return Err(SurvivorFault::NoMemory);
        };
    }
    Ok(made)
}

// The disk whose base is the image that the picks name.
fn picked_disk(
    alloc: Global,
    disk: &SparseDisk,
    moment: usize,
    picks: &[Pick],
) -> Result<SparseDisk, SurvivorFault>
    requires { moment ≤ length (sparse_state_of disk.now).content.history }
    ensures image { let left = at_moment moment (sparse_state_of disk.now).content in
        IfOk result (λ made. IsImage left (choice_of left picks.now) (sparse_state_of made).content.base) }
    ensures good { let left = at_moment moment (sparse_state_of disk.now).content in
        IfOk result (λ _. AllGood left picks.now (length picks.now)) }
    ensures rest { IfOk result (λ made. sparse_state_of made ≡ fresh (sparse_state_of made).content.base (sparse_state_of disk.now).room) }
    ensures bad { IfErr result (λ fault. (torn : List Torn) → IsFault (at_moment moment (sparse_state_of disk.now).content) picks.now torn fault) }
{
    let Ok(mut made) = disk.at(alloc, moment) else {
        return Err(SurvivorFault::NoMemory);
    };
    for (index, pick) in picks.iter().enumerate() {
        let Some(bytes) = picked_value(disk, moment, &picks[..index], *pick) else {
            return Err(SurvivorFault::BadPick { index });
        };
        let Ok(()) = put(&mut made, pick.n, &bytes) else {
            return Err(SurvivorFault::NoMemory);
        };
    }
    Ok(made)
}

// Gives a sector these bytes.
fn put(made: &mut SparseDisk, n: u64, bytes: &Sector) -> Result<(), NoMemory>
    requires { n < (sparse_disk_of made.old).size }
    ensures after { OnOk result (sparse_state_of made.new ≡ after_put n bytes.now (sparse_state_of made.old)) }
    ensures sector { IsSector bytes.now }
{
    made.put(n, bytes)
}

// The value that is picked, unless the pick is bad.
fn picked_value(disk: &SparseDisk, moment: usize, before: &[Pick], pick: Pick) -> Option<Sector>
    requires { moment ≤ length (sparse_state_of disk.now).content.history }
    ensures good { IfSome result (IsGood (at_moment moment (sparse_state_of disk.now).content) before.now pick) }
    ensures bad { IfNone result (IsBad (at_moment moment (sparse_state_of disk.now).content) before.now pick) }
{
    if pick.n >= disk.sectors() || is_picked(before, pick.n) {
        return None;
    }
    kept_value(
        &disk.first(pick.n),
        &disk.history()[..moment],
        pick.n,
        pick.place,
    )
}

// Whether a sector may be torn.
fn can_tear(disk: &SparseDisk, moment: usize, picks: &[Pick], before: &[Torn], n: u64) -> bool
    requires { moment ≤ length (sparse_state_of disk.now).content.history }
    ensures good { OnTrue result (IsGoodTear (at_moment moment (sparse_state_of disk.now).content) picks.now before.now n) }
    ensures bad { OnFalse result (IsBadTear (at_moment moment (sparse_state_of disk.now).content) picks.now before.now n) }
{
    n < disk.sectors().saturating_sub(1)
        && !is_picked(picks, n)
        && !is_torn(before, n)
        && kept_value(&disk.first(n), &disk.history()[..moment], n, 1).is_some()
}
