//! `geli verify`: the units that fail are listed in parts, and the place where the next part begins stands in a file.

ghost use Rattle.std.specs.Prelude.{◌≡◌, ◌*◌, ◌≤◌, List, Some, IfOk, true, length};
ghost use Rattle.command_words.specs.Bounds.{IsBounded};
ghost use Rattle.bio_queue.specs.Requests.{Request};
ghost use Rattle.block_traits.specs.Cabinet.{CabinetState};
ghost use Rattle.block_traits.specs.Disk.{DiskState};
ghost use Rattle.block_traits.specs.Streams.{EntropyState};
ghost use Rattle.command_words.specs.Places.{CommandIsWithin, IsWithin};
ghost use Rattle.reply_text.specs.Answer.{answer_of};
ghost use Rattle.command_rows.specs.Turn.{GoesThrough};
ghost use Rattle.reply_text.specs.Text.{FitsPayload};
ghost use Rattle.provider.specs.Attached.{has_tags};
ghost use Rattle.eli_base.specs.Requests.{request_limit};
ghost use Rattle.command_rows.specs.World.{Holding, reach_of};
ghost use Rattle.command_rows.specs.verbs.Verify.{FindsPlace, SweepsFrom, VerifyRow, place_in, place_size};
ghost use Rattle.shelf.specs.Shelved.{attachment_of, reach_on};
ghost use Rattle.shelf.specs.Verbs.{IsVerify};
ghost use Rattle.shelf.specs.Verifying.{swept_part, without_file};

use crate::replies::verified_or;
use crate::saving::store_at;
use block_traits::{Cabinet, Disk};
use command_words::{Command, Span};
use eli_base::Refusal;
use key_components::load_file;
use provider::Provider;
use reply_text::Reply;
use std::alloc::Global;
use verify_sweep::{Swept, sweep};

// The bytes of a place, which are the most that its file may have.
const PLACE_SIZE: usize = 8;

// The number that the bytes of a file are; the word names the file.
fn place_in(word: u32, bytes: &[u8]) -> Result<u64, Refusal>
    requires { length bytes.now ≤ place_size }
    ensures { result ≡ place_in word (Some bytes.now) }
{
    if bytes.len() < PLACE_SIZE {
        let length = bytes.len() as u64;
        return Err(Refusal::BadPlaceFile { word, length });
    }
    let mut place = [0; PLACE_SIZE];
    place.copy_from_slice(bytes);
    Ok(u64::from_le_bytes(place))
}

// The first sector if there is no file, or why it wasn't loaded.
fn without_file(refusal: Refusal) -> Result<u64, Refusal>
    ensures { result ≡ without_file refusal }
{
    match refusal {
        Refusal::FileAbsent { .. } => Ok(0),
        refusal => Err(refusal),
    }
}

// Where a sweep begins: at the first sector, or where the file at a place of the line says, if there is one.
fn find_place<C: Cabinet>(
    alloc: Global,
    line: &[u8],
    file: Span,
    restart: bool,
    files: &mut C,
) -> Result<u64, Refusal>
    requires { IsWithin (length line.now) file }
    ensures { (disk : DiskState) (holding : Holding) (entropy : EntropyState) →
        FindsPlace restart line.now file
        (reach_of disk holding (C.state files.old) entropy) result
        (reach_of disk holding (C.state files.new) entropy) }
{
    if restart {
        return Ok(0);
    }
    match load_file(alloc, line, file, PLACE_SIZE, files) {
        Ok(bytes) => place_in(file.word, bytes.as_slice()),
        Err(refusal) => without_file(refusal),
    }
}

// Lists the units that fail from a place on, if that isn't beyond the last sector.
fn sweep_from<D: Disk>(
    provider: &mut Provider<D>,
    place: u64,
    count: u64,
    buffer: &mut [u8],
) -> Result<Swept, Refusal>
    requires tagged { has_tags provider.old.keying.auth ≡ true }
    requires some { 1 ≤ count }
    requires room { length buffer.old ≡ request_limit }
    ensures row { (queue : List Request) (cabinet : CabinetState) (entropy : EntropyState) →
        SweepsFrom (attachment_of queue provider.old) place count
        (reach_on D.state queue provider.old cabinet entropy) (swept_part buffer.new result)
        (reach_on D.state queue provider.new cabinet entropy) }
    ensures bound { IfOk result (λ swept. 8 * swept.bad ≤ request_limit) }
{
    let media = provider.sectors();
    if place > media {
        return Err(Refusal::BadPlace { place, media });
    }
    match sweep(provider, place, count, buffer) {
        Ok(swept) => Ok(swept),
        Err(_) => Err(Refusal::DeviceFault),
    }
}

// Lists the units that fail at the front of the buffer, over so many logical sectors or fewer, and stores where the
// next part begins in the file at a place of the line. The sweep begins where that file says; if it begins anew, no
// file is loaded.
fn verify<D: Disk, C: Cabinet>(
    alloc: Global,
    provider: &mut Provider<D>,
    line: &[u8],
    file: Span,
    count: u64,
    restart: bool,
    buffer: &mut [u8],
    files: &mut C,
) -> Result<Swept, Refusal>
    requires within { IsWithin (length line.now) file }
    requires some { 1 ≤ count }
    requires room { length buffer.old ≡ request_limit }
    ensures row { (queue : List Request) (entropy : EntropyState) →
        VerifyRow line.now file count restart (attachment_of queue provider.old)
        (reach_on D.state queue provider.old (C.state files.old) entropy) (swept_part buffer.new result)
        (reach_on D.state queue provider.new (C.state files.new) entropy) }
    ensures bound { IfOk result (λ swept. 8 * swept.bad ≤ request_limit) }
{
    if !provider.authenticated() {
        return Err(Refusal::NotAuthenticated);
    }
    let place = find_place(alloc, line, file, restart, files)?;
    let swept = sweep_from(provider, place, count, buffer)?;
    store_at(alloc, line, file, &swept.next.to_le_bytes(), files)?;
    Ok(swept)
}

/// Serves `verify` on an attached drawer, which stays attached.
pub fn serve_verify<D: Disk, C: Cabinet>(
    alloc: Global,
    provider: &mut Provider<D>,
    line: &[u8],
    command: &Command,
    buffer: &mut [u8],
    files: &mut C,
) -> Reply
    requires verb { IsVerify command.now }
    requires within { CommandIsWithin (length line.now) command.now }
    requires bounds { IsBounded line.now command.now }
    requires room { length buffer.old ≡ request_limit }
    ensures serves { (queue : List Request) (entropy : EntropyState) → GoesThrough line.now command.now
        (reach_on D.state queue provider.old (C.state files.old) entropy) (answer_of buffer.new result)
        (reach_on D.state queue provider.new (C.state files.new) entropy) }
    ensures payload { FitsPayload request_limit result }
{
    match command {
        Command::Verify {
            file,
            count,
            restart,
            ..
        } => {
            let answer = verify(
                alloc, provider, line, *file, *count, *restart, buffer, files,
            );
            verified_or(answer)
        }
        _ => unreachable!(),
    }
}
