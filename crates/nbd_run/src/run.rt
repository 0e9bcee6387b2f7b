//! The run of the program, from the words to the status.
ghost use Rattle.std.specs.Prelude.{◌≡◌, ℕ, IfErr, IfOk, List, MatchResult, length, map, string_bytes, true};
ghost use Rattle.command_words.specs.Bounds.{IsBounded};
ghost use Rattle.command_words.specs.Places.{CommandIsWithin};
ghost use Rattle.command_rows.specs.World.{Idle, reach_of};
ghost use Rattle.eli_base.specs.Requests.{request_limit};
ghost use Rattle.nbd_run.specs.Program.{AreWiped, LacksMemory, ServesDisk, ServesImage, ServesNothing, remains, streams};
ghost use Rattle.nbd_run.specs.Words.{AsksToAttach, attaches, wish_of};
ghost use Rattle.nbd_run.specs.declared.words.Wish.TheVariants as wishes;

use crate::attaching::attach;
use crate::opening::{Opened, open_asked};
use crate::serving::{Rooms, log_text, print_text, serve_or_log, take_rooms};
use crate::status::Status;
use crate::words::{Asked, HELP, USAGE, VERSION, Wish, read_attach, wish_of};
use block_traits::{Cabinet, Disk, Entropy, Sink, Source};
use file_edge::{FileCabinet, FileDisk, ImageFile, Opener, RandomFile};
use image_layers::ImageDisk;
use std::alloc::Global;
use wiping::scrub;

/// How a run ended that opened an image, and what was opened, as the run left it.
#[derive(Drop)]
pub struct Ran<O: Opener + Drop>
where
    FileDisk<O::File>: Disk,
{
    /// How it ended.
    pub status: Status,
    /// The disk of the image.
    pub disk: ImageDisk<O::File>,
    /// The files beside it.
    pub files: FileCabinet<O>,
    /// The random bytes.
    pub entropy: RandomFile<O::File>,
}

/// The status of a run. What was opened is let go.
pub fn status_of<O: Opener + Drop>(ran: Result<Ran<O>, (Status, O)>) -> Status
    ensures { MatchResult ran (λ left. result ≡ left.status) (λ left. result ≡ left.0) }
{
    match ran {
        Ok(ran) => ran.status,
        Err((status, _)) => status,
    }
}

/// Attaches the provider that the words name, as `geli attach` does, and serves it to one client; or prints to the log
/// why not. Just the files of the image are opened, and then the random bytes. If nothing was opened, the opener comes
/// back with the status: a text was asked for, which the client is given, or the words ask for nothing, or there was no
/// memory. Then no byte of the client was taken, and names have what they had.
pub fn serve_words<O: Opener + Drop, S: Source, K: Sink, L: Sink>(
    alloc: Global,
    words: Vec<String>,
    opener: O,
    input: &mut S,
    output: &mut K,
    log: &mut L,
) -> Result<Ran<O>, (Status, O)>
    ensures serves { IfOk result (λ ran. ServesImage
        (⟦<FileDisk<O::File> as Disk>⟧) (⟦<O as Opener>⟧) (⟦<O::File as ImageFile>⟧)
        (map string_bytes words.items) opener (streams (S.state input.old) (K.state output.old) (L.state log.old)) ran.status
        (remains ((⟦<ImageDisk<O::File> as Disk>⟧).state ran.disk) ((⟦<FileCabinet<O> as Cabinet>⟧).state ran.files)
        ((⟦<RandomFile<O::File> as Entropy>⟧).state ran.entropy)) (streams (S.state input.new) (K.state output.new) (L.state log.new))) }
    ensures told { IfErr result (λ left. O.told left.1 ≡ O.told opener) }
    ensures nothing { IfErr result (λ left. ServesNothing O.asked (map string_bytes words.items)
        (wish_of (map string_bytes words.items)) opener (streams (S.state input.old) (K.state output.old) (L.state log.old))
        left.0 left.1 (streams (S.state input.new) (K.state output.new) (L.state log.new))) }
{
    match wish_of(words.as_slice()) {
        Wish::Help => Err((print_text(HELP, output), opener)),
        Wish::Version => Err((print_text(VERSION, output), opener)),
        Wish::Other => match read_attach(alloc, words) {
            Ok(Some(asked)) => serve_asked(alloc, asked, opener, input, output, log),
            Ok(None) => {
                log_text(USAGE, log);
                Err((Status::BadWords, opener))
            }
            Err(_) => Err((Status::NoMemory, opener)),
        },
    }
}

// Opens the image, attaches its provider and serves it, or prints the refusal to the log. The rooms for that are taken
// first.
fn serve_asked<O: Opener + Drop, S: Source, K: Sink, L: Sink>(
    alloc: Global,
    asked: Asked,
    opener: O,
    input: &mut S,
    output: &mut K,
    log: &mut L,
) -> Result<Ran<O>, (Status, O)>
    requires verb { attaches asked.command ≡ true }
    requires within { CommandIsWithin (length asked.line.items) asked.command }
    requires bounds { IsBounded asked.line.items asked.command }
    ensures serves { IfOk result (λ ran. (words : List (List ℕ)) → wish_of words ≡ wishes.Other
        → AsksToAttach words (string_bytes asked.name) asked.line.items asked.command → ServesImage
        (⟦<FileDisk<O::File> as Disk>⟧) (⟦<O as Opener>⟧) (⟦<O::File as ImageFile>⟧)
        words opener (streams (S.state input.old) (K.state output.old) (L.state log.old)) ran.status
        (remains ((⟦<ImageDisk<O::File> as Disk>⟧).state ran.disk) ((⟦<FileCabinet<O> as Cabinet>⟧).state ran.files)
        ((⟦<RandomFile<O::File> as Entropy>⟧).state ran.entropy)) (streams (S.state input.new) (K.state output.new) (L.state log.new))) }
    ensures told { IfErr result (λ left. O.told left.1 ≡ O.told opener) }
    ensures nothing { IfErr result (λ left. (words : List (List ℕ))
        → AsksToAttach words (string_bytes asked.name) asked.line.items asked.command
        → LacksMemory O.asked words opener (streams (S.state input.old) (K.state output.old) (L.state log.old))
        left.0 left.1 (streams (S.state input.new) (K.state output.new) (L.state log.new))) }
{
    let Ok(mut rooms) = take_rooms(alloc) else {
        return Err((Status::NoMemory, opener));
    };
    match open_asked(alloc, opener, &asked) {
        Ok(opened) => Ok(serve_opened(alloc, opened, &asked, &mut rooms, input, output, log)),
        Err((opener, _)) => Err((Status::NoMemory, opener)),
    }
}

// Attaches the provider on what was opened and serves it, or prints the refusal to the log. The rooms are zeros then.
fn serve_opened<O: Opener + Drop, S: Source, K: Sink, L: Sink>(
    alloc: Global,
    opened: Opened<O>,
    asked: &Asked,
    rooms: &mut Rooms,
    input: &mut S,
    output: &mut K,
    log: &mut L,
) -> Ran<O>
    requires verb { attaches asked.now.command ≡ true }
    requires within { CommandIsWithin (length asked.now.line.items) asked.now.command }
    requires bounds { IsBounded asked.now.line.items asked.now.command }
    requires room { length rooms.old.room.items ≡ 33685520 }
    requires edge { length rooms.old.edge.items ≡ 65536 }
    requires buffer { length rooms.old.buffer.items ≡ request_limit }
    ensures serves { ServesDisk asked.now.line.items asked.now.command
        (reach_of ((⟦<ImageDisk<O::File> as Disk>⟧).state opened.disk) Idle ((⟦<FileCabinet<O> as Cabinet>⟧).state opened.files)
        ((⟦<RandomFile<O::File> as Entropy>⟧).state opened.entropy)) (streams (S.state input.old) (K.state output.old) (L.state log.old)) result.status
        (remains ((⟦<ImageDisk<O::File> as Disk>⟧).state result.disk) ((⟦<FileCabinet<O> as Cabinet>⟧).state result.files)
        ((⟦<RandomFile<O::File> as Entropy>⟧).state result.entropy)) (streams (S.state input.new) (K.state output.new) (L.state log.new)) }
    ensures wiped { AreWiped rooms.new }
{
    let Opened {
        disk,
        mut files,
        mut entropy,
    } = opened;
    let buffer = rooms.buffer.as_mut_slice();
    let attached = attach(alloc, disk, asked, buffer, &mut files, &mut entropy);
    // What attaching left on the stack is overwritten before the client is waited for.
    scrub(&mut rooms.mark);
    let (status, disk) = serve_or_log(attached, rooms, input, output, log);
    rooms.forget();
    Ran {
        status,
        disk,
        files,
        entropy,
    }
}
