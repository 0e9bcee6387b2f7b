//! The drawers of a shelf, in order of adding: each has a named disk, which is idle, attached or suspended.
//!
//! The invariant: there are at most 16 drawers, the vector has room for 16, no two drawers have the same name, and
//! the buffer of requests has as many bytes as the longest request. So a name stands for one drawer at most, and a
//! drawer can be put back without memory.
//!
//! A line changes the drawer that it names and no other. Since a command may turn a drawer into one of another kind
//! (idle, attached, suspended), `serve` takes it out of the list and puts it back in its place. A request on an
//! attached provider is served in place instead, because a provider is large (some 3,000 bytes).
//!
//! After a refusal a drawer is as the row of the verb says (`command_rows`). A refused `add` gives the disk back and
//! changes nothing. `eject` takes a drawer out together with its disk.
//!
//! That names differ is stated for every way in which disks may describe themselves (`DifferInName`), since the
//! invariant can't know which one a caller uses.
ghost use Rattle.std.specs.Prelude.{◌≡◌, ◌<◌, ◌≤◌, ℕ, List, map, [], IfOk, IfSome, MatchResult, length, option_copied};
ghost use Rattle.std.specs.Prelude.{vec_capacity, vec_len};
ghost use Rattle.std.specs.List.{insert};
ghost use Rattle.command_words.specs.Bounds.{IsBounded};
ghost use Rattle.command_words.specs.Places.{CommandIsWithin};
ghost use Rattle.shelf.specs.Adding.{Adds, RefusesToAdd};
ghost use Rattle.reply_text.specs.Text.{FitsPayload};
ghost use Rattle.reply_text.specs.Answer.{answer_of};
ghost use Rattle.shelf.specs.Closing.{Closing, failures};
ghost use Rattle.command_rows.specs.Turn.{ListsAs, ShowsEvents, Turn, entry_of};
ghost use Rattle.command_rows.specs.World.{HoldKeyings, NamesDiffer, place_of};
ghost use Rattle.shelf.specs.Shelved.{IsWiped, drawers_of, world_of};

use crate::{Drawer, Held};
use block_traits::{ByteList, Cabinet, Disk, Entropy, Event, NoMemory};
use command_words::Command;
use eli_base::{REQUEST_LIMIT, Refusal};
use reply_text::{Reply, Row, RowList};
use std::alloc::{AllocError, Global};
use std::marker::Model;
use wiping::wipe;

/// How many drawers a shelf may have.
const ROOM: usize = 16;

/// Named disks, each of which a command can name.
#[derive(Drop)]
pub struct Drawers<D: Drop> {
    drawers: Vec<Drawer<D>>,
    // A request's bytes stand here.
    buffer: Vec<u8>,
}

/// The disks that a program is given.
pub type Shelf = Drawers<Box<dyn Disk>>;

/// Why a disk wasn't added.
#[derive(Clone, Copy, Debug, PartialEq, Eq)]
pub enum AddFault {
    /// There is no room for another drawer.
    Full,
    /// A drawer has the name.
    Taken,
    /// There was no memory.
    NoMemory,
}

impl<D: Drop> Model for Drawers<D> {
    ghost use Rattle.std.specs.Prelude.{◌≡◌, false, ◌≤◌, vec_capacity, vec_len};
    ghost use Rattle.eli_base.specs.Requests.{request_limit};
    ghost use Rattle.shelf.specs.Shelved.{DifferInName, Shelved};

    ghost Value = { Shelved D };

    ghost view = { λ shelf. record { drawers = shelf.drawers.items; buffer = shelf.buffer.items } };

    ghost invariant = { λ shelf. (vec_len shelf.drawers ≤ 16) × (16 ≤ vec_capacity shelf.drawers)
        × (vec_len shelf.buffer ≡ request_limit) × DifferInName shelf.drawers.items };
}

impl<D: Disk> Drawers<D> {
    /// A shelf without drawers, with room for all that it may have, and with the buffer of requests.
    pub fn new(alloc: Global) -> Result<Drawers<D>, NoMemory>
        ensures { IfOk result (λ shelf. shelf.drawers ≡ []) }
    {
        let buffer = vec![in alloc; 0; REQUEST_LIMIT as usize]?;
        let drawers = Vec::with_capacity(alloc, ROOM)?;
        Ok(Drawers { drawers, buffer })
    }

    /// Adds a disk after the others, idle. A refusal gives the disk back and leaves the shelf as it was:
    /// `Full` exactly if there is no room, else `Taken` exactly if a drawer has the name.
    pub fn add(&mut self, name: &str, disk: D) -> Result<(), (D, AddFault)>
        ensures adds { MatchResult result
            (λ _. Adds name.now (D.state disk) (drawers_of D.state self.old.drawers) (drawers_of D.state self.new.drawers))
            (λ refused. (refused.0 ≡ disk)
            × RefusesToAdd name.now refused.1 (drawers_of D.state self.old.drawers) × (self.new ≡ self.old)) }
    {
        if self.drawers.len() >= ROOM {
            return Err((disk, AddFault::Full));
        }
        if find(&self.drawers, name.as_bytes()).is_some() {
            return Err((disk, AddFault::Taken));
        }
        match name.as_bytes().to_vec(*self.drawers.allocator()) {
            Err(_) => Err((disk, AddFault::NoMemory)),
            Ok(bytes) => {
                let name = ByteList::from_vec(bytes);
                let held = Held::Idle(disk);
                self.drawers.push_reserved(Drawer { name, held });
                Ok(())
            }
        }
    }

    /// Serves a command, whose places are those of the line: `UnknownProvider` exactly if no drawer has the name of its
    /// provider, and otherwise the reply of the drawer. The other drawers stay as they are. `list` replies with an
    /// entry for each drawer, or that there was no memory. `eject` takes the drawer out with its disk, of which nothing
    /// more is said.
    ///
    /// It isn't inlined, since its frame holds copies of keys, and its caller overwrites the stack below its own.
    #[inline(never)]
    pub fn serve<C: Cabinet, E: Entropy>(
        &mut self,
        line: &[u8],
        command: &Command,
        files: &mut C,
        entropy: &mut E,
    ) -> Reply
        requires within { CommandIsWithin (length line.now) command.now }
        requires bounds { IsBounded line.now command.now }
        ensures turn { Turn line.now command.now
            (world_of D.state self.old (C.state files.old) (E.state entropy.old)) (answer_of self.new.buffer result)
            (world_of D.state self.new (C.state files.new) (E.state entropy.new)) }
        ensures payload { FitsPayload (length self.new.buffer) result }
    {
        let Some(prov) = command.provider() else {
            return self.list();
        };
        let name = prov.bytes_in(line);
        let Some(place) = find(&self.drawers, name) else {
            return Reply::Refused(Refusal::UnknownProvider);
        };
        let traits = command.traits();
        if traits.is_request && self.drawers[place].is_attached() {
            let buffer = self.buffer.as_mut_slice();
            let drawer = &mut self.drawers[place];
            return drawer.serve_request(line, command, buffer);
        }
        let alloc = *self.drawers.allocator();
        let drawer = self.drawers.remove(place);
        if traits.takes_out {
            return Reply::Done;
        }
        let buffer = self.buffer.as_mut_slice();
        let (drawer, reply) = drawer.serve(alloc, line, command, buffer, files, entropy);
        put_back(&mut self.drawers, place, drawer);
        reply
    }

    // An entry for each drawer.
    fn list(&self) -> Reply
        ensures rows { (bytes : List ℕ) → ListsAs (drawers_of D.state self.now.drawers) (answer_of bytes result) }
        ensures payload { FitsPayload 0 result }
    {
        match entries_of(*self.drawers.allocator(), &self.drawers) {
            Ok(entries) => Reply::Rows(RowList::from_vec(entries)),
            Err(_) => Reply::Refused(Refusal::NoMemory),
        }
    }

    /// The buffer of requests, at whose front the payload of the last reply stands.
    pub fn payload(&self) -> &[u8]
        ensures { result.now ≡ self.now.buffer }
    {
        self.buffer.as_slice()
    }

    /// Overwrites the buffer of requests with zeros.
    pub fn forget(&mut self)
        ensures wiped { IsWiped self.new }
        ensures drawers { self.new.drawers ≡ self.old.drawers }
    {
        wipe(self.buffer.as_mut_slice());
    }

    /// Flushes the disk of each attached or suspended drawer, in order, and returns how many flushes failed. All
    /// drawers are idle then, and the buffer of requests is overwritten with zeros.
    pub fn close(&mut self) -> u32
        ensures closing { Closing (drawers_of D.state self.old.drawers) result (drawers_of D.state self.new.drawers) }
        ensures wiped { IsWiped self.new }
    {
        let failed = close_all(&mut self.drawers);
        self.forget();
        failed
    }

    /// A law: what is attached has a keying that a provider may have.
    pub fn hold_keyings(&self)
        ensures { HoldKeyings (drawers_of D.state self.now.drawers) }
    {
        hold_keyings(&self.drawers);
    }

    /// A law: no drawer has the name of another.
    pub fn names_differ(&self)
        ensures { NamesDiffer (drawers_of D.state self.now.drawers) }
    {
        let _ = &self.drawers;
    }

    /// What the disk of the named drawer returns for `events`. None comes exactly if no idle drawer has the name or the
    /// disk doesn't show its events.
    pub fn events(&self, name: &str) -> Option<&[Event]>
        ensures { ShowsEvents name.now (drawers_of D.state self.now.drawers) (option_copied result) }
    {
        let place = find(&self.drawers, name.as_bytes())?;
        self.drawers[place].events()
    }
}

// 1 if a flush failed, or else 0.
fn failures(refused: bool) -> u32
    ensures { result ≡ failures refused }
{
    if refused { 1 } else { 0 }
}

// Closes the drawers in order, and returns how many flushes failed.
fn close_all<D: Disk>(drawers: &mut Vec<Drawer<D>>) -> u32
    requires small { vec_len drawers.old ≤ 16 }
    requires room { 16 ≤ vec_capacity drawers.old }
    ensures closing { Closing (drawers_of D.state drawers.old.items) result (drawers_of D.state drawers.new.items) }
    ensures length { vec_len drawers.new ≡ vec_len drawers.old }
    ensures room { 16 ≤ vec_capacity drawers.new }
{
    let mut failed = 0;
    for place in 0..drawers.len() {
        let drawer = drawers.remove(place);
        let (drawer, refused) = drawer.close();
        put_back(drawers, place, drawer);
        failed += failures(refused);
    }
    failed
}

// What is attached on each drawer has a keying that a provider may have.
fn hold_keyings<D: Disk>(drawers: &[Drawer<D>])
    ensures { HoldKeyings (drawers_of D.state drawers.now) }
{
    for drawer in drawers {
        drawer.holds_keying();
    }
}

// An entry for each drawer, in order.
fn entries_of<D: Disk>(alloc: Global, drawers: &[Drawer<D>]) -> Result<Vec<Row>, AllocError>
    ensures { IfOk result (λ entries. entries.items ≡ map entry_of (drawers_of D.state drawers.now)) }
{
    let mut entries = Vec::new(alloc);
    for drawer in drawers {
        entries.push(drawer.entry(alloc)?)?;
    }
    Ok(entries)
}

// The place of the first drawer with the name.
fn find<D: Disk>(drawers: &[Drawer<D>], name: &[u8]) -> Option<usize>
    ensures found { result ≡ place_of name.now (drawers_of D.state drawers.now) }
    ensures bound { IfSome result (λ place. place < length drawers.now) }
{
    for (place, drawer) in drawers.iter().enumerate() {
        if drawer.name.as_slice() == name {
            return Some(place);
        }
    }
    None
}

// Puts an item back in its place; there is room for it.
fn put_back<T: Drop>(items: &mut Vec<T>, place: usize, item: T)
    requires inside { place ≤ vec_len items.old }
    requires room { vec_len items.old < vec_capacity items.old }
    ensures items { items.new.items ≡ insert items.old.items place item }
    ensures capacity { vec_capacity items.old ≤ vec_capacity items.new }
{
    let _ = items.insert(place, item);
}
