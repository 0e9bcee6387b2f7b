//! What holds of the metadata of a new provider, whatever the random bytes and the user key, and of metadata with a new
//! key or without some. And what follows from what `init`, `setkey` and `delkey` did: that the metadata can be used,
//! and what the last sector may hold whenever power fails.
ghost use Rattle.std.specs.Prelude.{◌≡◌, ◌≢◌, ◌<◌, ◌^◌, ◌⊎◌, ℕ, List, IsTrue, None, Ok, length};
ghost use Rattle.std.specs.Int.{is_negative};
ghost use Rattle.aes_core.specs.Schedule.{AreBytes};
ghost use Rattle.eli_base.specs.Algorithms.{allows_length};
ghost use Rattle.eli_base.specs.SectorSize.{is_sector_size};
ghost use Rattle.block_traits.specs.Disk.{DiskState, last_sector};
ghost use Rattle.block_traits.specs.Moments.{KeepsAlone, KeepsOldOr};
ghost use Rattle.block_traits.specs.Streams.{EntropyState};
ghost use Rattle.eli_metadata.specs.Checks.{is_set};
ghost use Rattle.eli_metadata.specs.Format.{encoded};
ghost use Rattle.eli_metadata.specs.Place.{IsSectorOf};
ghost use Rattle.key_slots.specs.Slots.{IsKeyBits, Opens};
ghost use Rattle.user_key.specs.Derivation.{user_key};
ghost use Rattle.key_commands.specs.DeleteKeys.{Deletes, DeletesPart, Deletion, HasOtherKeys, Overwrites};
ghost use Rattle.key_commands.specs.NewKey.{HasNewKey, KeyChange, MakesKey, change_refusal, changed_iterations};
ghost use Rattle.key_commands.specs.NewMetadata.{new_metadata};
ghost use Rattle.key_commands.specs.NewProvider.{MakesMetadata, Writes, MakesPart};
ghost use Rattle.key_commands.specs.Overwriting.{IsThere, Names, without_keys};
ghost use Rattle.key_commands.specs.Random.{master_key_in, random_size};
ghost use Rattle.key_commands.specs.SetKey.{WritesKey, WritesKeyPart};
ghost use Rattle.key_commands.specs.Usable.{IsAccepted, IsUsable, OpensFirst};

use crate::{InitOptions, Which};
use eli_metadata::Metadata;
use user_key::{Components, UserKey};

/// New metadata with an allowed key length and sector size are accepted: the check gives the settings of the
/// options, the size is that of the image, and slot 0 has a key.
pub fn new_metadata_are_accepted()
    ensures { (options : InitOptions) (sectors : ℕ) (random u : List ℕ) → IsTrue (allows_length options.cipher options.keylen) →
        IsTrue (is_sector_size options.sectorsize) → sectors < 2 ^ 44 → IsAccepted options sectors (new_metadata options sectors random u) }
{}

/// Slot 0 of new metadata opens, with the user key by which they were made, to the master key among the random bytes.
pub fn new_slot_opens()
    ensures { (options : InitOptions) (sectors : ℕ) (random u : List ℕ) → IsKeyBits options.keylen → length random ≡ random_size →
        AreBytes random → OpensFirst (new_metadata options sectors random u) u (master_key_in random) }
{}

/// If the other slot holds a key, a new key changes the iterations only if they were below 0, that is, if no
/// passphrase was set up.
pub fn iterations_stay_for_the_other_key()
    ensures { (asked : KeyChange) (s : ℕ) → s < 2 → s ≢ asked.slot → change_refusal asked ≡ None → IsTrue (is_set asked.meta s) →
        (changed_iterations asked ≡ asked.meta.iterations) ⊎ IsTrue (is_negative asked.meta.iterations) }
{}

/// Components that made a user key for the other slot still make this user key after the iterations changed.
pub fn other_key_is_made_again()
    ensures { (asked : KeyChange) (s : ℕ) → s < 2 → s ≢ asked.slot → change_refusal asked ≡ None → IsTrue (is_set asked.meta s) →
        (parts : Components) (key : UserKey) → user_key parts asked.meta.salt asked.meta.iterations ≡ Ok key →
        user_key parts asked.meta.salt (changed_iterations asked) ≡ Ok key }
{}

/// A slot that was cleared opens with no user key.
pub fn cleared_slot_opens_no_more()
    ensures { (m : Metadata) (which : Which) (bytes : List ℕ) (s : ℕ) (u master : List ℕ) → IsThere which → Names which s →
        ¬ Opens (without_keys m which bytes) u s master }
{}

/// The metadata that `init` makes can be used: they are read back from their sector and accepted for the image, the
/// image has room for a logical sector beside them, and the user key that they were made with opens them to the master
/// key among the random bytes.
pub fn what_init_makes_is_of_use()
    ensures { (options : InitOptions) (parts : Components) (sectors : ℕ) (old : EntropyState) (m : Metadata) (new : EntropyState) →
        (makes : MakesMetadata options parts sectors old m new) → sectors < 2 ^ 44 →
        IsUsable options parts sectors m makes.key (master_key_in makes.random) }
{}

/// Whenever power fails in `init`, each value that the last sector may hold is one from before or the new metadata.
/// Once `init` is done, the new metadata are the only value.
pub fn init_leaves_old_or_new()
    ensures done { (options : InitOptions) (parts : Components) (disk disk' : DiskState) (entropy entropy' : EntropyState) (m : Metadata) →
        Writes options parts disk entropy m disk' entropy' →
        KeepsOldOr (IsSectorOf m) (last_sector disk) disk.content disk'.content × KeepsAlone (encoded m) (last_sector disk) disk'.content }
    ensures part { (options : InitOptions) (parts : Components) (disk disk' : DiskState) (entropy entropy' : EntropyState) →
        (part : MakesPart options parts disk entropy disk' entropy') →
        KeepsOldOr (IsSectorOf part.m) (last_sector disk) disk.content disk'.content }
{}

/// The metadata that `setkey` makes can be used: they are read back from their sector if their version is one that is
/// read, they are accepted as the old ones are, the slot opens to the master key with the new user key, and the other
/// slot is kept.
pub fn what_setkey_makes_is_of_use()
    ensures { (asked : KeyChange) (m : Metadata) (makes : MakesKey asked m) → HasNewKey asked m makes.key.bytes }
{}

/// Whenever power fails in `setkey`, each value that the last sector may hold is one from before or the new metadata.
/// Once `setkey` is done, the new metadata are the only value.
pub fn setkey_leaves_old_or_new()
    ensures done { (asked : KeyChange) (disk disk' : DiskState) (m : Metadata) → WritesKey asked disk m disk' →
        KeepsOldOr (IsSectorOf m) (last_sector disk) disk.content disk'.content × KeepsAlone (encoded m) (last_sector disk) disk'.content }
    ensures part { (asked : KeyChange) (disk disk' : DiskState) (part : WritesKeyPart asked disk disk') →
        KeepsOldOr (IsSectorOf part.m) (last_sector disk) disk.content disk'.content }
{}

/// The metadata that `delkey` leaves are read back from their sector if their version is one that is read, the named
/// slots are clear and hold zeros, and a slot that isn't named is kept.
pub fn delkey_keeps_the_other_key()
    ensures { (asked : Deletion) (disk disk' : DiskState) (entropy entropy' : EntropyState) (m : Metadata) →
        Deletes asked disk entropy m disk' entropy' → HasOtherKeys asked m }
{}

/// Whenever power fails in `delkey`, each value that the last sector may hold is one from before or has the named
/// slots clear; once a flush landed, each has them clear. Once `delkey` is done, the metadata that are left are the
/// only value.
pub fn delkey_leaves_old_or_cleared()
    ensures done { (asked : Deletion) (disk disk' : DiskState) (entropy entropy' : EntropyState) (m : Metadata) →
        Deletes asked disk entropy m disk' entropy' →
        Overwrites asked disk disk' × KeepsAlone (encoded m) (last_sector disk) disk'.content }
    ensures part { (asked : Deletion) (disk disk' : DiskState) (entropy entropy' : EntropyState) →
        DeletesPart asked disk entropy disk' entropy' → Overwrites asked disk disk' }
{}
