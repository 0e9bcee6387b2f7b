//! What the options of a line say.
ghost use Rattle.std.specs.Prelude.{◌≡◌, [], ◌++◌, ◌∷◌, length, false, pos, Ok, Err, Some, None, MatchResult};
ghost use Rattle.command_words.specs.Values.{value_fault, files_fault, file_fault};
ghost use Rattle.word_values.specs.Values.{decimal, number_within, old_size_named};
ghost use Rattle.command_words.specs.Cursor.{seen};
ghost use Rattle.command_words.specs.Settings.{span_of, backup_of};

use crate::cursor::Piece;
use crate::spans::{KeyWords, Span, SpanList};
use crate::table::{Switch, Valued};
use eli_base::{Auth, Cipher, Reason};

/// What the options of a line say.
#[derive(Drop)]
pub struct Settings {
    /// `-a` of `init`.
    pub auth: Auth,
    /// `-e`.
    pub cipher: Cipher,
    /// `-i`.
    pub iterations: Option<i32>,
    /// `-l`, in bits.
    pub keylen: u16,
    /// `-s` of `init`, in bytes.
    pub sectorsize: u32,
    /// `-s` of `resize`, in bytes.
    pub oldsize: Option<u64>,
    /// `-n`.
    pub slot: Option<u8>,
    /// `-B`, unless it is `none`.
    pub backup: Option<Span>,
    /// Whether `-R` was not given.
    pub autoresize: bool,
    /// `-C`.
    pub only_check: bool,
    /// `-r` of `attach`.
    pub readonly: bool,
    /// `-a` of `delkey`.
    pub all: bool,
    /// `-f`.
    pub force: bool,
    /// `-r` of `verify`.
    pub restart: bool,
    /// `-k`, `-j` and `-p`.
    pub old_key: KeyWords,
    /// `-K`, `-J` and `-P`.
    pub fresh_key: KeyWords,
}

fn number(value: Piece, high: u64) -> Result<u64, Reason>
    ensures { MatchResult result
        (λ number. number_within 0 high value.entry.bytes.now ≡ Some number)
        (λ reason. (number_within 0 high value.entry.bytes.now ≡ None) × (reason ≡ Reason.BadNumber)) }
{
    word_values::number(value.bytes, 0, high).ok_or(Reason::BadNumber)
}

fn iterations(value: Piece) -> Result<Option<i32>, Reason>
    ensures { MatchResult result
        (λ number. (value_fault Valued.Iterations 0 value.entry.bytes.now ≡ None) × (number ≡ Some (pos (decimal value.entry.bytes.now))))
        (λ reason. value_fault Valued.Iterations 0 value.entry.bytes.now ≡ Some reason) }
{
    Ok(Some(number(value, 2_147_483_647)? as i32))
}

fn key_length(value: Piece) -> Result<u16, Reason>
    ensures { MatchResult result
        (λ number. (value_fault Valued.KeyLength 0 value.entry.bytes.now ≡ None) × (number ≡ decimal value.entry.bytes.now))
        (λ reason. value_fault Valued.KeyLength 0 value.entry.bytes.now ≡ Some reason) }
{
    Ok(number(value, 65_535)? as u16)
}

fn sector_size(value: Piece) -> Result<u32, Reason>
    ensures { MatchResult result
        (λ number. (value_fault Valued.SectorSize 0 value.entry.bytes.now ≡ None) × (number ≡ decimal value.entry.bytes.now))
        (λ reason. value_fault Valued.SectorSize 0 value.entry.bytes.now ≡ Some reason) }
{
    Ok(number(value, 4_294_967_295)? as u32)
}

fn slot(value: Piece) -> Result<Option<u8>, Reason>
    ensures { MatchResult result
        (λ number. (value_fault Valued.Slot 0 value.entry.bytes.now ≡ None) × (number ≡ Some (decimal value.entry.bytes.now)))
        (λ reason. value_fault Valued.Slot 0 value.entry.bytes.now ≡ Some reason) }
{
    Ok(Some(number(value, 255)? as u8))
}

fn old_size(value: Piece) -> Result<Option<u64>, Reason>
    ensures { MatchResult result
        (λ size. (value_fault Valued.OldSize 0 value.entry.bytes.now ≡ None) × (size ≡ Some (decimal value.entry.bytes.now)))
        (λ reason. value_fault Valued.OldSize 0 value.entry.bytes.now ≡ Some reason) }
{
    match word_values::old_size(value.bytes) {
        Some(size) => Ok(Some(size)),
        None => Err(Reason::BadNumber),
    }
}

// Puts what was read in its place.
fn keep<T: Copy>(place: &mut T, read: Result<T, Reason>) -> Result<(), Reason>
    ensures { MatchResult result (λ _. read ≡ Ok place.new) (λ reason. (read ≡ Err reason) × (place.new ≡ place.old)) }
{
    *place = read?;
    Ok(())
}

/// The place of a file, which is not named `-`.
pub fn named_file(value: Piece) -> Result<Span, Reason>
    ensures { MatchResult result
        (λ file. (file_fault value.entry.bytes.now ≡ None) × (file ≡ span_of (seen value.entry)))
        (λ reason. file_fault value.entry.bytes.now ≡ Some reason) }
{
    if value.bytes == b"-".as_slice() {
        return Err(Reason::DashFile);
    }
    Ok(value.span())
}

fn backup(value: Piece) -> Result<Option<Span>, Reason>
    ensures { MatchResult result
        (λ file. (file_fault value.entry.bytes.now ≡ None) × (file ≡ backup_of (seen value.entry)))
        (λ reason. file_fault value.entry.bytes.now ≡ Some reason) }
{
    let file = named_file(value)?;
    if value.bytes == b"none".as_slice() {
        return Ok(None);
    }
    Ok(Some(file))
}

fn add_file(files: &mut SpanList, value: Piece) -> Result<(), Reason>
    ensures { MatchResult result
        (λ _. (files_fault (length files.old) value.entry.bytes.now ≡ None)
        × (files.new ≡ files.old ++ span_of (seen value.entry) ∷ []))
        (λ reason. (files_fault (length files.old) value.entry.bytes.now ≡ Some reason) × (files.new ≡ files.old)) }
{
    let file = named_file(value)?;
    if files.len() >= 16 {
        return Err(Reason::TooManyFiles);
    }
    files.push(file);
    Ok(())
}

impl Settings {
    ghost use Rattle.command_words.specs.Settings.{settings_given};
    ghost use Rattle.command_words.specs.Pass.{files_so_far, with_value, with_switch};

    /// The settings if no option is given.
    pub fn new() -> Settings
        ensures { result ≡ settings_given [] }
    {
        Settings {
            auth: Auth::Off,
            cipher: Cipher::AesXts,
            iterations: None,
            keylen: 128,
            sectorsize: 512,
            oldsize: None,
            slot: None,
            backup: None,
            autoresize: true,
            only_check: false,
            readonly: false,
            all: false,
            force: false,
            restart: false,
            old_key: KeyWords::new(),
            fresh_key: KeyWords::new(),
        }
    }

    /// Takes an option without a value.
    pub fn set(&mut self, switch: Switch)
        ensures { self.new ≡ with_switch self.old switch }
    {
        match switch {
            Switch::WithoutOld => self.old_key.without = true,
            Switch::WithoutFresh => self.fresh_key.without = true,
            Switch::FixedSize => self.autoresize = false,
            Switch::OnlyCheck => self.only_check = true,
            Switch::ReadOnly => self.readonly = true,
            Switch::AllSlots => self.all = true,
            Switch::Force => self.force = true,
            Switch::Restart => self.restart = true,
            Switch::Verbose => {}
        }
    }

    /// Takes an option with its value, or says what is wrong with the value.
    pub fn put(&mut self, option: Valued, value: Piece) -> Result<(), Reason>
        ensures { MatchResult result
            (λ _. (value_fault option (length (files_so_far self.old option)) value.entry.bytes.now ≡ None) × (self.new ≡ with_value self.old option (seen value.entry)))
            (λ reason. value_fault option (length (files_so_far self.old option)) value.entry.bytes.now ≡ Some reason) }
    {
        match option {
            Valued::AuthName => keep(
                &mut self.auth,
                word_values::auth(value.bytes).ok_or(Reason::BadName),
            ),
            Valued::CipherName => keep(
                &mut self.cipher,
                word_values::cipher(value.bytes).ok_or(Reason::BadName),
            ),
            Valued::Iterations => keep(&mut self.iterations, iterations(value)),
            Valued::KeyLength => keep(&mut self.keylen, key_length(value)),
            Valued::SectorSize => keep(&mut self.sectorsize, sector_size(value)),
            Valued::OldSize => keep(&mut self.oldsize, old_size(value)),
            Valued::Slot => keep(&mut self.slot, slot(value)),
            Valued::BackupFile => keep(&mut self.backup, backup(value)),
            Valued::OldFile => add_file(&mut self.old_key.files, value),
            Valued::OldPass => add_file(&mut self.old_key.pass, value),
            Valued::FreshFile => add_file(&mut self.fresh_key.files, value),
            Valued::FreshPass => add_file(&mut self.fresh_key.pass, value),
        }
    }
}
