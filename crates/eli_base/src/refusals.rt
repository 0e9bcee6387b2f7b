//! Why a command is refused, and the number of each refusal.
ghost use Rattle.std.specs.Prelude.{◌≡◌, ◌<◌};
ghost use Rattle.eli_base.specs.Refusals.{number_of};

/// What is wrong with the words of a line, by POSIX option syntax.
#[derive(Clone, Copy, Debug, PartialEq, Eq)]
pub enum Reason {
    /// The first word is no verb.
    UnknownVerb,
    /// The verb does not have the option.
    UnknownOption,
    /// An option lacks its value.
    MissingValue,
    /// A value is no number within its bounds.
    BadNumber,
    /// A value is no name of an algorithm.
    BadName,
    /// A file is named `-`.
    DashFile,
    /// An option has more files than it takes.
    TooManyFiles,
    /// The verb takes another number of operands.
    OperandCount,
    /// The verb lacks an option that it needs.
    MissingOption,
    /// Two options exclude each other.
    Exclusive,
    /// A value is not hexadecimal.
    BadHex,
    /// The line is not UTF-8.
    NotText,
}

/// Why a command was refused. Numbers of words count from 0, the verb.
#[derive(Clone, Copy)]
pub enum Refusal {
    /// The words of a line are no command: the place of the word, and what is wrong.
    Usage { word: u32, reason: Reason },
    /// No drawer has the name.
    UnknownProvider,
    /// The provider is not attached.
    NotAttached,
    /// The provider is attached.
    StillAttached,
    /// The first 16 bytes of the metadata differ.
    BadMagic,
    /// The metadata has a version that is not served.
    BadVersion { found: u32 },
    /// The MD5 of the metadata differs.
    BadHash,
    /// Two sizes in bytes differ: the one that the metadata keeps, and the one found. Or the kept one
    /// is 2^53 or more, and `found` is 0.
    BadSize { kept: u64, found: u64 },
    /// The metadata names a cipher that is not served.
    UnsupportedCipher { found: u16 },
    /// The metadata names an authentication that is not served.
    UnsupportedAuth { found: u16 },
    /// The cipher does not allow this key length in bits.
    BadKeyLength { found: u16 },
    /// No logical sector has so many bytes.
    BadSectorSize { found: u32 },
    /// These flags of the metadata are not served.
    UnsupportedFlags { mask: u32 },
    /// No key slot is set.
    NoValidKeys,
    /// No set slot, or not the named one, opens with the key.
    WrongKey,
    /// The key is to have no passphrase, and no key file was given.
    NoKeyComponents,
    /// The metadata says that no passphrase was set up, and the key isn't said to be without one.
    PassphraseNotSet,
    /// There is no slot of this number.
    KeyNumberOutOfRange { given: u8 },
    /// This slot is not set.
    KeyNotSet { slot: u8 },
    /// This slot is the only one that is set.
    LastKey { slot: u8 },
    /// The iterations can change only if the target is the only slot that is set.
    IterationsNeedOneKey,
    /// A passphrase is needed.
    PassphraseNeeded,
    /// The request passes the end of the media, all in logical sectors.
    OutOfRange { sector: u64, count: u64, media: u64 },
    /// The provider is read-only.
    ReadOnly,
    /// The tag of the unit at this device byte offset differs.
    Integrity { offset: u64 },
    /// A device call failed.
    DeviceFault,
    /// The file that this word names is not there.
    FileAbsent { word: u32 },
    /// The file that this word names could not be loaded or stored.
    CabinetFault { word: u32 },
    /// The random bytes could not be had.
    EntropyFault,
    /// With the file that this word names, this limit in bytes is exceeded.
    FileTooLong { word: u32, limit: u64 },
    /// The backup has too few bytes.
    BackupTooShort { length: u64 },
    /// The metadata keeps another size in bytes than the one given.
    OldSizeMismatch { kept: u64, given: u64 },
    /// Memory ran out.
    NoMemory,
    /// The given old size is not below the size of the image, in bytes.
    NotGrown { size: u64, given: u64 },
    /// An image of so many bytes has no room.
    TooSmall { size: u64 },
    /// So many bytes are no request of whole logical sectors.
    BadLength { given: u64, sectorsize: u32 },
    /// The slot must be named.
    KeyNumberNeeded,
    /// No more requests can be open.
    QueueFull,
    /// No open request has the tag.
    NoRequest { tag: u8 },
    /// The request with the tag has so many units left.
    RequestNotDone { tag: u8, left: u64 },
    /// The request with the tag has no unit left.
    RequestDone { tag: u8 },
    /// So many requests are open.
    RequestsOpen { count: u32 },
    /// The provider is suspended.
    Suspended,
    /// The provider is attached and not suspended.
    NotSuspended,
    /// The key opens another master key than the suspended provider had.
    DifferentKey,
    /// The place of a sweep, in logical sectors, is beyond the last of so many.
    BadPlace { place: u64, media: u64 },
    /// The data are not authenticated.
    NotAuthenticated,
    /// The file of a sweep's place, which the word names, has so many bytes, fewer than eight.
    BadPlaceFile { word: u32, length: u64 },
}

impl Refusal {
    /// The number that a reply prints, from 1 to 48.
    pub fn number(&self) -> u8
        ensures { result ≡ number_of self.now }
    {
        match self {
            Refusal::Usage { .. } => 1,
            Refusal::UnknownProvider => 2,
            Refusal::NotAttached => 3,
            Refusal::StillAttached => 4,
            Refusal::BadMagic => 5,
            Refusal::BadVersion { .. } => 6,
            Refusal::BadHash => 7,
            Refusal::BadSize { .. } => 8,
            Refusal::UnsupportedCipher { .. } => 9,
            Refusal::UnsupportedAuth { .. } => 10,
            Refusal::BadKeyLength { .. } => 11,
            Refusal::BadSectorSize { .. } => 12,
            Refusal::UnsupportedFlags { .. } => 13,
            Refusal::NoValidKeys => 14,
            Refusal::WrongKey => 15,
            Refusal::NoKeyComponents => 16,
            Refusal::PassphraseNotSet => 17,
            Refusal::KeyNumberOutOfRange { .. } => 18,
            Refusal::KeyNotSet { .. } => 19,
            Refusal::LastKey { .. } => 20,
            Refusal::IterationsNeedOneKey => 21,
            Refusal::PassphraseNeeded => 22,
            _ => self.higher_number(),
        }
    }

    // The number of a refusal whose number is above 22.
    fn higher_number(&self) -> u8
        requires { 22 < number_of self.now }
        ensures { result ≡ number_of self.now }
    {
        match self {
            Refusal::OutOfRange { .. } => 23,
            Refusal::ReadOnly => 24,
            Refusal::Integrity { .. } => 25,
            Refusal::DeviceFault => 26,
            Refusal::FileAbsent { .. } => 27,
            Refusal::CabinetFault { .. } => 28,
            Refusal::EntropyFault => 29,
            Refusal::FileTooLong { .. } => 30,
            Refusal::BackupTooShort { .. } => 31,
            Refusal::OldSizeMismatch { .. } => 32,
            Refusal::NoMemory => 33,
            Refusal::NotGrown { .. } => 34,
            Refusal::TooSmall { .. } => 35,
            Refusal::BadLength { .. } => 36,
            Refusal::KeyNumberNeeded => 37,
            Refusal::QueueFull => 38,
            Refusal::NoRequest { .. } => 39,
            Refusal::RequestNotDone { .. } => 40,
            Refusal::RequestDone { .. } => 41,
            Refusal::RequestsOpen { .. } => 42,
            Refusal::Suspended => 43,
            Refusal::NotSuspended => 44,
            Refusal::DifferentKey => 45,
            Refusal::BadPlace { .. } => 46,
            Refusal::NotAuthenticated => 47,
            Refusal::BadPlaceFile { .. } => 48,
            _ => unreachable!(),
        }
    }
}
