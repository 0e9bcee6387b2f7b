//! The names of refusals and of reasons, as they are printed.
ghost use Rattle.std.specs.Prelude.{◌≡◌};
ghost use Rattle.reply_text.specs.Text.{reason_name, refusal_name};

use eli_base::{Reason, Refusal};

pub(crate) fn reason_name(reason: Reason) -> &'static [u8]
    ensures { result.now ≡ reason_name reason }
{
    match reason {
        Reason::UnknownVerb => b"UnknownVerb",
        Reason::UnknownOption => b"UnknownOption",
        Reason::MissingValue => b"MissingValue",
        Reason::BadNumber => b"BadNumber",
        Reason::BadName => b"BadName",
        Reason::DashFile => b"DashFile",
        Reason::TooManyFiles => b"TooManyFiles",
        Reason::OperandCount => b"OperandCount",
        Reason::MissingOption => b"MissingOption",
        Reason::Exclusive => b"Exclusive",
        Reason::BadHex => b"BadHex",
        Reason::NotText => b"NotText",
    }
}

pub(crate) fn refusal_name(refusal: &Refusal) -> &'static [u8]
    ensures { result.now ≡ refusal_name refusal.now }
{
    match refusal {
        Refusal::Usage { .. } => b"Usage",
        Refusal::UnknownProvider => b"UnknownProvider",
        Refusal::NotAttached => b"NotAttached",
        Refusal::StillAttached => b"StillAttached",
        Refusal::BadMagic => b"BadMagic",
        Refusal::BadVersion { .. } => b"BadVersion",
        Refusal::BadHash => b"BadHash",
        Refusal::BadSize { .. } => b"BadSize",
        Refusal::UnsupportedCipher { .. } => b"UnsupportedCipher",
        Refusal::UnsupportedAuth { .. } => b"UnsupportedAuth",
        Refusal::BadKeyLength { .. } => b"BadKeyLength",
        Refusal::BadSectorSize { .. } => b"BadSectorSize",
        Refusal::UnsupportedFlags { .. } => b"UnsupportedFlags",
        Refusal::NoValidKeys => b"NoValidKeys",
        Refusal::WrongKey => b"WrongKey",
        Refusal::NoKeyComponents => b"NoKeyComponents",
        Refusal::PassphraseNotSet => b"PassphraseNotSet",
        Refusal::KeyNumberOutOfRange { .. } => b"KeyNumberOutOfRange",
        Refusal::KeyNotSet { .. } => b"KeyNotSet",
        Refusal::LastKey { .. } => b"LastKey",
        Refusal::IterationsNeedOneKey => b"IterationsNeedOneKey",
        Refusal::PassphraseNeeded => b"PassphraseNeeded",
        Refusal::OutOfRange { .. } => b"OutOfRange",
        Refusal::ReadOnly => b"ReadOnly",
        Refusal::Integrity { .. } => b"Integrity",
        Refusal::DeviceFault => b"DeviceFault",
        Refusal::FileAbsent { .. } => b"FileAbsent",
        Refusal::CabinetFault { .. } => b"CabinetFault",
        Refusal::EntropyFault => b"EntropyFault",
        Refusal::FileTooLong { .. } => b"FileTooLong",
        Refusal::BackupTooShort { .. } => b"BackupTooShort",
        Refusal::OldSizeMismatch { .. } => b"OldSizeMismatch",
        Refusal::NoMemory => b"NoMemory",
        Refusal::NotGrown { .. } => b"NotGrown",
        Refusal::TooSmall { .. } => b"TooSmall",
        Refusal::BadLength { .. } => b"BadLength",
        Refusal::KeyNumberNeeded => b"KeyNumberNeeded",
        Refusal::QueueFull => b"QueueFull",
        Refusal::NoRequest { .. } => b"NoRequest",
        Refusal::RequestNotDone { .. } => b"RequestNotDone",
        Refusal::RequestDone { .. } => b"RequestDone",
        Refusal::RequestsOpen { .. } => b"RequestsOpen",
        Refusal::Suspended => b"Suspended",
        Refusal::NotSuspended => b"NotSuspended",
        Refusal::DifferentKey => b"DifferentKey",
        Refusal::BadPlace { .. } => b"BadPlace",
        Refusal::NotAuthenticated => b"NotAuthenticated",
        Refusal::BadPlaceFile { .. } => b"BadPlaceFile",
    }
}
