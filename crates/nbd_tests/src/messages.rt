//! Each message of nbd_words, against the bytes that libnbd sent and nbdkit answered.
use crate::common::{
    asking, by_name, by_name_without_zeroes, bytes_of, going, piece, replies, requests,
};
use nbd_words::{
    ClientFlags, Export, OptionHead, OptionReply, ReplyError, Request, block_size_info,
    client_flags_in, export_info, greeting, info_request_fits, option_head_in, option_reply_head,
    plain_export, reply_head, request_in, transmission_flags,
};
use std::test::Fail;

// The export of nbdkit. Its flags are those of an export that can be written, without TRIM.
fn export() -> Export {
    Export {
        size: 262_144,
        flags: transmission_flags(false),
        preferred: 4096,
        most: 33_554_432,
    }
}

#[test]
fn requests_are_those_of_libnbd(rt: HostRuntime) -> Result<(), Fail> {
    for (digits, code, flags, cookie, offset, length) in requests() {
        let bytes = bytes_of(rt.alloc(), digits)?;
        let request = Request {
            flags,
            code,
            cookie,
            offset,
            length,
        };
        assert_eq!(&rt; request_in(&piece(bytes.as_slice(), 0)), Some(request));
    }
    assert_eq!(rt; request_in(&[0; 28]), None);
    Ok(())
}

fn error_of(number: u32) -> Option<ReplyError> {
    match number {
        0 => Some(ReplyError::Done),
        1 => Some(ReplyError::ReadOnly),
        5 => Some(ReplyError::Failed),
        22 => Some(ReplyError::Invalid),
        28 => Some(ReplyError::PassesEnd),
        _ => None,
    }
}

#[test]
fn replies_are_those_of_nbdkit(rt: HostRuntime) -> Result<(), Fail> {
    for (digits, number, cookie) in replies() {
        let bytes = bytes_of(rt.alloc(), digits)?;
        let Some(error) = error_of(number) else {
            return Err(Fail::from("an error that isn't given"));
        };
        assert_eq!(&rt; reply_head(error, cookie), piece(bytes.as_slice(), 0));
    }
    Ok(())
}

#[test]
fn a_session_begins_as_nbdkits(rt: HostRuntime) -> Result<(), Fail> {
    for (session, fixed_newstyle, no_zeroes) in [
        (going(), true, true),
        (by_name(), false, false),
        (by_name_without_zeroes(), false, true),
    ] {
        let [said, answered] = session;
        let said = bytes_of(rt.alloc(), said)?;
        let answered = bytes_of(rt.alloc(), answered)?;
        assert_eq!(&rt; greeting(), piece(answered.as_slice(), 0));
        let flags = ClientFlags {
            fixed_newstyle,
            no_zeroes,
        };
        assert_eq!(&rt; client_flags_in(&piece(said.as_slice(), 0)), Some(flags));
    }
    assert_eq!(rt; client_flags_in(&[0, 0, 0, 4]), None);
    Ok(())
}

// The options of the client of `ASKING`: structured replies, the exports, what one is by no name and by another, and to
// be served. Each has its place among the client's bytes, its code, and how many bytes of data follow.
const OPTIONS: [(usize, u32, u32); 5] = [
    (4, 8, 0),
    (20, 3, 0),
    (36, 6, 8),
    (60, 6, 15),
    (91, 7, 15),
];

#[test]
fn options_are_those_of_libnbd(rt: HostRuntime) -> Result<(), Fail> {
    let [said, _] = asking();
    let said = bytes_of(rt.alloc(), said)?;
    for (place, code, length) in OPTIONS {
        let head = OptionHead { code, length };
        assert_eq!(&rt; option_head_in(&piece(said.as_slice(), place)), Some(head));
    }
    assert!(&rt; info_request_fits(&piece::<8>(said.as_slice(), 52)));
    assert!(&rt; info_request_fits(&piece::<15>(said.as_slice(), 76)));
    assert!(&rt; !info_request_fits(&piece::<14>(said.as_slice(), 76)));
    assert_eq!(rt; option_head_in(&[0; 16]), None);
    Ok(())
}

// The replies to the options of `ASKING`: the place of each, the option's code, the reply, and how many bytes follow.
const ANSWERS: [(usize, u32, OptionReply, u32); 8] = [
    (18, 8, OptionReply::Unsupported, 0),
    (38, 3, OptionReply::Server, 4),
    (62, 3, OptionReply::Acknowledged, 0),
    (82, 6, OptionReply::Info, 12),
    (114, 6, OptionReply::Info, 14),
    (148, 6, OptionReply::Acknowledged, 0),
    (168, 6, OptionReply::Info, 12),
    (254, 7, OptionReply::Info, 12),
];

#[test]
fn options_are_answered_as_by_nbdkit(rt: HostRuntime) -> Result<(), Fail> {
    let [_, answered] = asking();
    let answered = bytes_of(rt.alloc(), answered)?;
    for (place, code, reply, length) in ANSWERS {
        let head = option_reply_head(code, reply, length);
        assert_eq!(&rt; head, piece(answered.as_slice(), place), "at {place}");
    }
    Ok(())
}

#[test]
fn an_export_is_told_as_by_nbdkit(rt: HostRuntime) -> Result<(), Fail> {
    let [_, answered] = asking();
    let answered = bytes_of(rt.alloc(), answered)?;
    assert_eq!(&rt; export_info(&export()), piece(answered.as_slice(), 102));
    assert_eq!(&rt; block_size_info(&export()), piece(answered.as_slice(), 134));
    let [_, answered] = by_name();
    let answered = bytes_of(rt.alloc(), answered)?;
    assert_eq!(&rt;
        plain_export(&export()).as_slice(),
        piece::<134>(answered.as_slice(), 18).as_slice()
    );
    Ok(())
}
