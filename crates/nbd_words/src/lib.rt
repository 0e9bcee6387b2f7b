//! The messages of the network block device protocol as bytes: fixed newstyle negotiation, and transmission with simple
//! replies (the NBD project's doc/proto.md). Numbers are big-endian.
#![tactic(auto)]

mod laws;
mod negotiation;
mod transmission;

pub use laws::{
    client_flags_read_back, exports_read_back, greeting_reads_back, info_requests_fit,
    option_replies_read_back, options_read_back, replies_read_back, requests_read_back,
};
pub use negotiation::{
    ClientFlags, Export, INFO_LIMIT, OptionHead, OptionKind, OptionReply, block_size_info,
    client_flags_in, export_info, greeting, info_request_fits, option_head_in, option_kind,
    option_reply_head, plain_export, transmission_flags,
};
pub use transmission::{
    REPLY_HEAD, ReplyError, Request, RequestKind, flags_limit, has_fua, reply_head, request_in,
    request_kind,
};
