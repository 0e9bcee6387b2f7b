//! What holds of the messages: each is read back from its bytes.
ghost use Rattle.std.specs.Prelude.{◌≡◌, ◌*◌, ◌^◌, ◌<◌, List, Some, length, true, ℕ};
ghost use Rattle.nbd_words.specs.Client.{HasExportInRange, block_sizes_in, client_flags, export_info_in, greeting_in, info_request, option_reply_in, plain_export_in, reply_in, told_error};
ghost use Rattle.nbd_words.specs.Negotiation.{HasHeadInRange, block_size_info, client_flags_in, export_info, greeting, has_info_shape, option_head, option_head_in, option_reply_head, plain_export};
ghost use Rattle.nbd_words.specs.Transmission.{HasRequestInRange, reply_head, request_bytes, request_in};
ghost use Rattle.nbd_words.specs.declared.negotiation.ClientFlags.{ClientFlags};
ghost use Rattle.nbd_words.specs.declared.negotiation.Export.{Export};
ghost use Rattle.nbd_words.specs.declared.negotiation.OptionHead.{OptionHead};
ghost use Rattle.nbd_words.specs.declared.negotiation.OptionReply.{OptionReply};
ghost use Rattle.nbd_words.specs.declared.transmission.ReplyError.{ReplyError};
ghost use Rattle.nbd_words.specs.declared.transmission.Request.{Request};

/// A request is read back from its bytes.
pub fn requests_read_back()
    ensures { (q : Request) → HasRequestInRange q → request_in (request_bytes q) ≡ Some q }
{}

/// The head of a simple reply is read back from its bytes. The two errors of one number are read as one.
pub fn replies_read_back()
    ensures { (error : ReplyError) (cookie : ℕ) → cookie < 256 ^ 8 → reply_in (reply_head error cookie) ≡ Some (record { error = told_error error; cookie = cookie }) }
{}

/// The server's first bytes are read back as its handshake flags.
pub fn greeting_reads_back()
    ensures { greeting_in greeting ≡ Some 3 }
{}

/// What a client says of itself is read back from its bytes.
pub fn client_flags_read_back()
    ensures { (flags : ClientFlags) → client_flags_in (client_flags flags) ≡ Some flags }
{}

/// The head of an option is read back from its bytes.
pub fn options_read_back()
    ensures { (h : OptionHead) → HasHeadInRange h → option_head_in (option_head h) ≡ Some h }
{}

/// The data of an option that asks for an export by any name, with any wishes, have the right shape.
pub fn info_requests_fit()
    ensures { (name wishes : List ℕ) (count : ℕ) → length name < 256 ^ 4 → count < 256 ^ 2 → length wishes ≡ 2 * count
        → has_info_shape (info_request name count wishes) ≡ true }
{}

/// The head of a reply to an option is read back from its bytes.
pub fn option_replies_read_back()
    ensures { (code size : ℕ) (reply : OptionReply) → code < 256 ^ 4 → size < 256 ^ 4
        → option_reply_in (option_reply_head code reply size) ≡ Some (record { code = code; reply = reply; length = size }) }
{}

/// What a client is told of an export is read back from its bytes, in each of its three forms.
pub fn exports_read_back()
    ensures info { (export : Export) → HasExportInRange export → export_info_in (export_info export) ≡ Some (record { size = export.size; flags = export.flags }) }
    ensures sizes { (export : Export) → HasExportInRange export
        → block_sizes_in (block_size_info export) ≡ Some (record { least = 1; preferred = export.preferred; most = export.most }) }
    ensures plain { (export : Export) → HasExportInRange export → plain_export_in (plain_export export) ≡ record { size = export.size; flags = export.flags } }
{}
