//! What a word is at the place of an option.
ghost use Rattle.std.specs.Prelude.{◌≡◌};
ghost use Rattle.command_words.specs.Options.{kind_of};
ghost use Rattle.command_words.specs.Pass.{kind_seen};

/// What a word at the place of an option is.
pub enum WordKind<'a> {
    /// The word `--`, which ends the options.
    Ends,
    /// The letters of a group, after its dash.
    Letters(&'a [u8]),
    /// The first operand.
    Other,
}

/// What these bytes are at the place of an option.
pub fn kind(bytes: &[u8]) -> WordKind<'_>
    ensures { kind_seen result ≡ kind_of bytes.now }
{
    match bytes {
        b"--" => WordKind::Ends,
        [b'-', letters @ ..] if !letters.is_empty() => WordKind::Letters(letters),
        _ => WordKind::Other,
    }
}
