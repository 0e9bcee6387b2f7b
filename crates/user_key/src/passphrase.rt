//! The lines that make a passphrase.

ghost use Rattle.std.specs.Prelude.{◌≡◌, ◌==◌, position};
ghost use Rattle.user_key.specs.Passphrase.{first_line};

// Where the first newline stands, if there is one.
fn newline_place(file: &[u8]) -> Option<usize>
    ensures { result ≡ position (λ byte. byte == 10) file.now }
{
    file.iter().position(|byte| *byte == b'\n')
}

/// The bytes of a file before its first newline, or all of them if it has none. A zero byte is an ordinary byte.
pub fn first_line(file: &[u8]) -> &[u8]
    ensures { result.now ≡ first_line file.now }
{
    match newline_place(file) {
        Some(end) => &file[..end],
        None => file,
    }
}
