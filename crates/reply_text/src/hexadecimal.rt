//! A number in lower-case hexadecimal, without leading zeros.
ghost use Rattle.std.specs.Prelude.{◌≡◌, ◌<◌, ◌≤◌, drop, false};
ghost use Rattle.std.specs.Fmt.{digits, digit_glyph};

/// Puts the digits of a number at the end of the buffer, and returns where they start.
pub(crate) fn hexadecimal(number: u32, buffer: &mut [u8; 8]) -> usize
    ensures start { result ≤ 8 }
    ensures digits { drop result buffer.new ≡ digits 16 false number }
{
    let mut start = 8;
    let mut left = number;
    loop {
        start -= 1;
        buffer[start] = digit((left % 16) as u8);
        left /= 16;
        if left == 0 {
            return start;
        }
    }
}

fn digit(value: u8) -> u8
    requires { value < 16 }
    ensures { result ≡ digit_glyph false value }
{
    if value < 10 {
        b'0' + value
    } else {
        b'a' - 10 + value
    }
}
