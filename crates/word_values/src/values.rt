//! The values of options and operands: numbers, names and hexadecimal digits.
ghost use Rattle.std.specs.Prelude.{◌≡◌, ◌≤◌, ◌<◌, ◌+◌, ◌*◌, ◌^◌, MatchOption, IfSome};
ghost use Rattle.std.specs.Char.{is_ascii_digit, is_ascii_hexdigit};
ghost use Rattle.std.specs.List.{list_all};
ghost use Rattle.std.specs.Option.{SomeIff};
ghost use Rattle.word_values.specs.Values.{decimal, is_numeral, number_within, old_size_named, is_hexadecimal, auth_named, cipher_named};

use eli_base::{Auth, Cipher};

// Ten times the value and a digit.
fn with_digit(value: u64, digit: u64) -> Option<u64>
    ensures { SomeIff result (value * 10 + digit < 2 ^ 64) (value * 10 + digit) }
{
    value.checked_mul(10)?.checked_add(digit)
}

// The value of decimal digits, if it is below 2^64.
#[tactic(auto, using(crate::proofs::Numbers::decimal_last))]
fn digits_value(digits: &[u8]) -> Option<u64>
    ensures { MatchOption result (2 ^ 64 ≤ decimal digits.now) (λ value. value ≡ decimal digits.now) }
{
    if digits.is_empty() {
        return Some(0);
    }
    let last = digits.len() - 1;
    let digit = u64::from(digits[last].saturating_sub(b'0'));
    match digits_value(&digits[..last]) {
        Some(value) => with_digit(value, digit),
        None => None,
    }
}

fn all_digits(bytes: &[u8]) -> bool
    ensures { result ≡ list_all is_ascii_digit bytes.now }
{
    bytes.iter().all(|byte| byte.is_ascii_digit())
}

// Whether the bytes are one to twenty decimal digits.
fn is_digits(bytes: &[u8]) -> bool
    ensures { result ≡ is_numeral bytes.now }
{
    !bytes.is_empty() && bytes.len() <= 20 && all_digits(bytes)
}

/// The number that the bytes spell, if they are one to twenty decimal digits and it lies within the bounds.
pub fn number(bytes: &[u8], low: u64, high: u64) -> Option<u64>
    ensures number { result ≡ number_within low high bytes.now }
    ensures within { IfSome result (λ value. value ≤ high) }
{
    if !is_digits(bytes) {
        return None;
    }
    match digits_value(bytes) {
        Some(value) if low <= value && value <= high => Some(value),
        _ => None,
    }
}

/// The size of an image before it grew: a multiple of 512 from two device sectors to below 2^53 bytes.
pub fn old_size(bytes: &[u8]) -> Option<u64>
    ensures { result ≡ old_size_named bytes.now }
{
    let size = number(bytes, 1024, 9_007_199_254_740_480)?;
    if size % 512 == 0 { Some(size) } else { None }
}

fn all_hexadecimal(bytes: &[u8]) -> bool
    ensures { result ≡ list_all is_ascii_hexdigit bytes.now }
{
    // Each byte is tested, whatever the bytes before it are, so that many can be tested at once.
    let mut all = true;
    for i in 0..bytes.len() {
        all &= bytes[i].is_ascii_hexdigit();
    }
    all
}

/// Whether the bytes are hexadecimal: an even number of digits in either case, from 2 to 262,144.
pub fn is_hexadecimal(bytes: &[u8]) -> bool
    ensures { result ≡ is_hexadecimal bytes.now }
{
    let len = bytes.len();
    2 <= len && len <= 262_144 && len % 2 == 0 && all_hexadecimal(bytes)
}

/// The authentication of this name, in any case of letters.
pub fn auth(name: &[u8]) -> Option<Auth>
    ensures { result ≡ auth_named name.now }
{
    if name.eq_ignore_ascii_case(b"HMAC/SHA256") {
        return Some(Auth::Sha256);
    }
    if name.eq_ignore_ascii_case(b"HMAC/SHA384") {
        return Some(Auth::Sha384);
    }
    if name.eq_ignore_ascii_case(b"HMAC/SHA512") {
        return Some(Auth::Sha512);
    }
    None
}

/// The cipher of this name, in any case of letters.
pub fn cipher(name: &[u8]) -> Option<Cipher>
    ensures { result ≡ cipher_named name.now }
{
    if name.eq_ignore_ascii_case(b"AES-XTS") {
        return Some(Cipher::AesXts);
    }
    if name.eq_ignore_ascii_case(b"AES-CBC") {
        return Some(Cipher::AesCbc);
    }
    None
}
