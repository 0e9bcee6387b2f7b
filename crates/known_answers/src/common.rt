//! What the tables are made of: keys, texts and digests.
use eli_base::MasterKey;
use std::alloc::Global;
use std::test::Fail;

// Numbers as bytes, the first number first and each big-endian.
pub(crate) fn bytes_of(numbers: [u128; 2]) -> [u8; 32] {
    let mut out = [0u8; 32];
    out[..16].copy_from_slice(&numbers[0].to_be_bytes());
    out[16..].copy_from_slice(&numbers[1].to_be_bytes());
    out
}

// The plaintext of the tables: byte i is (7 * i + i / 256) mod 256.
pub(crate) fn fill(text: &mut [u8]) {
    for (i, byte) in text.iter_mut().enumerate() {
        *byte = ((7 * (i % 256) + i / 256 % 256) % 256) as u8;
    }
}

// The master key of the tables, with the bytes 0 to 127.
pub(crate) fn master() -> MasterKey {
    let mut bytes = [0u8; 128];
    for (i, byte) in bytes.iter_mut().enumerate() {
        *byte = (i % 128) as u8;
    }
    MasterKey { bytes }
}

// Whether a text has just these bytes as hexadecimal digits.
pub(crate) fn is_hex(alloc: Global, bytes: &[u8], text: &str) -> Result<bool, Fail> {
    Ok(hex::encode(alloc, bytes)?.as_str() == text)
}
