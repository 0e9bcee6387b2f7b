//! Blocks of 16 bytes.

ghost use Rattle.std.specs.Prelude.{◌≡◌, ℕ, ◌+◌, ◌*◌, ◌≤◌, length};
ghost use Rattle.aes_core.specs.Aes.{xor};
ghost use Rattle.aes_core.specs.Blocks.{block};

/// A block of AES, 16 bytes.
pub type Block = [u8; 16];

/// The sum of two blocks, bit by bit.
#[inline(always)]
pub fn xor(a: Block, b: Block) -> Block
    ensures { result ≡ xor a b }
{
    let mut out = [0u8; 16];
    for i in 0..16 {
        out[i] = a[i] ^ b[i];
    }
    out
}

/// Block `j` of these bytes.
#[inline(always)]
pub fn block_at(bytes: &[u8], j: usize) -> Block
    requires { 16 * j + 16 ≤ length bytes.now }
    ensures { result ≡ block bytes.now j }
{
    let mut out = [0u8; 16];
    out.copy_from_slice(&bytes[16 * j..16 * j + 16]);
    out
}
