//! What holds of cipher block chaining, whatever is sealed or opened.

ghost use Rattle.std.specs.Prelude.{◌≡◌, ℕ, ◌+◌, ◌*◌, ◌%◌, ◌≤◌, List, length};
ghost use Rattle.aes_core.specs.Aes.{decrypt, xor};
ghost use Rattle.aes_core.specs.Blocks.{block};
ghost use Rattle.aes_core.specs.Schedule.{IsKeyLength};
ghost use Rattle.cbc_mode.specs.Cbc.{cbc_open, cbc_seal};

/// A law: whole blocks are sealed to as many, and opened to as many.
pub fn cbc_keeps_lengths()
    ensures sealed { (key iv plain : List ℕ) → IsKeyLength (length key) → length plain % 16 ≡ 0 →
        length (cbc_seal key iv plain) ≡ length plain }
    ensures opened { (key iv cipher : List ℕ) → IsKeyLength (length key) → length iv ≡ 16 → length cipher % 16 ≡ 0 →
        length (cbc_open key iv cipher) ≡ length cipher }
{}

/// A law: a block of plaintext depends only on the block of ciphertext at its place and on the one before, which for
/// the first is the initialization vector.
pub fn cbc_opens_block_by_block()
    ensures first { (key iv cipher : List ℕ) → IsKeyLength (length key) → length iv ≡ 16 → 16 ≤ length cipher →
        block (cbc_open key iv cipher) 0 ≡ xor (decrypt key (block cipher 0)) iv }
    ensures next { (key iv cipher : List ℕ) (j : ℕ) → IsKeyLength (length key) → length iv ≡ 16 → 16 * (j + 1) + 16 ≤ length cipher →
        block (cbc_open key iv cipher) (j + 1) ≡ xor (decrypt key (block cipher (j + 1))) (block cipher j) }
{}
