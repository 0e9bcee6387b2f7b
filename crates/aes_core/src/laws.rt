//! What holds of the cipher, whatever it is given.

ghost use Rattle.std.specs.Prelude.{◌≡◌, ℕ, List, length};
ghost use Rattle.aes_core.specs.Aes.{decrypt, encrypt};
ghost use Rattle.aes_core.specs.Schedule.{IsKeyLength};

/// A law: the cipher and its inverse give 16 bytes under every key.
pub fn ciphers_give_blocks()
    ensures encrypt { (key block : List ℕ) → IsKeyLength (length key) → length (encrypt key block) ≡ 16 }
    ensures decrypt { (key block : List ℕ) → IsKeyLength (length key) → length (decrypt key block) ≡ 16 }
{}
