//! What holds of XTS, whatever is sealed or opened.

ghost use Rattle.std.specs.Prelude.{◌≡◌, ℕ, ◌+◌, ◌*◌, ◌%◌, ◌≤◌, List, length};
ghost use Rattle.aes_core.specs.Aes.{decrypt, encrypt};
ghost use Rattle.aes_core.specs.Blocks.{block};
ghost use Rattle.aes_core.specs.Schedule.{IsKeyLength};
ghost use Rattle.xts_mode.specs.Xts.{first_tweak, tweaked_block, xts_open, xts_seal};

/// A law: whole blocks are sealed to as many, and opened to as many.
pub fn xts_keeps_lengths()
    ensures sealed { (key1 key2 : List ℕ) (unit : ℕ) (plain : List ℕ) → IsKeyLength (length key1) → length plain % 16 ≡ 0 →
        length (xts_seal key1 key2 unit plain) ≡ length plain }
    ensures opened { (key1 key2 : List ℕ) (unit : ℕ) (cipher : List ℕ) → IsKeyLength (length key1) → length cipher % 16 ≡ 0 →
        length (xts_open key1 key2 unit cipher) ≡ length cipher }
{}

/// A law: for given keys and data unit, block j of what is sealed or opened depends only on j and on block j of what
/// was given.
pub fn xts_goes_block_by_block()
    ensures sealed { (key1 key2 : List ℕ) (unit j : ℕ) (plain : List ℕ) → IsKeyLength (length key1) → 16 * j + 16 ≤ length plain →
        block (xts_seal key1 key2 unit plain) j ≡ tweaked_block (encrypt key1) (first_tweak key2 unit) plain j }
    ensures opened { (key1 key2 : List ℕ) (unit j : ℕ) (cipher : List ℕ) → IsKeyLength (length key1) → 16 * j + 16 ≤ length cipher →
        block (xts_open key1 key2 unit cipher) j ≡ tweaked_block (decrypt key1) (first_tweak key2 unit) cipher j }
{}
