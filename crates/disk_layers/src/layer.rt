//! What the name of an image asks for.
ghost use Rattle.std.specs.Prelude.{◌≡◌, ◌↔◌, ◌==◌, ◌<◌, ℕ, IfSome, length};
ghost use Rattle.std.specs.List.{position_from};
ghost use Rattle.disk_layers.specs.Names.{IsBehind, IsJoin};
ghost use Rattle.disk_layers.specs.Parts.{AreParts};

/// What stands between a name and its files.
#[derive(Clone, Copy, Debug, PartialEq, Eq)]
pub enum Layer {
    /// The file of the name.
    Plain,
    /// Writes are kept back from the file of what follows `behind:`.
    Behind,
    /// Two files as one: the first's name stands between `join:` and the byte `middle`, a colon, and the second's
    /// after that.
    Join { middle: usize },
}

/// What the name of an image asks for. `Behind` exactly if it begins with `behind:` and has more; `Join` exactly if it
/// begins with `join:` and a colon follows, the first of which is `middle` and has bytes on both sides; else `Plain`.
pub fn layer_of(name: &str) -> Layer
    ensures behind { (result ≡ Layer.Behind) ↔ IsBehind name.now }
    ensures join { (middle : ℕ) → (result ≡ Layer.Join middle) ↔ IsJoin middle name.now }
{
    let bytes = name.as_bytes();
    match bytes.strip_prefix(b"behind:") {
        Some(rest) if !rest.is_empty() => Layer::Behind,
        _ => join_of(bytes),
    }
}

// What is asked for by a name that doesn't begin with `behind:`, or has nothing after that.
fn join_of(bytes: &[u8]) -> Layer
    ensures behind { (result ≡ Layer.Behind) → ⊥ }
    ensures join { (middle : ℕ) → (result ≡ Layer.Join middle) ↔ IsJoin middle bytes.now }
{
    let Some(rest) = bytes.strip_prefix(b"join:") else {
        return Layer::Plain;
    };
    match first_colon(rest) {
        Some(at) if 0 < at && at + 1 < rest.len() => Layer::Join { middle: 5 + at },
        _ => Layer::Plain,
    }
}

// Where the first colon stands.
fn first_colon(bytes: &[u8]) -> Option<usize>
    ensures place { result ≡ position_from (λ byte. byte == 58) 0 bytes.now }
    ensures within { IfSome result (λ at. at < length bytes.now) }
{
    bytes.iter().position(|byte| *byte == b':')
}

/// The names of files in the name of an image.
#[derive(Clone, Copy)]
pub enum Parts<'a> {
    /// The name is that of a file.
    Whole,
    /// What follows `behind:`.
    Behind(&'a str),
    /// What is before and after the first colon that follows `join:`.
    Join(&'a str, &'a str),
}

/// The names of files in the name of an image, as `layer_of` parts it.
pub fn parts_of(name: &str) -> Parts<'_>
    ensures { AreParts name.now result }
{
    match layer_of(name) {
        Layer::Plain => Parts::Whole,
        Layer::Behind => Parts::Behind(&name[7..]),
        Layer::Join { middle } => Parts::Join(&name[5..middle], &name[middle + 1..]),
    }
}
