//! What a run reaches besides its drawers.
ghost use Rattle.std.specs.Prelude.{◌≡◌};

/// What a run reaches besides its drawers.
#[derive(Drop)]
pub struct Outside<'a, S, K, C, E> {
    /// What gives the bytes of a script.
    pub input: &'a mut S,
    /// What takes the replies.
    pub output: &'a mut K,
    /// What keeps the files that commands name.
    pub files: &'a mut C,
    /// What gives random bytes.
    pub entropy: &'a mut E,
}

impl<'a, S, K, C, E> Outside<'a, S, K, C, E> {
    /// Borrows these, all for the same lifetime.
    pub fn new(
        input: &'a mut S,
        output: &'a mut K,
        files: &'a mut C,
        entropy: &'a mut E,
    ) -> Outside<'a, S, K, C, E>
        ensures borrows { (result.input.ghost_name ≡ input.entry.ghost_name) × (result.output.ghost_name ≡ output.entry.ghost_name)
            × (result.files.ghost_name ≡ files.entry.ghost_name) × (result.entropy.ghost_name ≡ entropy.entry.ghost_name) }
        ensures now { (result.input.now ≡ input.old) × (result.output.now ≡ output.old)
            × (result.files.now ≡ files.old) × (result.entropy.now ≡ entropy.old) }
    {
        Outside {
            input,
            output,
            files,
            entropy,
        }
    }
}
