//! What a run works on: the drawers, the output, the files and the random bytes, borrowed by one value. The input is
//! passed beside it.
//!
//! The invariant is `BorrowsAsBefore`: after each method the value borrows what it borrowed before. Every method
//! promises this, and `run` relies on it: when the borrows end, what was said of the site's drawers and files is true
//! of the caller's own. Without the promise a method might have exchanged a reference for another, and the caller
//! would know nothing of its own values.
//!
//! The value keeps no state of its own but a mark that means nothing, so a failure leaves nothing to undo. A run that breaks off leaves the four
//! values as its lines left them, and the closing of the drawers if there was one.
//!
//! One value stands for four parameters, so the functions of a run have short signatures.
ghost use Rattle.std.specs.Prelude.{◌≡◌};

use shelf::Drawers;

/// What a run works on: its drawers, and what it reaches besides them but for its input. Each of its methods stands in
/// the file about what it does.
#[derive(Drop)]
pub(crate) struct Site<'a, K, C, E, D: Drop> {
    pub(crate) shelf: &'a mut Drawers<D>,
    pub(crate) output: &'a mut K,
    pub(crate) files: &'a mut C,
    pub(crate) entropy: &'a mut E,
    // What `scrub` wants kept. No contract sees it.
    pub(crate) mark: u8,
}

impl<'a, K, C, E, D: Drop> Site<'a, K, C, E, D> {
    /// Borrows these, all for the same lifetime.
    pub(crate) fn new(
        shelf: &'a mut Drawers<D>,
        output: &'a mut K,
        files: &'a mut C,
        entropy: &'a mut E,
    ) -> Site<'a, K, C, E, D>
        ensures borrows { (result.shelf.ghost_name ≡ shelf.entry.ghost_name) × (result.output.ghost_name ≡ output.entry.ghost_name)
            × (result.files.ghost_name ≡ files.entry.ghost_name) × (result.entropy.ghost_name ≡ entropy.entry.ghost_name) }
        ensures now { (result.shelf.now ≡ shelf.old) × (result.output.now ≡ output.old)
            × (result.files.now ≡ files.old) × (result.entropy.now ≡ entropy.old) }
    {
        Site {
            shelf,
            output,
            files,
            entropy,
            mark: 0,
        }
    }
}
