//! What a layer says was done to it, as events that only proofs see.
//!
//! A history has no bytes, and nothing ties it to memory: the clauses of what makes one say all that is known of it.
//! That it fits what is below is a fact of the layer that keeps it (`covered` of `WriteBehind` and of `Concat`).
ghost use Rattle.std.specs.Prelude.{◌≡◌, List};
ghost use Rattle.std.specs.Borrow.{ftrue};
ghost use Rattle.block_traits.specs.declared.disk.Event.{Event};

use std::marker::{Model, PhantomData};

/// How events are read off a value.
pub(crate) trait Reads<X> {
    /// The events.
    ghost events: { X → List Event };
}

/// Events that only proofs see.
#[derive(Drop)]
pub(crate) struct History {
    marker: PhantomData<()>,
    pub ghost events: { List Event },
}

impl Model for History {
    ghost also_owns = { λ _. ftrue };
}

impl History {
    /// The events that are read off a value.
    pub(crate) fn of<X, M: Reads<X>>(x: &X) -> History
        ensures { result.events ≡ M.events x.now }
    {
        let _ = x;
        History {
            marker: PhantomData,
        }
    }
}
