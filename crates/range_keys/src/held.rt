//! A ring that is forgotten as it is let go.
ghost use Rattle.std.specs.Prelude.{◌≡◌, [], IfOk};
ghost use Rattle.std.specs.Borrow.{sem};
ghost use Rattle.eli_base.specs.Keying.{keying_of};

use crate::ring::KeyRing;
use block_traits::NoMemory;
use eli_base::{MasterKey, Params};
use std::alloc::Global;
use std::marker::Model;

/// A ring in memory of its own. However it is let go, it is forgotten first.
///
/// A drop takes its value by value, so it can overwrite only what stands behind a pointer: hence the box.
pub struct HeldRing {
    ring: Box<KeyRing>,
}

impl Drop for HeldRing {
    fn drop(self) {
        let HeldRing { mut ring } = self;
        ring.forget();
    }
}

impl Model for HeldRing {
    ghost use Rattle.range_keys.specs.Ring.{Ring};

    ghost Value = { Ring };

    ghost view = { λ held. held.ring.value };
}

impl HeldRing {
    ghost use Rattle.range_keys.specs.Holding.{LendsRing};

    /// The ring of a provider with these parameters and this master key, which keeps no range key yet.
    pub fn new(alloc: Global, master: &MasterKey, params: &Params) -> Result<HeldRing, NoMemory>
        ensures keying { IfOk result (λ held. held.keying ≡ keying_of params.now master.now) }
        ensures numbers { IfOk result (λ held. held.numbers ≡ []) }
    {
        let ring = Box::new(alloc, KeyRing::new(alloc, master, params)?)?;
        Ok(HeldRing { ring })
    }

    /// The ring.
    pub fn get(&self) -> &KeyRing
        ensures { result.now ≡ self.now }
    {
        &*self.ring
    }

    /// The ring, to take keys from. The starred clause says that what it then is, this is.
    pub fn get_mut(&mut self) -> &mut KeyRing
        ensures* writes_back { sem 𝓛 (LendsRing self.entry result) }
        ensures value { result.now ≡ self.old }
    {
        &mut *self.ring
    }
}
