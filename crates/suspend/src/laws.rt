//! What holds of suspended providers, whatever the disk.
ghost use Rattle.std.specs.Prelude.{◌≡◌, ◌⊎◌, ℕ, List, Ok};
ghost use Rattle.key_slots.specs.Slots.{Opens};
ghost use Rattle.provider.specs.Answers.{Means, Target};
ghost use Rattle.provider.specs.Attached.{Attached};
ghost use Rattle.sha2.specs.Sha256.{sha256};
ghost use Rattle.suspend.specs.Rest.{suspended_rest};
ghost use Rattle.suspend.specs.Resuming.{AreCollision, ResumeAnswers};
ghost use Rattle.suspend.specs.Suspension.{Suspension};

use block_traits::Disk;

/// A law: a provider that was resumed has a master key that the user key opens in a slot of the metadata. It is the one
/// whose digest was kept, or the two are a collision of SHA-256.
pub fn resumed_master_is_the_same_or_collides<D: Disk>()
    ensures opens { (target : Target) (by : Means) (s : Suspension D) (p : Attached D) → ResumeAnswers target by s (Ok p) →
        Opens target.meta by.key p.slot p.keying.master }
    ensures same { (target : Target) (by : Means) (s : Suspension D) (master : List ℕ) (p : Attached D) →
        s.mark ≡ sha256 master → ResumeAnswers target by s (Ok p) →
        (p.keying.master ≡ master) ⊎ AreCollision master p.keying.master }
{}

/// A law: the numbers that a suspended provider shows of itself determine all that was kept.
pub fn rest_tells_all<D: Disk>()
    ensures { (s t : Suspension D) → suspended_rest s ≡ suspended_rest t →
        (s.slot ≡ t.slot) × (s.sectorsize ≡ t.sectorsize) × (s.sectors ≡ t.sectors) × (s.readonly ≡ t.readonly) × (s.mark ≡ t.mark) }
{}
