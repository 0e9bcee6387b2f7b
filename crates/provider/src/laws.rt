//! What holds of providers, whatever the disk.
ghost use Rattle.std.specs.Prelude.{◌≡◌, ℕ, Bool};
ghost use Rattle.eli_base.specs.Keying.{Keying};
ghost use Rattle.provider.specs.Rest.{rest_numbers};

/// A law: the numbers that a provider gives of itself determine its keying, its slot and whether it is read-only.
pub fn rest_tells_all()
    ensures { (k j : Keying) (slot other : ℕ) (readonly too : Bool) →
        rest_numbers k slot readonly ≡ rest_numbers j other too → (k ≡ j) × (slot ≡ other) × (readonly ≡ too) }
{}
