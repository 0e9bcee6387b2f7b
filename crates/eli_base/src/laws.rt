//! What holds of units.
ghost use Rattle.std.specs.Prelude.{◌≡◌, ℕ, ◌/◌, ◌%◌, ◌≤◌};
ghost use Rattle.eli_base.specs.declared.algorithms.Auth.TheVariants.{Off};
ghost use Rattle.eli_base.specs.Units.{last_unit_bytes, units_per_sector};

/// A law: without authentication a logical sector takes a device sector for each 512 bytes, and fills each of them.
pub fn units_without_authentication()
    ensures units { (size : ℕ) → 512 ≤ size → size % 512 ≡ 0 → units_per_sector Off size ≡ size / 512 }
    ensures last { (size : ℕ) → 512 ≤ size → size % 512 ≡ 0 → last_unit_bytes Off size ≡ 512 }
{}
