//! What holds of sealing and opening whole logical sectors, with each authentication and without.

ghost use Rattle.std.specs.Prelude.{◌≡◌, ◌≢◌, ℕ, ◌+◌, ◌*◌, ◌<◌, List, [], ◌∷◌, length, map, get_or, Ok, All};
ghost use Rattle.aes_core.specs.Schedule.{AreBytes};
ghost use Rattle.eli_base.specs.declared.algorithms.Auth.TheVariants.{Off};
ghost use Rattle.eli_base.specs.Keying.{Keying};
ghost use Rattle.range_keys.specs.Keys.{first_key, second_key, tweak};
ghost use Rattle.range_keys.specs.Ring.{IsKeying};
ghost use Rattle.sealing.specs.TaggedUnits.{sealed_tagged};
ghost use Rattle.sealing.specs.Sectors.{IsSingle, unit_reading_at, reading, seal, unit_place, unit_readings, units, units_in};
ghost use Rattle.xts_mode.specs.Xts.{xts_open, xts_seal};

/// A law: what a logical sector is sealed to reads as its plain bytes, unit by unit and as a whole.
pub fn opening_undoes_sealing()
    ensures units { (k : Keying) (sector : ℕ) (bytes : List ℕ) → IsKeying k → AreBytes bytes → length bytes ≡ k.sectorsize →
        unit_readings k sector (seal k sector bytes) ≡ map Ok (units_in k bytes) }
    ensures whole { (k : Keying) (sector : ℕ) (bytes : List ℕ) → IsKeying k → AreBytes bytes → length bytes ≡ k.sectorsize →
        reading k sector (seal k sector bytes) ≡ Ok bytes }
{}

/// A law: a logical sector is sealed to as many device sectors as it has units, each of 512 bytes.
pub fn sealed_sectors_are_whole()
    ensures count { (k : Keying) (sector : ℕ) (bytes : List ℕ) → length (seal k sector bytes) ≡ units k }
    ensures each { (k : Keying) (sector : ℕ) (bytes : List ℕ) → IsKeying k → AreBytes bytes → length bytes ≡ k.sectorsize →
        All (λ device_sector. length device_sector ≡ 512) (seal k sector bytes) }
{}

/// A law: from as many device sectors as a logical sector has units, there is a reading for each unit.
pub fn each_unit_is_read()
    ensures { (k : Keying) (sector : ℕ) (sectors : List (List ℕ)) → length sectors ≡ units k →
        length (unit_readings k sector sectors) ≡ units k }
{}

/// A law: with authentication what a unit is sealed to, and what it reads as, are functions of the number of its device
/// sector and of its bytes.
pub fn tagged_units_stand_alone()
    ensures sealed { (k : Keying) (sector j : ℕ) (bytes : List ℕ) → k.auth ≢ Off → j < units k →
        get_or (seal k sector bytes) j [] ≡ sealed_tagged k (512 * unit_place k sector j) (get_or (units_in k bytes) j []) }
    ensures read { (k : Keying) (sector j : ℕ) (sectors : List (List ℕ)) → k.auth ≢ Off → length sectors ≡ units k → j < units k →
        get_or (unit_readings k sector sectors) j (Ok []) ≡ unit_reading_at k (unit_place k sector j) (get_or sectors j []) }
{}

/// A law: with logical sectors of 512 bytes, AES-XTS and no authentication, sealing and opening are XTS at the device
/// sector's byte offset, under the keys of this offset.
pub fn device_sector_by_its_number()
    ensures sealed { (k : Keying) (number : ℕ) (bytes : List ℕ) → IsKeying k → IsSingle k → length bytes ≡ 512 →
        let offset = number * 512 in
        seal k number bytes ≡ xts_seal (first_key k offset) (second_key k offset) (tweak offset) bytes ∷ [] }
    ensures read { (k : Keying) (number : ℕ) (sector : List ℕ) → IsKeying k → IsSingle k → length sector ≡ 512 →
        let offset = number * 512 in
        reading k number (sector ∷ []) ≡ Ok (xts_open (first_key k offset) (second_key k offset) (tweak offset) sector) }
{}
