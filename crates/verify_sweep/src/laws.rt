//! What holds of the units that fail, and of sweeps one after another, whatever the disk.
ghost use Rattle.std.specs.Prelude.{◌≡◌, ◌≢◌, ◌↔◌, ℕ, ◌+◌, ◌-◌, ◌*◌, ◌≤◌, ◌++◌, List, length, map, sum, Contains};
ghost use Rattle.std.specs.List.{range_with_len};
ghost use Rattle.std.specs.List.Sorted.{IsStrictlyIncreasing};
ghost use Rattle.block_traits.specs.Content.{Content};
ghost use Rattle.eli_base.specs.declared.algorithms.Auth.TheVariants.{Off};
ghost use Rattle.eli_base.specs.Keying.{Keying};
ghost use Rattle.sector_runs.specs.Reading.{standing};
ghost use Rattle.sealing.specs.Sectors.{units};
ghost use Rattle.verify_sweep.specs.Sweeping.{Fails, failing_units, unit_readings_at};
ghost use Rattle.verify_sweep.specs.Parts.{cut_count, place_after, sectors_after, units_read_from};

/// A law: what the device sectors of some logical sectors read as, each alone, is what the units of these sectors
/// read as.
pub fn units_are_those_of_their_sectors()
    ensures { (k : Keying) (c : Content) (sector count : ℕ) → k.auth ≢ Off →
        unit_readings_at k (sector * units k) (standing c (sector * units k) (count * units k)) ≡ units_read_from k c sector count }
{}

/// A law: an offset is listed exactly if the unit there fails. The list ascends, so each is listed once.
pub fn units_are_listed_once()
    ensures listed { (k : Keying) (n : ℕ) (sectors : List (List ℕ)) (offset : ℕ) →
        Contains (failing_units k n sectors) offset ↔ Fails k n sectors offset }
    ensures once { (k : Keying) (n : ℕ) (sectors : List (List ℕ)) → IsStrictlyIncreasing (failing_units k n sectors) }
{}

/// A law: what is listed of some device sectors and then of those after them is what is listed of them all at once.
pub fn parts_list_what_the_whole_lists()
    ensures { (k : Keying) (n : ℕ) (front behind : List (List ℕ)) →
        failing_units k n (front ++ behind) ≡ failing_units k n front ++ failing_units k (n + length front) behind }
{}

/// A law: sweeps that each begin where the one before ended go over all sectors from the first place to the last, each
/// once.
pub fn parts_follow_each_other()
    ensures order { (k : Keying) (media start : ℕ) (counts : List ℕ) → start ≤ place_after k media start counts }
    ensures within { (k : Keying) (media start : ℕ) (counts : List ℕ) → start ≤ media → place_after k media start counts ≤ media }
    ensures sectors { (k : Keying) (media start : ℕ) (counts : List ℕ) →
        sectors_after k media start counts ≡ range_with_len start (place_after k media start counts - start) }
{}

/// A law: sweeps that follow one another reach the end once their counts do, each cut to the most sectors that one
/// sweep goes over.
pub fn cut_counts_reach_the_end()
    ensures { (k : Keying) (media start : ℕ) (counts : List ℕ) → start ≤ media → media ≤ start + sum (map (cut_count k) counts) →
        place_after k media start counts ≡ media }
{}
