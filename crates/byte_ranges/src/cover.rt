//! The logical sectors that a range of bytes lies in.
ghost use Rattle.std.specs.Prelude.{◌≡◌, ◌+◌, ◌-◌, ◌*◌, ◌/◌, ◌%◌, ◌^◌, ◌<◌, ◌≤◌};

/// The logical sectors that a range of bytes lies in.
#[derive(Clone, Copy, Debug, PartialEq, Eq)]
pub struct Cover {
    /// The first.
    pub first: u64,
    /// How many there are.
    pub count: usize,
    /// The bytes of the first sector before the range.
    pub skip: usize,
    /// The bytes of all the sectors.
    pub whole: usize,
}

/// The logical sectors of this size that a range of bytes lies in.
pub fn cover_of(offset: u64, bytes: usize, size: usize) -> Cover
    requires some { 0 < bytes }
    requires few { bytes < 2 ^ 32 }
    requires size { 512 ≤ size }
    requires small { size ≤ 65536 }
    ensures first { result.first ≡ offset / size }
    ensures skip { result.skip ≡ offset % size }
    ensures count { result.count ≡ (offset % size + bytes + (size - 1)) / size }
    ensures whole { result.whole ≡ result.count * size }
    ensures within { result.skip < size }
    ensures some { 1 ≤ result.count }
    ensures covers { result.skip + bytes ≤ result.whole }
    ensures least { result.whole < result.skip + bytes + size }
    ensures rest { result.whole % size ≡ 0 }
{
    let skip = (offset % size as u64) as usize;
    let count = (skip + bytes + (size - 1)) / size;
    Cover {
        first: offset / size as u64,
        count,
        skip,
        whole: count * size,
    }
}
