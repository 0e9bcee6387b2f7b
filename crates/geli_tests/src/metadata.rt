//! Which metadata is refused, and how: each change of one bit.
use crate::dump::metadata;
use block_traits::Sector;
use eli_base::Refusal;
use eli_metadata::{MetaFault, Metadata, check, decode, size_gate, slot_gate};
use md5::{Digest, Md5};

// All that stands between an image of 2,048 sectors and the use of its provider.
fn admit(meta: &Metadata) -> Result<(), MetaFault> {
    check(meta)?;
    size_gate(meta, 2048)?;
    slot_gate(meta, None)
}

// The number of the refusal, or 0.
fn number_of(sector: &Sector) -> u8 {
    match decode(sector).and_then(|meta| admit(&meta)) {
        Ok(()) => 0,
        Err(fault) => Refusal::from(fault).number(),
    }
}

// The ranges of bits, by their ends, whose change alone is refused with this number: worked out apart
// from the program, in python3.
const AS_THEY_STAND: [(usize, u8); 5] = [(128, 5), (130, 7), (160, 6), (4088, 7), (4096, 0)];

// The ranges of bits whose change is refused with this number if the MD5 is made anew after it.
const HASHED_ANEW: [(usize, u8); 17] = [
    (128, 5),
    (130, 0),
    (160, 6),
    (161, 13),
    (164, 0),
    (165, 10),
    (170, 0),
    (192, 13),
    (208, 9),
    (224, 11),
    (240, 0),
    (304, 8),
    (336, 12),
    (337, 14),
    (3960, 0),
    (4088, 7),
    (4096, 0),
];

// Whether a sector of which this bit was changed is refused with the number that its range says.
fn is_answered(sector: &Sector, ranges: &[(usize, u8)], bit: usize) -> bool {
    for (end, number) in ranges {
        if bit < *end {
            return number_of(sector) == *number;
        }
    }
    false
}

// The sector with the MD5 of its first 495 bytes after them.
fn hashed(sector: &Sector) -> Sector {
    let mut anew = *sector;
    let digest = Md5::digest(&sector[..495]);
    anew[495..511].copy_from_slice(&digest);
    anew
}

// The metadata's sector with one bit changed.
fn flipped(byte: usize, place: u32) -> Sector {
    let mut sector = metadata();
    if let Some(found) = sector.get_mut(byte) {
        *found ^= 1u8.wrapping_shl(place);
    }
    sector
}

// If a bit of the MD5 itself or of the byte after it is changed, no MD5 is made anew.
#[test]
fn each_bit_is_refused_by_its_table(rt: HostRuntime) {
    for bit in 0..4096usize {
        let sector = flipped(bit / 8, (bit % 8) as u32);
        assert!(rt; is_answered(&sector, &AS_THEY_STAND, bit), "bit {bit}");
        let anew = if bit < 3960 { hashed(&sector) } else { sector };
        assert!(rt;
            is_answered(&anew, &HASHED_ANEW, bit),
            "bit {bit}, hashed anew"
        );
    }
}
