//! Where logical sectors stand, by the rules of g_eli.h: the last device sector has the metadata, and with
//! authentication each device sector has a tag and the rest of its 512 bytes of ciphertext.
use eli_base::{Auth, Cipher, Geometry, Params, UnitSpan};
use std::test::Fail;

// Images of AES-XTS with keys of 128 bits: bytes of the image, authentication, bytes of a logical sector; how many
// logical sectors there are; a logical sector, its first device sector, and how many it has.
const SPANS: [(u64, Auth, u32, u64, u64, u64, u64); 6] = [
    (1_048_576, Auth::Off, 512, 2047, 2046, 2046, 1),
    (1_048_576, Auth::Off, 4096, 255, 3, 24, 8),
    (1_048_576, Auth::Off, 65536, 15, 14, 1792, 128),
    (1_048_576, Auth::Sha256, 4096, 227, 226, 2034, 9),
    (1_048_576, Auth::Sha512, 4096, 204, 203, 2030, 10),
    (1_048_576, Auth::Sha256, 512, 1023, 5, 10, 2),
];

#[test]
fn sectors_stand_in_their_units(rt: HostRuntime) -> Result<(), Fail> {
    for (bytes, auth, size, sectors, sector, first, count) in SPANS {
        let params = Params::new(7, auth, Cipher::AesXts, 128, size, bytes, false);
        let Ok(geometry) = Geometry::of(&params) else {
            return Err(Fail::from("the image is too small"));
        };
        assert_eq!(rt; geometry.sectors, sectors);
        assert!(&rt; sector < geometry.sectors);
        let span = UnitSpan { first, count };
        assert!(&rt;
            geometry.units_of(sector) == span,
            "sector {sector} of {size} bytes"
        );
    }
    Ok(())
}
