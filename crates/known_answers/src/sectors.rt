//! Sealed logical sectors by cipher, size and place.

use crate::common::{fill, is_hex, master};
use eli_base::{Auth, Cipher, Params, sector_size_ok};
use plain_sectors::{open_plain, seal_plain};
use range_keys::KeyRing;
use sha2::{Digest, Sha256};
use std::alloc::Global;
use std::process::Abort;
use std::test::Fail;

const SECTOR_SIZES: [u32; 8] = [512, 1024, 2048, 4096, 8192, 16384, 32768, 65536];

// By tools/sector_tables.py, over Python's hmac, hashlib and cryptography: a table for each cipher and key length, with
// a digest for each of the sector sizes above, of what one plaintext is sealed to at five byte offsets, one sector
// after the other.

const XTS_128: [&str; 8] = [
    "8bbd8a2f30e7909650d8dbdfbc62394ccceaffacea8fcfed6af6d51c864a8d70",
    "e87c605f0e48f5c23648bceb3c835e69147fd8b7fc1d0c2ab454584adae170b9",
    "58bf0ca11762cd0eff953adc146c20acaa6c8311f607370cfb1c046f926e43e8",
    "1fc103d67b77e6b370a46595f3b0c787e7a5cd39c00f91738813bec659e49a96",
    "3aaf07667f1263034e13db6c51b726af0126785720347569ea1617f84fbb7cb3",
    "f714a5bca29205df8e7744349244d6d1742303a49f8a706d68b20a1b8d1a24cf",
    "aae3c82e81575dd0f1a498b9fd991ccfc0b6e0e47f3f137176b19246e81b707f",
    "e6312e2c808aa80fa66509864c21afbb5763537cbbe80dbf1c40fc11609de93e",
];

const XTS_256: [&str; 8] = [
    "9fa371eba942d6062d12de2bcca04c85159c415311cbf10896c0f077d58e8239",
    "3fa3003f8bb6d55deb112609547cf2801c224bd805a9440cf8c9ef07eb0f5eb1",
    "b738ef8b7f80717795c7097890b3c9f27a002da978bb1f31276376faf901c2c7",
    "e78c2cde3a27edc462414a4de198d1c56ebe7bb5feeb8ddd4abe1c1eafa0cca9",
    "4c6f1f06d6dd6a5fe12a3b1b37fe7b043b88851066c8926b1684086baae74898",
    "fbc2badcbdab2a1fc23979ed219e56141f754ec6495bb25b2a9f720eb4ad653a",
    "0e3002694b6d63afb6de9a3f466e11de6175b9a7d63d862cdd0f64de5a0e1efe",
    "5f72fd06c531c0ed66931489a77f96596c5ee0fca0a478a23a4be0e7c0c36694",
];

const CBC_128: [&str; 8] = [
    "72747f3a27468c9c622ef9038925817ce4a25f4bbd9c421093e042153fc0951c",
    "3a6dfeca291786900ad130bfc9f55821ae9a77e110db8b4af4b5d43fee189042",
    "87311c7fd402011950a2d2fbef2c3e4a959b39d4d72d828cf13b222b6d670e92",
    "7da8a8da3758023886996d8934d53ca110218335411e4e5097e642de799b9227",
    "180f384ce368242cf2bc85d885a6d6e81edf4f5085024f2b5a25958f82355155",
    "9389010d0abe5c0d4f2c314b11405b633314979209b34b4a56c3b799a02c412b",
    "05a89140774c556c33b17818f2cc3a2cfb0ffa5798dbc43029091eba3392d8b8",
    "afaa72a3c9211746c38ae78dcd199ad980b8167684954dced024951bcaa3efdb",
];

const CBC_192: [&str; 8] = [
    "0cf9965bd222741f7fe63c5943718649c45b1984dd78a96f41970bef02c2e495",
    "d3af38bb73c6fa4eb852175ee4f4c035ade5a16cf1cdd3285d3a42ea5619aaa6",
    "632e9f1a28b6b91b5d9428bdb37d0fc8a69b42b46ea413bed9841e3c7e33dcd4",
    "6a4f79b91a811686be92af859ecbbc35553933f24e356a5f4105617090abad23",
    "071e5165e0d3cb607de09add2e4b90c72bc0b7aedd42dadf52a05d67e3f6bbab",
    "ad6ef0eac509c8cc7f8dba3d410e3d0756329d6027e65a3c6a312769e7d8c436",
    "4718e59476dbb4a880d0c9587b32bf5678786a7af6164be411bd15ffd4fe3af7",
    "e2e8c576a5753dafe7ea80cd641525b2de9b69616795b742ed48210fc0e78291",
];

const CBC_256: [&str; 8] = [
    "d07452b48b3df61cc2bef0cb5cd04617a6a64fb9021f008948de399c64a96951",
    "19855a3226f4a042807a765b8c586ff4133918553f56e58ba3cf9f9a502eba8d",
    "105fcfce2a19b90a6bd21e5935d5c50f0cdea5cc3ba6e504776feb5182451577",
    "b4dd78141e7f5475147b8e578e4cb0f52ce97e407acb22b6b9faf69344bc21b3",
    "8b3e17957a9dadbe76d54e2f8904c74532e1eac23ce8bfd516c2883442e195e5",
    "b9d64708da2184a47e7b357dea3ea17c98ed5af33edc63913662b29cd4ec85a4",
    "6e86715acdfd4b84e3c472e9667a837ee62b8b8654dc8a0abeadf64c7aab4057",
    "bef0accb2a87951b997baeb967dafdca5996fcf36de2f7b77541cbc15f9f8c3f",
];

// The version of the metadata, a cipher, the bits of its key and the bytes of a logical sector.
#[derive(Clone, Copy)]
struct Combination {
    version: u32,
    cipher: Cipher,
    keylen: u16,
    sectorsize: u32,
}

// Seals the plaintext at a byte offset, adds what it is sealed to to the digest, and opens it again.
fn check_at(
    rt: &impl Abort,
    alloc: Global,
    tried: &Combination,
    offset: u64,
    plain: &[u8],
    digest: &mut Sha256,
) -> Result<(), Fail> {
    let Combination {
        version,
        cipher,
        keylen,
        sectorsize,
    } = *tried;
    assert!(rt;
        cipher.allows(keylen) && sector_size_ok(sectorsize),
        "{keylen} bits, {sectorsize} bytes"
    );
    let params = Params::new(version, Auth::Off, cipher, keylen, sectorsize, 0, false);
    let mut ring = KeyRing::new(alloc, &master(), &params)?;
    let mut block = plain.to_vec(alloc)?;
    assert!(rt; block.len() == sectorsize as usize, "{sectorsize} bytes");
    assert!(rt;
        offset % u64::from(sectorsize) == 0,
        "{sectorsize} bytes, at {offset}"
    );
    seal_plain(&mut ring, offset, &mut block);
    digest.update(&block);
    open_plain(&mut ring, offset, &mut block);
    assert!(rt;
        block.as_slice() == plain,
        "opened, {keylen} bits, {sectorsize} bytes, at {offset}"
    );
    Ok(())
}

// With sectors of S bytes the offsets are 0, S, the last sector under key number 0, the first under key number 1, and
// the last below 2^53.
fn check_row(
    rt: &impl Abort,
    alloc: Global,
    tried: &Combination,
    expected: &str,
) -> Result<(), Fail> {
    let mut plain = vec![in alloc; 0u8; tried.sectorsize as usize]?;
    fill(&mut plain);
    let size = u64::from(tried.sectorsize);
    let next_number = size << 20;
    assert!(rt; next_number >= size, "{size} bytes");
    let mut digest = Sha256::new();
    for offset in [0, size, next_number - size, next_number, (1 << 53) - size] {
        check_at(rt, alloc, tried, offset, &plain, &mut digest)?;
    }
    assert!(rt;
        is_hex(alloc, &digest.finalize(), expected)?,
        "{size} bytes"
    );
    Ok(())
}

fn check_table(
    rt: &impl Abort,
    alloc: Global,
    cipher: Cipher,
    keylen: u16,
    digests: &[&str; 8],
) -> Result<(), Fail> {
    for (&sectorsize, expected) in SECTOR_SIZES.iter().zip(digests) {
        let tried = Combination {
            version: 7,
            cipher,
            keylen,
            sectorsize,
        };
        check_row(rt, alloc, &tried, expected)?;
    }
    Ok(())
}

#[test]
fn sectors_by_cipher_and_size(rt: HostRuntime) -> Result<(), Fail> {
    let alloc = rt.alloc();
    check_table(&rt, alloc, Cipher::AesXts, 128, &XTS_128)?;
    check_table(&rt, alloc, Cipher::AesXts, 256, &XTS_256)?;
    check_table(&rt, alloc, Cipher::AesCbc, 128, &CBC_128)?;
    check_table(&rt, alloc, Cipher::AesCbc, 192, &CBC_192)?;
    check_table(&rt, alloc, Cipher::AesCbc, 256, &CBC_256)
}

// A logical sector by its number, and the digest of what the plaintext is sealed to there.
struct Vector {
    version: u32,
    cipher: Cipher,
    keylen: u16,
    sectorsize: u32,
    number: u64,
    digest: &'static str,
}

// By tools/sector_tables.py, under the master key and of the plaintext of its tables.
const VECTORS: [Vector; 9] = [
    Vector {
        version: 7,
        cipher: Cipher::AesXts,
        keylen: 128,
        sectorsize: 512,
        number: 0,
        digest: "9d3978f2727de1046ec2eab4ec585b3ec5a0309fb153bc9a6f32ff8d9254e880",
    },
    Vector {
        version: 7,
        cipher: Cipher::AesXts,
        keylen: 128,
        sectorsize: 512,
        number: 3,
        digest: "bbe3cf0f3c830ac1a16a713929f64dac41e714c933b06dc601c77572d6df4cb8",
    },
    Vector {
        version: 7,
        cipher: Cipher::AesXts,
        keylen: 256,
        sectorsize: 4096,
        number: 5,
        digest: "a068a884c5305e9bca09f10c29c6e3e18472c21ba3b87212154c9d6bbc0e8a80",
    },
    Vector {
        version: 7,
        cipher: Cipher::AesXts,
        keylen: 128,
        sectorsize: 512,
        number: 1048576,
        digest: "0ab4218955ca3aba69ee804622a0dd752ed9c1e35ec9a16d0b1f9c79b37659ba",
    },
    Vector {
        version: 7,
        cipher: Cipher::AesCbc,
        keylen: 128,
        sectorsize: 512,
        number: 3,
        digest: "5ae95eaf4528f24767187b429d90962e757e61b86d39b4aa1785edb52a52159d",
    },
    Vector {
        version: 7,
        cipher: Cipher::AesCbc,
        keylen: 192,
        sectorsize: 4096,
        number: 5,
        digest: "051d8bf8ed56f649d9118048847c1826e16e34b4945c1004e37b1b8712b70d2f",
    },
    Vector {
        version: 7,
        cipher: Cipher::AesCbc,
        keylen: 256,
        sectorsize: 65536,
        number: 1,
        digest: "1690783119d6cf60dfe80cef4217f35d0ffcc5afb192b93bc1c0cff634b061d1",
    },
    Vector {
        version: 6,
        cipher: Cipher::AesXts,
        keylen: 128,
        sectorsize: 512,
        number: 3,
        digest: "0332fc9773132d8b1a72b35cba4771f9e1c2f35ae19b89e7add49984d37acbbc",
    },
    Vector {
        version: 5,
        cipher: Cipher::AesCbc,
        keylen: 128,
        sectorsize: 512,
        number: 3,
        digest: "19dbb1d949c9f7fefeb434e19d3b600356147cf3672c98daa23bd61542f21f20",
    },
];

fn check_sector(rt: &impl Abort, alloc: Global, vector: &Vector) -> Result<(), Fail> {
    let tried = Combination {
        version: vector.version,
        cipher: vector.cipher,
        keylen: vector.keylen,
        sectorsize: vector.sectorsize,
    };
    let mut plain = vec![in alloc; 0u8; vector.sectorsize as usize]?;
    fill(&mut plain);
    assert!(rt; vector.number < 1 << 32, "{}", vector.number);
    let offset = vector.number * u64::from(vector.sectorsize);
    let mut digest = Sha256::new();
    check_at(rt, alloc, &tried, offset, &plain, &mut digest)?;
    assert!(rt;
        is_hex(alloc, &digest.finalize(), vector.digest)?,
        "at {offset}"
    );
    Ok(())
}

#[test]
fn sectors_as_another_implementation(rt: HostRuntime) -> Result<(), Fail> {
    for vector in &VECTORS {
        check_sector(&rt, rt.alloc(), vector)?;
    }
    Ok(())
}
