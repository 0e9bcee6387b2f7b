//! The codes of RFC 4231 and derived keys.

ghost use Rattle.std.specs.Prelude.{◌≤◌};

use crate::common::is_hex;
use hmac_kdf::{Hmac256, Hmac384, Hmac512, pbkdf2_sha512};
use sha512_lanes::{codes_of_four_384, codes_of_four_512};
use std::alloc::Global;
use std::test::Fail;

// A key and a message, and the codes with SHA-256, SHA-384 and SHA-512 as hexadecimal text.
struct MacCase {
    key: &'static [u8],
    message: &'static [u8],
    code256: &'static str,
    code384: &'static str,
    code512: &'static str,
}

// Keys and messages of RFC 4231, by the test case that has them first.
const KEY_1: [u8; 20] = [0x0b; 20];

const KEY_3: [u8; 20] = [0xaa; 20];

const MESSAGE_3: [u8; 50] = [0xdd; 50];

const MESSAGE_4: [u8; 50] = [0xcd; 50];

const KEY_5: [u8; 20] = [0x0c; 20];

const KEY_6: [u8; 131] = [0xaa; 131];

const KEY_4: [u8; 25] = [
    1, 2, 3, 4, 5, 6, 7, 8, 9, 10, 11, 12, 13, 14, 15, 16, 17, 18, 19, 20, 21, 22, 23, 24, 25,
];

// RFC 4231, test cases 1 to 7: key and message shorter and longer than a block. The RFC prints the first 128
// bits of case 5; tools/hmac_tables.py gives all, by the library that it names.
const MAC_CASES: [MacCase; 7] = [
    MacCase {
        key: &KEY_1,
        message: b"Hi There",
        code256: "b0344c61d8db38535ca8afceaf0bf12b881dc200c9833da726e9376c2e32cff7",
        code384: "afd03944d84895626b0825f4ab46907f15f9dadbe4101ec682aa034c7cebc59cfaea9ea9076ede7f4af152e8b2fa9cb6",
        code512: "87aa7cdea5ef619d4ff0b4241a1d6cb02379f4e2ce4ec2787ad0b30545e17cdedaa833b7d6b8a702038b274eaea3f4e4be9d914eeb61f1702e696c203a126854",
    },
    MacCase {
        key: b"Jefe",
        message: b"what do ya want for nothing?",
        code256: "5bdcc146bf60754e6a042426089575c75a003f089d2739839dec58b964ec3843",
        code384: "af45d2e376484031617f78d2b58a6b1b9c7ef464f5a01b47e42ec3736322445e8e2240ca5e69e2c78b3239ecfab21649",
        code512: "164b7a7bfcf819e2e395fbe73b56e0a387bd64222e831fd610270cd7ea2505549758bf75c05a994a6d034f65f8f0e6fdcaeab1a34d4a6b4b636e070a38bce737",
    },
    MacCase {
        key: &KEY_3,
        message: &MESSAGE_3,
        code256: "773ea91e36800e46854db8ebd09181a72959098b3ef8c122d9635514ced565fe",
        code384: "88062608d3e6ad8a0aa2ace014c8a86f0aa635d947ac9febe83ef4e55966144b2a5ab39dc13814b94e3ab6e101a34f27",
        code512: "fa73b0089d56a284efb0f0756c890be9b1b5dbdd8ee81a3655f83e33b2279d39bf3e848279a722c806b485a47e67c807b946a337bee8942674278859e13292fb",
    },
    MacCase {
        key: &KEY_4,
        message: &MESSAGE_4,
        code256: "82558a389a443c0ea4cc819899f2083a85f0faa3e578f8077a2e3ff46729665b",
        code384: "3e8a69b7783c25851933ab6290af6ca77a9981480850009cc5577c6e1f573b4e6801dd23c4a7d679ccf8a386c674cffb",
        code512: "b0ba465637458c6990e5a8c5f61d4af7e576d97ff94b872de76f8050361ee3dba91ca5c11aa25eb4d679275cc5788063a5f19741120c4f2de2adebeb10a298dd",
    },
    MacCase {
        key: &KEY_5,
        message: b"Test With Truncation",
        code256: "a3b6167473100ee06e0c796c2955552bfa6f7c0a6a8aef8b93f860aab0cd20c5",
        code384: "3abf34c3503b2a23a46efc619baef897f4c8e42c934ce55ccbae9740fcbc1af4ca62269e2a37cd88ba926341efe4aeea",
        code512: "415fad6271580a531d4179bc891d87a650188707922a4fbb36663a1eb16da008711c5b50ddd0fc235084eb9d3364a1454fb2ef67cd1d29fe6773068ea266e96b",
    },
    MacCase {
        key: &KEY_6,
        message: b"Test Using Larger Than Block-Size Key - Hash Key First",
        code256: "60e431591ee0b67f0d8a26aacbf5b77f8e0bc6213728c5140546040f0ee37f54",
        code384: "4ece084485813e9088d2c63a041bc5b44f9ef1012a2b588f3cd11f05033ac4c60c2ef6ab4030fe8296248df163f44952",
        code512: "80b24263c7c1a3ebb71493c1dd7be8b49b46d1f41b4aeec1121b013783f8f3526b56d037e05f2598bd0fd2215d6a1e5295e64f73f63f0aec8b915a985d786598",
    },
    MacCase {
        key: &KEY_6,
        message: b"This is a test using a larger than block-size key and a larger than block-size data. The key needs to be hashed before being used by the HMAC algorithm.",
        code256: "9b09ffa71b942fcb27635fbcd5b0e944bfdc63644f0713938a7f51535c3a35e2",
        code384: "6617178e941f020d351e2f254e8fd32c602420feb0b8fb9adccebb82461e99c5a678cc31e799176d3860e6110c46523e",
        code512: "e37b6a775dc87dbaa4dfa9f96e5e3ffddebd71f8867289865df5a32d20cdc944b6022cac3c4982b10d5eeb55c3e4de15134676fb6de0446065c97440fa8c6a58",
    },
];

// A length, and the codes of four messages of it as hexadecimal text.
struct FourCase {
    length: usize,
    codes384: [&'static str; 4],
    codes512: [&'static str; 4],
}

// The codes of the messages and keys below, by tools/hmac_tables.py. From 112 bytes on the padding has a second block.
const FOUR_CASES: [FourCase; 5] = [
    FourCase {
        length: 0,
        codes384: [
            "8f8683aef2575615be091bb6cda44bb103c8fc7f68dd0879824ffac246e8f2ca7471c605d53f69941c51b47549168216",
            "235414cdfc203ec0d4af29843d464582b2e703d2d45d7e7ad8e4ffbb23d7e93270aa54f01ff2f6451876f92ebee978ce",
            "4863bf0051c183c71f397232aa694bcde77888b970d33ae96c61088054e211fa98e0ee7e07a1039e0ecc86fec33107a1",
            "2069a2e73d8ba1aba0f3ac6b189780ae8d516071046df8dd8fb6c51622f2363a19d91386b892c2284227c70acf3bab2a",
        ],
        codes512: [
            "b04a70f45e9529968060f0026344d5f4da59f1c3ce228245f6bb088d7b8aa9fc8f5f3c2a48027e48338de0fbec7d9d8fed963ae333d2b9c5704e2e95864ec78b",
            "c35b352d550e464dc7858d399cb641cf907eff09aade77837e7b44c9d27413ca38db2c50f02b5d3ecaf08a9970cf0b397970dda87b20e3ac5c03f1a448b170b6",
            "8e2a1986f7249a461f8bcb44a39e94ffad9d47f9b6bf764e4a3baeab1646194949a037f3f09f9d5123a86e81a5c4ed9847ecfd67fc987de38d6d8b4b31c7b9b9",
            "0896cde029643b49ffafbb3c9096410450e9956274b0784c298573c8df4ee0b72224e151cdad96ee8f5f4eb39d74228a847f248934d35283ba6aab61c465ab36",
        ],
    },
    FourCase {
        length: 111,
        codes384: [
            "ab823e89336d4eec51d742baabdac52fd27f792dcc423adf99f1cd78342563564fdda374b4d5c9a6c296bd3c5895d78b",
            "9ec534497120946c76ab9e262bf77a091e4a62164037e7d5229dc1b0c90d21576f3e2e8ad724ae893271e714891b578f",
            "652109360e7e066ee5f569ab26045805d4ce3d9769d6755b9c409217261fc1b21ba4d05efeec2cc562184108234fad47",
            "1ee3a3b8e54fda8a825cff184aad1b213b1f85e3124011a1cee6e87dc256df32aeac82f09ee9b08bd09c98c8dc4d5e3b",
        ],
        codes512: [
            "d67a16a8939580a04f1356a06da148c6ba3d95243529d38666ea9d19b36dbe10cb0d668d732dfeccb1cc1c39a49785ab925414c098063d651c44c6acee4e61a2",
            "0e1c294ac772528164fd2807884491ea2ded7282b1aea24b99da0962cd68677187df85fb090f2bd69f84bae3c358bfcbb4b3cee7e831a785a451700c3f994aaf",
            "6c413024f7e4dea1ead4db4ffdb3d63fc294fe760151ee77d0e739f631978a9befb85008bf8139fbe8dcc07651ad60de1f06dc91767fced9d9faae106d7928b2",
            "cace99b350d16dbfb6a8903f62f4f5a41fa59c2eee164cc1aa786eed686e8b822693c993651695ce0a6b031a94880f37ce34de35d29810be2fde96a9337bce4a",
        ],
    },
    FourCase {
        length: 112,
        codes384: [
            "1dc8722afffcd33f8e3ec9c9df2276bf0d88c9fb4a7c1346700424bba66b9559f05fe8c04ce5e22cbdbbf70f3972a1e4",
            "0f32f98f9197d6545d5eaa25fbb4680770162d7d042187369399d0abd9190f815b0eb062c4e54eec55467e9f40134203",
            "58332d0c5521c0d050ea4ce3fe838daec9d9f424f343014fc7b4a3351ceee1679497000f3c04d73d0df1f31e0c1de261",
            "13262762b24c2e53764361c1ef42b4556a694165d69c87ccbe19b46984869e5b5024a353f99df07032bfc4483492d353",
        ],
        codes512: [
            "fd014ea8d5d71c0c249f891b386cdc484b14b1e4d3f82e758aee8bde009d623407db5898e1cc5ed24a43060cb3b8003ad999dbd2fe812d3770867f209969ce43",
            "8c5779993cebc2d848d54f507e085ddd4764846d08e47584e75404a635256d52e9c87964c4de32c2a592ee87348860a9f5e3078da663c5940a55f407db1ad28a",
            "1c11e21322671dc8e9c7943a71dd16bb2f4fca6531477b3d2bdcb4f0254a01c49ae8344b3e97ca659dd48999fc7cba705f1585ba4c8bf63813c6eb11cba7fb8c",
            "bbb074dd8c4661281762d65c61bcbc27dad2876fa4c2ee055413a042b18afae1910aca1376e76ed10ee6039d6214c0d34464a00d878ab2be12003332b8891be2",
        ],
    },
    FourCase {
        length: 128,
        codes384: [
            "8be12309e26a1a3724fa4d114bffb80642211ae2d4c7bea05aea1b53c95b75ce18e8aaf279a7fd54899991203da127ad",
            "d8df543b4919f61d45a6bd7260be1d10cd1cab61c5c6055a8521c31709ecda8ff4511d58d9b1c7fe2b899db17b5a5426",
            "9f01b689210f13956925e21f1d6281b102ca19fa9d6ef0e0ac5e1f0a5aae3eaee1326679a7c762edb4dbc6324419da90",
            "02b7c3de17fffcedb6e96363cfd358165eaf4596b2c208ef822678ce8acd67ff3e75a28c7db54a31366a8e6fa3829914",
        ],
        codes512: [
            "5992da83d9d970d5ea35815dc2982b2ea596941a6a1104b2a54a6819920bf08605366219bafce6685f2eb0cb7b8e9570ce6570227a8d34ce2a89134a6cb08468",
            "3d3a05ff353addcae8777af494edd80d108693d2a3e3f065f1e478f60fccf1359ace9cf94929cf8ca0ce63bff37cd51af7a3de500f54df4818dd2a8bbd71ff82",
            "53f7775987594a86afe14a0465299aec64858f534f80c50c1be8a33b0a5334a49d24ac66bc9e3d6e646fef2bab379da5b9ac53eb44f4aea37f9144df66b7cfd8",
            "ecb44a013bb13beb529653b9131a3bb627a78e9ea70c4a1c2a9e25c3e6921e2ccf856f2df2438b883602a6636cfd07099ba29321e020b553bc96c7cae7c304d2",
        ],
    },
    FourCase {
        length: 464,
        codes384: [
            "40032eda1947814403ee302cc3aa6f0247fc9f3c6fde637edcf74c8875f82c51136ecde073c0ad1624ba7a608476059c",
            "a1f4701af29c55549a0164a044f2b7eb5e54dffd274a00efa274eb8339140c8abd84c8a25a8ee136167de2c9f2306526",
            "4bca6bd1977ddda57e518abd12dbccfe0fb08c7a966f335ac3175850694db9a30a1ea15ca4d563032e382306ffd14c8f",
            "ab015ec0e56018cbf4183916fa7864fc2cb492fff07db8f30efa0c82e681785276436105843f0f82a3e44e71580601c0",
        ],
        codes512: [
            "4ade3b654154b5de2e331e6bcdbb4c94bd24746d56215f240eea210fdab322bb8d26576f39a3fa4c05b55eeb7b31a0d107dc3324499c3639983b18148c83840e",
            "740769c6611cdd7d9689f35d81c59b1da945158784bd33f957d8bead0a11dbe9489b22a2ce97d936846186838e58a6aaa743b1faa1f6f6a192b75b5a983e7a3a",
            "604c571aca39dfec27b698cfdd56a1394fa460d16443cd04a5df3790f42c1fdc79420e6c84a212e2df7064bec6ea73443f9e3434821a61bc8bdd8c8972df9469",
            "de0560cb5aa0f7d2a0dbc7984f8f85b343243ccd706a58671bfdc65e0bc0bdfd769baa13a40184cc153b68db1c76066d686066e96416870ccbf7b5df8113a2ca",
        ],
    },
];

// A password, a salt, a count of iterations, and the 64 bytes as hexadecimal text.
struct KdfCase {
    password: &'static [u8],
    salt: &'static [u8],
    count: u32,
    derived: &'static str,
}

// The inputs of RFC 6070 and an empty password, with SHA-512, by tools/hmac_tables.py.
const KDF_CASES: [KdfCase; 6] = [
    KdfCase {
        password: b"password",
        salt: b"salt",
        count: 1,
        derived: "867f70cf1ade02cff3752599a3a53dc4af34c7a669815ae5d513554e1c8cf252c02d470a285a0501bad999bfe943c08f050235d7d68b1da55e63f73b60a57fce",
    },
    KdfCase {
        password: b"password",
        salt: b"salt",
        count: 2,
        derived: "e1d9c16aa681708a45f5c7c4e215ceb66e011a2e9f0040713f18aefdb866d53cf76cab2868a39b9f7840edce4fef5a82be67335c77a6068e04112754f27ccf4e",
    },
    KdfCase {
        password: b"password",
        salt: b"salt",
        count: 4096,
        derived: "d197b1b33db0143e018b12f3d1d1479e6cdebdcc97c5c0f87f6902e072f457b5143f30602641b3d55cd335988cb36b84376060ecd532e039b742a239434af2d5",
    },
    KdfCase {
        password: b"passwordPASSWORDpassword",
        salt: b"saltSALTsaltSALTsaltSALTsaltSALTsalt",
        count: 4096,
        derived: "8c0511f4c6e597c6ac6315d8f0362e225f3c501495ba23b868c005174dc4ee71115b59f9e60cd9532fa33e0f75aefe30225c583a186cd82bd4daea9724a3d3b8",
    },
    KdfCase {
        password: b"pass\0word",
        salt: b"sa\0lt",
        count: 4096,
        derived: "9d9e9c4cd21fe4be24d5b8244c759665f39d98fc12a9ca759bb021db3cfadf345844aebe70dd8b2f6966f25f3613e1187bbd24ed2ca43ed13b246e4675be7ab9",
    },
    KdfCase {
        password: b"",
        salt: b"",
        count: 3,
        derived: "ba78a2c18fe1f3cfffaba0f93ccf85fc342edf2c34ff439f928c464fe04ee9c43d6516594282bf31d9b80ba31d67e6d076cc2e45ba2d5c9d6bca44f288940c5d",
    },
];

// Whether a message in two pieces has the codes of a row.
fn has_codes(alloc: Global, case: &MacCase, front: &[u8], back: &[u8]) -> Result<bool, Fail> {
    let mut short = Hmac256::new(case.key);
    short.update(front);
    short.update(back);
    let mut middle = Hmac384::new(case.key);
    middle.update(front);
    middle.update(back);
    let mut long = Hmac512::new(case.key);
    long.update(front);
    long.update(back);
    Ok(
        is_hex(alloc, &short.finish(), case.code256)?
            && is_hex(alloc, &middle.finish(), case.code384)?
            && is_hex(alloc, &long.finish(), case.code512)?,
    )
}

// Each published code, with the message cut at every place.
#[test]
fn published_codes(rt: HostRuntime) -> Result<(), Fail> {
    for (i, case) in MAC_CASES.iter().enumerate() {
        for cut in 0..=case.message.len() {
            let (front, back) = case.message.split_at(cut);
            assert!(&rt;
                has_codes(rt.alloc(), case, front, back)?,
                "row {i}, cut at {cut}"
            );
        }
    }
    Ok(())
}

#[test]
fn published_keys(rt: HostRuntime) -> Result<(), Fail> {
    for (i, case) in KDF_CASES.iter().enumerate() {
        assert!(rt; case.count > 0, "row {i}");
        let mut out = [0u8; 64];
        pbkdf2_sha512(case.password, case.salt, case.count, &mut out);
        assert!(&rt; is_hex(rt.alloc(), &out, case.derived)?, "row {i}");
    }
    Ok(())
}

// Four keys: the bytes of key j begin with 32 * j, and each is one more than the one before it.
fn four_keys() -> [[u8; 32]; 4] {
    let mut keys = [[0u8; 32]; 4];
    for (j, key) in keys.iter_mut().enumerate() {
        for (i, byte) in key.iter_mut().enumerate() {
            *byte = ((32 * (j % 4) + i % 32) % 256) as u8;
        }
    }
    keys
}

// Four messages: byte i of message j is (7 * i + 64 * j) mod 256.
fn four_messages() -> [[u8; 464]; 4] {
    let mut messages = [[0u8; 464]; 4];
    for (j, message) in messages.iter_mut().enumerate() {
        for (i, byte) in message.iter_mut().enumerate() {
            *byte = ((7 * (i % 256) + 64 * (j % 4)) % 256) as u8;
        }
    }
    messages
}

// Whether four codes have these digits.
fn are_hex<const N: usize>(
    alloc: Global,
    codes: &[[u8; N]; 4],
    texts: &[&str; 4],
) -> Result<bool, Fail> {
    Ok(
        is_hex(alloc, &codes[0], texts[0])?
            && is_hex(alloc, &codes[1], texts[1])?
            && is_hex(alloc, &codes[2], texts[2])?
            && is_hex(alloc, &codes[3], texts[3])?,
    )
}

// Whether four messages have the codes of a row.
fn have_codes(alloc: Global, case: &FourCase) -> Result<bool, Fail>
    requires { case.now.length ≤ 464 }
{
    let keys = four_keys();
    let whole = four_messages();
    let messages = [
        &whole[0][..case.length],
        &whole[1][..case.length],
        &whole[2][..case.length],
        &whole[3][..case.length],
    ];
    let middle = codes_of_four_384(&keys, messages);
    let long = codes_of_four_512(&keys, messages);
    Ok(are_hex(alloc, &middle, &case.codes384)? && are_hex(alloc, &long, &case.codes512)?)
}

#[test]
fn codes_side_by_side(rt: HostRuntime) -> Result<(), Fail> {
    for case in &FOUR_CASES {
        let length = case.length;
        assert!(&rt; length <= 464, "{length} bytes");
        assert!(&rt; have_codes(rt.alloc(), case)?, "{length} bytes");
    }
    Ok(())
}

// An empty key is as one of 64 zero bytes, and one round of PBKDF2 is the code of the salt and the number of its block.
#[test]
fn equal_codes(rt: HostRuntime) {
    let message = b"what do ya want for nothing?";
    assert!(rt; Hmac512::code_of(&[], message) == Hmac512::code_of(&[0; 64], message));
    let mut out = [0u8; 64];
    pbkdf2_sha512(b"password", b"salt", 1, &mut out);
    assert!(rt; out == Hmac512::code_of(b"password", b"salt\0\0\0\x01"));
}
