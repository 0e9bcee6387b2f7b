//! What holds of digests, codes and derived keys, whatever they are made of.

ghost use Rattle.std.specs.Prelude.{ℕ, List};
ghost use Rattle.sha2.specs.Sha256.{sha256};
ghost use Rattle.sha2.specs.Sha512.{sha384, sha512};
ghost use Rattle.hmac_kdf.specs.Bytes.{AreSoManyBytes};
ghost use Rattle.hmac_kdf.specs.Hmac.{hmac256, hmac384, hmac512};
ghost use Rattle.hmac_kdf.specs.Pbkdf2.{pbkdf2};

/// A law: a digest has the length of its hash (FIPS 180-4, figure 1), and each of its numbers is a byte.
pub fn digests_are_bytes()
    ensures sha256 { (message : List ℕ) → AreSoManyBytes 32 (sha256 message) }
    ensures sha384 { (message : List ℕ) → AreSoManyBytes 48 (sha384 message) }
    ensures sha512 { (message : List ℕ) → AreSoManyBytes 64 (sha512 message) }
{}

/// A law: an HMAC code is as long as a digest of its hash and each of its numbers is a byte, whatever key and message.
pub fn codes_are_bytes()
    ensures hmac256 { (key message : List ℕ) → AreSoManyBytes 32 (hmac256 key message) }
    ensures hmac384 { (key message : List ℕ) → AreSoManyBytes 48 (hmac384 key message) }
    ensures hmac512 { (key message : List ℕ) → AreSoManyBytes 64 (hmac512 key message) }
{}

/// A law: PBKDF2 derives 64 bytes, from every password, salt and count.
pub fn derived_keys_are_bytes()
    ensures { (password salt : List ℕ) (count : ℕ) → AreSoManyBytes 64 (pbkdf2 password salt count) }
{}
