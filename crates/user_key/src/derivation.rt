//! The user key that components make.
ghost use Rattle.std.specs.Prelude.{◌≡◌, ℕ, List, [], ◌++◌};
ghost use Rattle.std.specs.Result.{result_err};
ghost use Rattle.hmac_kdf.specs.Hmac.{hmac512};
ghost use Rattle.user_key.specs.Derivation.{user_key};

use crate::components::{Components, KeyFault, PassPart, UserKey};
use hmac_kdf::{Hmac512, pbkdf2_sha512};

// The user key of these bytes: HMAC-SHA-512, with an empty key, of the three one after the other.
fn key_of(keyfiles: &[u8], front: &[u8], back: &[u8]) -> UserKey
    ensures { result.bytes ≡ hmac512 [] (keyfiles.now ++ front.now ++ back.now) }
{
    let mut hasher = Hmac512::new(&[]);
    hasher.update(keyfiles);
    hasher.update(front);
    hasher.update(back);
    UserKey {
        bytes: hasher.finish(),
    }
}

/// Why these components make no user key under these iterations, whatever the salt is.
///
/// Iterations below 0 say that no passphrase was set up, 0 that it is salted and not stretched. Components are refused,
/// in this order: as `PassphraseNotSet` if the iterations are below 0 and the passphrase isn't `Without`; as
/// `PassphraseNeeded` if it is `Missing`; as `NoKeyComponents` if it is `Without` and there is no key file.
pub fn refusal(parts: &Components, iterations: i32) -> Option<KeyFault>
    ensures { (salt : List ℕ) → result ≡ result_err (user_key parts.now salt iterations) }
{
    match &parts.passphrase {
        PassPart::Without if parts.keyfile_count == 0 => Some(KeyFault::NoKeyComponents),
        PassPart::Without => None,
        _ if iterations < 0 => Some(KeyFault::PassphraseNotSet),
        PassPart::Missing => Some(KeyFault::PassphraseNeeded),
        PassPart::Given(_) => None,
    }
}

/// The user key of 64 bytes that these components make under the salt and the iterations of a provider's metadata, or
/// the fault that `refusal` reports for them.
pub fn derive(parts: &Components, salt: &[u8; 64], iterations: i32) -> Result<UserKey, KeyFault>
    ensures { result ≡ user_key parts.now salt.now iterations }
{
    let keyfiles = parts.keyfiles.as_slice();
    match (refusal(parts, iterations), &parts.passphrase) {
        (Some(fault), _) => Err(fault),
        (None, PassPart::Given(passphrase)) if iterations == 0 => {
            Ok(key_of(keyfiles, salt, passphrase.as_slice()))
        }
        (None, PassPart::Given(passphrase)) => {
            let mut stretched = [0u8; 64];
            pbkdf2_sha512(
                passphrase.as_slice(),
                salt,
                iterations.unsigned_abs(),
                &mut stretched,
            );
            Ok(key_of(keyfiles, &stretched, &[]))
        }
        (None, _) => Ok(key_of(keyfiles, &[], &[])),
    }
}
