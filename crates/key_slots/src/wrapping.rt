//! A master key wrapped by a user key.
ghost use Rattle.std.specs.Prelude.{◌≡◌, ◌+◌, ◌≤◌, [], ◌∷◌, ◌++◌, length, take};
ghost use Rattle.key_slots.specs.Slots.{IsKeyBits, check_code, slot_text, wrapping_key, wrapped, IsSlotOf};

use aes_core::Schedule;
use cbc_mode::cbc_seal;
use eli_base::MasterKey;
use eli_metadata::put;
use hmac_kdf::Hmac512;
use user_key::UserKey;

/// The length of a slot in bytes.
pub const SLOT_SIZE: usize = 192;

/// The initialization vector with which every slot is enciphered.
pub const ZERO_VECTOR: [u8; 16] = [0; 16];

// The messages from which a user key's two keys are made.
const CHECK_KEY: [u8; 1] = [0x00];

const WRAPPING_KEY: [u8; 1] = [0x01];

/// The code after a master key, which proves that it was wrapped by this user key.
pub fn check_code(key: &UserKey, master: &[u8]) -> [u8; 64]
    ensures { result ≡ check_code key.now.bytes master.now }
{
    Hmac512::code_of(&Hmac512::code_of(&key.bytes, &CHECK_KEY), master)
}

/// The key schedule under which a slot's text is enciphered, for a key of `keylen` bits.
pub fn wrapping_schedule(key: &UserKey, keylen: u16) -> Schedule
    requires { IsKeyBits keylen }
    ensures { result ≡ wrapping_key key.now.bytes keylen }
{
    let code = Hmac512::code_of(&key.bytes, &WRAPPING_KEY);
    Schedule::new(&code[..usize::from(keylen) / 8]).unwrap()
}

// The plaintext of a slot: the master key and its code.
fn text_of(master: &MasterKey, key: &UserKey) -> [u8; SLOT_SIZE]
    ensures { result ≡ slot_text key.now.bytes master.now.bytes }
{
    let mut text = [0u8; SLOT_SIZE];
    put(&mut text, 0, &master.bytes);
    put(&mut text, 128, &check_code(key, &master.bytes));
    text
}

/// The bytes of a slot: the master key and its code, enciphered by AES-CBC with a key of `keylen` bits that is made
/// from the user key.
///
/// The slot deciphers to the master key and its code again.
pub fn wrap(master: &MasterKey, key: &UserKey, keylen: u16) -> [u8; 192]
    requires { IsKeyBits keylen }
    ensures wrapped { result ≡ wrapped master.now.bytes key.now.bytes keylen }
    ensures slot { IsSlotOf result key.now.bytes keylen master.now.bytes }
{
    let mut slot = text_of(master, key);
    cbc_seal(&wrapping_schedule(key, keylen), &ZERO_VECTOR, &mut slot);
    slot
}
