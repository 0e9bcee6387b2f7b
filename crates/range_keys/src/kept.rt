//! The range keys that a ring keeps.

ghost use Rattle.std.specs.Prelude.{◌≡◌, IsTrue, IsSome, IfSome, Some, slice_get};
ghost use Rattle.std.specs.Bool.{OnTrue, OnFalse};
ghost use Rattle.std.specs.Map.{keys_of};
ghost use Rattle.eli_base.specs.Algorithms.{allows_length};
ghost use Rattle.range_keys.specs.Numbers.{AfterUse, room};
ghost use Rattle.range_keys.specs.Kept.{AreKept, RemakesFront, expanded_key};

use crate::derivation::range_key;
use crate::expanded::{RangeKey, expanded};
use eli_base::Cipher;
use lru::LruCache;

/// Range keys by their number.
#[derive(Drop)]
pub struct KeptKeys {
    // Where it is full, a new key is written over the one that it pushes out.
    pub cache: LruCache<u64, RangeKey>,
    // The last key that there was no memory to keep, from which it is lent.
    pub unkept: Option<RangeKey>,
}

impl KeptKeys {
    /// Brings the key of this number to the front of those that are kept, and makes it if it isn't among them. It
    /// returns whether the key is kept now; if there is no memory for it, it is the one that isn't (`unkept`).
    pub fn bring(&mut self, cipher: Cipher, keylen: u16, base: &[u8; 64], number: u64) -> bool
        requires allowed { IsTrue (allows_length cipher keylen) }
        requires keys { AreKept cipher keylen base.now self.old.cache }
        ensures keys { AreKept cipher keylen base.now self.new.cache }
        ensures numbers { AfterUse number (keys_of self.old.cache.entries) (keys_of self.new.cache.entries) }
        ensures front { OnTrue result (slice_get self.new.cache.entries 0 ≡ Some (number, expanded_key cipher keylen base.now number)) }
        ensures unkept { OnFalse result (self.new.unkept ≡ Some (expanded_key cipher keylen base.now number)) }
    {
        if self.cache.promote(&number) {
            return true;
        }
        let key = expanded(cipher, keylen, &range_key(base, number));
        match self.cache.put(number, key) {
            Ok(_) => true,
            Err(refused) => {
                let (_, key) = refused.value;
                self.unkept = Some(key);
                false
            }
        }
    }

    /// Makes each key that stands here that of its number under another base, so that nothing is left of what it was.
    /// The one that isn't kept becomes that of number 0. Each is overwritten where it stands.
    pub fn rekey(&mut self, cipher: Cipher, keylen: u16, base: &[u8; 64])
        requires allowed { IsTrue (allows_length cipher keylen) }
        requires room { self.old.cache.cap ≡ room }
        ensures keys { AreKept cipher keylen base.now self.new.cache }
        ensures numbers { keys_of self.new.cache.entries ≡ keys_of self.old.cache.entries }
        ensures unkept { IfSome self.new.unkept (λ key. key ≡ expanded_key cipher keylen base.now 0) }
    {
        self.rekey_unkept(cipher, keylen, base);
        for _place in 0..self.cache.len() {
            self.rekey_first(cipher, keylen, base);
        }
    }

    // Makes the key that isn't kept that of number 0 under another base.
    fn rekey_unkept(&mut self, cipher: Cipher, keylen: u16, base: &[u8; 64])
        requires allowed { IsTrue (allows_length cipher keylen) }
        ensures unkept { IfSome self.new.unkept (λ key. key ≡ expanded_key cipher keylen base.now 0) }
        ensures cache { self.new.cache ≡ self.old.cache }
    {
        if let Some(key) = &mut self.unkept {
            *key = expanded(cipher, keylen, &range_key(base, 0));
        }
    }

    // Makes the key in front that of its number under another base, and puts it last.
    fn rekey_first(&mut self, cipher: Cipher, keylen: u16, base: &[u8; 64])
        requires allowed { IsTrue (allows_length cipher keylen) }
        ensures remade { RemakesFront cipher keylen base.now self.old.cache self.new.cache }
        ensures unkept { self.new.unkept ≡ self.old.unkept }
    {
        let Some((number, _)) = self.cache.peek_mru() else {
            return;
        };
        let number = *number;
        if let Some(key) = self.cache.peek_mut(&number) {
            *key = expanded(cipher, keylen, &range_key(base, number));
        }
        self.cache.demote(&number);
    }

    /// Lends the key in front of those that are kept, or the one that isn't.
    pub fn lent(&self, is_kept: bool) -> &RangeKey
        requires kept { OnTrue is_kept (IsSome (slice_get self.now.cache.entries 0)) }
        requires unkept { OnFalse is_kept (IsSome self.now.unkept) }
        ensures kept { OnTrue is_kept (IfSome (slice_get self.now.cache.entries 0) (λ e. result.now ≡ e.1)) }
        ensures unkept { OnFalse is_kept (self.now.unkept ≡ Some result.now) }
    {
        if is_kept {
            match self.cache.peek_mru() {
                Some((_, key)) => key,
                None => unreachable!(),
            }
        } else {
            match &self.unkept {
                Some(key) => key,
                None => unreachable!(),
            }
        }
    }
}
