//! An XTS-AES key.

ghost use Rattle.std.specs.Prelude.{◌≡◌, ◌≢◌, ◌↔◌, ℕ, ◌-◌, ◌*◌, ◌%◌, ◌<◌, length, IsSome, IfSome};
ghost use Rattle.xts_sector.specs.FirstTweaks.{HoldTweaks};
ghost use Rattle.xts_sector.specs.Xts.{IsXtsKeyLength, tweak, encrypted, decrypted};
ghost use Rattle.xts_sector.specs.Units.{encrypted_numbered, decrypted_numbered};

use crate::decryption::decrypt_blocks;
use crate::encryption::encrypt_blocks;
use crate::first_tweaks::{AT_ONCE, FirstTweaks, first_tweak, make_first_tweaks, tweak_at};
use crate::tweak::Block;
use aes_lanes::LanesKey;
use std::marker::Model;

/// An XTS-AES key of 32 or 64 bytes: an AES key for the data followed by one for the tweak. Contracts treat it as the
/// list of its bytes.
#[derive(Drop)]
pub struct XtsKey {
    data_key: LanesKey,
    tweak_key: LanesKey,
}

impl Model for XtsKey {
    ghost use Rattle.std.specs.Prelude.{ℕ, List};

    ghost Value = { List ℕ };

    ghost use Rattle.xts_sector.specs.XtsKey.{two_keys, HoldsKeys};

    ghost view = { two_keys };

    ghost invariant = { HoldsKeys };
}

impl XtsKey {
    /// Returns the key with these bytes, or `None` unless there are 32 or 64 of them.
    pub fn new(key: &[u8]) -> Option<XtsKey>
        ensures found { IsSome result ↔ IsXtsKeyLength (length key.now) }
        ensures value { IfSome result (λ k. k ≡ key.now) }
    {
        let (data_key, tweak_key) = key.split_at(key.len() / 2);
        Some(XtsKey {
            data_key: LanesKey::new(data_key)?,
            tweak_key: LanesKey::new(tweak_key)?,
        })
    }

    /// Encrypts unit `number` in place. Its length must be a multiple of 16; an empty unit is unchanged.
    pub fn encrypt(&self, number: u64, unit: &mut [u8])
        requires { length unit.old % 16 ≡ 0 }
        ensures value { unit.new ≡ encrypted self.now number unit.old }
        ensures inverse { decrypted self.now number unit.new ≡ unit.old }
    {
        let first = first_tweak(&self.tweak_key, number);
        encrypt_blocks(&self.data_key, &first, unit);
    }

    /// Decrypts unit `number` in place. Its length must be a multiple of 16; an empty unit is unchanged.
    pub fn decrypt(&self, number: u64, unit: &mut [u8])
        requires { length unit.old % 16 ≡ 0 }
        ensures value { unit.new ≡ decrypted self.now number unit.old }
        ensures inverse { encrypted self.now number unit.new ≡ unit.old }
    {
        let first = first_tweak(&self.tweak_key, number);
        decrypt_blocks(&self.data_key, &first, unit);
    }

    /// Encrypts consecutive units of `size` bytes in place, unit i with `numbers[i]`. `size` must be a multiple of
    /// 16.
    pub fn encrypt_units(&self, numbers: &[u64], size: usize, units: &mut [u8])
        requires size { size % 16 ≡ 0 }
        requires whole { length units.old ≡ size * length numbers.now }
        ensures value { units.new ≡ encrypted_numbered self.now numbers.now size units.old }
        ensures inverse { decrypted_numbered self.now numbers.now size units.new ≡ units.old }
    {
        let mut tweaks = [0; 256];
        for i in 0..numbers.len() {
            self.make_ready(numbers, i, &mut tweaks);
            let first = tweak_at(&tweaks, i % AT_ONCE);
            self.encrypt_from(&first, &mut units[size * i..size * i + size]);
        }
    }

    /// Decrypts consecutive units of `size` bytes in place, unit i with `numbers[i]`. `size` must be a multiple of
    /// 16.
    pub fn decrypt_units(&self, numbers: &[u64], size: usize, units: &mut [u8])
        requires size { size % 16 ≡ 0 }
        requires whole { length units.old ≡ size * length numbers.now }
        ensures value { units.new ≡ decrypted_numbered self.now numbers.now size units.old }
        ensures inverse { encrypted_numbered self.now numbers.now size units.new ≡ units.old }
    {
        let mut tweaks = [0; 256];
        for i in 0..numbers.len() {
            self.make_ready(numbers, i, &mut tweaks);
            let first = tweak_at(&tweaks, i % AT_ONCE);
            self.decrypt_from(&first, &mut units[size * i..size * i + size]);
        }
    }

    /// Computes the first tweaks of the next sixteen units if unit `i` is the first of such a group.
    fn make_ready(&self, numbers: &[u64], i: usize, tweaks: &mut FirstTweaks)
        requires { i < length numbers.now }
        ensures { (i % 16 ≢ 0 → HoldTweaks self.now numbers.now (i - 1) tweaks.old) → HoldTweaks self.now numbers.now i tweaks.new }
    {
        if i % AT_ONCE == 0 {
            let end = numbers.len().min(i + AT_ONCE);
            make_first_tweaks(&self.tweak_key, &numbers[i..end], tweaks);
        }
    }

    /// Encrypts a unit in place. `first` is the tweak of its first block.
    fn encrypt_from(&self, first: &Block, unit: &mut [u8])
        requires { length unit.old % 16 ≡ 0 }
        ensures value { (n : ℕ) → first.now ≡ tweak self.now n 0 → unit.new ≡ encrypted self.now n unit.old }
        ensures inverse { (n : ℕ) → first.now ≡ tweak self.now n 0 → decrypted self.now n unit.new ≡ unit.old }
    {
        encrypt_blocks(&self.data_key, first, unit);
    }

    /// Decrypts a unit in place. `first` is the tweak of its first block.
    fn decrypt_from(&self, first: &Block, unit: &mut [u8])
        requires { length unit.old % 16 ≡ 0 }
        ensures value { (n : ℕ) → first.now ≡ tweak self.now n 0 → unit.new ≡ decrypted self.now n unit.old }
        ensures inverse { (n : ℕ) → first.now ≡ tweak self.now n 0 → encrypted self.now n unit.new ≡ unit.old }
    {
        decrypt_blocks(&self.data_key, first, unit);
    }
}
