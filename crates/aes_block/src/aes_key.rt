//! An AES key and its operations on blocks.

ghost use Rattle.std.specs.Prelude.{◌≡◌, ◌↔◌, ◌+◌, ◌*◌, ◌%◌, length, IsSome, IfSome};
ghost use Rattle.aes_block.specs.Blocks.{cipher_blocks, inverse_cipher_blocks};
ghost use Rattle.aes_block.specs.Key.{IsKeyLength};
ghost use Rattle.aes_block.specs.KeyExpansion.{rounds, key_schedule};
ghost use Rattle.aes_block.specs.State.{IsBytes};
ghost use Rattle.aes_block.specs.Cipher.{cipher, inverse_cipher};

use crate::blocks::block;
use crate::cipher::{cipher_with, inverse_cipher_with};
use crate::key_expansion::{MAX_SCHEDULE, expand, unmixed};
use std::marker::Model;

/// An AES key of 16 or 32 bytes, with its key schedule. Contracts treat it as the list of its bytes.
#[derive(Drop)]
pub struct AesKey {
    rounds: usize,
    schedule: [u8; MAX_SCHEDULE],
    unmixed: [u8; MAX_SCHEDULE],
}

impl Model for AesKey {
    ghost use Rattle.std.specs.Prelude.{ℕ, List};

    ghost Value = { List ℕ };

    ghost use Rattle.aes_block.specs.AesKey.{schedule_key, HoldsSchedule};

    ghost view = { schedule_key };

    ghost invariant = { HoldsSchedule };
}

impl AesKey {
    /// Returns the AES key with these bytes, or `None` unless there are 16 or 32 of them.
    pub fn new(key: &[u8]) -> Option<AesKey>
        ensures found { IsSome result ↔ IsKeyLength (length key.now) }
        ensures value { IfSome result (λ k. k ≡ key.now) }
    {
        match key.len() {
            16 | 32 => {
                let schedule = expand(key);
                Some(AesKey {
                    rounds: key.len() / 4 + 6,
                    unmixed: unmixed(&schedule),
                    schedule,
                })
            }
            _ => None,
        }
    }

    /// Returns the key schedule: 11 round keys (key of 16 bytes) or 15 (32 bytes), stored consecutively, 16 bytes
    /// each.
    pub fn schedule(&self) -> &[u8]
        ensures value { result.now ≡ key_schedule self.now }
        ensures len { length result.now ≡ 16 * rounds self.now + 16 }
        ensures key { IsKeyLength (length self.now) × IsBytes self.now }
    {
        &self.schedule[..16 * (self.rounds + 1)]
    }

    /// Encrypts a block.
    pub fn encrypt(&self, block: &[u8; 16]) -> [u8; 16]
        ensures value { result ≡ cipher self.now block.now }
        ensures inverse { inverse_cipher self.now result ≡ block.now }
    {
        cipher_with(self.rounds, &self.schedule[..16 * (self.rounds + 1)], block)
    }

    /// Decrypts a block.
    pub fn decrypt(&self, block: &[u8; 16]) -> [u8; 16]
        ensures value { result ≡ inverse_cipher self.now block.now }
        ensures inverse { cipher self.now result ≡ block.now }
    {
        let len = 16 * (self.rounds + 1);
        inverse_cipher_with(self.rounds, &self.schedule[..len], &self.unmixed, block)
    }

    /// Encrypts each block of `bytes` in place, independently of the others (ECB). The length must be a multiple of
    /// 16.
    pub fn encrypt_blocks(&self, bytes: &mut [u8])
        requires { length bytes.old % 16 ≡ 0 }
        ensures value { bytes.new ≡ cipher_blocks self.now bytes.old }
        ensures inverse { inverse_cipher_blocks self.now bytes.new ≡ bytes.old }
    {
        for j in 0..bytes.len() / 16 {
            let ciphertext = self.encrypt(&block(bytes, j));
            bytes[16 * j..16 * j + 16].copy_from_slice(&ciphertext);
        }
    }

    /// Decrypts each block of `bytes` in place, independently of the others (ECB). The length must be a multiple of
    /// 16.
    pub fn decrypt_blocks(&self, bytes: &mut [u8])
        requires { length bytes.old % 16 ≡ 0 }
        ensures value { bytes.new ≡ inverse_cipher_blocks self.now bytes.old }
        ensures inverse { cipher_blocks self.now bytes.new ≡ bytes.old }
    {
        for j in 0..bytes.len() / 16 {
            let plaintext = self.decrypt(&block(bytes, j));
            bytes[16 * j..16 * j + 16].copy_from_slice(&plaintext);
        }
    }
}
