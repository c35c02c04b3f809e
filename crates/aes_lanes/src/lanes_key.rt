//! An AES key that processes many blocks at once.

ghost use Rattle.std.specs.Prelude.{◌≡◌, ◌↔◌, ◌%◌, length, IsSome, IfSome};
ghost use Rattle.aes_block.specs.Blocks.{cipher_blocks, inverse_cipher_blocks};
ghost use Rattle.aes_block.specs.Key.{IsKeyLength};

use crate::blocks::{decrypt_blocks, encrypt_blocks};
use crate::keys::{KeyPlanes, MAX_KEYS, planes_of_key};
use aes_block::AesKey;
use std::marker::Model;

/// An AES key with its round keys stored as planes. Contracts treat it as the list of the key's bytes.
#[derive(Drop)]
pub struct LanesKey {
    key: AesKey,
    planes: [KeyPlanes; MAX_KEYS],
}

impl Model for LanesKey {
    ghost use Rattle.std.specs.Prelude.{ℕ, List};

    ghost Value = { List ℕ };

    ghost use Rattle.aes_lanes.specs.LanesKey.{key_of_lanes, HoldsPlanes};

    ghost view = { key_of_lanes };

    ghost invariant = { HoldsPlanes };
}

impl LanesKey {
    /// Returns the key with these bytes, or `None` unless there are 16 or 32 of them.
    pub fn new(key: &[u8]) -> Option<LanesKey>
        ensures found { IsSome result ↔ IsKeyLength (length key.now) }
        ensures value { IfSome result (λ k. k ≡ key.now) }
    {
        let key = AesKey::new(key)?;
        let planes = planes_of_key(&key);
        Some(LanesKey { key, planes })
    }

    /// Encrypts each 16-byte block in place, independently of the others (ECB). The length must be a multiple of 16.
    pub fn encrypt_blocks(&self, blocks: &mut [u8])
        requires { length blocks.old % 16 ≡ 0 }
        ensures value { blocks.new ≡ cipher_blocks self.now blocks.old }
        ensures inverse { inverse_cipher_blocks self.now blocks.new ≡ blocks.old }
    {
        encrypt_blocks(&self.key, &self.planes, blocks);
    }

    /// Decrypts each 16-byte block in place, independently of the others (ECB). The length must be a multiple of 16.
    pub fn decrypt_blocks(&self, blocks: &mut [u8])
        requires { length blocks.old % 16 ≡ 0 }
        ensures value { blocks.new ≡ inverse_cipher_blocks self.now blocks.old }
        ensures inverse { cipher_blocks self.now blocks.new ≡ blocks.old }
    {
        decrypt_blocks(&self.key, &self.planes, blocks);
    }
}
