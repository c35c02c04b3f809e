//! Encryption and decryption of any number of blocks, sixteen at a time.

ghost use Rattle.std.specs.Prelude.{◌≡◌, ◌%◌, length};
ghost use Rattle.aes_block.specs.Blocks.{cipher_blocks, inverse_cipher_blocks};
ghost use Rattle.aes_block.specs.KeyExpansion.{rounds, key_schedule};
ghost use Rattle.aes_lanes.specs.Keys.{HoldKeys};

use crate::cipher::{decrypt_sixteen, encrypt_sixteen};
use crate::keys::{KeyPlanes, MAX_KEYS};
use aes_block::AesKey;

/// Encrypts each block in place: sixteen at a time, then the remaining blocks one by one.
pub(crate) fn encrypt_blocks(key: &AesKey, keys: &[KeyPlanes; MAX_KEYS], blocks: &mut [u8])
    requires keys { HoldKeys (rounds key.now) (key_schedule key.now) keys.now }
    requires whole { length blocks.old % 16 ≡ 0 }
    ensures value { blocks.new ≡ cipher_blocks key.now blocks.old }
    ensures inverse { inverse_cipher_blocks key.now blocks.new ≡ blocks.old }
{
    let schedule = key.schedule();
    let last = schedule.len() / 16 - 1;
    let count = blocks.len() / 256;
    for i in 0..count {
        encrypt_sixteen(keys, last, &mut blocks[256 * i..256 * i + 256]);
    }
    key.encrypt_blocks(&mut blocks[256 * count..]);
}

/// Decrypts each block in place: sixteen at a time, then the remaining blocks one by one.
pub(crate) fn decrypt_blocks(key: &AesKey, keys: &[KeyPlanes; MAX_KEYS], blocks: &mut [u8])
    requires keys { HoldKeys (rounds key.now) (key_schedule key.now) keys.now }
    requires whole { length blocks.old % 16 ≡ 0 }
    ensures value { blocks.new ≡ inverse_cipher_blocks key.now blocks.old }
    ensures inverse { cipher_blocks key.now blocks.new ≡ blocks.old }
{
    let schedule = key.schedule();
    let last = schedule.len() / 16 - 1;
    let count = blocks.len() / 256;
    for i in 0..count {
        decrypt_sixteen(keys, last, &mut blocks[256 * i..256 * i + 256]);
    }
    key.decrypt_blocks(&mut blocks[256 * count..]);
}
