//! Encryption of a unit with one AES key (IEEE 1619-2007, 5.3).

ghost use Rattle.std.specs.Prelude.{◌≡◌, ℕ, ◌/◌, ◌%◌, ◌<◌, ◌≤◌, length};
ghost use Rattle.aes_block.specs.Blocks.{block};
ghost use Rattle.xts_sector.specs.Tweak.{times_alpha_power};
ghost use Rattle.xts_sector.specs.Xts.{encrypted_block, decrypted_block, encrypted_blocks, decrypted_blocks};

use crate::masks::{Masks, PART, add_masks, make_masks};
use crate::tweak::Block;
use aes_lanes::LanesKey;

/// Encrypts at most 32 blocks. Mask j is the tweak of block j.
fn encrypt_part(key: &LanesKey, masks: &Masks, blocks: &mut [u8])
    requires { (length blocks.old % 16 ≡ 0) × (length blocks.old ≤ PART) }
    ensures value { blocks.new ≡ encrypted_blocks key.now (block masks.now) blocks.old }
    ensures inverse { (j : ℕ) → j < length blocks.old / 16 → decrypted_block key.now (block masks.now j) (encrypted_block key.now (block masks.now j) (block blocks.old j)) ≡ block blocks.old j }
{
    let masks = &masks[..blocks.len()];
    add_masks(blocks, masks);
    key.encrypt_blocks(blocks);
    add_masks(blocks, masks);
}

/// Encrypts a unit of whole blocks in place. `first` is the tweak of its first block.
pub fn encrypt_blocks(key: &LanesKey, first: &Block, unit: &mut [u8])
    requires { length unit.old % 16 ≡ 0 }
    ensures value { unit.new ≡ encrypted_blocks key.now (λ j. times_alpha_power j first.now) unit.old }
    ensures inverse { decrypted_blocks key.now (λ j. times_alpha_power j first.now) unit.new ≡ unit.old }
{
    let mut masks = [0; PART];
    for i in 0..unit.len().div_ceil(PART) {
        make_masks(first, i, &mut masks);
        let end = unit.len().min(PART * i + PART);
        encrypt_part(key, &masks, &mut unit[PART * i..end]);
    }
}
