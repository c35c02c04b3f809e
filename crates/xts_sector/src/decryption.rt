//! Decryption of a unit with one AES key (IEEE 1619-2007, 5.4).

ghost use Rattle.std.specs.Prelude.{◌≡◌, ℕ, ◌/◌, ◌%◌, ◌<◌, ◌≤◌, length};
ghost use Rattle.aes_block.specs.Blocks.{block};
ghost use Rattle.xts_sector.specs.Tweak.{times_alpha_power};
ghost use Rattle.xts_sector.specs.Xts.{decrypted_block, encrypted_block, decrypted_blocks, encrypted_blocks};

use crate::masks::{Masks, PART, add_masks, make_masks};
use crate::tweak::Block;
use aes_lanes::LanesKey;

/// Decrypts at most 32 blocks. Mask j is the tweak of block j.
fn decrypt_part(key: &LanesKey, masks: &Masks, blocks: &mut [u8])
    requires { (length blocks.old % 16 ≡ 0) × (length blocks.old ≤ PART) }
    ensures value { blocks.new ≡ decrypted_blocks key.now (block masks.now) blocks.old }
    ensures inverse { (j : ℕ) → j < length blocks.old / 16 → encrypted_block key.now (block masks.now j) (decrypted_block key.now (block masks.now j) (block blocks.old j)) ≡ block blocks.old j }
{
    let masks = &masks[..blocks.len()];
    add_masks(blocks, masks);
    key.decrypt_blocks(blocks);
    add_masks(blocks, masks);
}

/// Decrypts a unit of whole blocks in place. `first` is the tweak of its first block.
pub fn decrypt_blocks(key: &LanesKey, first: &Block, unit: &mut [u8])
    requires { length unit.old % 16 ≡ 0 }
    ensures value { unit.new ≡ decrypted_blocks key.now (λ j. times_alpha_power j first.now) unit.old }
    ensures inverse { encrypted_blocks key.now (λ j. times_alpha_power j first.now) unit.new ≡ unit.old }
{
    let mut masks = [0; PART];
    for i in 0..unit.len().div_ceil(PART) {
        make_masks(first, i, &mut masks);
        let end = unit.len().min(PART * i + PART);
        decrypt_part(key, &masks, &mut unit[PART * i..end]);
    }
}
