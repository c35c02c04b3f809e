//! The parity of a `verity` line: what it covers, and where it is.
ghost use Rattle.std.specs.Prelude.{◌≡◌, ◌≤◌, ◌<◌, ◌^◌};
ghost use Rattle.dm_table.specs.Grammar.{IsParityOfGrammar, IsVerityOfGrammar};
ghost use Rattle.stack_rules.specs.Trees.{covered_sectors, mend_sectors, parity_sectors, round_count};
ghost use Rattle.stack_rules.specs.targets.Verity.{is_unprotected_by};

use crate::tree::{block_sectors, path_blocks, tree_size};
use dm_table::{Parity, Verity};

/// Returns the number of rounds. A round has one block at each position of a message.
pub fn round_count(parity: &Parity) -> u64
    requires { IsParityOfGrammar parity.now }
    ensures value { result ≡ round_count parity.now }
    ensures few { result ≤ parity.now.blocks }
{
    parity.blocks.div_ceil(u64::from(255 - parity.roots))
}

/// Returns the number of sectors of the hash device up to the end of the covered blocks.
pub fn covered_sectors(verity: &Verity, parity: &Parity) -> u128
    ensures { result ≡ covered_sectors verity.now parity.now }
{
    let behind_data = parity.blocks.saturating_sub(verity.blocks);
    let end = u128::from(verity.start) + u128::from(behind_data);
    end * u128::from(block_sectors(verity))
}

/// Returns the number of sectors of the parity device up to the end of the parity.
pub fn parity_sectors(verity: &Verity, parity: &Parity) -> u128
    requires { IsParityOfGrammar parity.now }
    ensures { result ≡ parity_sectors verity.now parity.now }
{
    let blocks = u128::from(round_count(parity)) * u128::from(parity.roots);
    let end = u128::from(parity.start) + blocks;
    end * u128::from(block_sectors(verity))
}

/// Returns the largest number of sectors read to restore a block: the block itself once more; the other blocks of its round and their
/// parity, twice; and the paths to the other blocks.
pub fn mend_sectors(verity: &Verity) -> u64
    requires { IsVerityOfGrammar verity.now }
    ensures value { result ≡ mend_sectors verity.now }
    ensures few { result < 2 ^ 32 }
{
    let spare = 254 * (path_blocks(verity) + 2);
    (spare + 1) * u64::from(block_sectors(verity))
}

/// Returns whether the line has parity that doesn't cover all data and hash blocks, or parity and blocks of two sizes.
pub fn is_unprotected(verity: &Verity) -> bool
    requires { IsVerityOfGrammar verity.now }
    ensures { result ≡ is_unprotected_by verity.now verity.now.parity }
{
    match &verity.parity {
        Some(parity) => {
            let blocks = u128::from(verity.blocks) + u128::from(tree_size(verity).blocks);
            verity.data_block != verity.hash_block || u128::from(parity.blocks) < blocks
        }
        None => false,
    }
}
