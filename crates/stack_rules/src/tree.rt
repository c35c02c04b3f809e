//! The data blocks of a `verity` line and the hash tree over them, of any size that its arguments give.
ghost use Rattle.std.specs.Prelude.{◌≡◌, ◌≤◌, ◌<◌, ◌^◌, option_copied};
ghost use Rattle.dm_table.specs.Grammar.{IsVerityOfGrammar};
ghost use Rattle.tree_shape.specs.Shape.{levels, area_blocks};
ghost use Rattle.stack_rules.specs.Trees.{tree_of, line_data_sectors, line_tree_sectors, block_sectors, path_blocks, path_sectors, verity_of};

use dm_table::{Target, Verity};

/// Returns the arguments of a `verity` line, or `None` for another target.
pub fn verity_of(target: &Target) -> Option<&Verity>
    ensures { option_copied result ≡ verity_of target.now }
{
    match target {
        Target::Verity(verity) => Some(verity),
        _ => None,
    }
}

/// The number of levels of a tree, and of its hash blocks.
#[derive(Clone, Copy)]
pub(crate) struct TreeSize {
    levels: u64,
    pub(crate) blocks: u64,
}

// A `Shape` has at most 2^54 sectors, but a line is checked before the devices that it names, so its tree may be
// larger. This function counts levels and blocks without a `Shape`.
pub(crate) fn tree_size(verity: &Verity) -> TreeSize
    requires { IsVerityOfGrammar verity.now }
    ensures levels { result.levels ≡ levels (tree_of verity.now) }
    ensures blocks { result.blocks ≡ area_blocks (tree_of verity.now) }
    ensures few { result.levels ≤ 16 }
{
    let per_block = u64::from(verity.hash_block / 32);
    let mut count = verity.blocks;
    let mut levels = 0;
    let mut blocks = 0;
    while count > 1 {
        count = (count - 1) / per_block + 1;
        levels += 1;
        blocks += count;
    }
    TreeSize { levels, blocks }
}

/// Returns the number of sectors of all data blocks.
pub fn data_sectors(verity: &Verity) -> u128
    ensures { result ≡ line_data_sectors verity.now }
{
    u128::from(verity.blocks) * u128::from(verity.data_block / 512)
}

/// Returns the number of sectors up to the end of the tree, or 0 if the tree has no block.
pub fn tree_sectors(verity: &Verity) -> u128
    requires { IsVerityOfGrammar verity.now }
    ensures { result ≡ line_tree_sectors verity.now }
{
    let blocks = tree_size(verity).blocks;
    if blocks == 0 {
        return 0;
    }
    let end = u128::from(verity.start) + u128::from(blocks);
    end * u128::from(verity.hash_block / 512)
}

/// Returns the number of sectors of a data block.
pub fn block_sectors(verity: &Verity) -> u32
    ensures { result ≡ block_sectors verity.now }
{
    verity.data_block / 512
}

/// Returns the number of sectors of one hash block of each level.
pub fn path_sectors(verity: &Verity) -> u64
    requires { IsVerityOfGrammar verity.now }
    ensures value { result ≡ path_sectors verity.now }
    ensures few { result < 2 ^ 32 }
{
    tree_size(verity).levels * u64::from(verity.hash_block / 512)
}

/// Returns how many blocks are verified for a sector: a hash block of each level, and the data block.
pub fn path_blocks(verity: &Verity) -> u64
    requires { IsVerityOfGrammar verity.now }
    ensures value { result ≡ path_blocks verity.now }
    ensures few { result ≤ 17 }
{
    tree_size(verity).levels + 1
}
