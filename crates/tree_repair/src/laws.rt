//! Laws of repairs: each function's contract states the law, and a call of the function provides it.
ghost use Rattle.tree_repair.specs.Beyond.{WhatStaysLostIsBeyondParity};
ghost use Rattle.tree_repair.specs.CopyReads.{ReadsAreFew};
ghost use Rattle.tree_repair.specs.UnreadBlocks.{BlocksArePassedByForCause, BlocksAreTouchedForCause, GoodBlocksAreLeftAlone, IntactBlocksAreLeftAlone, UnreadBlocksAreCounted};
ghost use Rattle.tree_repair.specs.Laws.{MendedBlocksAreFormatted, MendedBlocksAreGood, NoHashBlockIsLost, OtherSectorsStay};
ghost use Rattle.tree_repair.specs.Standing.{LeftGoodBlocksAreFormatted, LeftGoodBlocksStand, LeftGoodWaysStand, RepairsWriteAll};
ghost use Rattle.tree_repair.specs.Valid.{ValidImagesAreFormatted};
ghost use Rattle.tree_repair.specs.WithinParity.{DamagedBlocksWithinParityComeBack, DataUnderWholeTreeComeBack, FormattedBlocksStay, FormattedEntriesAreZero, FormattedImagesAreFormer, LaidOutParityCoversTheTree, LostBlocksWithinParityComeBack, NoBlockStaysLostWithinParity};

use hash_tree::laws::formed_chains_are_good;

/// The bytes of a repaired block are those of every chain that verifies under the root, or two different inputs have one
/// digest.
pub fn mended_blocks_are_good()
    ensures { MendedBlocksAreGood }
{}

/// The bytes of a repaired block are those of any data whose tree has this root, or two different inputs have one digest.
pub fn mended_blocks_are_formatted()
    ensures { MendedBlocksAreFormatted }
{
    formed_chains_are_good()
}

/// If the data is intact, the devices are steady and no call failed in the visit, no hash block is lost, or two different inputs
/// have one digest.
pub fn no_hash_block_is_lost()
    ensures { NoHashBlockIsLost }
{
    formed_chains_are_good()
}

/// A sector that is in no repaired block doesn't change.
pub fn other_sectors_stay()
    ensures { OtherSectorsStay }
{}

/// A run treats at most as many blocks as corrupt because they couldn't be read as their device counts failures during the run,
/// unless the counter reaches its maximum.
pub fn unread_blocks_are_counted()
    ensures { UnreadBlocksAreCounted }
{}

/// Each other block of a run was valid and left alone, or was corrupt when its turn came.
pub fn blocks_are_touched_for_cause()
    ensures { BlocksAreTouchedForCause }
{}

/// A block that all data whose tree has this root have in this form is left alone, unless it couldn't be read when its turn
/// came, or two different inputs have one digest.
pub fn intact_blocks_are_left_alone()
    ensures { IntactBlocksAreLeftAlone }
{
    formed_chains_are_good()
}

/// If a block's device counts no failure during the run, the block is touched only if it was corrupt when its turn came.
pub fn good_blocks_are_left_alone()
    ensures { GoodBlocksAreLeftAlone }
{}

/// If the hash device counts no failure, a block is skipped only if a hash block above it was corrupt.
pub fn blocks_are_passed_by_for_cause()
    ensures { BlocksArePassedByForCause }
{}

/// A repair that succeeds, on steady writable devices, has written all blocks that it visited and found corrupt.
pub fn repairs_write_all()
    ensures { RepairsWriteAll }
{}

/// After such a run a block that a visit left valid is valid on its device.
pub fn left_good_blocks_stand()
    ensures { LeftGoodBlocksStand }
{}

/// Its bytes are those of all data whose tree has this root, or two different inputs have one digest.
pub fn left_good_blocks_are_formatted()
    ensures { LeftGoodBlocksAreFormatted }
{
    formed_chains_are_good()
}

/// If a data block and all hash blocks above it were left valid, each has the digest that its parent stores, or two different
/// inputs have one digest.
pub fn left_good_ways_stand()
    ensures { LeftGoodWaysStand }
{}

/// An image whose blocks are all valid stores any data whose tree has this root, and that tree, or two different inputs have one
/// digest.
pub fn valid_images_are_formatted()
    ensures { ValidImagesAreFormatted }
{
    formed_chains_are_good()
}

/// With parity, if no device counted a failure, for each block of the tree one of these holds: it was valid or found when the last
/// pass came to it; parity restored it; a hash block above it is corrupt; parity doesn't cover it or can't restore it.
pub fn what_stays_lost_is_beyond_parity()
    ensures { WhatStaysLostIsBeyondParity }
{}

/// With the parity of the formatted image, on steady devices, if no device counted a failure, for each block of the tree one of
/// these holds: it was valid or found when the last pass came to it; parity restored it; a hash block above it is corrupt; parity
/// doesn't cover it; the parity is incomplete; more blocks of its round are lost than the code has roots; a block of its round
/// that the pass didn't come to is damaged; two different inputs have one digest.
pub fn lost_blocks_within_parity_come_back()
    ensures { LostBlocksWithinParityComeBack }
{
    formed_chains_are_good()
}

/// On steady devices, if neither counted a failure, a covered block that is as formatted stays so in a run, or two different
/// inputs have one digest.
pub fn formatted_blocks_stay()
    ensures { FormattedBlocksStay }
{
    formed_chains_are_good()
}

/// If the last pass knows each other damaged block of a covered block's round, and these are no more than the code has roots,
/// the block is as formatted after the run, whatever other rounds hold; or a hash block above it is corrupt, or two different
/// inputs have one digest.
pub fn no_block_stays_lost_within_parity()
    ensures { NoBlockStaysLostWithinParity }
{
    formed_chains_are_good()
}

/// Formatting produces an image as these laws assume it.
pub fn formatted_images_are_former()
    ensures { FormattedImagesAreFormer }
{}

/// Each hash block of a formatted image is zero after its last used entry, so that no scan reports it for these bytes.
pub fn formatted_entries_are_zero()
    ensures { FormattedEntriesAreZero }
{}

/// Parity that is laid out for a tree and a hash device on which the tree fits covers all hash blocks of the tree and, on the
/// data device, its data blocks only. Its blocks have the size of the tree's blocks. The laws of a tree that parity covers
/// therefore apply to such a layout.
pub fn laid_out_parity_covers_the_tree()
    ensures { LaidOutParityCoversTheTree }
{}

/// If no hash block is damaged, and the last pass counts no more lost blocks in a data block's round than the code has roots,
/// the block is as formatted after the run, whatever other rounds hold; or two different inputs have one digest.
pub fn data_under_a_whole_tree_come_back()
    ensures { DataUnderWholeTreeComeBack }
{
    formed_chains_are_good()
}

/// If no hash block is damaged before the run, and no more covered blocks of a data block's round are damaged than the code has
/// roots, the block is as formatted after the run, whatever other rounds hold; or two different inputs have one digest.
pub fn damaged_blocks_within_parity_come_back()
    ensures { DamagedBlocksWithinParityComeBack }
{
    formed_chains_are_good()
}

/// Runs are fetched from the copies by at most as many reads as there are runs that end before a block that isn't lacking, and whole reads
/// in the blocks that are fetched.
pub fn reads_are_few()
    ensures { ReadsAreFew }
{}
