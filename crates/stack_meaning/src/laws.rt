//! Laws of the definitions: each function's contract is the law, and its call gives it.
ghost use Rattle.stack_meaning.specs.Erasures.{ErasuresAreDecoded, FewerLossesRestoreTheSame, HealedBlocksAreVerified, LostBlocksAreRestored};
ghost use Rattle.stack_meaning.specs.Spares.{HealingKeepsBlocks, OneLostBlockIsRestored};

/// If one block of a round is lost, and its other blocks and its parity are as they were, parity restores the block as it was.
pub fn one_lost_block_is_restored()
    ensures { OneLostBlockIsRestored }
{}

/// A block that is healed by parity has the digest that its line expects.
pub fn healed_blocks_are_verified()
    ensures { HealedBlocksAreVerified }
{}

/// A block that is readable and verified is the same with healing, and if a block can't be healed, its fault is the same.
pub fn healing_keeps_blocks()
    ensures { HealingKeepsBlocks }
{}

/// If no more blocks of a round are lost than a codeword has bytes of parity, and the others and the parity are as they were, the code
/// restores each lost block as it was.
pub fn erasures_are_decoded()
    ensures { ErasuresAreDecoded }
{}

/// If no more blocks of a round are lost than a codeword has bytes of parity, and the digests of the others are known, the spare of
/// each lost block is the block as it was, or two blocks have one digest.
pub fn lost_blocks_are_restored()
    ensures { LostBlocksAreRestored }
{}

/// If blocks that the code restored are stored as it restored them, it restores the others of these blocks the same if they alone are
/// lost.
pub fn fewer_losses_restore_the_same()
    ensures { FewerLossesRestoreTheSame }
{}
