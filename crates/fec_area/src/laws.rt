//! Laws of parity, as clauses of functions that do nothing.
ghost use Rattle.fec_area.specs.Restoring.{LostBlocksComeBack};
ghost use Rattle.fec_area.specs.Sums.{OneLostBlockIsASum, RoundsSumToZeros};

/// A block that is reconstructed by the parity of an undamaged image is the block of that image, if all blocks that
/// aren't known to be lost are unchanged.
pub fn lost_blocks_come_back()
    ensures { LostBlocksComeBack }
{}

/// The blocks of a round and its parity sum to zeros, by exclusive-or.
pub fn rounds_sum_to_zeros()
    ensures { RoundsSumToZeros }
{}

/// Each block of a round is the exclusive-or of the round's other blocks and its parity.
pub fn one_lost_block_is_a_sum()
    ensures { OneLostBlockIsASum }
{}
