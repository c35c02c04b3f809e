//! Laws of the definitions: each function's contract is the law, and its call gives it.
ghost use Rattle.parity_laws.specs.PrintedLines.{PrintedParityIsLoaded};
ghost use Rattle.parity_laws.specs.ProtectedLines.{ProtectedDataIsRead, ProtectedRoundsAreFormer};

use fec_area::laws::rounds_sum_to_zeros;
use stack_engine::laws::damaged_data_is_read;

/// The blocks of each round of an image with parity, and the round's parity, are what a `verity` line with that parity takes them to
/// be.
pub fn protected_rounds_are_former()
    ensures { ProtectedRoundsAreFormer }
{
    rounds_sum_to_zeros();
}

/// If a `verity` line has the parity that was written with an image, and the root of its data's tree, a sector of a data block is the
/// image's, if the block and each hash block on its path are unchanged, or restored: the parity of their rounds is unchanged, and so are the
/// other blocks; or those have known digests, and no more of the round are lost than a codeword has bytes of parity. Or another block has
/// the digest of a block of one of these rounds, and the two, each after the salt, are two different inputs of one SHA-256 digest.
pub fn protected_data_is_read()
    ensures { ProtectedDataIsRead }
{
    rounds_sum_to_zeros();
    damaged_data_is_read();
}

/// A load doesn't refuse the parity of a printed line that covers all data and hash blocks, of one size, as that of `table --fec` does.
pub fn printed_parity_is_loaded()
    ensures { PrintedParityIsLoaded }
{}
