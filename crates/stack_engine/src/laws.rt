//! Laws of the definitions: each function's contract is the law, and its call gives it.
ghost use Rattle.stack_engine.specs.Agreeing.{DisagreeingBlocksCollide, ImagesAgreeWithoutParity};
ghost use Rattle.stack_engine.specs.DamagedData.{DamagedDataIsRead};
ghost use Rattle.stack_engine.specs.Dirty.{ReadsKeepDirty, WritesMakeDirty};
ghost use Rattle.stack_engine.specs.Unrestored.{NoneRestoredWithoutParity};
ghost use Rattle.stack_engine.specs.Laws.{FormattedDataIsRead, IgnoredBlocksCollide, KernelWordsChangeNoLine, KernelWordsChangeNoSector, SpansStandOnLeaves, AnsweredChainsAreGood, ForgedAnswersCollide, ForgedBytesCollide, ForgedSectorsCollide, OtherLeavesChangeNoAnswer, WrittenLeavesAreForgotten};

use block_device::BlockDev;
use hash_tree::laws::{forged_blocks_collide, formed_chains_are_good};

/// If the data device begins with some blocks, the hash device has their tree and the line its root, a sector
/// of the verity line is the data's sector; or zeros, if the line has `ignore_zero_blocks` and the data block the
/// digest of a block of zeros.
pub fn formatted_data_is_read()
    ensures { FormattedDataIsRead }
{
    formed_chains_are_good();
}

/// If a line has parity, a sector of a data block is as it was, even if that block and hash blocks on its path are lost: if of the round of
/// each that is lost the parity is kept, and the others are kept too; or have known digests, and at most as many are lost as a codeword
/// has bytes of parity. Or another block has the digest of a former block of one of these rounds, and the two, each after the salt, are
/// two different inputs of one SHA-256 digest.
pub fn damaged_data_is_read()
    ensures { DamagedDataIsRead }
{
    formed_chains_are_good();
}

/// If no `verity` line of a configuration has parity, an exact read asks nothing of the images but that they are steady.
pub fn images_agree_without_parity()
    ensures { ImagesAgreeWithoutParity }
{}

/// If a block that parity restores is another one than the stored block and has its digest, the two, each after the salt, are two
/// different inputs of one SHA-256 digest.
pub fn disagreeing_blocks_collide()
    ensures { DisagreeingBlocksCollide }
{}

/// If a data block isn't zeros and has the digest of a block of zeros, the two blocks, each after the salt, are two different
/// inputs of one SHA-256 digest.
pub fn ignored_blocks_collide()
    ensures { IgnoredBlocksCollide }
{}

/// A `verity` line has the rules and costs of the line without the words that say what the kernel does on corruption
/// (`restart_on_corruption`, `panic_on_corruption`), where it verifies (`try_verify_in_tasklet`), and which key holds the signature
/// of the root hash (`root_hash_sig_key_desc`). A sector of it means the same, and may have the same bytes with the same chains,
/// and the same faults, whatever the leaves return.
pub fn kernel_words_change_no_line()
    ensures { KernelWordsChangeNoLine }
{}

/// Each sector of a device means what it means in the stack whose lines are without these words.
pub fn kernel_words_change_no_sector()
    ensures { KernelWordsChangeNoSector }
{}

/// A span of a device depends on the images of the leaves beneath it alone.
pub fn spans_stand_on_leaves()
    ensures { SpansStandOnLeaves }
{}

/// The result of a piece depends on the leaves beneath its device alone, whatever other leaves there are: a read of a device
/// over steady leaves returns what the stack means also if another leaf is a file.
pub fn other_leaves_change_no_answer()
    ensures { OtherLeavesChangeNoAnswer }
{}

/// Each chain of an answer is good for the line that it names.
pub fn answered_chains_are_good()
    ensures { AnsweredChainsAreGood }
{}

/// If a returned chain has another content than the block under the root, then at the place that `hash_tree::collide` names
/// for the formatted chain and this one are two different inputs of one SHA-256 digest.
pub fn forged_answers_collide()
    ensures { ForgedAnswersCollide }
{
    forged_blocks_collide();
}

/// If a piece has a chain that wasn't returned, with another content than the block under the root, the chain gives a SHA-256
/// collision.
pub fn forged_bytes_collide()
    ensures { ForgedBytesCollide }
{
    forged_blocks_collide();
}

/// If a sector of a piece, in a `verity` line of its device, isn't the one of the block under the root, there is a chain of its
/// block that gives a SHA-256 collision: two different inputs of one digest, at the topmost place where the chain differs from
/// the one formed of the blocks.
pub fn forged_sectors_collide()
    ensures { ForgedSectorsCollide }
{
    forged_blocks_collide();
}

/// After a write, or several pieces of one, no block is kept that wasn't kept before, and none of a `verity` line whose hash
/// device is, or is stacked on, a leaf that was written.
pub fn written_leaves_are_forgotten()
    ensures { WrittenLeavesAreForgotten }
{}

/// If no `verity` line of a stack has parity, a piece of a read restores no block, whatever the devices answer.
pub fn none_restored_without_parity<D: BlockDev>()
    ensures { NoneRestoredWithoutParity D.state D.does }
{}

/// A piece of a read leaves exactly those leaves dirty that were dirty before, whatever their devices answer.
pub fn reads_keep_dirty<D: BlockDev>()
    ensures { ReadsKeepDirty D.state D.does }
{}

/// A piece of a write leaves exactly those leaves dirty that were dirty before or that it called to write, whatever their
/// devices answer.
pub fn writes_make_dirty<D: BlockDev>()
    ensures { WritesMakeDirty D.state D.does }
{}
