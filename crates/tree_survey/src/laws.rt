//! Laws of a scan's findings: each function's contract states the law, and a call of the function provides it.
ghost use Rattle.tree_survey.specs.Laws.{GoodBlocksAreGood, ChangedBlocksDiffer, GoodContentsAreData, ChangedContentsDiffer};

use hash_tree::laws::formed_chains_are_good;

/// The content of a valid data block is that of every chain that verifies under the root, or two different inputs have one
/// digest.
pub fn good_blocks_are_good()
    ensures { GoodBlocksAreGood }
{}

/// The content of a changed data block is that of no chain that verifies under the root, or two different inputs have one
/// digest.
pub fn changed_blocks_differ()
    ensures { ChangedBlocksDiffer }
{}

/// The content of a valid data block is the block of any data whose tree has this root, or two different inputs have one
/// digest.
pub fn good_contents_are_data()
    ensures { GoodContentsAreData }
{
    formed_chains_are_good()
}

/// The content of a changed data block isn't the block of any data whose tree has this root, or two different inputs have one
/// digest.
pub fn changed_contents_differ()
    ensures { ChangedContentsDiffer }
{
    formed_chains_are_good()
}
