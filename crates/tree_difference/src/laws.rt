//! Laws of a comparison's findings: each function's contract states the law, and a call of the function provides it.
ghost use Rattle.tree_difference.specs.Laws.{SameBlocksAreSame, ChangedChainsDiffer, SameContentsAreSame, ChangedListsDiffer};

use hash_tree::laws::formed_chains_are_good;

/// A data block that isn't listed has the same content in any two chains that verify under the roots, or two different inputs
/// have one digest.
pub fn same_blocks_are_same()
    ensures { SameBlocksAreSame }
{}

/// A data block that is listed as changed has two different contents in such chains, or two different inputs have one digest.
pub fn changed_blocks_differ()
    ensures { ChangedChainsDiffer }
{}

/// A data block that isn't listed is the same in any two data whose trees have these roots, or two different inputs have one
/// digest.
pub fn same_contents_are_same()
    ensures { SameContentsAreSame }
{
    formed_chains_are_good()
}

/// A data block that is listed as changed differs in any two data whose trees have these roots, or two different inputs have
/// one digest.
pub fn changed_contents_differ()
    ensures { ChangedListsDiffer }
{
    formed_chains_are_good()
}
