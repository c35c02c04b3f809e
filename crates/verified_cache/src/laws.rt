//! Laws of the cache, as clauses of functions that do nothing. Calling one makes its law available to a proof.
ghost use Rattle.verified_cache.specs.Laws.{KeptBlocksAreFound, FindsChangeNoAnswer, KeepsLeaveOtherKeys, ForgettingIsExact};

/// A block that was stored is found, if the capacity isn't 0.
pub fn kept_blocks_are_found()
    ensures { KeptBlocksAreFound }
{}

/// A lookup changes no result of another lookup.
pub fn finds_change_no_answer()
    ensures { FindsChangeNoAnswer }
{}

/// If the cache isn't full, or has the key, storing a block changes no result under other keys.
pub fn keeps_leave_other_keys()
    ensures { KeepsLeaveOtherKeys }
{}

/// Forgetting a line drops its blocks and no others.
pub fn forgetting_is_exact()
    ensures { ForgettingIsExact }
{}
