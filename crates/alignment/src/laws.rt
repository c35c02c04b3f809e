//! Laws of the definitions: each function's contract is the law, and its call gives it.
ghost use Rattle.alignment.specs.Laws.{PiecesSplitNoUnit, SomeOfEightEnds, TwoPiecesGoFar};

/// If some sector within the longest piece ends all units and data blocks in which it lies, no unit and no data block that
/// has a sector of the piece goes on after it.
pub fn pieces_split_no_unit()
    ensures { PiecesSplitNoUnit }
{}

/// If all lines are `linear`, `crypt`, `verity`, `zero` or `error`, begin at multiples of eight sectors and lie at such
/// multiples beneath, some sector of any eight ends all units and data blocks in which it lies.
pub fn some_of_eight_ends()
    ensures { SomeOfEightEnds }
{}

/// Two pieces, one after the other, have more sectors than the longest piece, or all that are left.
pub fn two_pieces_go_far()
    ensures { TwoPiecesGoFar }
{}
