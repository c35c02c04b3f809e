//! Laws of recoveries: each function's contract states the law, and a call of the function provides it.
ghost use Rattle.stack_recovery.specs.Laws.{LostBlocksAreLost, RunsAreLongest, SurveysAreMeant};
ghost use Rattle.stack_recovery.specs.PassLaws.{FailuresAreFew, PassesScrape, SkimmedPiecesAreLongest, SweepsTryAll};

/// If the devices are steady and never fail and a map marks sectors that mean bytes, `rescue` by it loses those that mean a fault,
/// if it leaves none unscraped.
pub fn rescues_are_meant()
    ensures { SurveysAreMeant }
{}

/// A sector of a verity line means a fault exactly if its data block does. The lost sectors of a verity volume are therefore
/// those of the blocks that fail verification.
pub fn lost_blocks_are_lost()
    ensures { LostBlocksAreLost }
{}

/// Each reported run of lost sectors is as long as possible.
pub fn runs_are_longest()
    ensures { RunsAreLongest }
{}

/// In a pass in large pieces each piece ends as `aligned_len` says of at most 128 sectors.
pub fn skimmed_pieces_are_longest()
    ensures { SkimmedPiecesAreLongest }
{}

/// Without parity, in such a pass the backing devices fail at most once for each piece that can't be read. No other read comes
/// before the device's end is reached.
pub fn failures_are_few()
    ensures { FailuresAreFew }
{}

/// A second pass in large pieces skips no sector, so that those it leaves are in pieces whose read failed.
pub fn sweeps_try_all()
    ensures { SweepsTryAll }
{}

/// A pass without `no_scrape` leaves no sector unscraped.
pub fn passes_scrape()
    ensures { PassesScrape }
{}
