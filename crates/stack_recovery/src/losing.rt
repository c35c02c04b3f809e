//! Sectors that a pass doesn't recover.
ghost use Rattle.std.specs.Prelude.{◌≡◌, ◌≤◌, ◌<◌, ◌+◌, ◌^◌, length, IfErr, OnOk};
ghost use Rattle.std.specs.Option.{ForSome, is_some};
ghost use Rattle.rescue_map.specs.Maps.{marks};
ghost use Rattle.runs.specs.Runs.{run};
ghost use Rattle.runs.specs.Tallies.{EndsAt, closed_by};
ghost use Rattle.stack_recovery.specs.Listings.{Tells};
ghost use Rattle.stack_recovery.specs.Losses.{NotesEnd, NotesLost, StopsInRun, closed_by_end, with_end, with_loss};
ghost use Rattle.stack_recovery.specs.LostRuns.{is_same_loss};
ghost use Rattle.stack_recovery.specs.Recoveries.{IsMapRefused};
ghost use Rattle.stack_recovery.specs.declared.fault.RecoveryFault.TheVariants as recovery_fault;
ghost use Rattle.stack_recovery.specs.declared.lost_run.Loss.TheVariants.{Lost};

use crate::fault::RecoveryFault;
use crate::listing::Listing;
use crate::lost_run::{Loss, LostRun, is_lost};
use crate::notes::note;
use crate::tally::Tally;
use crate::trimming::LostEnd;
use rescue_map::Map;
use stack_engine::IoFault;

/// Returns the run of sectors that are lost together.
pub(crate) fn lost_run(first: u64, count: u64, fault: IoFault) -> LostRun
    ensures { result ≡ run first count (Lost fault) }
{
    LostRun {
        first,
        count,
        kind: Loss::Lost(fault),
    }
}

/// Records, counts and reports a run of sectors that are lost.
///
/// # Errors
///
/// `NoMemory` if the allocator refused memory for a run of the map.
pub(crate) fn lose_run<L: Listing>(
    noted: &mut Option<Map>,
    tally: &mut Tally,
    listing: &mut L,
    lost: LostRun,
) -> Result<(), RecoveryFault>
    requires some { 1 ≤ lost.count }
    requires marks { ForSome noted.old (λ map. length (marks map) + lost.count ≤ 2 ^ 54) }
    requires ends { EndsAt tally.old.last lost.first }
    requires few { tally.old.lost + tally.old.untried ≤ lost.first }
    requires room { lost.first + lost.count < 2 ^ 64 }
    ensures noted { OnOk result (NotesLost lost noted.old noted.new) }
    ensures tallied { OnOk result (tally.new ≡ with_loss tally.old lost) }
    ensures told { OnOk result (Tells (L.told listing.old) (L.told listing.new) (closed_by is_same_loss tally.old.last lost)) }
    ensures err { IfErr result (StopsInRun (is_some noted.old) listing.old listing.new) }
{
    note(noted, lost.count, false, is_lost(lost.kind))?;
    tally.lose(listing, lost);
    Ok(())
}

/// Records the last lost sectors of a run, and those before them, which aren't read.
///
/// # Errors
///
/// `NoMemory` if the allocator refused memory for a run of the map.
pub(crate) fn note_end(noted: &mut Option<Map>, last: LostEnd) -> Result<(), RecoveryFault>
    requires some { 1 ≤ last.count }
    requires marks { ForSome noted.old (λ map. length (marks map) + (last.before + last.count) ≤ 2 ^ 54) }
    ensures ok { OnOk result (NotesEnd last noted.old noted.new) }
    ensures err { IfErr result (λ fault. (fault ≡ recovery_fault.NoMemory) × IsMapRefused (is_some noted.old)) }
{
    if last.before > 0 {
        note(noted, last.before, false, false)?;
    }
    note(noted, last.count, false, true)
}

/// Counts and reports these, from sector `at` on.
pub(crate) fn tell_end<L: Listing>(tally: &mut Tally, listing: &mut L, at: u64, last: LostEnd)
    requires ends { EndsAt tally.old.last at }
    requires few { tally.old.lost + tally.old.untried ≤ at }
    requires room { at + (last.before + last.count) < 2 ^ 64 }
    ensures tallied { tally.new ≡ with_end tally.old at last }
    ensures told { Tells (L.told listing.old) (L.told listing.new) (closed_by_end tally.old at last) }
{
    if last.before > 0 {
        let unread = LostRun {
            first: at,
            count: last.before,
            kind: Loss::Unscraped(last.fault),
        };
        tally.lose(listing, unread);
    }
    let lost = lost_run(at + last.before, last.count, last.fault);
    tally.lose(listing, lost);
}
