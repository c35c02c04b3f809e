//! The map that a recovery makes of the sectors.
ghost use Rattle.std.specs.Prelude.{◌≡◌, ◌+◌, ◌++◌, ◌≤◌, ◌^◌, length, replicate, true, IfErr, OnErr, OnOk};
ghost use Rattle.std.specs.Option.{ForSome, is_some};
ghost use Rattle.allocation.specs.Refusal.{IsOutOfMemory};
ghost use Rattle.rescue_map.specs.Maps.{losts, marks};
ghost use Rattle.stack_recovery.specs.Recoveries.{NotesMore};
ghost use Rattle.stack_recovery.specs.declared.fault.RecoveryFault.TheVariants as recovery_fault;

use crate::fault::RecoveryFault;
use rescue_map::{Map, Run, Stage};

/// Records in the map, if one is made, that the next `count` sectors were read (`had`), are bad (`lost`) or remain to be read.
///
/// # Errors
///
/// `NoMemory` if the allocator refused memory for a run of the map.
pub(crate) fn note(
    noted: &mut Option<Map>,
    count: u64,
    had: bool,
    lost: bool,
) -> Result<(), RecoveryFault>
    requires some { 1 ≤ count }
    requires room { ForSome noted.old (λ map. length (marks map) + count ≤ 2 ^ 54) }
    ensures ok { OnOk result (NotesMore marks noted.old noted.new (replicate count had)) }
    ensures lost { OnOk result (NotesMore losts noted.old noted.new (replicate count lost)) }
    ensures err { IfErr result (λ fault. (fault ≡ recovery_fault.NoMemory) × IsOutOfMemory 1) }
    ensures made { OnErr result (is_some noted.old ≡ true) }
{
    match noted {
        None => Ok(()),
        Some(map) => mark(map, count, had, lost),
    }
}

/// Records in the map that the next `count` sectors were read (`had`), are bad (`lost`) or remain to be read.
///
/// # Errors
///
/// `NoMemory` if the allocator refused memory for a run of the map.
pub(crate) fn mark(map: &mut Map, count: u64, had: bool, lost: bool) -> Result<(), RecoveryFault>
    requires some { 1 ≤ count }
    requires room { length (marks map.old) + count ≤ 2 ^ 54 }
    ensures ok { OnOk result (marks map.new ≡ marks map.old ++ replicate count had) }
    ensures lost { OnOk result (losts map.new ≡ losts map.old ++ replicate count lost) }
    ensures err { IfErr result (λ fault. (fault ≡ recovery_fault.NoMemory) × IsOutOfMemory 1) }
{
    Ok(map.push(Run {
        count,
        had,
        lost,
        stage: Stage::Untried,
    })?)
}
