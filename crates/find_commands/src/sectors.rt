//! What the sectors of a piece show.
ghost use Rattle.std.specs.Prelude.{◌≡◌, ◌+◌, ◌/◌, ◌≤◌, ◌^◌, length, IfErr, IfOk};
ghost use Rattle.find_commands.specs.Findings.{found_open, found_report, open_from, reports_from, sector_open, sector_report};
ghost use Rattle.find_commands.specs.Searches.{ReportsAfter, lost_open, lost_report, states_read};

use crate::checksum::Checksum;
use crate::finding::{Finding, found_at};
use crate::header::{OpenHeader, begin, go_on, interrupt};
use crate::listing::{FindingList, ListFault};

const SECTOR: usize = 512;

/// Reports what whole sectors show, in their order; the first of them is sector `first`. Returns the LUKS2 header that is open then, if any;
/// `current` was before.
///
/// # Errors
///
/// Those of the receiver.
pub(crate) fn tell_sectors<L: FindingList>(
    list: &mut L,
    current: Option<OpenHeader>,
    first: u64,
    bytes: &[u8],
) -> Result<Option<OpenHeader>, ListFault>
    requires { first + length bytes.now / 512 ≤ 2 ^ 54 }
    ensures ok { IfOk result (ReportsAfter L.receives list.old list.new current (λ h. reports_from h first (states_read bytes.now)) (λ h. open_from h first (states_read bytes.now))) }
    ensures err { IfErr result (L.refuses list.new) }
{
    let mut header = current;
    let mut number = first;
    let mut rest = bytes;
    'sectors: while rest.len() >= SECTOR {
        let (sector, after) = rest.split_at(SECTOR);
        header = tell_bytes(list, header, number, sector)?;
        number += 1;
        rest = after;
    }
    Ok(header)
}

// Reports what sector `at` shows.
fn tell_bytes<L: FindingList>(
    list: &mut L,
    current: Option<OpenHeader>,
    at: u64,
    sector: &[u8],
) -> Result<Option<OpenHeader>, ListFault>
    requires size { length sector.now ≡ 512 }
    requires small { at ≤ 2 ^ 54 }
    ensures ok { IfOk result (ReportsAfter L.receives list.old list.new current (λ h. sector_report h at (Some sector.now)) (λ h. sector_open h at (Some sector.now))) }
    ensures err { IfErr result (L.refuses list.new) }
{
    let mut bytes = [0; SECTOR];
    bytes.copy_from_slice(sector);
    tell_sector(list, current, at, &bytes)
}

fn tell_sector<L: FindingList>(
    list: &mut L,
    current: Option<OpenHeader>,
    at: u64,
    sector: &[u8; 512],
) -> Result<Option<OpenHeader>, ListFault>
    requires { at ≤ 2 ^ 54 }
    ensures ok { IfOk result (ReportsAfter L.receives list.old list.new current (λ h. sector_report h at (Some sector.now)) (λ h. sector_open h at (Some sector.now))) }
    ensures err { IfErr result (L.refuses list.new) }
{
    match found_at(at, sector) {
        Some(finding) => tell_finding(list, current, finding, sector),
        None => go_on(list, current, sector),
    }
}

// Reports what a sector shows that was found. A header of LUKS2 is reported only once its checksum is known.
fn tell_finding<L: FindingList>(
    list: &mut L,
    current: Option<OpenHeader>,
    finding: Finding,
    sector: &[u8; 512],
) -> Result<Option<OpenHeader>, ListFault>
    ensures ok { IfOk result (ReportsAfter L.receives list.old list.new current (λ h. found_report h (Some finding) sector.now) (λ h. found_open h (Some finding) sector.now)) }
    ensures err { IfErr result (L.refuses list.new) }
{
    if finding.kind.is_luks2() {
        interrupt(list, current, Checksum::Wrong)?;
        return begin(list, finding, sector);
    }
    let next = go_on(list, current, sector)?;
    list.tell(finding)?;
    Ok(next)
}

/// Reports what a failed read of `count` sectors shows: if it is of one sector, that this one is lost.
///
/// # Errors
///
/// Those of the receiver.
pub(crate) fn tell_lost<L: FindingList>(
    list: &mut L,
    current: Option<OpenHeader>,
    count: u64,
) -> Result<Option<OpenHeader>, ListFault>
    ensures ok { IfOk result (ReportsAfter L.receives list.old list.new current (lost_report count) (lost_open count)) }
    ensures err { IfErr result (L.refuses list.new) }
{
    if count != 1 {
        return Ok(current);
    }
    interrupt(list, current, Checksum::Unchecked)?;
    Ok(None)
}
