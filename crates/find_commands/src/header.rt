//! LUKS2 headers whose checksums are computed while their sectors are read.
ghost use Rattle.std.specs.Prelude.{◌≡◌, ℕ, IfErr, IfOk, List, OnOk, Option};
ghost use Rattle.sha2.specs.Hashers.{Holds256};
ghost use Rattle.find_commands.specs.Headers.{Header, IsHeader, IsOpen, begun, begun_open, begun_report, computed, grown, grown_open, grown_report, interrupted, is_sha256, judged, whole_open, whole_report};
ghost use Rattle.find_commands.specs.Searches.{Receives, Reports, ReportsAfter};

use crate::area::{is_header_size, stated_size};
use crate::checksum::Checksum;
use crate::finding::Finding;
use crate::listing::{FindingList, ListFault};
use sha2::{Digest, Sha256};

/// A header whose sectors are being read: what it shows, its checksum, the hash of its bytes so far, and how many sectors are left.
#[derive(Drop)]
pub(crate) struct OpenHeader {
    pub(crate) finding: Finding,
    pub(crate) stated: [u8; 32],
    pub(crate) message: Sha256,
    pub(crate) left: u64,
}

// What the checksum of a header of these bytes shows.
fn computed(message: Sha256, stated: &[u8; 32]) -> Checksum
    ensures { (m : List ℕ) → Holds256 message m → result ≡ computed m stated.now }
{
    let digest = message.finalize();
    if digest.as_slice() == stated.as_slice() {
        Checksum::Valid
    } else {
        Checksum::Wrong
    }
}

fn judged(finding: Finding, checksum: Checksum) -> Finding
    ensures { result ≡ judged checksum finding }
{
    let checksum = Some(checksum);
    Finding {
        checksum,
        ..finding
    }
}

// Whether the algorithm of the checksum is SHA-256.
fn is_sha256(sector: &[u8; 512]) -> bool
    ensures { result ≡ is_sha256 sector.now }
{
    &sector[72..79] == b"sha256\0".as_slice()
}

impl OpenHeader {
    // The header whose first sector this is.
    fn begun(finding: Finding, sector: &[u8; 512]) -> OpenHeader
        ensures { IsHeader result (begun finding sector.now) }
    {
        let mut stated = [0; 32];
        stated.copy_from_slice(&sector[448..480]);
        let mut message = Sha256::new();
        message.update(&sector[..448]);
        message.update([0u8; 64].as_slice());
        let left = (stated_size(finding.size) / 512).saturating_sub(1);
        OpenHeader {
            finding,
            stated,
            message,
            left,
        }
    }
}

// The header with its next sector.
fn grown(header: OpenHeader, sector: &[u8; 512]) -> OpenHeader
    ensures { (h : Header) → IsHeader header h → IsHeader result (grown h sector.now) }
{
    let OpenHeader {
        finding,
        stated,
        mut message,
        left,
    } = header;
    message.update(sector.as_slice());
    OpenHeader {
        finding,
        stated,
        message,
        left: left.saturating_sub(1),
    }
}

// Reports a header if all its sectors were read. Otherwise it stays open.
fn close_if_whole<L: FindingList>(
    list: &mut L,
    header: OpenHeader,
) -> Result<Option<OpenHeader>, ListFault>
    ensures ok { IfOk result (λ next. (h : Header) → IsHeader header h → Reports L.receives list.old (whole_report h) list.new next (whole_open h)) }
    ensures err { IfErr result (L.refuses list.new) }
{
    if header.left > 0 {
        return Ok(Some(header));
    }
    let OpenHeader {
        finding,
        stated,
        message,
        left: _,
    } = header;
    list.tell(judged(finding, computed(message, &stated)))?;
    Ok(None)
}

/// Adds a sector to the header that is open, if any, and reports the header if that was its last one.
///
/// # Errors
///
/// Those of the receiver.
pub(crate) fn go_on<L: FindingList>(
    list: &mut L,
    current: Option<OpenHeader>,
    sector: &[u8; 512],
) -> Result<Option<OpenHeader>, ListFault>
    ensures ok { IfOk result (ReportsAfter L.receives list.old list.new current (λ h. grown_report h sector.now) (λ h. grown_open h sector.now)) }
    ensures err { IfErr result (L.refuses list.new) }
{
    match current {
        None => Ok(None),
        Some(header) => close_if_whole(list, grown(header, sector)),
    }
}

/// Reports the header that is open, if any, with that checksum.
///
/// # Errors
///
/// Those of the receiver.
pub(crate) fn interrupt<L: FindingList>(
    list: &mut L,
    current: Option<OpenHeader>,
    checksum: Checksum,
) -> Result<(), ListFault>
    ensures ok { OnOk result ((h : Option Header) → IsOpen current h → Receives L.receives list.old (interrupted checksum h) list.new) }
    ensures err { IfErr result (L.refuses list.new) }
{
    match current {
        None => Ok(()),
        Some(header) => list.tell(judged(header.finding, checksum)),
    }
}

/// Opens a header by its first sector, or reports it if its checksum isn't computed.
///
/// # Errors
///
/// Those of the receiver.
pub(crate) fn begin<L: FindingList>(
    list: &mut L,
    finding: Finding,
    sector: &[u8; 512],
) -> Result<Option<OpenHeader>, ListFault>
    ensures ok { IfOk result (λ next. Reports L.receives list.old (begun_report finding sector.now) list.new next (begun_open finding sector.now)) }
    ensures err { IfErr result (L.refuses list.new) }
{
    if !is_header_size(stated_size(finding.size)) {
        list.tell(judged(finding, Checksum::Wrong))?;
        return Ok(None);
    }
    if !is_sha256(sector) {
        list.tell(judged(finding, Checksum::Unchecked))?;
        return Ok(None);
    }
    Ok(Some(OpenHeader::begun(finding, sector)))
}
