//! What a session keeps of its requests.
ghost use Rattle.std.specs.Prelude.{◌≡◌};
ghost use Rattle.nbd_server.specs.Logs.{export_fault, logged, no_log};

use crate::known_faults::{ExportFault, SectorFault};
use crate::tally::Tally;

/// The tally of the requests that were answered, and the fault of the last one, if it had one.
#[derive(Drop)]
pub struct SessionLog {
    pub tally: Tally,
    pub last: Option<ExportFault>,
}

impl SessionLog {
    /// Returns the log of no requests.
    pub fn none() -> SessionLog
        ensures { result ≡ no_log }
    {
        SessionLog {
            tally: Tally::none(),
            last: None,
        }
    }

    /// Counts a request of that many bytes of the export at an index, which was answered with that fault, or with none.
    pub(crate) fn count(&mut self, place: usize, bytes: u32, met: Option<SectorFault>)
        ensures { self.new ≡ logged place bytes met self.old }
    {
        match met {
            None => {
                self.tally = self.tally.count(bytes, false, false);
                self.last = None;
            }
            Some(at) => {
                let fault = export_fault(place, at);
                self.tally = self.tally.count(bytes, true, at.full);
                self.last = Some(fault);
            }
        }
    }
}

// The fault of a request of the export at an index.
fn export_fault(place: usize, met: SectorFault) -> ExportFault
    ensures { result ≡ export_fault place met }
{
    ExportFault {
        place,
        sector: met.sector,
        block: met.block,
        fault: met.fault,
        full: met.full,
    }
}
