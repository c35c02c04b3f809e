//! What a session keeps from one message to the next.
ghost use Rattle.std.specs.Prelude.{◌≡◌};
ghost use Rattle.nbd_server.specs.Logs.{logged, no_log};
ghost use Rattle.nbd_protocol.specs.declared.phase.Phase.TheVariants.{Greeted};

use crate::known_faults::SectorFault;
use crate::room::Room;
use crate::session_log::SessionLog;
use nbd_protocol::Phase;
use std::alloc::Global;

/// The buffer for the pieces of a reply, the log of the requests so far, and the phase.
#[derive(Drop)]
pub(crate) struct SessionState {
    pub(crate) room: Room,
    pub(crate) log: SessionLog,
    pub(crate) phase: Phase,
}

impl SessionState {
    /// Returns an empty buffer and the log of no requests, before the first message.
    pub(crate) fn new(alloc: Global) -> SessionState
        ensures log { result.log ≡ no_log }
        ensures phase { result.phase ≡ Greeted }
    {
        SessionState {
            room: Room::new(alloc),
            log: SessionLog::none(),
            phase: Phase::Greeted,
        }
    }

    /// Counts a request of that many bytes of the export at an index, which was answered with that fault, or with none.
    pub(crate) fn count(&mut self, place: usize, bytes: u32, met: Option<SectorFault>)
        ensures { self.new.log ≡ logged place bytes met self.old.log }
    {
        self.log.count(place, bytes, met);
    }
}
