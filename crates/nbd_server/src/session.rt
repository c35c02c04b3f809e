//! A session whose faults are printed.
ghost use Rattle.std.specs.Prelude.{◌≡◌};
ghost use Rattle.nbd_protocol.specs.declared.phase.Phase.TheVariants.{Greeted};
ghost use Rattle.nbd_server.specs.FaultLog.{new_log};
ghost use Rattle.nbd_server.specs.Logs.{no_log};

use crate::fault_log::FaultLog;
use crate::journal::Journal;
use crate::session_state::SessionState;
use std::alloc::Global;

/// What a session keeps from one message to the next, which of its faults have a line, and who takes the lines.
#[derive(Drop)]
pub(crate) struct Session<'j, J: Journal> {
    pub(crate) state: SessionState,
    pub(crate) faults: FaultLog,
    pub(crate) journal: &'j J,
}

impl<'j, J: Journal> Session<'j, J> {
    /// Returns a session before the first message.
    pub(crate) fn new(alloc: Global, journal: &'j J) -> Session<'j, J>
        ensures log { result.state.log ≡ no_log }
        ensures phase { result.state.phase ≡ Greeted }
        ensures faults { result.faults ≡ new_log (J.priorities journal.now) }
        ensures journal { result.journal.now ≡ journal.now }
    {
        Session {
            state: SessionState::new(alloc),
            faults: FaultLog::new(journal.has_priorities()),
            journal,
        }
    }
}
