//! Requests in flight.
ghost use Rattle.std.specs.Prelude.{◌≡◌, OnOk, IfErr, find, option_map, position};
ghost use Rattle.request_queue.specs.Flights.{FlightRecord, has_ticket, reply_to, work_record};
ghost use Rattle.request_queue.specs.Flights.{IsSoundFlight};
ghost use Rattle.request_queue.specs.Parts.{EachPart};
ghost use Rattle.request_queue.specs.PieceCalls.{CalledPart};
ghost use Rattle.request_queue.specs.Serving.{NextPiece, FailedPiece};

use crate::range::{SectorRange, piece_len};
use crate::reply::Reply;
use crate::work::Work;
use block_device::BlockDev;
use stack_engine::{IoFault, Stack};
use std::marker::Model;

/// A request in flight: its first sector, the sectors that are left, and what it does.
#[derive(Drop)]
pub(crate) struct Flight {
    ticket: u64,
    first: u64,
    rest: SectorRange,
    work: Work,
}

impl Model for Flight {
    ghost use Rattle.request_queue.specs.Flights.{FlightRecord, work_record};

    ghost Value = { FlightRecord };

    ghost view = { λ f. record { ticket = f.ticket; first = f.first; rest = f.rest; work = work_record f.work } };
}

impl Flight {
    /// A request of which nothing is done yet.
    pub(crate) fn new(ticket: u64, range: SectorRange, work: Work) -> Flight
        ensures { result ≡ record { ticket = ticket; first = range.first; rest = range; work = work_record work } }
    {
        Flight {
            ticket,
            first: range.first,
            rest: range,
            work,
        }
    }

    pub(crate) fn ticket(&self) -> u64
        ensures { result ≡ self.now.ticket }
    {
        self.ticket
    }

    pub(crate) fn first(&self) -> u64
        ensures { result ≡ self.now.first }
    {
        self.first
    }

    /// How many sectors are left.
    pub(crate) fn left(&self) -> u64
        ensures { result ≡ self.now.rest.count }
    {
        self.rest.count
    }

    /// Returns the reply of a request of which no sector is left.
    pub(crate) fn into_reply(self) -> Reply
        ensures { result ≡ reply_to self.work }
    {
        self.work.into_reply()
    }

    /// Serves its next piece.
    pub(crate) fn serve<D: BlockDev>(&mut self, stack: &mut Stack<D>) -> Result<(), IoFault>
        requires { IsSoundFlight stack.old.config self.old }
        ensures ok { OnOk result (NextPiece EachPart stack.old self.old stack.new self.new) }
        ensures err { IfErr result (λ fault. FailedPiece EachPart stack.old self.old fault stack.new) }
        ensures called { OnOk result (NextPiece (CalledPart D.state D.does) stack.old self.old stack.new self.new) }
        ensures failed { IfErr result (λ fault. FailedPiece (CalledPart D.state D.does) stack.old self.old fault stack.new) }
    {
        let rest = self.rest;
        let count = piece_len(stack.config(), rest);
        let piece = SectorRange {
            device: rest.device,
            first: rest.first,
            count,
        };
        self.work.serve(stack, piece, rest.first - self.first)?;
        self.rest = SectorRange {
            device: rest.device,
            first: rest.first + count,
            count: rest.count - count,
        };
        Ok(())
    }
}

/// The place of the request with that ticket.
pub(crate) fn place_of(flights: &[Flight], ticket: u64) -> Option<usize>
    ensures { result ≡ position (has_ticket ticket) flights.now }
{
    flights.iter().position(|flight| flight.ticket() == ticket)
}

/// The first sector of the request with that ticket.
pub(crate) fn first_of(flights: &[Flight], ticket: u64) -> Option<u64>
    ensures { result ≡ option_map (λ f. f.first) (find (has_ticket ticket) flights.now) }
{
    let flight = flights.iter().find(|flight| flight.ticket() == ticket)?;
    Some(flight.first())
}
