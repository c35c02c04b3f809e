//! A queue of requests over a stack.
ghost use Rattle.std.specs.Prelude.{◌≡◌, ◌≢◌, ◌/◌, [], length, option_map, IfOk, IfErr, Ok, Err, None};
ghost use Rattle.stack_meaning.specs.Meaning.{said_at};
ghost use Rattle.stack_meaning.specs.Reading.{MeetVerity};
ghost use Rattle.stack_lines.specs.Writing.{SomeEncrypt};
ghost use Rattle.stack_engine.specs.Syncs.{MakesSyncs};
ghost use Rattle.stack_rules.specs.Names.{mapped};
ghost use Rattle.request_queue.specs.AtOnce.{ReadsInPieces, WritesBytes};
ghost use Rattle.request_queue.specs.Laws.{QueueLaw};
ghost use Rattle.request_queue.specs.ListLaws.{ListsLaw};
ghost use Rattle.request_queue.specs.Parts.{EachPart};
ghost use Rattle.request_queue.specs.PieceCalls.{CalledPart, HandsBytes};
ghost use Rattle.request_queue.specs.Replies.{LacksMemory, bytes_answer, bytes_outcome, outcome_of};
ghost use Rattle.request_queue.specs.Requests.{request_record};
ghost use Rattle.request_queue.specs.Runs.{flight_of};
ghost use Rattle.request_queue.specs.WholeRuns.{RunAnswers};
ghost use Rattle.request_queue.specs.World.{EndsRequest, IsSoundWorld, Step, admission, load, read_bytes, remove_device, run, step, submit, sync};
ghost use Rattle.request_queue.specs.Flights.{IsAdmissible};
ghost use Rattle.request_queue.specs.declared.fault.BytesFault.{BytesFault};
ghost use Rattle.request_queue.specs.declared.fault.PieceFault.{PieceFault};
ghost use Rattle.request_queue.specs.declared.fault.SubmitFault.{SubmitFault};
ghost use Rattle.request_queue.specs.declared.request.Request.{Request};

use crate::admit::{sectors_for, write_range};
use crate::at_once::{read_pieces, write_pieces};
use crate::fault::{BusyOr, BytesFault, NoSuchTicket, RunFault, SubmitFault};
use crate::flight::{Flight, first_of, place_of};
use crate::range::{SectorRange, bytes_range};
use crate::reply::{Progress, Reply, Ticket};
use crate::request::Request;
use crate::work::Work;
use allocation::{push, reserve};
use block_device::{BlockDev, SyncDev};
use dm_table::StackText;
use stack_config::DevId;
use stack_engine::laws::{answered_chains_are_good, forged_answers_collide, forged_bytes_collide};
use stack_engine::{IoFault, Stack};
use stack_loader::{LoadFault, RemoveFault};
use std::alloc::Global;
use std::marker::Model;

const MOST_IN_FLIGHT: usize = 64;

/// A stack, and the requests in flight over it, in the order in which they were begun.
#[derive(Drop)]
pub struct Queue<D: BlockDev> {
    alloc: Global,
    stack: Stack<D>,
    given: u64,
    flights: Vec<Flight>,
}

impl<D: BlockDev> Model for Queue<D> {
    ghost use Rattle.request_queue.specs.World.{World, IsSoundWorld};

    ghost Value = { World };

    ghost view = { λ q. record { stack = q.stack; given = q.given; in_flight = q.flights.items } };

    ghost invariant = { λ q. IsSoundWorld q.stack.config q.given q.flights.items };
}

impl<D: BlockDev> Queue<D> {
    /// Returns a queue over the stack, with no request in flight. Each call of it is a `Step` of its world, and `write_bytes`
    /// one for each piece, so that `law` and `lists` hold of every list of calls.
    pub fn new(alloc: Global, stack: Stack<D>) -> Queue<D>
        ensures value { result ≡ record { stack = stack; given = 0; in_flight = [] } }
        ensures law { QueueLaw result }
        ensures lists { ListsLaw result }
    {
        // The laws of pieces, and what holds of every stack, are learned from calls.
        answered_chains_are_good();
        forged_answers_collide();
        forged_bytes_collide();
        let _loaded = stack.config();
        let _kept = stack.cached();
        Queue {
            alloc,
            stack,
            given: 0,
            flights: Vec::new(alloc),
        }
    }

    /// Returns the stack.
    pub fn stack(&self) -> &Stack<D>
        ensures { result.now ≡ self.now.stack }
    {
        &self.stack
    }

    /// Returns the stack, as the calls so far left it. Requests in flight are dropped.
    pub fn into_stack(self) -> Stack<D>
        ensures { result ≡ self.stack }
    {
        let Queue {
            alloc: _,
            stack,
            given: _,
            flights: _,
        } = self;
        stack
    }

    /// Returns how many requests are in flight.
    pub fn in_flight(&self) -> usize
        ensures value { result ≡ length self.now.in_flight }
        ensures sound { IsSoundWorld self.now.stack.config self.now.given self.now.in_flight }
    {
        self.flights.len()
    }

    /// Returns the first sector of the request in flight with that ticket, or `None` if there is no such request.
    pub fn first_sector(&self, ticket: Ticket) -> Option<u64>
        ensures { result ≡ option_map (λ f. f.first) (flight_of self.now ticket.0) }
    {
        first_of(self.flights.as_slice(), ticket.0)
    }

    // The sectors of a request, or its first refusal.
    fn admit(&self, request: &Request) -> Result<SectorRange, SubmitFault>
        ensures value { result ≡ admission self.now (request_record request.now) }
        ensures admissible { IfOk result (λ range. IsAdmissible self.now.stack.config (request_record request.now) range) }
    {
        let range = sectors_for(self.stack.config(), request)?;
        if self.flights.len() >= MOST_IN_FLIGHT || self.given == u64::MAX {
            return Err(SubmitFault::Full);
        }
        Ok(range)
    }

    /// Begins a request of 1 to 2,048 sectors, and returns its ticket. No leaf is accessed.
    ///
    /// # Errors
    ///
    /// The first of these faults, with the request; `NoMemory` may precede any of them. Nothing is changed.
    ///
    /// - `NoSuchDevice` if no mapped device has that name.
    /// - `OutOfRange` if the sectors end past the device.
    /// - `Length` if there are no sectors, more than 2,048, or bytes that aren't whole sectors.
    /// - `ReadOnly` if the device may not be written.
    /// - `Full` if 64 requests are in flight, or 2^64 - 1 tickets were given.
    /// - `NoMemory` if an allocation was refused.
    pub fn submit(&mut self, request: Request) -> Result<Ticket, (SubmitFault, Request)>
        ensures ok { IfOk result (λ t. Step EachPart self.old (submit (request_record request) (Ok t.0)) self.new) }
        ensures err { IfErr result (λ p. Step EachPart self.old (submit (request_record request) (Err p.0)) self.new) }
        ensures back { IfErr result (λ p. p.1 ≡ request) }
    {
        let range = match self.admit(&request) {
            Ok(range) => range,
            Err(fault) => return Err((fault, request)),
        };
        let Ok(()) = reserve(&mut self.flights, 1) else {
            return Err((SubmitFault::NoMemory, request));
        };
        let work = match Work::new(self.alloc, request, range.count) {
            Ok(work) => work,
            Err(request) => return Err((SubmitFault::NoMemory, request)),
        };
        let ticket = self.given + 1;
        push(&mut self.flights, Flight::new(ticket, range, work)).unwrap();
        self.given = ticket;
        Ok(Ticket(ticket))
    }

    /// Serves the next piece of the request with that ticket, 1 to 128 sectors. Returns `More` if sectors are left. Otherwise the
    /// request is over, and `Done` has its reply, or the fault of the piece. `called` states which calls of the leaves' devices
    /// it makes.
    ///
    /// # Errors
    ///
    /// `NoSuchTicket` if no request in flight has that ticket; nothing is changed.
    pub fn step(&mut self, ticket: Ticket) -> Result<Progress, NoSuchTicket>
        ensures step { Step EachPart self.old (step ticket.0 result) self.new }
        ensures called { Step (CalledPart D.state D.does) self.old (step ticket.0 result) self.new }
    {
        let Some(place) = place_of(self.flights.as_slice(), ticket.0) else {
            return Err(NoSuchTicket);
        };
        match self.flights[place].serve(&mut self.stack) {
            Err(fault) => {
                self.flights.remove(place);
                Ok(Progress::Done(Err(fault)))
            }
            Ok(()) if self.flights[place].left() > 0 => Ok(Progress::More),
            Ok(()) => {
                let flight = self.flights.remove(place);
                Ok(Progress::Done(Ok(flight.into_reply())))
            }
        }
    }

    // Serves a request to its end.
    fn finish(&mut self, ticket: Ticket) -> Result<Reply, IoFault>
        requires there { flight_of self.old ticket.0 ≢ None }
        ensures ends { EndsRequest EachPart ticket.0 result self.old self.new }
        ensures called { EndsRequest (CalledPart D.state D.does) ticket.0 result self.old self.new }
    {
        // What holds of every queue is learned from a call.
        let _sound = self.in_flight();
        'pieces: loop {
            match self.step(ticket) {
                Ok(Progress::More) => {}
                Ok(Progress::Done(answer)) => return answer,
                Err(NoSuchTicket) => unreachable!(),
            }
        }
    }

    /// Begins a request, serves it to its end, and returns its reply. Its calls of the leaves' devices are those of its pieces,
    /// in order, and none after the first piece that fails (`called`).
    ///
    /// # Errors
    ///
    /// - `Submit` with the fault of `submit` and the request, if it wasn't begun.
    /// - `Io` with the fault of its first piece that failed.
    pub fn run(&mut self, request: Request) -> Result<Reply, RunFault>
        ensures step { Step EachPart self.old (run (request_record request) (outcome_of result)) self.new }
        ensures whole { RunAnswers self.old (request_record request) (outcome_of result) self.new }
        ensures called { Step (CalledPart D.state D.does) self.old (run (request_record request) (outcome_of result)) self.new }
        ensures back { (fault : SubmitFault) (back : Request) → result ≡ Err (RunFault.Submit fault back) → back ≡ request }
    {
        // As in `finish`; and what holds of every stack.
        let _sound = self.in_flight();
        let _loaded = self.stack.config();
        match self.submit(request) {
            Ok(ticket) => match self.finish(ticket) {
                Ok(reply) => Ok(reply),
                Err(fault) => Err(RunFault::Io(fault)),
            },
            Err((fault, request)) => Err(RunFault::Submit(fault, request)),
        }
    }

    /// Reads sectors of a device, from `first` on, into the slice, at once and whatever requests are in flight. The slice has
    /// room for any number of whole sectors inside the device. No chain is returned; `law` of `new` states that some show the
    /// bytes. After a fault the slice's content is unspecified. It allocates only if a `verity` line is on the way. `pieces`
    /// states where its pieces end, what each costs and which fails, `called` which calls of the leaves' devices each makes.
    ///
    /// # Errors
    ///
    /// - `Refused(NoSuchDevice)`, `Refused(OutOfRange)` if the sectors end past the device, or `Refused(Length)` if the slice
    ///   isn't whole sectors; nothing is read.
    /// - `Failed` with the first piece that failed and its fault; `NoMemory` only if a `verity` line is on the way.
    pub fn read_bytes(
        &mut self,
        device: DevId,
        first: u64,
        out: &mut [u8],
    ) -> Result<(), BytesFault>
        ensures step { Step EachPart self.old (read_bytes device.0 first (length out.old) (bytes_outcome result out.new)) self.new }
        ensures memory { (piece : PieceFault) → result ≡ Err (BytesFault.Failed piece) → LacksMemory piece → MeetVerity (said_at self.old.stack.config (mapped device.0)) first (length out.old / 512) }
        ensures pieces { ReadsInPieces self.old device.0 first (length out.old) (bytes_answer result out.new) self.new }
        ensures called { Step (CalledPart D.state D.does) self.old (read_bytes device.0 first (length out.old) (bytes_outcome result out.new)) self.new }
    {
        bytes_range(self.stack.config(), device, first, out.len())?;
        read_pieces(&mut self.stack, device, first, out)?;
        Ok(())
    }

    /// Writes the bytes of any number of whole sectors inside a device that may be written, from `first` on, at once and
    /// whatever requests are in flight: piece by piece, each a step, up to the first that fails. All pieces before that
    /// one are written, and nothing after it. It allocates only if a `crypt` line is on the way. `written` states where its
    /// pieces end, what each costs and which fails, `handed` which calls of the leaves' devices each makes.
    ///
    /// # Errors
    ///
    /// - `Refused` with one of the faults of `read_bytes`, or with `ReadOnly`; nothing is written.
    /// - `Failed` with the first piece that failed and its fault; `NoMemory` only if a `crypt` line is on the way.
    pub fn write_bytes(&mut self, device: DevId, first: u64, bytes: &[u8]) -> Result<(), BytesFault>
        ensures written { WritesBytes self.old device.0 first bytes.now result self.new }
        ensures handed { HandsBytes D.state D.does self.old (device.0, first) bytes.now result self.new }
        ensures memory { (piece : PieceFault) → result ≡ Err (BytesFault.Failed piece) → LacksMemory piece → SomeEncrypt (said_at self.old.stack.config (mapped device.0)) first (length bytes.now / 512) }
    {
        write_range(self.stack.config(), device, first, bytes)?;
        write_pieces(&mut self.stack, device, first, bytes)?;
        Ok(())
    }

    /// Adds the devices of a text, all or none.
    ///
    /// # Errors
    ///
    /// `Busy` if a request is in flight, or the fault of `Stack::load`.
    pub fn load(&mut self, text: &StackText) -> Result<(), BusyOr<LoadFault>>
        ensures { Step EachPart self.old (load text.now result) self.new }
    {
        if !self.flights.is_empty() {
            return Err(BusyOr::Busy);
        }
        let outcome = self.stack.load(text);
        // As in `new`.
        let _loaded = self.stack.config();
        match outcome {
            Ok(()) => Ok(()),
            Err(fault) => Err(BusyOr::Fault(fault)),
        }
    }

    /// Removes the device of that name.
    ///
    /// # Errors
    ///
    /// `Busy` if a request is in flight, or the fault of `Stack::remove`.
    pub fn remove(&mut self, name: &[u8]) -> Result<(), BusyOr<RemoveFault>>
        ensures { Step EachPart self.old (remove_device name.now result) self.new }
    {
        let busy = !self.flights.is_empty();
        if busy {
            return Err(BusyOr::Busy);
        }
        let outcome = self.stack.remove(name);
        // As in `new`.
        let _loaded = self.stack.config();
        match outcome {
            Ok(()) => Ok(()),
            Err(fault) => Err(BusyOr::Fault(fault)),
        }
    }
}

impl<D: SyncDev> Queue<D> {
    /// Syncs the dirty leaves in order, also while requests are in flight. On `Ok` no leaf is dirty. `called` states its calls
    /// of the leaves' devices.
    ///
    /// # Errors
    ///
    /// `Device` with the first leaf whose sync failed, counted from 1; later leaves aren't synced then.
    pub fn sync(&mut self) -> Result<(), IoFault>
        ensures step { Step EachPart self.old (sync result) self.new }
        ensures called { MakesSyncs D.state D.does self.old.stack.leaves result self.new.stack.leaves }
    {
        self.stack.sync()
    }
}
