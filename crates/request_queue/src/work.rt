//! What a request in flight does.
ghost use Rattle.std.specs.Prelude.{ℕ, ◌≡◌, ◌≤◌, ◌+◌, ◌++◌, length, OnOk, OnErr, IfOk, IfErr};
ghost use Rattle.allocation.specs.Refusal.{IsOutOfMemory};
ghost use Rattle.stack_meaning.specs.Memory.{largest_allocation};
ghost use Rattle.stack_rules.specs.Names.{mapped, size};
ghost use Rattle.request_queue.specs.Flights.{IsWorkOn, first_work, joint_answer, reply_to, work_record};
ghost use Rattle.request_queue.specs.Parts.{EachPart};
ghost use Rattle.request_queue.specs.PieceCalls.{CalledPart};
ghost use Rattle.request_queue.specs.Requests.{request_record};
ghost use Rattle.request_queue.specs.Serving.{PartDone, PartFailed};
ghost use Rattle.request_queue.specs.World.{largest_submission};

use crate::range::SectorRange;
use crate::reply::Reply;
use crate::request::Request;
use allocation::{OutOfMemory, append, push, with_capacity};
use block_device::BlockDev;
use stack_engine::{Answer, Found, IoFault, Stack};
use std::alloc::Global;

/// What a request does, with what it has got so far.
#[derive(Drop)]
pub(crate) enum Work {
    /// It reads; room for all its bytes is there from the start.
    Read(Answer),
    /// It writes these bytes, as they were passed.
    Write(Vec<u8>),
}

// One by one, so that the size of a failed allocation is known.
fn append_chains(chains: &mut Vec<Found>, mut more: Vec<Found>) -> Result<(), OutOfMemory>
    ensures ok { OnOk result (chains.new.items ≡ chains.old.items ++ more.items) }
    ensures err { OnErr result (IsOutOfMemory largest_allocation) }
{
    more.reverse();
    'rest: while let Some(chain) = more.pop() {
        push(chains, chain)?;
    }
    Ok(())
}

/// Appends the bytes and chains of a piece.
fn append_piece(got: &mut Answer, piece: Answer) -> Result<(), OutOfMemory>
    requires { length piece.bytes ≤ largest_allocation }
    ensures ok { OnOk result (got.new ≡ joint_answer got.old piece) }
    ensures err { OnErr result (IsOutOfMemory largest_allocation) }
{
    append(&mut got.bytes, piece.bytes.as_slice())?;
    append_chains(&mut got.chains, piece.chains)
}

impl Work {
    /// The work of a request for so many sectors, or the request, where memory ran out.
    pub(crate) fn new(alloc: Global, request: Request, count: u64) -> Result<Work, Request>
        requires { count ≤ 2048 }
        ensures ok { IfOk result (λ work. work_record work ≡ first_work (request_record request)) }
        ensures same { IfErr result (λ back. back ≡ request) }
        ensures err { OnErr result (IsOutOfMemory largest_submission) }
    {
        match request {
            Request::Read { .. } => {
                let Ok(bytes) = with_capacity(alloc, count as usize * 512) else {
                    return Err(request);
                };
                let chains = Vec::new(alloc);
                Ok(Work::Read(Answer { bytes, chains }))
            }
            Request::Write { bytes, .. } => Ok(Work::Write(bytes)),
        }
    }

    /// Serves a piece, after as many sectors as are done.
    pub(crate) fn serve<D: BlockDev>(
        &mut self,
        stack: &mut Stack<D>,
        piece: SectorRange,
        done: u64,
    ) -> Result<(), IoFault>
        requires some { 1 ≤ piece.count }
        requires most { piece.count ≤ 128 }
        requires inside { piece.first + piece.count ≤ size stack.old.config (mapped piece.device.0) }
        requires work { (rest : ℕ) × (piece.count ≤ rest) × IsWorkOn stack.old.config piece.device.0 (done + rest) (work_record self.old) }
        ensures ok { OnOk result (PartDone EachPart stack.old piece done (work_record self.old) stack.new (work_record self.new)) }
        ensures err { IfErr result (λ fault. PartFailed EachPart stack.old piece done (work_record self.old) fault stack.new) }
        ensures called { OnOk result (PartDone (CalledPart D.state D.does) stack.old piece done (work_record self.old) stack.new (work_record self.new)) }
        ensures failed { IfErr result (λ fault. PartFailed (CalledPart D.state D.does) stack.old piece done (work_record self.old) fault stack.new) }
    {
        match self {
            Work::Read(got) => {
                let more = stack.read_piece(piece.device, piece.first, piece.count as u32)?;
                match append_piece(got, more) {
                    Ok(()) => Ok(()),
                    Err(_) => Err(IoFault::NoMemory),
                }
            }
            Work::Write(bytes) => {
                let start = done as usize * 512;
                let part = &bytes[start..start + piece.count as usize * 512];
                stack.write_piece(piece.device, piece.first, part)
            }
        }
    }

    /// Returns the reply of a request of which no sector is left.
    pub(crate) fn into_reply(self) -> Reply
        ensures { result ≡ reply_to (work_record self) }
    {
        match self {
            Work::Read(got) => Reply::Sectors(got),
            Work::Write(_) => Reply::Written,
        }
    }
}
