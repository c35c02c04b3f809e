//! Requests to a stack.
ghost use Rattle.std.specs.Prelude.{IfOk, IfErr};
ghost use Rattle.request_queue.specs.Requests.{request_record};
ghost use Rattle.transfer_commands.specs.Requests.{FailsToServe, HasReply};

use crate::request_fault::RequestFault;
use block_device::BlockDev;
use request_queue::{Queue, Reply, Request, RunFault};

/// Serves a request to its end, and returns its reply.
///
/// # Errors
///
/// - `NoMemory` if an allocation was refused before the request began.
/// - `Submit` if the queue refused the request.
/// - `Io` if the request ended in a fault.
pub fn serve_request<'a, D: BlockDev + Drop>(
    queue: &mut Queue<D>,
    request: Request,
) -> Result<Reply, RequestFault<'a>>
    ensures ok { IfOk result (λ reply. HasReply queue.old (request_record request) reply queue.new) }
    ensures err { IfErr result (λ fault. FailsToServe queue.old (request_record request) fault queue.new) }
{
    match queue.run(request) {
        Ok(reply) => Ok(reply),
        Err(RunFault::Submit(fault, request)) => {
            drop(request);
            Err(RequestFault::Submit(fault))
        }
        Err(RunFault::Io(fault)) => Err(RequestFault::Io(fault)),
    }
}
