//! The sectors that a line requests to read or write.
ghost use Rattle.std.specs.Prelude.{◌≡◌, ◌*◌, ◌≤◌, IfErr, IfOk, OnErr, replicate};
ghost use Rattle.allocation.specs.Asked.{WasRefused};
ghost use Rattle.allocation.specs.Refusal.{IsOutOfMemory};
ghost use Rattle.request_queue.specs.Requests.{request_record};
ghost use Rattle.stack_session.specs.Accesses.{IsSmall, access_record, first_of, request_room};

use allocation::{OutOfMemory, copied, filled};
use request_queue::Request;
use std::alloc::Global;

const SECTOR: usize = 512;

/// Sectors of the device of that name, each byte of which is to be `byte`.
#[derive(Clone, Copy, Debug, PartialEq, Eq)]
pub struct Filling<'a> {
    pub name: &'a [u8],
    pub first: u64,
    pub count: u64,
    pub byte: u8,
}

/// Sectors of the device of that name.
#[derive(Clone, Copy, Debug, PartialEq, Eq)]
pub enum Access<'a> {
    Read {
        name: &'a [u8],
        first: u64,
        count: u64,
    },
    Write(Filling<'a>),
}

impl<'a> Access<'a> {
    /// Returns the first of the sectors.
    pub fn first(self) -> u64
        ensures { result ≡ first_of (access_record self.entry) }
    {
        match self {
            Access::Read { first, .. } => first,
            Access::Write(filling) => filling.first,
        }
    }

    /// Returns the request for the sectors, with the data of a write.
    ///
    /// # Errors
    ///
    /// `OutOfMemory` if an allocation of no more bytes than the request holds was refused.
    pub fn request(self, alloc: Global) -> Result<Request, OutOfMemory>
        requires { IsSmall self }
        ensures ok { IfOk result (λ request. request_record request ≡ access_record self.entry) }
        ensures err { OnErr result (IsOutOfMemory (request_room (access_record self.entry))) }
    {
        match self {
            Access::Read { name, first, count } => Ok(Request::Read {
                device: copied(alloc, name)?,
                first,
                count,
            }),
            Access::Write(filling) => Ok(Request::Write {
                device: copied(alloc, filling.name)?,
                first: filling.first,
                bytes: filled_sectors(alloc, filling.count, filling.byte)?,
            }),
        }
    }
}

// Returns `count` sectors of which every byte is `byte`.
fn filled_sectors(alloc: Global, count: u64, byte: u8) -> Result<Vec<u8>, OutOfMemory>
    requires { count ≤ 2049 }
    ensures ok { IfOk result (λ bytes. bytes.items ≡ replicate (512 * count) byte) }
    ensures err { IfErr result (WasRefused (512 * count)) }
{
    filled(alloc, count as usize * SECTOR, byte)
}
