//! Blocks of bytes as sectors.
ghost use Rattle.std.specs.Prelude.{◌≡◌, ◌+◌, ◌*◌, ◌<◌, ◌≤◌, ◌^◌, ◌++◌, length, IfOk, MatchResult};
ghost use Rattle.allocation.specs.Asked.{asked};
ghost use Rattle.rescue_map.specs.Maps.{marks};
ghost use Rattle.rescue_map.specs.Tails.{block_runs, block_tail, completed, lacking, no_tail, tail_of, whole_run};

use crate::block::Block;
use crate::map::Map;
use crate::stage::run_of;
use crate::status::{Status, least};
use allocation::OutOfMemory;

/// The bytes of a map after its last whole sector, fewer than 512, and the least advanced of their statuses.
#[derive(Clone, Copy, Debug, PartialEq, Eq)]
pub struct Tail {
    pub count: u64,
    pub status: Status,
}

impl Tail {
    /// Returns the tail of a map that ends after a whole sector.
    pub fn none() -> Tail
        ensures { result ≡ no_tail }
    {
        Tail {
            count: 0,
            status: Status::Recovered,
        }
    }
}

// How many bytes complete the sector of a tail.
fn lacking(tail: Tail) -> u64
    requires { tail.count < 512 }
    ensures { result ≡ lacking tail }
{
    if tail.count == 0 { 0 } else { 512 - tail.count }
}

// Appends the sector that a tail and bytes of a status make, if there is a tail.
fn complete(map: &mut Map, tail: Tail, status: Status) -> Result<(), OutOfMemory>
    requires { length (marks map.old) + 1 ≤ 2 ^ 54 }
    ensures { MatchResult result
        (λ _. map.new ≡ map.old ++ completed tail status)
        (λ e. asked e ≡ 1) }
{
    if tail.count == 0 {
        return Ok(());
    }
    map.add(run_of(1, least(tail.status, status)))
}

// Appends the whole sectors of bytes of a status.
fn push_whole(map: &mut Map, count: u64, status: Status) -> Result<(), OutOfMemory>
    requires { length (marks map.old) * 512 + count ≤ 2 ^ 63 + 511 }
    ensures { MatchResult result
        (λ _. map.new ≡ map.old ++ whole_run count status)
        (λ e. asked e ≡ 1) }
{
    if count < 512 {
        return Ok(());
    }
    map.add(run_of(count / 512, status))
}

// The bytes after the whole sectors of bytes of a status.
fn tail_of(count: u64, status: Status) -> Tail
    ensures { result ≡ tail_of count status }
{
    let count = count % 512;
    if count == 0 {
        return Tail::none();
    }
    Tail { count, status }
}

/// Appends the sectors that end with a block after a tail, and returns the tail after it.
///
/// # Errors
///
/// `OutOfMemory` if the allocation of room for one run fails.
pub(crate) fn push_block(map: &mut Map, tail: Tail, block: Block) -> Result<Tail, OutOfMemory>
    requires part { tail.count < 512 }
    requires room { length (marks map.old) * 512 + tail.count + block.count ≤ 2 ^ 63 + 511 }
    ensures runs { MatchResult result
        (λ _. map.new ≡ map.old ++ block_runs tail block)
        (λ e. asked e ≡ 1) }
    ensures tail { IfOk result (λ after. after ≡ block_tail tail block) }
{
    let bytes = tail.count + block.count;
    if bytes < 512 {
        return Ok(Tail {
            count: bytes,
            status: least(tail.status, block.status),
        });
    }
    complete(map, tail, block.status)?;
    let count = block.count - lacking(tail);
    push_whole(map, count, block.status)?;
    Ok(tail_of(count, block.status))
}
