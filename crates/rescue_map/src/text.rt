//! Reading map files.
ghost use Rattle.std.specs.Prelude.{◌≡◌, ◌≤◌, ◌^◌, ℕ, Err, length, IfErr, IfOk, MatchResult};
ghost use Rattle.rescue_map.specs.declared.fault.MapFault.TheVariants as map_fault;
ghost use Rattle.rescue_map.specs.Maps.{marks};
ghost use Rattle.rescue_map.specs.MapText.{IsMapAnswer, blocks_behind, blocks_from, map_of, said};
ghost use Rattle.rescue_map.specs.Tails.{IsTail};

use crate::block::{block_at, is_status, most_bytes, read_block};
use crate::fault::MapFault;
use crate::lines::{Lines, next_said};
use crate::map::Map;
use crate::tail::{Tail, push_block};
use std::alloc::Global;

/// The map of a device, and the bytes after the device that it is of too, if they are a part of a sector.
#[derive(Drop)]
pub struct ParsedMap {
    pub map: Map,
    pub tail: Tail,
}

/// Reads the map of a device of `sectors` sectors, or of a file that has a part of a sector after them. A sector has the least
/// advanced status of its bytes.
///
/// # Errors
///
/// The first fault in reading order, or `NoMemory` if the allocation of room for one run fails.
pub fn parse_map(alloc: Global, text: &[u8], sectors: u64) -> Result<ParsedMap, MapFault>
    requires { sectors ≤ 2 ^ 54 }
    ensures answer { IsMapAnswer result (map_of sectors text.now) }
    ensures sectors { IfOk result (λ read. length (marks read.map) ≡ sectors) }
    ensures tail { IfOk result (λ read. IsTail read.tail) }
{
    let mut lines = Lines::new(text);
    take_status(&mut lines)?;
    let mut map = Map::new(alloc);
    let most = most_bytes(sectors);
    let mut tail = Tail::none();
    let mut at = 0;
    'lines: while let Some(line) = next_said(&mut lines) {
        let block = block_at(at, most, read_block(line)?)?;
        tail = push_block(&mut map, tail, block)?;
        at += block.count;
    }
    if at / 512 != sectors {
        return Err(MapFault::Size);
    }
    Ok(ParsedMap { map, tail })
}

// Removes the status line.
//
// # Errors
//
// `Status` if the first line isn't a status line, or there is none.
fn take_status(lines: &mut Lines<'_>) -> Result<(), MapFault>
    ensures runs { MatchResult result
        (λ _. (n : ℕ) → blocks_behind n (said lines.old) ≡ blocks_from n 0 (said lines.new))
        (λ fault. (n : ℕ) → blocks_behind n (said lines.old) ≡ Err fault) }
    ensures err { IfErr result (λ fault. fault ≡ map_fault.Status) }
{
    match next_said(lines) {
        Some(line) if is_status(line) => Ok(()),
        _ => Err(MapFault::Status),
    }
}
