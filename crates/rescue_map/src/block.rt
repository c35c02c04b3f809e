//! The lines of a map file.
ghost use Rattle.std.specs.Prelude.{◌≡◌, ◌≢◌, ◌+◌, ◌^◌, ◌≤◌, IfErr, IfOk};
ghost use Rattle.rescue_map.specs.declared.fault.MapFault.TheVariants as map_fault;
ghost use Rattle.dm_table.specs.Words.{words};
ghost use Rattle.rescue_map.specs.Blocks.{block_at, is_status, is_whole_letter, is_whole_status, map_block, most_bytes, status_of};

use crate::fault::MapFault;
use crate::numbers::map_number;
use crate::status::{Status, status_named};
use table_text::Words;

/// A block of `count` bytes from `first` on, and its status.
#[derive(Clone, Copy)]
pub(crate) struct Block {
    pub(crate) first: u64,
    pub(crate) count: u64,
    pub(crate) status: Status,
}

// Returns the status of a block, or `None` for an unknown one.
fn status_of(word: &[u8]) -> Option<Status>
    ensures { result ≡ status_of word.now }
{
    if word.len() != 1 {
        return None;
    }
    status_named(word[0])
}

// Returns whether a letter is the status of a whole map.
fn is_whole_letter(letter: u8) -> bool
    ensures { result ≡ is_whole_letter letter }
{
    status_named(letter).is_some() || letter == b'F' || letter == b'G'
}

fn is_state(word: &[u8]) -> bool
    ensures { result ≡ is_whole_status word.now }
{
    if word.len() != 1 {
        return false;
    }
    is_whole_letter(word[0])
}

/// Returns whether a line is a status line. The number of the pass isn't checked.
pub(crate) fn is_status(line: &[u8]) -> bool
    ensures { result ≡ is_status (words line.now) }
{
    let mut words = Words::new(line);
    let Some(pos) = words.next_word() else {
        return false;
    };
    let Some(state) = words.next_word() else {
        return false;
    };
    let _pass = words.next_word();
    words.next_word().is_none() && map_number(pos).is_some() && is_state(state)
}

/// Returns the block of a line.
///
/// # Errors
///
/// `Block` if the line isn't one of a block.
pub(crate) fn read_block(line: &[u8]) -> Result<Block, MapFault>
    ensures value { result ≡ map_block (words line.now) }
    ensures err { IfErr result (λ fault. fault ≡ map_fault.Block) }
{
    let mut words = Words::new(line);
    let pos = words.next_word().ok_or(MapFault::Block)?;
    let size = words.next_word().ok_or(MapFault::Block)?;
    let status = words.next_word().ok_or(MapFault::Block)?;
    if words.next_word().is_some() {
        return Err(MapFault::Block);
    }
    let first = map_number(pos).ok_or(MapFault::Block)?;
    let count = map_number(size).ok_or(MapFault::Block)?;
    let status = status_of(status).ok_or(MapFault::Block)?;
    Ok(Block {
        first,
        count,
        status,
    })
}

/// Returns the number of bytes that a map of a device of so many sectors may have.
pub(crate) fn most_bytes(sectors: u64) -> u64
    requires { sectors ≤ 2 ^ 54 }
    ensures { result ≡ most_bytes sectors }
{
    sectors * 512 + 511
}

/// Returns a block that must begin at byte `at` of a map of at most `most` bytes.
///
/// # Errors
///
/// The first that applies, in this order:
///
/// - `PartSector` if the block is empty.
/// - `Gap` or `Overlap` if it begins after or before byte `at`.
/// - `Size` if it ends after these bytes.
pub(crate) fn block_at(at: u64, most: u64, block: Block) -> Result<Block, MapFault>
    requires { at ≤ most }
    ensures value { result ≡ block_at at most block }
    ensures room { IfOk result (λ found. (1 ≤ found.count) × (at + found.count ≤ most)) }
    ensures err { IfErr result (λ fault. fault ≢ map_fault.NoMemory) }
{
    if block.count == 0 {
        return Err(MapFault::PartSector);
    }
    if at < block.first {
        return Err(MapFault::Gap);
    }
    if block.first < at {
        return Err(MapFault::Overlap);
    }
    if most - at < block.count {
        return Err(MapFault::Size);
    }
    Ok(block)
}
