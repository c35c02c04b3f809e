//! Maps in which nothing remains to be read.
ghost use Rattle.std.specs.Prelude.{◌≡◌};
ghost use Rattle.std.specs.List.{list_all};
ghost use Rattle.dm_table.specs.Words.{words};
ghost use Rattle.rescue_map.specs.Blocks.{map_block};
ghost use Rattle.rescue_map.specs.Finished.{is_final, is_final_block, is_finished};
ghost use Rattle.rescue_map.specs.MapText.{said};

use crate::block::read_block;
use crate::lines::{Lines, next_said};
use crate::status::Status;

fn is_final(status: Status, again: bool) -> bool
    ensures { result ≡ is_final again status }
{
    match status {
        Status::Recovered => true,
        Status::Bad => !again,
        _ => false,
    }
}

// Whether a line is a block that isn't read.
fn is_final_line(line: &[u8], again: bool) -> bool
    ensures { result ≡ is_final_block again (map_block (words line.now)) }
{
    match read_block(line) {
        Ok(block) => is_final(block.status, again),
        Err(_) => false,
    }
}

// Whether the remaining lines are blocks that aren't read.
fn are_final(lines: &mut Lines<'_>, again: bool) -> bool
    ensures { result ≡ list_all (λ line. is_final_block again (map_block line)) (said lines.old) }
{
    'lines: while let Some(line) = next_said(lines) {
        if !is_final_line(line, again) {
            return false;
        }
    }
    true
}

/// Returns whether all blocks of the map in a text are recovered or, unless bad ones are read again, bad.
#[tactic(auto, unfolding(crate::specs::Finished::is_finished))]
pub fn is_finished(text: &[u8], again: bool) -> bool
    ensures { result ≡ is_finished again text.now }
{
    let mut lines = Lines::new(text);
    match next_said(&mut lines) {
        Some(_status) => are_final(&mut lines, again),
        None => false,
    }
}
