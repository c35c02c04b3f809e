//! Prints a line for each repaired block.
ghost use Rattle.std.specs.Prelude.{◌≡◌, ◌<◌};
ghost use Rattle.program_io.specs.Counted.{Writes};
ghost use Rattle.tree_repair.specs.Jobs.{copy_line_at, job, block_lines, parity_line_at};
ghost use Rattle.tree_repair.specs.Runs.{data_line, data_parity_line, repaired_hash_line, hash_parity_line, made_line, remade_line, verb};

use crate::mending::Mended;
use crate::place::{Place, Repair};
use program_io::{Counted, WriteFault};
use std::io::Write;

/// Prints the line of a repaired block and flushes it, because the next block may take long. Prints nothing for other blocks.
pub(crate) fn say_mended<W: Write>(
    writer: &mut Counted<W>,
    repair: &Repair,
    place: Place,
    mended: Mended,
) -> Result<(), WriteFault>
    requires { place.index < repair.now.shape.blocks }
    ensures { Writes W.contents writer.old writer.new (block_lines repair.now place mended) result }
{
    match mended {
        Mended::Good => writer.put(b""),
        Mended::Copy(number) => {
            say_copy(writer, repair, place, number)?;
            writer.flush()
        }
        Mended::Remade => {
            say_made(writer, repair, place)?;
            writer.flush()
        }
        Mended::Parity => {
            say_parity(writer, repair, place)?;
            writer.flush()
        }
        Mended::Lost => writer.put(b""),
    }
}

fn say_copy<W: Write>(
    writer: &mut Counted<W>,
    repair: &Repair,
    place: Place,
    number: usize,
) -> Result<(), WriteFault>
    requires { place.index < repair.now.shape.blocks }
    ensures { Writes W.contents writer.old writer.new (copy_line_at repair.now place number) result }
{
    let Place { height, index } = place;
    if height == 0 {
        return say_data(writer, repair.write, index, number);
    }
    let level = height - 1;
    let block = repair.shape.block_on_path(level, index);
    say_hash(writer, repair.write, level, block, number)
}

fn say_made<W: Write>(
    writer: &mut Counted<W>,
    repair: &Repair,
    place: Place,
) -> Result<(), WriteFault>
    requires { place.index < repair.now.shape.blocks }
    ensures { Writes W.contents writer.old writer.new (made_line (job repair.now) place.height place.index) result }
{
    let Place { height, index } = place;
    if height == 0 {
        return writer.put(b"");
    }
    let level = height - 1;
    let block = repair.shape.block_on_path(level, index);
    say_remade(writer, repair.write, level, block)
}

// `VERB hash LEVEL NUMBER remade`
#[tactic(auto, unfolding(crate::specs::Runs::remade_line))]
fn say_remade<W: Write>(
    writer: &mut Counted<W>,
    write: bool,
    level: u32,
    block: u64,
) -> Result<(), WriteFault>
    ensures { Writes W.contents writer.old writer.new (remade_line write level block) result }
{
    let verb = verb(write);
    writer.print(format_args!("{verb} hash {level} {block} remade\n"))
}

fn say_parity<W: Write>(
    writer: &mut Counted<W>,
    repair: &Repair,
    place: Place,
) -> Result<(), WriteFault>
    requires { place.index < repair.now.shape.blocks }
    ensures { Writes W.contents writer.old writer.new (parity_line_at repair.now place) result }
{
    let Place { height, index } = place;
    if height == 0 {
        return say_data_parity(writer, repair.write, index);
    }
    let level = height - 1;
    let block = repair.shape.block_on_path(level, index);
    say_hash_parity(writer, repair.write, level, block)
}

// `VERB data INDEX parity`
#[tactic(auto, unfolding(crate::specs::Runs::data_parity_line))]
fn say_data_parity<W: Write>(
    writer: &mut Counted<W>,
    write: bool,
    index: u64,
) -> Result<(), WriteFault>
    ensures { Writes W.contents writer.old writer.new (data_parity_line write index) result }
{
    let verb = verb(write);
    writer.print(format_args!("{verb} data {index} parity\n"))
}

// `VERB hash LEVEL NUMBER parity`
#[tactic(auto, unfolding(crate::specs::Runs::hash_parity_line))]
fn say_hash_parity<W: Write>(
    writer: &mut Counted<W>,
    write: bool,
    level: u32,
    block: u64,
) -> Result<(), WriteFault>
    ensures { Writes W.contents writer.old writer.new (hash_parity_line write level block) result }
{
    let verb = verb(write);
    writer.print(format_args!("{verb} hash {level} {block} parity\n"))
}

fn verb(write: bool) -> &'static str
    ensures { result.now ≡ verb write }
{
    if write { "repaired" } else { "repairable" }
}

// `VERB data INDEX copy K`
#[tactic(auto, unfolding(crate::specs::Runs::data_line))]
fn say_data<W: Write>(
    writer: &mut Counted<W>,
    write: bool,
    index: u64,
    number: usize,
) -> Result<(), WriteFault>
    ensures { Writes W.contents writer.old writer.new (data_line write index number) result }
{
    let verb = verb(write);
    writer.print(format_args!("{verb} data {index} copy {number}\n"))
}

// `VERB hash LEVEL NUMBER copy K`
#[tactic(auto, unfolding(crate::specs::Runs::repaired_hash_line))]
fn say_hash<W: Write>(
    writer: &mut Counted<W>,
    write: bool,
    level: u32,
    block: u64,
    number: usize,
) -> Result<(), WriteFault>
    ensures { Writes W.contents writer.old writer.new (repaired_hash_line write level block number) result }
{
    let verb = verb(write);
    writer.print(format_args!("{verb} hash {level} {block} copy {number}\n"))
}
