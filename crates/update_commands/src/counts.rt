//! How many blocks an update kept, moved and fetched.
ghost use Rattle.std.specs.Prelude.{◌≡◌, ◌+◌, string_bytes, true, IfErr, IfOk, OnOk};
ghost use Rattle.program_io.specs.Counted.{Writes};
ghost use Rattle.program_io.specs.JsonLines.{json_line};
ghost use Rattle.serde_json.specs.View.{view};
ghost use Rattle.update_commands.specs.Counts.{IsUncounted, SaysCounts, SaysLosses, all_blocks, blocks_in, counts_json, counts_of, counts_text, is_damaged};

use program_io::{Counted, WriteFault, line_of};
use repair_commands::Counters;
use serde_json::{Value, json};
use std::alloc::{AllocError, Global};
use std::io::Write;
use tree_shape::Shape;
use tree_survey::SurveyFault;
use verity_commands::TreeFault;
use verity_format::{VerifyFault, given_blocks};

/// What the devices had counted when the update began, and how many data blocks were copied by lists since.
#[derive(Clone, Copy)]
pub(crate) struct Tally {
    pub before: Counters,
    pub copied: u64,
}

/// How many blocks of an image weren't written, how many were written with bytes of the release, and how many others were: copied by
/// lists, found in other copies, or computed; data blocks and hash blocks are counted, and the sum is the number of the image's blocks.
/// Lost blocks count as kept. `bytes` is what was read from the release, also in vain. A block that was found elsewhere counts as
/// fetched instead of moved only for a block that the release sent in vain.
#[derive(Clone, Copy)]
pub(crate) struct Counts {
    pub kept: u64,
    pub moved: u64,
    pub fetched: u64,
    pub bytes: u64,
}

/// Returns the counts of an image of that shape, by the counters before and after.
pub(crate) fn counts_of(shape: &Shape, tally: &Tally, after: &Counters) -> Counts
    ensures value { result ≡ counts_of shape.now tally.now after.now }
    ensures whole { result.kept + result.moved + result.fetched ≡ all_blocks shape.now }
{
    let data_written = after.data_written.saturating_sub(tally.before.data_written);
    let hash_written = after.hash_written.saturating_sub(tally.before.hash_written);
    let data_read = after.data_read.saturating_sub(tally.before.data_read);
    let hash_read = after.hash_read.saturating_sub(tally.before.hash_read);
    let all = shape.blocks().saturating_add(shape.area_blocks());
    let written = blocks_in(shape, data_written, hash_written).min(all);
    let read = blocks_in(shape, data_read, hash_read);
    let fetched = written.saturating_sub(tally.copied).min(read);
    Counts {
        kept: all.saturating_sub(written),
        moved: written.saturating_sub(fetched),
        fetched,
        bytes: data_read.saturating_add(hash_read).saturating_mul(512),
    }
}

// Returns how many data blocks and hash blocks so many sectors have.
fn blocks_in(shape: &Shape, data_sectors: u64, hash_sectors: u64) -> u64
    ensures { result ≡ blocks_in shape.now data_sectors hash_sectors }
{
    let data = given_blocks(None, shape.data_block(), data_sectors);
    let hash = given_blocks(None, shape.hash_block(), hash_sectors);
    data.saturating_add(hash)
}

/// Prints the counts: `kept N moved N fetched N bytes N`, or as a JSON object.
///
/// # Errors
///
/// - `Write` if the writer failed.
/// - `Survey` with `NoMemory` if there is no memory for the object.
pub(crate) fn say_counts<'a, W: Write>(
    alloc: Global,
    counts: &Counts,
    json: bool,
    writer: &mut Counted<W>,
) -> Result<(), TreeFault<'a>>
    ensures ok { OnOk result (SaysCounts W.contents writer.old writer.new json counts.now) }
    ensures err { IfErr result (IsUncounted json writer.new.failed) }
{
    if json {
        return say_object(alloc, counts, writer);
    }
    say_line(writer, counts)?;
    Ok(())
}

/// Prints the counts as a JSON object, if that is wanted and blocks are lost. If they can't be printed, the update ends by its cause
/// nevertheless.
pub(crate) fn say_losses<W: Write>(
    alloc: Global,
    counts: &Counts,
    json: bool,
    cause: TreeFault<'_>,
    writer: &mut Counted<W>,
)
    ensures { SaysLosses W.contents counts.now json cause.entry writer.old writer.new }
{
    if !json {
        return;
    }
    if !is_damaged(cause) {
        return;
    }
    match say_counts(alloc, counts, true, writer) {
        Ok(()) => {}
        Err(_) => {}
    }
}

// Whether blocks are lost.
fn is_damaged(fault: TreeFault<'_>) -> bool
    ensures { result ≡ is_damaged fault.entry }
{
    matches!(fault, TreeFault::Damaged)
}

#[tactic(auto, unfolding(crate::specs::Counts::counts_text))]
fn say_line<W: Write>(writer: &mut Counted<W>, counts: &Counts) -> Result<(), WriteFault>
    ensures { Writes W.contents writer.old writer.new (counts_text counts.now) result }
{
    let kept = counts.kept;
    let moved = counts.moved;
    let fetched = counts.fetched;
    let bytes = counts.bytes;
    writer.print(format_args!("kept {kept} moved {moved} fetched {fetched} bytes {bytes}\n"))
}

fn say_object<'a, W: Write>(
    alloc: Global,
    counts: &Counts,
    writer: &mut Counted<W>,
) -> Result<(), TreeFault<'a>>
    ensures ok { OnOk result (SaysCounts W.contents writer.old writer.new true counts.now) }
    ensures err { IfErr result (IsUncounted true writer.new.failed) }
{
    match counts_line(alloc, counts) {
        Ok(line) => {
            writer.put(line.as_bytes())?;
            Ok(())
        }
        Err(_) => Err(TreeFault::Survey(SurveyFault::Image(VerifyFault::NoMemory))),
    }
}

#[tactic(auto, using(crate::proofs::CountLemmas::plain_counts))]
fn counts_line(alloc: Global, counts: &Counts) -> Result<String, AllocError>
    ensures { IfOk result (λ line. string_bytes line ≡ json_line (counts_json counts.now)) }
{
    let value = counts_value(alloc, counts)?;
    line_of(alloc, &value)
}

// The members in the order of their keys.
fn counts_value(alloc: Global, counts: &Counts) -> Result<Value, AllocError>
    ensures { IfOk result (λ value. view value ≡ counts_json counts.now) }
{
    let kept = counts.kept;
    let moved = counts.moved;
    let fetched = counts.fetched;
    let bytes = counts.bytes;
    json!(in alloc; {"fetched": fetched, "fetched_bytes": bytes, "kept": kept, "moved": moved})
}
