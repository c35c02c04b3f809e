//! The command `scan`.
ghost use Rattle.std.specs.Prelude.{OnOk, IfErr};
ghost use Rattle.stack_files.specs.Warnings.{notes_of};
ghost use Rattle.stack_commands.specs.Contexts.{DoesScan, EndsScan, NotesOfScan};

use crate::context::Context;
use crate::fault::CommandFault;
use crate::words::device_source;
use command_line::ScanWords;
use device_adapters::Progress;
use image_files::Images;
use program_io::Counted;
use scan_commands::{ScanPlan, scan_device};
use stack_files::ErrorOutput;
use std::alloc::Global;
use std::io::Write;

/// `scan [--cache N] [--map FILE] [--retries N] [--no-scrape] [--progress] [--json | --chart] (STACK NAME BINDING... | --disk DISK)`: reports which
/// sectors of a device are lost.
///
/// # Errors
///
/// `Recovering` with a fault of `scan_device`.
pub fn invoke_scan<'a, I: Images, W: Write, E: Write, P: Progress>(
    alloc: Global,
    context: Context<'_, I, W>,
    words: ScanWords<'a>,
    errors: &mut Counted<E>,
    progress: &mut P,
) -> Result<(), CommandFault<'a>>
    ensures ok { OnOk result (DoesScan I.relations I.Dev.state W.contents context.entry context.exit words.entry) }
    ensures err { IfErr result (EndsScan I.relations I.Dev.state W.contents context.entry context.exit words.entry) }
    ensures noted { NotesOfScan I.relations I.Dev.state W.contents context.entry context.exit words.entry (notes_of E.contents errors.old errors.new) }
{
    let Context { images, writer } = context;
    let ScanWords {
        cache,
        source,
        bindings,
        map,
        retries,
        no_scrape,
        progress: is_shown,
        form,
    } = words;
    if is_shown {
        progress.begin();
    }
    let read = device_source(source, cache, false, &bindings);
    let plan = ScanPlan {
        map,
        retries,
        no_scrape,
        form,
    };
    let output = ErrorOutput { errors, progress };
    Ok(scan_device(alloc, images, read, plan, writer, output)?)
}
