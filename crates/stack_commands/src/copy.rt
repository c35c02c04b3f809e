//! The command `copy`.
ghost use Rattle.std.specs.Prelude.{OnOk, IfErr};
ghost use Rattle.stack_files.specs.Warnings.{notes_of};
ghost use Rattle.stack_commands.specs.Contexts.{DoesCopy, EndsCopy, NotesOfCopy};

use crate::context::Context;
use crate::fault::CommandFault;
use crate::words::device_source;
use command_line::CopyWords;
use device_adapters::Progress;
use image_files::Images;
use program_io::Counted;
use scan_commands::{CopyPlan, copy_device};
use stack_files::ErrorOutput;
use std::alloc::Global;
use std::io::Write;

/// `copy [--cache N] [--differing] [--map FILE] [--retries N] [--no-scrape] [--progress] (STACK NAME OUT BINDING... | --disk [--grow] DISK OUT)`:
/// copies the readable sectors of a device.
///
/// # Errors
///
/// `Recovering` with a fault of `copy_device`.
pub fn invoke_copy<'a, I: Images, W: Write, E: Write, P: Progress>(
    alloc: Global,
    context: Context<'_, I, W>,
    words: CopyWords<'a>,
    errors: &mut Counted<E>,
    progress: &mut P,
) -> Result<(), CommandFault<'a>>
    ensures ok { OnOk result (DoesCopy I.relations I.Dev.state W.contents context.entry context.exit words.entry) }
    ensures err { IfErr result (EndsCopy I.relations I.Dev.state W.contents context.entry context.exit words.entry) }
    ensures noted { NotesOfCopy I.relations I.Dev.state W.contents context.entry context.exit words.entry (notes_of E.contents errors.old errors.new) }
{
    let Context { images, writer } = context;
    let CopyWords {
        cache,
        differing,
        grow,
        source,
        out,
        bindings,
        map,
        retries,
        no_scrape,
        progress: is_shown,
    } = words;
    if is_shown {
        progress.begin();
    }
    let read = device_source(source, cache, grow, &bindings);
    let plan = CopyPlan {
        out,
        differing,
        map,
        retries,
        no_scrape,
    };
    let output = ErrorOutput { errors, progress };
    Ok(copy_device(alloc, images, read, plan, writer, output)?)
}
