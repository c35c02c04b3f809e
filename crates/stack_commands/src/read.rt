//! The command `read`: prints sectors of a device.
ghost use Rattle.std.specs.Prelude.{OnOk, IfErr};
ghost use Rattle.stack_files.specs.Warnings.{notes_of};
ghost use Rattle.stack_commands.specs.Contexts.{DoesRead, EndsRead, EndsReading, IsSilentOn, NotesOfFile, NotesOfRead, ReadsFile};

use crate::context::Context;
use crate::fault::CommandFault;
use crate::words::stack_file;
use command_line::{ReadWords, Sectors};
use image_files::Images;
use program_io::Counted;
use stack_files::StackFile;
use stack_session::say_reply;
use std::alloc::Global;
use std::io::Write;
use transfer_commands::read_sectors;

/// `read [--cache N] STACK NAME FIRST COUNT BINDING...`: prints sectors of a device of a stack file over the bindings, as a
/// session does.
///
/// # Errors
///
/// `Request` with a fault of `read_sectors`, or `Session` if a line can't be written.
pub fn invoke_read<'a, I: Images, W: Write, E: Write>(
    alloc: Global,
    context: Context<'_, I, W>,
    words: ReadWords<'a>,
    errors: &mut Counted<E>,
) -> Result<(), CommandFault<'a>>
    ensures ok { OnOk result (DoesRead I.relations I.Dev.state W.contents context.entry context.exit words.entry) }
    ensures err { IfErr result (EndsRead I.relations I.Dev.state W.contents context.entry context.exit words.entry) }
    ensures noted { NotesOfRead I.relations I.Dev.state W.contents context.entry context.exit words.entry (notes_of E.contents errors.old errors.new) }
{
    let ReadWords {
        cache,
        stack,
        sectors,
        bindings,
    } = words;
    let file = stack_file(stack, &bindings);
    read_stack_file(alloc, context, file, cache, sectors, errors)
}

// Sectors of a device of a stack file, written as a session does.
#[tactic(auto, using(crate::proofs::EndingLemmas::quiet))]
fn read_stack_file<'a, I: Images, W: Write, E: Write>(
    alloc: Global,
    context: Context<'_, I, W>,
    file: StackFile<'a, '_>,
    cache: u32,
    sectors: Sectors<'_>,
    errors: &mut Counted<E>,
) -> Result<(), CommandFault<'a>>
    ensures ok { OnOk result (ReadsFile I.relations I.Dev.state W.contents context.entry context.exit file.entry cache sectors.entry) }
    ensures err { IfErr result (EndsReading I.relations I.Dev.state W.contents context.entry context.exit file.entry cache sectors.entry) }
    ensures quiet { IfErr result (IsSilentOn W.contents context.entry context.exit) }
    ensures noted { NotesOfFile I.relations I.Dev.state W.contents context.entry context.exit file.entry cache (notes_of E.contents errors.old errors.new) }
{
    let Context { images, writer } = context;
    let reply = read_sectors(alloc, images, file, cache, sectors, errors)?;
    Ok(say_reply(writer, sectors.first, reply)?)
}
