//! The command `write`: writes a file's bytes to a device.
ghost use Rattle.std.specs.Prelude.{OnOk, IfErr};
ghost use Rattle.stack_files.specs.Warnings.{notes_of};
ghost use Rattle.stack_commands.specs.Contexts.{DoesWrite, EndsWrite, EndsWriting, IsSilentOn, NotesOfWrite, NotesOfWriting, WritesFile};

use crate::context::Context;
use crate::fault::CommandFault;
use crate::words::stack_file;
use command_line::{Transfer, WriteWords};
use image_files::Images;
use program_io::Counted;
use stack_files::StackFile;
use stack_session::say_written;
use std::alloc::Global;
use std::io::Write;
use transfer_commands::write_source;

/// `write [--cache N] STACK NAME FIRST SOURCE BINDING...`: writes the bytes of the source file to a device of a stack file
/// over the bindings. The images are synced and closed before anything is printed.
///
/// # Errors
///
/// `Request` with a fault of `write_source`, or `Session` if the line can't be written; the bytes were written then.
pub fn invoke_write<'a, I: Images, W: Write, E: Write>(
    alloc: Global,
    context: Context<'_, I, W>,
    words: WriteWords<'a>,
    errors: &mut Counted<E>,
) -> Result<(), CommandFault<'a>>
    ensures ok { OnOk result (DoesWrite I.relations I.Dev.state W.contents context.entry context.exit words.entry) }
    ensures err { IfErr result (EndsWrite I.relations I.Dev.state W.contents context.entry context.exit words.entry) }
    ensures noted { NotesOfWrite I.relations I.Dev.state W.contents context.entry context.exit words.entry (notes_of E.contents errors.old errors.new) }
{
    let WriteWords {
        cache,
        stack,
        transfer,
        bindings,
    } = words;
    let file = stack_file(stack, &bindings);
    write_stack_file(alloc, context, file, cache, transfer, errors)
}

// Writes the bytes of the source file to a device of a stack file. The images are synced and closed before anything is printed.
#[tactic(auto, using(crate::proofs::EndingLemmas::quiet))]
fn write_stack_file<'a, I: Images, W: Write, E: Write>(
    alloc: Global,
    context: Context<'_, I, W>,
    file: StackFile<'a, '_>,
    cache: u32,
    transfer: Transfer<'a>,
    errors: &mut Counted<E>,
) -> Result<(), CommandFault<'a>>
    ensures ok { OnOk result (WritesFile I.relations I.Dev.state W.contents context.entry context.exit file.entry cache transfer.entry) }
    ensures err { IfErr result (EndsWriting I.relations I.Dev.state W.contents context.entry context.exit file.entry cache transfer.entry) }
    ensures quiet { IfErr result (IsSilentOn W.contents context.entry context.exit) }
    ensures noted { NotesOfWriting I.relations I.Dev.state W.contents context.entry context.exit file.entry cache transfer.entry (notes_of E.contents errors.old errors.new) }
{
    let Context { images, writer } = context;
    write_source(alloc, images, file, cache, transfer, errors)?;
    Ok(say_written(writer)?)
}
