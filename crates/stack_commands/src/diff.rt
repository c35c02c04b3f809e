//! The command `diff`: which data blocks of two images differ.
ghost use Rattle.std.specs.Prelude.{OnOk, IfErr};
ghost use Rattle.stack_commands.specs.Contexts.{DoesDiff, EndsDiff};

use crate::context::Context;
use crate::fault::CommandFault;
use command_line::{DiffWords, OptionWords};
use image_files::Images;
use std::alloc::Global;
use std::io::Write;
use verity_commands::{both_sought_in, invoke_diff};

/// `diff [OPTIONS] HASH1 [ROOT1] HASH2 [ROOT2]`. The files of root hashes and pins, and the trees that options state, are read before
/// an image is opened.
///
/// # Errors
///
/// `Verity` if the options state no tree, or such a file can't be read or is invalid; or `Trees` with a fault of `invoke_diff`.
pub fn compare_images<'a, I: Images, W: Write>(
    alloc: Global,
    context: Context<'_, I, W>,
    words: &DiffWords<'a>,
    options: &OptionWords<'a>,
) -> Result<(), CommandFault<'a>>
    ensures ok { OnOk result (DoesDiff I.relations I.Dev.state W.contents context.entry context.exit words.now options.now) }
    ensures err { IfErr result (EndsDiff I.relations I.Dev.state W.contents context.entry context.exit words.now options.now) }
{
    let Context { images, writer } = context;
    let sought = match both_sought_in(alloc, images, words, options) {
        Ok(sought) => sought,
        Err(fault) => return Err(CommandFault::Verity(fault)),
    };
    Ok(invoke_diff(alloc, images, words, &sought, writer)?)
}
