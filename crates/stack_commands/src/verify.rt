//! The command `verify`: checks an image, or scans all of it.
ghost use Rattle.std.specs.Prelude.{OnOk, IfErr};
ghost use Rattle.stack_commands.specs.Contexts.{DoesVerify, DoesVerifyAll, EndsVerify, EndsVerifyAll};

use crate::context::Context;
use crate::fault::CommandFault;
use command_line::VerifyWords;
use device_adapters::Watchers;
use image_files::Images;
use std::alloc::Global;
use std::io::Write;
use verity_commands::{VerityFault, invoke_survey, invoke_verify, trusted_in};

/// `verify [--all] [--progress] [--hash-offset BYTES] [--root-hash-file FILE | --pin FILE] DATA HASH [ROOT]`
///
/// # Errors
///
/// `Verity` with a fault of `invoke_verify`; with `--all` one of `trusted_in`, or `Trees` with one of `invoke_survey`.
pub fn check_image<'a, I: Images, S: Watchers, W: Write>(
    alloc: Global,
    context: Context<'_, I, W>,
    watchers: &S,
    words: &VerifyWords<'a>,
) -> Result<(), CommandFault<'a>>
    ensures ok { OnOk result (DoesVerify I.relations I.Dev.state W.contents context.entry context.exit words.now) }
    ensures err { IfErr result (EndsVerify I.relations I.Dev.state W.contents context.entry context.exit words.now) }
{
    if words.all {
        go_over_image(alloc, context, watchers, words)
    } else {
        let Context { images, writer } = context;
        Ok(invoke_verify(alloc, images, watchers, words, writer)?)
    }
}

// With `--all`: the root or the pin is known before an image is opened.
fn go_over_image<'a, I: Images, S: Watchers, W: Write>(
    alloc: Global,
    context: Context<'_, I, W>,
    watchers: &S,
    words: &VerifyWords<'a>,
) -> Result<(), CommandFault<'a>>
    ensures ok { OnOk result (DoesVerifyAll I.relations I.Dev.state W.contents context.entry context.exit words.now) }
    ensures err { IfErr result (EndsVerifyAll I.relations I.Dev.state W.contents context.entry context.exit words.now) }
{
    let Context { images, writer } = context;
    let trusted = match trusted_in(images, &words.root) {
        Ok(trusted) => trusted,
        Err(fault) => return Err(CommandFault::Verity(VerityFault::Image(fault))),
    };
    Ok(invoke_survey(alloc, images, watchers, words, &trusted, writer)?)
}
