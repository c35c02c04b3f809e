//! The command `verify --no-superblock`: checks an image, or scans all of it, by the tree that options state.
ghost use Rattle.std.specs.Prelude.{OnOk, IfErr};
ghost use Rattle.stack_commands.specs.Contexts.{DoesTreeVerify, DoesTreeVerifyAll, EndsTreeVerify, EndsTreeVerifyAll};

use crate::context::Context;
use crate::fault::CommandFault;
use command_line::{OptionWords, TreeVerifyWords};
use device_adapters::Watchers;
use image_files::Images;
use std::alloc::Global;
use std::io::Write;
use verity_commands::{invoke_tree_survey, invoke_verify_tree, sought_in};

/// `verify --no-superblock [--all] [--progress] [OPTION..] DATA HASH [ROOT]`
///
/// # Errors
///
/// `Verity` with a fault of `invoke_verify_tree`; with `--all` one of `sought_in`, or `Trees` with one of `invoke_tree_survey`.
pub fn check_tree<'a, I: Images, S: Watchers, W: Write>(
    alloc: Global,
    context: Context<'_, I, W>,
    watchers: &S,
    words: &TreeVerifyWords<'a>,
    options: &OptionWords<'a>,
) -> Result<(), CommandFault<'a>>
    ensures ok { OnOk result (DoesTreeVerify I.relations I.Dev.state W.contents context.entry context.exit words.now options.now) }
    ensures err { IfErr result (EndsTreeVerify I.relations I.Dev.state W.contents context.entry context.exit words.now options.now) }
{
    if words.all {
        go_over_tree(alloc, context, watchers, words, options)
    } else {
        let Context { images, writer } = context;
        Ok(invoke_verify_tree(alloc, images, watchers, words, options, writer)?)
    }
}

// With `--all`: the tree and the root are known before an image is opened.
fn go_over_tree<'a, I: Images, S: Watchers, W: Write>(
    alloc: Global,
    context: Context<'_, I, W>,
    watchers: &S,
    words: &TreeVerifyWords<'a>,
    options: &OptionWords<'a>,
) -> Result<(), CommandFault<'a>>
    ensures ok { OnOk result (DoesTreeVerifyAll I.relations I.Dev.state W.contents context.entry context.exit words.now options.now) }
    ensures err { IfErr result (EndsTreeVerifyAll I.relations I.Dev.state W.contents context.entry context.exit words.now options.now) }
{
    let Context { images, writer } = context;
    let sought = match sought_in(alloc, images, &words.root, options) {
        Ok(sought) => sought,
        Err(fault) => return Err(CommandFault::Verity(fault)),
    };
    Ok(invoke_tree_survey(alloc, images, watchers, words, &sought, writer)?)
}
