//! The two trees that the arguments of `diff` state.
ghost use Rattle.std.specs.Prelude.{IfErr, IfOk};
ghost use Rattle.verity_commands.specs.SoughtTrees.{FailsToSeekBoth, SeeksBoth};

use crate::tree_pair::SoughtTrees;
use crate::trees::sought_tree_in;
use crate::verity_fault::VerityFault;
use command_line::{DiffWords, OptionWords};
use image_files::Images;
use std::alloc::Global;

/// Returns both trees of `diff` as its arguments state them, and their root hashes. With `--no-superblock` the same options state
/// both trees. The file of the first tree's root hash or pin is read first.
///
/// # Errors
///
/// Those of `sought_tree_in`.
pub fn both_sought_in<'a, I: Images>(
    alloc: Global,
    images: &mut I,
    words: &DiffWords<'a>,
    options: &OptionWords<'_>,
) -> Result<SoughtTrees, VerityFault<'a>>
    ensures ok { IfOk result (SeeksBoth I.relations I.Dev.state images.old images.new options.now words.now) }
    ensures err { IfErr result (FailsToSeekBoth I.relations I.Dev.state images.old images.new options.now words.now) }
{
    let bare = words.no_superblock;
    let first = sought_tree_in(alloc, images, bare, &words.old_root, options)?;
    let second = sought_tree_in(alloc, images, bare, &words.new_root, options)?;
    Ok(SoughtTrees { first, second })
}
