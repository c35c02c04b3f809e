//! The command `table --no-superblock`: the table line of a tree alone.
ghost use Rattle.std.specs.Prelude.{◌≡◌, IfErr, OnOk};
ghost use Rattle.image_commands.specs.Endings.{IsQuiet};
ghost use Rattle.image_commands.specs.TreeImages.{IsTreeLineEnd, SaysTreeLine, tree_room};

use crate::fault::ImageFault;
use crate::line::say_line;
use crate::places::tree_start;
use crate::table::{LineTree, LineWords};
use crate::tree_place::tree_of;
use image_pin::is_aligned;
use program_io::Counted;
use std::alloc::Global;
use std::io::Write;
use verity_format::FormatOptions;

/// `table --no-superblock [--hash-offset BYTES] [--name NAME] [OPTIONS] HASH ROOT DATANAME HASHNAME`: prints the table line of the
/// tree with those options at that sector; with a name the whole entry of a read-only device. The arguments state all of it, so no
/// image is opened.
///
/// # Errors
///
/// - `Unaligned` if no hash block begins at that sector.
/// - `Format` if the options state no valid shape.
/// - `NoMemory` if memory for the line was refused.
/// - `Write` if the line can't be written.
#[tactic(auto, using(crate::proofs::lemmas::EndingLemmas::quiet))]
pub fn print_tree_line<'a, W: Write>(
    alloc: Global,
    first: u64,
    name: Option<&str>,
    words: LineWords<'_>,
    options: FormatOptions,
    writer: &mut Counted<W>,
) -> Result<(), ImageFault<'a>>
    ensures ok { OnOk result (SaysTreeLine W.contents writer.old writer.new first name.entry words.entry options) }
    ensures err { IfErr result (IsTreeLineEnd (tree_room first options words.entry.data_name.now words.entry.hash_name.now words.entry.root.now.root) first options writer.new.failed) }
    ensures quiet { IfErr result (λ fault. IsQuiet fault (W.contents writer.old.inner) (W.contents writer.new.inner)) }
{
    let size = options.hash_block;
    if !is_aligned(first, size) {
        return Err(ImageFault::Unaligned);
    }
    let params = tree_of(options, 0)?;
    let start = tree_start(first, size, 0);
    let tree = params.tree_alone();
    let placed = LineTree {
        tree: &tree,
        start,
        parity: None,
    };
    say_line(alloc, writer, name, placed, words)
}
