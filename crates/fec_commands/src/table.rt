//! The command `table --fec`, with its arguments.
ghost use Rattle.std.specs.Prelude.{◌≡◌, IfErr, IfOk, OnOk};
ghost use Rattle.image_commands.specs.Endings.{IsCommonEnd, IsQuiet};
ghost use Rattle.fec_commands.specs.Layings.{IsRoots};
ghost use Rattle.fec_commands.specs.Tables.{FailsToPrintFec, FailsToPrintOpen, IsLaid, IsLineLaid, IsNoLineLaid, PrintsFecByWords, PrintsOpen, RefusesLaidLine, SaysLaidLine, covers_tree};
ghost use Rattle.fec_commands.specs.Verifying.{IsFecQuiet};

use crate::fault::FecFault;
use crate::image::{LaidTree, is_roots};
use block_device::BlockDev;
use command_line::{FecTableWords, OptionWords};
use device_adapters::Window;
use fec_area::Layout;
use image_commands::{
    ImageFault, LineTree, LineWords, SoughtTree, TreeSource, may_seek, say_line, seek_tree,
    tree_start,
};
use image_files::{Images, open_place};
use image_pin::TrustedRoot;
use program_io::Counted;
use std::alloc::Global;
use std::io::Write;
use std::marker::Brand;
use tree_shape::{Digest, Shape};
use verity_commands::{VerityFault, sector_at, sought_tree_in};
use verity_format::{LineParity, VerifyFault};

/// Runs `table --fec FECNAME [--fec-roots N] [--no-superblock] [--name NAME] [OPTION..] HASH [ROOT] DATANAME HASHNAME`: prints the
/// table line as `table` does, with the options for parity on the device FECNAME. The root hash or the pin, and the tree that
/// options state, are read before HASH is opened. No parity is read.
///
/// # Errors
///
/// - `Verity` if the options state no tree, HASH can't be opened or read, or ends before its tree, memory for the line was refused,
///   or it can't be printed.
/// - `BlockSizes` if the tree has two block sizes.
pub fn invoke_table_fec<'a, I: Images, W: Write>(
    alloc: Global,
    images: &mut I,
    words: &FecTableWords<'a>,
    options: &OptionWords<'a>,
    writer: &mut Counted<W>,
) -> Result<(), FecFault<'a>>
    ensures ok { OnOk result (PrintsFecByWords options.now words.now I.relations I.Dev.state images.old images.new W.contents writer.old writer.new) }
    ensures err { IfErr result (FailsToPrintFec options.now words.now I.relations I.Dev.state images.old images.new W.contents writer.old writer.new) }
{
    if !is_roots(words.fec.roots) {
        return Err(FecFault::Verity(VerityFault::Usage));
    }
    let bare = words.no_superblock;
    let sought = sought_tree_in(alloc, images, bare, &words.table.root, options)?;
    if !may_seek(&sought.source, sector_at(words.table.hash_offset)) {
        return Err(FecFault::from(ImageFault::Unaligned));
    }
    let image = open_place(alloc, images, words.table.hash_path, false)?;
    print_open(alloc, image.device, words, &sought, writer)
}

// Prints the line of the image whose hash image is in that device.
fn print_open<'a, H: BlockDev + Drop, W: Write>(
    alloc: Global,
    hash_dev: H,
    words: &FecTableWords<'a>,
    sought: &SoughtTree,
    writer: &mut Counted<W>,
) -> Result<(), FecFault<'a>>
    requires { IsRoots words.now.fec.roots }
    ensures ok { OnOk result (PrintsOpen H.state hash_dev words.now sought.now W.contents writer.old writer.new) }
    ensures err { IfErr result (FailsToPrintOpen H.state hash_dev words.now sought.now writer.new) }
    ensures quiet { IfErr result (λ fault. IsFecQuiet fault (W.contents writer.old.inner) (W.contents writer.new.inner)) }
{
    let first = sector_at(words.table.hash_offset);
    let mut window = Window::<H, Brand>::behind(hash_dev, first);
    let laid = lay_line(&mut window, first, &sought.source, words.fec.roots)?;
    match say_laid(alloc, &laid, words, &sought.root, writer) {
        Ok(()) => Ok(()),
        Err(fault) => Err(FecFault::Verity(VerityFault::Image(fault))),
    }
}

// Returns the tree of that source and the layout of its parity, which covers the tree.
fn lay_line<'a, H: BlockDev>(
    hash_dev: &mut H,
    first: u64,
    source: &TreeSource,
    roots: u32,
) -> Result<LaidTree, FecFault<'a>>
    requires { IsRoots roots }
    ensures ok { IfOk result (IsLineLaid H.state hash_dev.old first source.now roots hash_dev.new) }
    ensures err { IfErr result (IsNoLineLaid H.state hash_dev.old first source.now roots hash_dev.new) }
{
    let tree = seek_tree(source, 0, hash_dev, first)?;
    match Layout::of(&tree.shape, hash_dev.sectors(), roots as usize) {
        Some(layout) => {
            if covers_tree(&layout, &tree.shape) {
                return Ok(LaidTree { tree, layout });
            }
            Err(FecFault::Verity(VerityFault::Image(ImageFault::Verify(VerifyFault::TooSmall))))
        }
        None => Err(FecFault::BlockSizes),
    }
}

/// Returns whether all of the tree's blocks are covered, which lie on the hash image then.
pub(crate) fn covers_tree(layout: &Layout, shape: &Shape) -> bool
    ensures { result ≡ covers_tree layout.now shape.now }
{
    layout.hash_first >= shape.start() && layout.hash_blocks >= shape.area_blocks()
}

// Prints the line of a tree with this layout; with a name the whole entry.
fn say_laid<'a, W: Write>(
    alloc: Global,
    laid: &LaidTree,
    words: &FecTableWords<'a>,
    root: &Digest,
    writer: &mut Counted<W>,
) -> Result<(), ImageFault<'a>>
    requires { IsLaid laid.now }
    ensures ok { OnOk result (SaysLaidLine W.contents writer.old writer.new words.now laid.now root.now) }
    ensures err { IfErr result (IsCommonEnd (RefusesLaidLine words.now laid.now root.now) writer.new.failed) }
    ensures quiet { IfErr result (λ fault. IsQuiet fault (W.contents writer.old.inner) (W.contents writer.new.inner)) }
{
    let placed = laid.tree;
    let shape = placed.shape;
    let first = sector_at(words.table.hash_offset);
    let start = tree_start(first, shape.hash_block(), shape.start());
    let parity = LineParity {
        device: words.fec.device.as_bytes(),
        roots: words.fec.roots,
        blocks: laid.layout.covered_blocks(),
    };
    let tree = LineTree {
        tree: &placed,
        start,
        parity: Some(parity),
    };
    let trusted = TrustedRoot {
        root: *root,
        pin: None,
    };
    let line = LineWords {
        root: &trusted,
        data_name: words.table.data_name,
        hash_name: words.table.hash_name,
    };
    say_line(alloc, writer, words.table.name, tree, line)
}
