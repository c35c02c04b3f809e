//! The command `verify --fec`, with its arguments.
ghost use Rattle.std.specs.Prelude.{IfErr, OnOk};
ghost use Rattle.fec_commands.specs.Commands.{FailsToVerifyFec, VerifiesFecByWords};

use crate::fault::FecFault;
use crate::image::{is_roots, open_three};
use crate::verifying::verify_open;
use command_line::{FecVerifyWords, OptionWords};
use device_adapters::Watchers;
use image_commands::{ImageFault, ImagePlaces, may_seek};
use image_files::Images;
use program_io::Counted;
use std::alloc::Global;
use std::io::Write;
use verity_commands::{VerityFault, sector_at, sought_tree_in};

/// Runs `verify --fec FILE [--fec-roots N] [--no-superblock] [--progress] [OPTION..] DATA HASH [ROOT]`. It verifies as `verify`
/// does, and then compares the parity. The root hash or the pin, and the tree that options state, are read before an image is
/// opened. Each image is opened once, and FILE is measured before anything is printed.
///
/// # Errors
///
/// - `Verity` if the options state no tree, a file can't be opened or read, the image isn't the one with this root hash, or a
///   line can't be printed.
/// - `BlockSizes` if the tree has two block sizes.
/// - `Parity` if FILE is too small, or the parity can't be compared.
/// - `Differs` if the parity isn't that of the image.
pub fn invoke_verify_fec<'a, I: Images, S: Watchers, W: Write>(
    alloc: Global,
    images: &mut I,
    watchers: &S,
    words: &FecVerifyWords<'a>,
    options: &OptionWords<'a>,
    writer: &mut Counted<W>,
) -> Result<(), FecFault<'a>>
    ensures ok { OnOk result (VerifiesFecByWords options.now words.now I.relations I.Dev.state images.old images.new W.contents writer.old writer.new) }
    ensures err { IfErr result (FailsToVerifyFec options.now words.now I.relations I.Dev.state images.old images.new W.contents writer.old writer.new) }
{
    if words.verify.all {
        return Err(FecFault::Verity(VerityFault::Usage));
    }
    if !is_roots(words.fec.roots) {
        return Err(FecFault::Verity(VerityFault::Usage));
    }
    let places = ImagePlaces {
        data: words.verify.data_path,
        hash: words.verify.hash_path,
        hash_first: sector_at(words.verify.hash_offset),
    };
    let bare = words.no_superblock;
    let sought = sought_tree_in(alloc, images, bare, &words.verify.root, options)?;
    if !may_seek(&sought.source, places.hash_first) {
        return Err(FecFault::from(ImageFault::Unaligned));
    }
    let three = open_three(alloc, images, &places, &words.fec, false)?;
    verify_open(alloc, watchers, three, words, &sought, writer)
}
