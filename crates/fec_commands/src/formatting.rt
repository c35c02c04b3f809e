//! The command `format --fec`, with its arguments.
ghost use Rattle.std.specs.Prelude.{IfErr, OnOk, true};
ghost use Rattle.image_commands.specs.Drawing.{drawing};
ghost use Rattle.fec_commands.specs.Fitting.{FitsFile, IsUnfit};
ghost use Rattle.fec_commands.specs.Formatting.{ChecksFilesFor, FailsToCheckFiles, FailsToFinish, FailsToFormatFec, FinishesFor, FormatsFecByWords};
ghost use Rattle.fec_commands.specs.Growing.{FailsToProtect, Protects};
ghost use Rattle.fec_commands.specs.Images.{Does};
ghost use Rattle.fec_commands.specs.Layings.{IsRoots};

use crate::fault::FecFault;
use crate::finding::find_three;
use crate::fits::measure_words;
use crate::fixed_size::check_fixed_size;
use crate::growing::protect_growing;
use crate::image::is_roots;
use crate::protect::protect_image;
use crate::sizes::says_two_sizes;
use crate::wanted::{WantedTree, made_source};
use command_line::{FecFile, FecFormatWords, OptionWords, options_of};
use device_adapters::Watchers;
use image_commands::{
    Generators, ImagePlaces, MadeImage, TreeSource, check_other_file, check_root_path,
    pin_of_image, write_root,
};
use image_files::Images;
use program_io::Counted;
use std::alloc::Global;
use std::io::Write;
use verity_commands::{VerityFault, make_image, places_of, print_made};

/// Runs `format --fec FILE [--fec-roots N] [--no-superblock | --pin FILE | --root-hash-file FILE] [--grow] [--progress] [OPTION..]
/// DATA HASH`. It formats as `format` does, then writes and syncs the parity, and then writes the pin or the root hash, before
/// anything is printed. Each FILE is checked before anything is written.
///
/// # Errors
///
/// - `Verity` if the arguments give no value, the image can't be made or its text printed, or the pin or the root hash can't be
///   written.
/// - `BlockSizes` if the arguments give two block sizes.
/// - `Parity` if FILE is too small, or the parity can't be written and synced.
pub fn invoke_format_fec<'a, I: Images, G: Generators + Watchers, W: Write>(
    alloc: Global,
    images: &mut I,
    generators: &mut G,
    words: &FecFormatWords<'a>,
    options: &OptionWords<'a>,
    writer: &mut Counted<W>,
) -> Result<(), FecFault<'a>>
    ensures ok { OnOk result (FormatsFecByWords options.now words.now I.relations I.Dev.state images.old images.new (drawing G.gives G.Generator.stream generators.old generators.new) W.contents writer.old writer.new) }
    ensures err { IfErr result (FailsToFormatFec options.now words.now I.relations I.Dev.state images.old images.new (drawing G.gives G.Generator.stream generators.old generators.new) W.contents writer.old writer.new) }
{
    if !is_roots(words.fec.roots) {
        return Err(FecFault::Verity(VerityFault::Usage));
    }
    let said = match options_of(alloc, options) {
        Ok(said) => said,
        Err(fault) => return Err(FecFault::Verity(VerityFault::from(fault))),
    };
    if says_two_sizes(options) {
        return Err(FecFault::BlockSizes);
    }
    let bare = words.format.no_superblock;
    let wanted = WantedTree {
        options: said,
        bare,
    };
    check_files(alloc, images, words, &wanted)?;
    let made = make_image(alloc, images, generators, wanted.options, &words.format)?;
    finish(alloc, images, words, &wanted, &made)?;
    print_made(writer, &made, bare)?;
    Ok(())
}

// Checks the parity file, and then the file of the pin or the root hash, if there is one, which must be none of the other files.
fn check_files<'a, I: Images>(
    alloc: Global,
    images: &mut I,
    words: &FecFormatWords<'a>,
    wanted: &WantedTree,
) -> Result<(), FecFault<'a>>
    requires { IsRoots words.now.fec.roots }
    ensures ok { OnOk result (ChecksFilesFor wanted.now I.relations I.Dev.state images.old images.new words.now) }
    ensures err { IfErr result (FailsToCheckFiles wanted.now I.relations I.Dev.state images.old images.new words.now) }
{
    let watched = places_of(&words.format);
    let grow = words.format.grow;
    check_file(alloc, images, &watched.places, &words.fec, wanted, grow)?;
    check_other_file(images, words.fec.path, &words.format.file)?;
    check_root_path(images, watched.places, &words.format.file)?;
    Ok(())
}

// Writes the parity of what was made, and then the pin or the root hash, if there is a file for it. Another process may have made
// this the parity file since `check_files`, so that is checked again.
fn finish<'a, I: Images>(
    alloc: Global,
    images: &mut I,
    words: &FecFormatWords<'a>,
    wanted: &WantedTree,
    made: &MadeImage,
) -> Result<(), FecFault<'a>>
    requires { IsRoots words.now.fec.roots }
    ensures ok { OnOk result (FinishesFor wanted.now made.now I.relations I.Dev.state images.old images.new words.now) }
    ensures err { IfErr result (FailsToFinish wanted.now made.now I.relations I.Dev.state images.old images.new words.now) }
{
    let watched = places_of(&words.format);
    let source = made_source(wanted, made);
    let grow = words.format.grow;
    protect(alloc, images, &watched.places, &words.fec, &source, grow)?;
    check_other_file(images, words.fec.path, &words.format.file)?;
    let pin = pin_of_image(&wanted.options, made);
    write_root(alloc, images, watched.places, &words.format.file, &pin)?;
    Ok(())
}

// Checks that the parity file is large enough for the image that the options make, or can be made so.
fn check_file<'a, I: Images>(
    alloc: Global,
    images: &mut I,
    places: &ImagePlaces<'a>,
    fec: &FecFile<'a>,
    wanted: &WantedTree,
    grow: bool,
) -> Result<(), FecFault<'a>>
    requires { IsRoots fec.now.roots }
    ensures ok { OnOk result (Does (FitsFile grow wanted.now) I.relations I.Dev.state images.old images.new places.now fec.now) }
    ensures err { IfErr result (Does (IsUnfit grow wanted.now) I.relations I.Dev.state images.old images.new places.now fec.now) }
{
    if grow {
        return check_grown(alloc, images, places, fec, wanted);
    }
    measure_words(alloc, images, places, fec, wanted)
}

// With `--grow`, checks that FILE exists or can be created, and that a block device is large enough.
fn check_grown<'a, I: Images>(
    alloc: Global,
    images: &mut I,
    places: &ImagePlaces<'a>,
    fec: &FecFile<'a>,
    wanted: &WantedTree,
) -> Result<(), FecFault<'a>>
    requires { IsRoots fec.now.roots }
    ensures ok { OnOk result (Does (FitsFile true wanted.now) I.relations I.Dev.state images.old images.new places.now fec.now) }
    ensures err { IfErr result (Does (IsUnfit true wanted.now) I.relations I.Dev.state images.old images.new places.now fec.now) }
{
    let found = find_three(alloc, images, places, fec)?;
    check_fixed_size(&found, wanted, places.hash_first, fec.roots)?;
    Ok(())
}

// Writes the parity. If `grow` is set, its file is extended as far as needed.
fn protect<'a, I: Images>(
    alloc: Global,
    images: &mut I,
    places: &ImagePlaces<'a>,
    fec: &FecFile<'a>,
    source: &TreeSource,
    grow: bool,
) -> Result<(), FecFault<'a>>
    requires { IsRoots fec.now.roots }
    ensures ok { OnOk result (Does (Protects source.now grow) I.relations I.Dev.state images.old images.new places.now fec.now) }
    ensures err { IfErr result (FailsToProtect source.now grow I.relations I.Dev.state images.old images.new places.now fec.now) }
{
    if grow {
        return protect_growing(alloc, images, places, fec, source);
    }
    protect_image(alloc, images, places, fec, source)
}
