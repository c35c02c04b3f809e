//! The command `format`: an image or a tree alone, and the file of its pin or its root hash.
ghost use Rattle.std.specs.Prelude.{◌≡◌, OnOk, IfErr, IfOk};
ghost use Rattle.image_commands.specs.Drawing.{drawing};
ghost use Rattle.image_commands.specs.Endings.{IsLineUnwritten};
ghost use Rattle.verity_commands.specs.Formatting.{FailsSaidImage, FailsToFormat, FormatsByWords, MakesSaidImage, PrintsMade, options_for, places_of};

use crate::growing::{make_growing, make_once};
use crate::places::sector_at;
use crate::verity_fault::VerityFault;
use command_line::{FormatWords, ImageOptions, OptionWords, options_of};
use device_adapters::Watchers;
use image_commands::{
    Generators, ImageFault, ImagePlaces, MadeImage, WatchedPlaces, check_root_path, pin_of_image,
    prepare_image, say_made, say_tree, unnamed, write_root,
};
use image_files::Images;
use program_io::Counted;
use std::alloc::Global;
use std::io::Write;

/// `format [--no-superblock | --pin FILE | --root-hash-file FILE] [--grow] [--progress] [--hash-offset BYTES] [OPTION..] DATA HASH`:
/// checks that FILE can be written before anything is made, and writes it after the image was synced and before what was made is
/// printed.
///
/// # Errors
///
/// - `Usage` if an option has no valid value.
/// - `Image` with a fault of `check_root_path`, `make_image` or `write_root`.
/// - `Image` with `NoMemory` if memory for the salt was refused, or with `Write` if a line can't be written.
pub fn invoke_format<'a, I: Images, G: Generators + Watchers, W: Write>(
    alloc: Global,
    images: &mut I,
    generators: &mut G,
    words: &FormatWords<'a>,
    options: &OptionWords<'a>,
    writer: &mut Counted<W>,
) -> Result<(), VerityFault<'a>>
    ensures ok { OnOk result (FormatsByWords I.relations I.Dev.state images.old images.new (drawing G.gives G.Generator.stream generators.old generators.new) W.contents writer.old writer.new options.now words.now) }
    ensures err { IfErr result (FailsToFormat I.relations I.Dev.state images.old images.new (drawing G.gives G.Generator.stream generators.old generators.new) W.contents writer.old writer.new options.now words.now) }
{
    let options = options_of(alloc, options)?;
    let watched = places_of(words);
    check_root_path(images, watched.places, &words.file)?;
    let made = make_image(alloc, images, generators, options, words)?;
    let pin = pin_of_image(&options, &made);
    write_root(alloc, images, watched.places, &words.file, &pin)?;
    Ok(print_made(writer, &made, words.no_superblock)?)
}

/// Prints what was made, a tree alone if `bare` is set.
///
/// # Errors
///
/// `Write` if a line can't be written.
pub fn print_made<'a, W: Write>(
    writer: &mut Counted<W>,
    made: &MadeImage,
    bare: bool,
) -> Result<(), ImageFault<'a>>
    ensures ok { OnOk result (PrintsMade W.contents writer.old writer.new bare made.now) }
    ensures err { IfErr result (IsLineUnwritten writer.new.failed) }
{
    if bare {
        return Ok(say_tree(writer, made)?);
    }
    Ok(say_made(writer, made)?)
}

/// Returns the places of the two images that words name.
pub fn places_of<'a>(words: &FormatWords<'a>) -> WatchedPlaces<'a>
    ensures { result ≡ places_of words.now }
{
    let places = ImagePlaces {
        data: words.data_path,
        hash: words.hash_path,
        hash_first: sector_at(words.hash_offset),
    };
    WatchedPlaces {
        places,
        progress: words.progress,
    }
}

/// Makes the image or the tree alone. With `--grow` a format that is refused for its options or its data makes no file.
///
/// # Errors
///
/// Those of `make_placed` or, without a superblock, `make_tree`; with `--grow` those of `prepare_image`, and `Open` also if HASH
/// can't be created or made longer.
pub fn make_image<'a, I: Images, G: Generators + Watchers>(
    alloc: Global,
    images: &mut I,
    generators: &mut G,
    options: ImageOptions,
    words: &FormatWords<'a>,
) -> Result<MadeImage, ImageFault<'a>>
    ensures ok { IfOk result (MakesSaidImage I.relations I.Dev.state images.old images.new (drawing G.gives G.Generator.stream generators.old generators.new) options words.now) }
    ensures err { IfErr result (FailsSaidImage I.relations I.Dev.state images.old images.new (drawing G.gives G.Generator.stream generators.old generators.new) options words.now) }
{
    let watched = places_of(words);
    let bare = words.no_superblock;
    if !words.grow {
        return make_once(alloc, images, generators, &options, &watched, bare);
    }
    let wanted = options_for(options, bare);
    let said = prepare_image(alloc, images, generators, wanted, watched.places)?;
    make_growing(alloc, images, generators, &said, &watched, bare)
}

// The options of what is made: a tree alone has no identifier.
fn options_for(options: ImageOptions, bare: bool) -> ImageOptions
    ensures { result ≡ options_for bare options }
{
    if bare {
        return unnamed(options);
    }
    options
}
