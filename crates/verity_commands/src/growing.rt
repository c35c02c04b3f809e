//! `format --grow`: creates HASH, or makes it longer if it has too few sectors.
ghost use Rattle.std.specs.Prelude.{◌≡◌, true, Err, IfErr, IfOk, IfSome, OnOk};
ghost use Rattle.image_commands.specs.declared.fault.ImageFault.TheVariants as image_fault;
ghost use Rattle.image_commands.specs.Drawing.{drawing};
ghost use Rattle.image_files.specs.Opener.{calls};
ghost use Rattle.verity_format.specs.declared.formatting.FormatFault.TheVariants as format_fault;
ghost use Rattle.image_files.specs.OpenPlaces.{GrowsPlace};
ghost use Rattle.verity_commands.specs.Formatting.{FailsAtOnce, FailsGrownImage, MakesAtOnce, MakesGrownImage};
ghost use Rattle.verity_commands.specs.Growing.{IsUngrown};

use command_line::ImageOptions;
use device_adapters::Watchers;
use image_commands::{Generators, ImageFault, MadeImage, WatchedPlaces, make_placed, make_tree};
use image_files::{Images, grow_place};
use std::alloc::Global;
use verity_format::FormatFault;

// Makes the file that an argument names at least so many sectors long, unless it is a part of a file.
fn make_room<'a, I: Images>(
    images: &mut I,
    path: &'a str,
    sectors: u64,
) -> Result<(), ImageFault<'a>>
    ensures ok { OnOk result (GrowsPlace (calls I.relations I.Dev.state images.old images.new) path.now sectors) }
    ensures err { IfErr result (IsUngrown (calls I.relations I.Dev.state images.old images.new) path.now sectors) }
{
    match grow_place(images, path, sectors) {
        Ok(()) => Ok(()),
        Err(file) => Err(ImageFault::Open(file)),
    }
}

// Returns how many sectors the file has to have, if the format was refused since the file has fewer.
fn needed_by<T>(tried: &Result<T, ImageFault<'_>>) -> Option<u64>
    ensures { IfSome result (λ needed. tried.now ≡ Err (image_fault.Format (format_fault.HashTooSmall needed))) }
{
    match tried {
        Err(ImageFault::Format(FormatFault::HashTooSmall { needed })) => Some(*needed),
        _ => None,
    }
}

/// Makes the hash image as `make_placed` does or, if `bare` is set, the tree alone as `make_tree` does.
///
/// # Errors
///
/// Those of `make_placed` or `make_tree`.
pub fn make_once<'a, I: Images, G: Generators + Watchers>(
    alloc: Global,
    images: &mut I,
    generators: &mut G,
    options: &ImageOptions,
    watched: &WatchedPlaces<'a>,
    bare: bool,
) -> Result<MadeImage, ImageFault<'a>>
    ensures ok { IfOk result (MakesAtOnce bare I.relations I.Dev.state images.old images.new (drawing G.gives G.Generator.stream generators.old generators.new) options.now watched.now) }
    ensures err { IfErr result (FailsAtOnce bare I.relations I.Dev.state images.old images.new (drawing G.gives G.Generator.stream generators.old generators.new) options.now watched.now) }
{
    if bare {
        return make_tree(alloc, images, generators, *options, *watched);
    }
    make_placed(alloc, images, generators, *options, *watched)
}

/// Makes the hash image or the tree alone as `make_once` does, after its file was created or made as long as needed.
///
/// # Errors
///
/// Those of `make_once`; `Open` also if the file can't be made longer.
pub fn make_growing<'a, I: Images, G: Generators + Watchers>(
    alloc: Global,
    images: &mut I,
    generators: &mut G,
    options: &ImageOptions,
    watched: &WatchedPlaces<'a>,
    bare: bool,
) -> Result<MadeImage, ImageFault<'a>>
    ensures ok { IfOk result (MakesGrownImage bare I.relations I.Dev.state images.old images.new (drawing G.gives G.Generator.stream generators.old generators.new) options.now watched.now) }
    ensures err { IfErr result (FailsGrownImage bare I.relations I.Dev.state images.old images.new (drawing G.gives G.Generator.stream generators.old generators.new) options.now watched.now) }
{
    let hash = watched.places.hash;
    make_room(images, hash, 0)?;
    let tried = make_once(alloc, images, generators, options, watched, bare);
    let Some(sectors) = needed_by(&tried) else {
        return tried;
    };
    make_room(images, hash, sectors)?;
    make_once(alloc, images, generators, options, watched, bare)
}
