//! The two images of a command, opened one after the other.
ghost use Rattle.std.specs.Prelude.{IfOk, IfErr};
ghost use Rattle.image_files.specs.Opener.{IsFresh};
ghost use Rattle.image_commands.specs.Openings.{FailsToOpenImages, OpensImages};

use image_files::{Images, PlacedImage, UnopenedFile, open_place};
use std::alloc::Global;

/// The arguments that name a data image and its hash image.
#[derive(Clone, Copy, Debug, PartialEq, Eq)]
pub struct ImagePaths<'a> {
    pub data: &'a str,
    pub hash: &'a str,
}

/// A data image and its hash image, open.
#[derive(Drop)]
pub struct TwoImages<'a, D> {
    pub data: PlacedImage<'a, D>,
    pub hash: PlacedImage<'a, D>,
}

/// Opens the data image for reading, and then the hash image, for writing too if `writable` is set.
///
/// # Errors
///
/// `UnopenedFile` with the first argument whose image can't be opened, and why.
pub fn open_two<'a, I: Images>(
    alloc: Global,
    images: &mut I,
    paths: ImagePaths<'a>,
    writable: bool,
) -> Result<TwoImages<'a, I::Dev>, UnopenedFile<'a>>
    ensures ok { IfOk result (OpensImages I.relations I.Dev.state images.old images.new paths.entry writable) }
    ensures fresh { IfOk result (λ two. IsFresh (I.Dev.state two.hash.device) writable) }
    ensures err { IfErr result (FailsToOpenImages I.relations I.Dev.state images.old images.new paths.entry writable) }
{
    let data = open_place(alloc, images, paths.data, false)?;
    let hash = open_place(alloc, images, paths.hash, writable)?;
    Ok(TwoImages { data, hash })
}
