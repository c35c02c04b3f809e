//! Files that are made as long as a release.
ghost use Rattle.std.specs.Prelude.{IfErr, OnOk};
ghost use Rattle.update_commands.specs.Growing.{AreGrown, AreShrunk, AreUngrown, AreUnshrunk};

use image_files::{Images, UnopenedFile, grow_place, shrink_place};
use repair_commands::RepairPlaces;
use verity_format::{Superblock, data_sectors, image_sectors};

/// Makes the two files at least as long as the data, and as the superblock and the tree, of a release. A file that is missing is
/// created. What is longer, or has a size of its own, stays as it is.
///
/// # Errors
///
/// `UnopenedFile` with the first argument whose file can't be made so long.
pub(crate) fn grow_both<'a, I: Images>(
    images: &mut I,
    places: RepairPlaces<'a>,
    superblock: &Superblock,
) -> Result<(), UnopenedFile<'a>>
    ensures ok { OnOk result (AreGrown I.relations I.Dev.state images.old images.new places.entry superblock.now) }
    ensures err { IfErr result (AreUngrown I.relations I.Dev.state images.old images.new places.entry superblock.now) }
{
    let shape = superblock.shape();
    let data_needed = data_sectors(&shape);
    let hash_needed = image_sectors(&shape);
    grow_place(images, places.data, data_needed)?;
    grow_place(images, places.hash, hash_needed)
}

/// Makes the two files at most as long as the data, and as the superblock and the tree, of a release. What is shorter, or has a size of
/// its own, stays as it is.
///
/// # Errors
///
/// `UnopenedFile` with the first argument whose file can't be made so short.
pub(crate) fn shrink_both<'a, I: Images>(
    images: &mut I,
    places: RepairPlaces<'a>,
    superblock: &Superblock,
) -> Result<(), UnopenedFile<'a>>
    ensures ok { OnOk result (AreShrunk I.relations I.Dev.state images.old images.new places.entry superblock.now) }
    ensures err { IfErr result (AreUnshrunk I.relations I.Dev.state images.old images.new places.entry superblock.now) }
{
    let shape = superblock.shape();
    let data_most = data_sectors(&shape);
    let hash_most = image_sectors(&shape);
    shrink_place(images, places.data, data_most)?;
    shrink_place(images, places.hash, hash_most)
}
