//! `format --grow --fec` with a block device or a part of a file as parity file, which can't be extended.
ghost use Rattle.std.specs.Prelude.{◌≡◌, ◌≤◌, ◌^◌, IfErr, OnOk};
ghost use Rattle.fec_commands.specs.FixedSize.{FitsFixedSize, IsFixedTooShort, found_data_end, found_sectors, sectors_behind};
ghost use Rattle.fec_commands.specs.Layings.{IsRoots};

use crate::finding::FoundThree;
use crate::image::end_of_data;
use crate::needed::{FoundSectors, needed_grown};
use crate::wanted::WantedTree;
use block_device::BlockDev;
use fec_area::ParityFault;
use image_files::{PlacedImage, has_own_size};

/// Checks that FILE, if it has a size of its own, has enough sectors for the parity of the image that the options make, after HASH
/// is extended to the hash image's size.
///
/// # Errors
///
/// `TooSmall` if it has fewer sectors.
pub(crate) fn check_fixed_size<D: BlockDev>(
    found: &FoundThree<'_, D>,
    wanted: &WantedTree,
    first: u64,
    roots: u32,
) -> Result<(), ParityFault>
    requires { IsRoots roots }
    ensures ok { OnOk result (FitsFixedSize D.state found.now wanted.now first roots) }
    ensures err { IfErr result (IsFixedTooShort D.state found.now wanted.now first roots) }
{
    let Some(parity) = &found.parity else {
        return Ok(());
    };
    if !has_own_size(parity) {
        return Ok(());
    }
    let sectors = found_sectors(found, first);
    let Some(needed) = needed_grown(wanted, sectors, roots) else {
        return Ok(());
    };
    if parity.device.sectors() < needed {
        return Err(ParityFault::TooSmall { needed });
    }
    Ok(())
}

// How many sectors of data there are, and how many HASH has from the hash image's first sector on.
fn found_sectors<D: BlockDev>(found: &FoundThree<'_, D>, first: u64) -> FoundSectors
    ensures value { result ≡ found_sectors D.state found.now first }
    ensures small { result.hash ≤ 2 ^ 54 }
{
    let end = found_data_end(found, first);
    FoundSectors {
        data: end.min(found.data.device.sectors()),
        hash: sectors_behind(&found.hash, first),
    }
}

// Where the data end. A HASH that doesn't exist isn't DATA.
fn found_data_end<D>(found: &FoundThree<'_, D>, first: u64) -> u64
    ensures { result ≡ found_data_end found.now.«data» found.now.hash first }
{
    match &found.hash {
        Some(hash) => end_of_data(&found.data, hash, first),
        None => u64::MAX,
    }
}

// How many sectors a file has from `first` on; 0 if it doesn't exist.
fn sectors_behind<D: BlockDev>(file: &Option<PlacedImage<'_, D>>, first: u64) -> u64
    ensures value { result ≡ sectors_behind D.state file.now first }
    ensures small { result ≤ 2 ^ 54 }
{
    match file {
        Some(image) => image.device.sectors().saturating_sub(first),
        None => 0,
    }
}
