//! Images whose data a command reads once from beginning to end, with progress reporting.
ghost use Rattle.std.specs.Prelude.{◌≡◌};

use crate::paths::TwoImages;
use crate::places::ImagePlaces;
use block_device::BlockDev;
use device_adapters::{Watched, Watchers, watcher_of};
use image_files::PlacedImage;
use verity_format::FormatOptions;

/// The places of two images, and whether it is shown how much of the data was read.
#[derive(Clone, Copy, Debug, PartialEq, Eq)]
pub struct WatchedPlaces<'a> {
    pub places: ImagePlaces<'a>,
    pub progress: bool,
}

/// Returns the two devices. Reads of the data device are reported as progress, out of `all` bytes.
pub fn watch<D: BlockDev + Drop, S: Watchers>(
    two: TwoImages<'_, D>,
    watchers: &S,
    progress: bool,
    all: u64,
) -> (Watched<D, S::Watcher>, D)
    ensures data { result.0.inner ≡ two.entry.data.device }
    ensures hash { result.1 ≡ two.entry.hash.device }
{
    let TwoImages {
        data: PlacedImage {
            device: data_dev,
            id: _,
            place: _,
        },
        hash: PlacedImage {
            device: hash_dev,
            id: _,
            place: _,
        },
    } = two;
    let watcher = watcher_of(watchers, progress);
    (Watched::new(data_dev, watcher, all), hash_dev)
}

/// Returns how many of so many bytes are data blocks: as many as the options state, else all.
pub(crate) fn bytes_of_blocks(options: &FormatOptions, bytes: u64) -> u64 {
    match options.blocks {
        Some(blocks) => blocks
            .saturating_mul(u64::from(options.data_block))
            .min(bytes),
        None => bytes,
    }
}
