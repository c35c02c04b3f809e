//! What is updated.
ghost use Rattle.std.specs.Prelude.{◌≡◌};
ghost use Rattle.update_commands.specs.Orders.{places_of};

use image_pin::Pin;
use repair_commands::RepairPlaces;

/// The arguments that name the two images to be updated and the hash image of the release, the pin of the release and its file, whether
/// blocks aren't listed, whether progress is shown, and whether what was done is printed as a JSON object.
#[derive(Clone, Copy)]
pub struct UpdateOrder<'a> {
    pub data: &'a str,
    pub hash: &'a str,
    pub release_hash: &'a str,
    pub pin: Pin,
    pub pin_path: &'a str,
    pub no_index: bool,
    pub progress: bool,
    pub json: bool,
}

/// Returns the two images, which may be written. The hash image begins at the beginning of what its argument names.
pub(crate) fn places_of<'a>(order: &UpdateOrder<'a>) -> RepairPlaces<'a>
    ensures { result ≡ places_of order.now }
{
    RepairPlaces {
        data: order.data,
        hash: order.hash,
        hash_first: 0,
        write: true,
    }
}
