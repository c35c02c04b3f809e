//! The blocks that the parity of a table line covers, if there is room for the parity.
ghost use Rattle.std.specs.Prelude.{◌≤◌, ◌^◌, IfErr, IfOk};
ghost use Rattle.fec_commands.specs.Coverings.{Covers, IsUncovered};

use crate::fault::FecFault;
use crate::image::is_roots;
use crate::table::covers_tree;
use fec_area::{Layout, ParityFault};
use image_commands::ImageFault;
use tree_shape::Shape;
use verity_commands::VerityFault;
use verity_format::VerifyFault;

/// Returns how many blocks the parity covers of an image with a tree of that shape, on a hash device of so many sectors, if a device
/// of `room` sectors is large enough for the parity.
///
/// # Errors
///
/// - `Verity` with `Usage` if a codeword can't have so many bytes of parity, or with `TooSmall` if the hash device ends before the tree.
/// - `BlockSizes` if the tree has two block sizes.
/// - `Parity` with `TooSmall` if the parity takes more sectors.
pub fn covered_blocks<'a>(
    shape: &Shape,
    hash_sectors: u64,
    room: u64,
    roots: u32,
) -> Result<u64, FecFault<'a>>
    requires { hash_sectors ≤ 2 ^ 54 }
    ensures ok { IfOk result (Covers shape.now hash_sectors room roots) }
    ensures err { IfErr result (IsUncovered shape.now hash_sectors room roots) }
{
    if !is_roots(roots) {
        return Err(FecFault::Verity(VerityFault::Usage));
    }
    let Some(layout) = Layout::of(shape, hash_sectors, roots as usize) else {
        return Err(FecFault::BlockSizes);
    };
    if !covers_tree(&layout, shape) {
        return Err(FecFault::from(ImageFault::Verify(VerifyFault::TooSmall)));
    }
    let needed = layout.parity_sectors();
    if room < needed {
        return Err(FecFault::Parity(ParityFault::TooSmall { needed }));
    }
    Ok(layout.covered_blocks())
}
