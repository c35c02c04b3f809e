//! Where the pieces of a READ end.
ghost use Rattle.std.specs.Prelude.{◌≡◌, ◌<◌, ◌≤◌};
ghost use Rattle.nbd_protocol.specs.Exports.{export_record};
ghost use Rattle.nbd_server.specs.Delivery.{piece_sectors};
ghost use Rattle.nbd_server.specs.Premises.{AreBytesOf};

use crate::byte_range::touched;
use alignment::aligned_len;
use nbd_protocol::Export;
use stack_config::Config;

/// Returns how many sectors the next piece touches, of those that `left` bytes from `at` on touch: at most `most`. It splits no
/// unit and no data block that fits in one piece.
pub(crate) fn piece_sectors(
    config: &Config,
    export: &Export<'_>,
    at: u64,
    left: u32,
    most: u64,
) -> u64
    requires bytes { AreBytesOf config.now (export_record export.now) at left }
    requires some { (0 < left) × (0 < most) }
    ensures value { result ≡ piece_sectors config.now export.now.device.0 at left most }
    ensures few { (0 < result) × (result ≤ most) }
{
    let sectors = touched(at, left) as u64;
    aligned_len(config, export.device, at / 512, sectors, most)
}
