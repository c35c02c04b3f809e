//! What the devices of a repair count.
ghost use Rattle.std.specs.Prelude.{◌≡◌, map};
ghost use Rattle.repair_commands.specs.Counters.{counters_of, last_read};

use block_device::BlockDev;
use tree_repair::DamagedImage;

/// How many sectors the two devices of an image count as written, and how many the data and the hashes of its last copy count as read.
/// Sectors of calls that failed are counted too.
#[derive(Clone, Copy)]
pub struct Counters {
    pub data_written: u64,
    pub hash_written: u64,
    pub data_read: u64,
    pub hash_read: u64,
}

/// Returns the current values of the counters.
pub fn counters_of<D: BlockDev, H: BlockDev, C: BlockDev>(image: &DamagedImage<D, H, C>) -> Counters
    ensures { result ≡ counters_of image.now.world }
{
    let data_written = image.data.writes();
    let hash_written = image.hash.writes();
    let data_read = last_read(image.data_copies.as_slice());
    let hash_read = last_read(image.hash_copies.as_slice());
    Counters {
        data_written,
        hash_written,
        data_read,
        hash_read,
    }
}

// Returns how many sectors the last of some copies counts as read.
fn last_read<C: BlockDev>(copies: &[C]) -> u64
    ensures { result ≡ last_read (map C.state copies.now) }
{
    let count = copies.len();
    if count == 0 {
        return 0;
    }
    copies[count - 1].reads()
}
