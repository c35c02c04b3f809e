//! The counters of the leaves.
ghost use Rattle.std.specs.Prelude.{◌≡◌, map};
ghost use Rattle.block_device.specs.Device.{capped};
ghost use Rattle.stack_meaning.specs.Leaves.{reads_of, writes_of};

use block_device::BlockDev;

/// Returns how many sectors the devices have read and written, each sum at most the greatest `u64`.
pub(crate) fn counted<D: BlockDev>(devices: &[D]) -> (u64, u64)
    ensures { result ≡ (capped (reads_of (map D.state devices.now)), capped (writes_of (map D.state devices.now))) }
{
    let mut reads = 0u64;
    let mut writes = 0u64;
    for device in devices {
        reads = reads.saturating_add(device.reads());
        writes = writes.saturating_add(device.writes());
    }
    (reads, writes)
}
