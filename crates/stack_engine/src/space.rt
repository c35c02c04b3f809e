//! The space that the leaves lacked.
ghost use Rattle.std.specs.Prelude.{◌≡◌, map};
ghost use Rattle.stack_engine.specs.Space.{lacked_space_at};

use block_device::BlockDev;

/// Returns whether the device at an index lacked space in the last read or write of it that failed. False if there is none.
pub(crate) fn lacked_space<D: BlockDev>(devices: &[D], index: usize) -> bool
    ensures { result ≡ lacked_space_at (map D.state devices.now) index }
{
    if index < devices.len() {
        return devices[index].lacked_space();
    }
    false
}
