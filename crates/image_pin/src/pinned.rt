//! Superblocks that are read and compared with a pin.
ghost use Rattle.std.specs.Prelude.{◌≡◌, IfErr, IfOk};
ghost use Rattle.block_device.specs.Call.{DeviceDoes};
ghost use Rattle.verity_format.specs.Blocks.{IsOnlyRead};
ghost use Rattle.image_pin.specs.PinnedReads.{CallsPinned, IsPinnedCause, ReadsPinned, mismatch_of};

use crate::mismatch::{Mismatch, check_superblock};
use crate::pin::Pin;
use block_device::BlockDev;
use verity_format::{Superblock, VerifyFault, read_superblock};

/// Why a device has no superblock of a pin.
#[derive(Clone, Copy, Debug, PartialEq, Eq)]
pub enum PinnedFault {
    /// The superblock isn't read, or is refused.
    Unread(VerifyFault),
    /// The superblock differs from the pin.
    Unpinned(Mismatch),
}

/// Returns the first value of a superblock that differs from the pin's, if there is a pin.
pub fn mismatch_of(pin: &Option<Pin>, superblock: &Superblock) -> Option<Mismatch>
    ensures { result ≡ mismatch_of pin.now superblock.now }
{
    match pin {
        Some(pin) => match check_superblock(pin, superblock) {
            Ok(()) => None,
            Err(mismatch) => Some(mismatch),
        },
        None => None,
    }
}

/// Reads the superblock of a hash image, by one read of one sector, and checks that it has the values of the pin, if there is
/// one.
///
/// # Errors
///
/// - `Unread` with the fault of `read_superblock`.
/// - `Unpinned` with the first value that differs from the pin's.
pub fn read_pinned<H: BlockDev>(
    hash_dev: &mut H,
    pin: &Option<Pin>,
) -> Result<Superblock, PinnedFault>
    ensures read { IsOnlyRead (H.state hash_dev.old) (H.state hash_dev.new) }
    ensures ok { IfOk result (ReadsPinned (H.state hash_dev.old) pin.now (H.state hash_dev.new)) }
    ensures err { IfErr result (IsPinnedCause (H.state hash_dev.old) pin.now (H.state hash_dev.new)) }
    ensures calls { CallsPinned (DeviceDoes H.state H.does) hash_dev.old pin.now hash_dev.new result }
{
    let superblock = match read_superblock(hash_dev) {
        Ok(superblock) => superblock,
        Err(fault) => return Err(PinnedFault::Unread(fault)),
    };
    match mismatch_of(pin, &superblock) {
        Some(mismatch) => Err(PinnedFault::Unpinned(mismatch)),
        None => Ok(superblock),
    }
}
