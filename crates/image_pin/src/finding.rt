//! The superblock of a hash image, read once.
ghost use Rattle.std.specs.Prelude.{◌≡◌, IfErr, IfOk, OnOk};
ghost use Rattle.block_device.specs.Call.{DeviceDoes};
ghost use Rattle.verity_format.specs.Blocks.{IsFullRead, IsOnlyRead};
ghost use Rattle.image_pin.specs.Finding.{CallsTree, IsNoTree, ReadsSuper, is_aligned, may_begin};

use crate::mismatch::Mismatch;
use crate::pin::Pin;
use crate::pinned::{PinnedFault, read_pinned};
use block_device::BlockDev;
use verity_format::{Superblock, VerifyFault};

/// Why a hash image has no tree that a command may use.
#[derive(Clone, Copy, Debug, PartialEq, Eq)]
pub enum NoTree {
    /// The superblock isn't read, or is refused.
    Unread(VerifyFault),
    /// No hash block begins at the superblock's sector.
    Unaligned,
    /// The superblock differs from the pin.
    Unpinned(Mismatch),
}

impl From<PinnedFault> for NoTree {
    ghost use Rattle.std.specs.Prelude.{◌≡◌};
    ghost use Rattle.image_pin.specs.Finding.{unpinned_tree};

    ghost from_gives = { λ fault given. given ≡ unpinned_tree fault };

    fn from(fault: PinnedFault) -> NoTree {
        match fault {
            PinnedFault::Unread(fault) => NoTree::Unread(fault),
            PinnedFault::Unpinned(mismatch) => NoTree::Unpinned(mismatch),
        }
    }
}

/// Reads the superblock of a hash image that begins at that sector of its file, and checks that it has the values of the pin, if
/// there is one, and that a hash block begins there. A command on a tree reads the superblock only by this call, and takes the tree
/// from its result.
///
/// # Errors
///
/// Those of `read_pinned`, or `Unaligned`.
pub fn find_tree<H: BlockDev>(
    hash_dev: &mut H,
    first: u64,
    pin: &Option<Pin>,
) -> Result<Superblock, NoTree>
    ensures read { IsOnlyRead (H.state hash_dev.old) (H.state hash_dev.new) }
    ensures ok { IfOk result (ReadsSuper (H.state hash_dev.old) first pin.now) }
    ensures full { OnOk result (IsFullRead (H.state hash_dev.old) 1 (H.state hash_dev.new)) }
    ensures err { IfErr result (IsNoTree (H.state hash_dev.old) first pin.now (H.state hash_dev.new)) }
    ensures calls { CallsTree (DeviceDoes H.state H.does) hash_dev.old first pin.now hash_dev.new result }
{
    if !may_begin(pin, first) {
        return Err(NoTree::Unaligned);
    }
    let superblock = read_pinned(hash_dev, pin)?;
    let size = superblock.hash_block();
    if !is_aligned(first, size) {
        return Err(NoTree::Unaligned);
    }
    Ok(superblock)
}

/// Whether a tree of hash blocks of that size may begin at that sector: a hash block begins there. A size below 512 bytes, of
/// which no hash block is, is refused elsewhere.
pub fn is_aligned(first: u64, size: u32) -> bool
    ensures { result ≡ is_aligned first size }
{
    if size < 512 {
        return true;
    }
    first % u64::from(size / 512) == 0
}

// Whether a tree of the pin may begin at that sector.
fn may_begin(pin: &Option<Pin>, first: u64) -> bool
    ensures { result ≡ may_begin pin.now first }
{
    match pin {
        Some(pin) => is_aligned(first, pin.hash_block),
        None => true,
    }
}
