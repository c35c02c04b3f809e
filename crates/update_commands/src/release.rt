//! The release to which an image is brought.
ghost use Rattle.std.specs.Prelude.{◌≡◌, IfErr, IfOk, OnOk};
ghost use Rattle.update_commands.specs.Releases.{FindsNoRelease, FindsRelease, HasRoot, LacksRoot, plan_of};

use block_device::BlockDev;
use image_files::{Images, open_place};
use image_pin::{Pin, find_tree};
use std::alloc::Global;
use tree_difference::{DifferenceFault, Which, check_root_block};
use tree_repair::Plan;
use tree_shape::Digest;
use verity_commands::TreeFault;
use verity_format::{Superblock, VerifyFault, VerityTree, tree_sectors};

/// A release: the superblock of its hash image, and its root hash.
#[derive(Clone, Copy)]
pub(crate) struct Release {
    pub superblock: Superblock,
    pub root: Digest,
}

/// Opens the hash image of the release for reading, reads its superblock once, then its root hash block, and returns the release.
/// The superblock must have the values of the pin, and the block its root hash.
///
/// # Errors
///
/// - `Open` if the image can't be opened.
/// - `Survey` if there is no valid superblock, or it can't be read.
/// - `Unpinned` if the superblock differs from the pin.
/// - `Trees` if the tree doesn't fit on the image, or its root hash block has another digest or can't be read.
pub(crate) fn find_release<'a, I: Images>(
    alloc: Global,
    images: &mut I,
    path: &'a str,
    pin: &Pin,
) -> Result<Release, TreeFault<'a>>
    ensures ok { IfOk result (FindsRelease I.relations I.Dev.state images.old images.new path.now pin.now) }
    ensures err { IfErr result (FindsNoRelease I.relations I.Dev.state images.old images.new path.now pin.now) }
{
    let image = open_place(alloc, images, path, false)?;
    let mut hash_dev = image.device;
    let pinned = Some(*pin);
    let superblock = find_tree(&mut hash_dev, 0, &pinned)?;
    let tree = superblock.tree();
    check_root(alloc, &mut hash_dev, &tree, pin)?;
    Ok(Release {
        superblock,
        root: pin.root,
    })
}

// Checks that the tree of the release fits on its hash device, and that its root hash block has the root hash of the pin.
fn check_root<'a, H: BlockDev>(
    alloc: Global,
    hash_dev: &mut H,
    tree: &VerityTree,
    pin: &Pin,
) -> Result<(), TreeFault<'a>>
    ensures ok { OnOk result (HasRoot tree.now pin.now.root (H.state hash_dev.old)) }
    ensures err { IfErr result (LacksRoot tree.now pin.now.root (H.state hash_dev.old) (H.state hash_dev.new)) }
{
    let size = hash_dev.sectors();
    let needed = tree_sectors(&tree.shape);
    if size < needed {
        return Err(TreeFault::Trees(DifferenceFault::Image(Which::Second, VerifyFault::TooSmall)));
    }
    match check_root_block(alloc, hash_dev, Which::Second, tree, pin.root) {
        Ok(()) => Ok(()),
        Err(fault) => Err(TreeFault::Trees(fault)),
    }
}

/// Returns what is repaired: the tree of the release.
pub(crate) fn plan_of(release: &Release) -> Plan
    ensures { result ≡ plan_of release.now }
{
    Plan {
        tree: release.superblock.tree(),
        root: release.root,
        copy_first: 0,
        write: true,
    }
}
