//! Verifying: comparing a hash image with a data image.
ghost use Rattle.std.specs.Prelude.{◌≡◌, List, ℕ, OnOk, IfOk, IfErr};
ghost use Rattle.block_device.specs.Call.{DeviceDoes};
ghost use Rattle.verity_format.specs.Blocks.{BothOnlyRead, IsOnlyRead, IsFullRead};
ghost use Rattle.verity_format.specs.FaultNames.{verify_number, verify_name};
ghost use Rattle.verity_format.specs.Verifying.{FailsToFindTree, FailsToVerify, FindsBoth, FindsTree, IsReadFrom, IsReadCause, is_too_small};
ghost use Rattle.verity_format.specs.VerifyCalls.{JudgesOver, JudgesTreeOver, ReadsSuper};

use crate::access::{TreeFault, data_sectors, is_same, read_block, tree_sectors};
use crate::comparing::compare_tree;
use crate::{SuperFault, Superblock, VerityTree, decode};
use block_device::{BlockDev, DeviceFault};
use std::alloc::Global;
use thiserror::Error;
use tree_shape::{Digest, Shape};

/// The result of a comparison.
#[derive(Clone, Copy, Debug, PartialEq, Eq)]
pub enum Verdict {
    /// The hash device stores the tree over the data, and its root hash is the expected one.
    Matches,
    /// The hash device stores the tree over the data, but its root hash is not the expected one.
    RootDiffers,
    /// The first hash block that differs, numbered from the beginning of the hash device.
    AreaDiffers(u64),
}

/// Why the devices weren't compared.
#[derive(Clone, Copy, Debug, PartialEq, Eq, Error)]
pub enum VerifyFault {
    /// The hash device doesn't begin with a superblock.
    #[error(transparent)]
    Super(SuperFault),
    /// There is no sector for the superblock, or the data or the tree ends after its device.
    #[error("TooSmall")]
    TooSmall,
    /// One of the two devices failed in the call.
    #[error("Device")]
    Device,
    /// An allocation failed.
    #[error("NoMemory")]
    NoMemory,
}

impl VerifyFault {
    /// Returns the number in printed output. For `Super` it is that of the superblock's fault.
    pub fn number(self) -> u8
        ensures { result ≡ verify_number self }
    {
        match self {
            VerifyFault::Super(fault) => fault.number(),
            VerifyFault::TooSmall => 9,
            VerifyFault::Device => 10,
            VerifyFault::NoMemory => 11,
        }
    }

    /// Returns the name in printed output. For `Super` it is that of the superblock's fault.
    pub fn name(self) -> &'static str
        ensures { result.now ≡ verify_name self }
    {
        match self {
            VerifyFault::Super(fault) => fault.name(),
            VerifyFault::TooSmall => "TooSmall",
            VerifyFault::Device => "Device",
            VerifyFault::NoMemory => "NoMemory",
        }
    }
}

impl From<DeviceFault> for VerifyFault {
    ghost use Rattle.verity_format.specs.declared.verifying.VerifyFault.TheVariants.{Device as DeviceFailed};

    ghost from_gives = { λ _ e. e ≡ DeviceFailed };

    fn from(_fault: DeviceFault) -> VerifyFault {
        VerifyFault::Device
    }
}

impl From<SuperFault> for VerifyFault {
    ghost use Rattle.verity_format.specs.declared.verifying.VerifyFault.TheVariants.{Super};

    ghost from_gives = { λ f e. e ≡ Super f };

    fn from(fault: SuperFault) -> VerifyFault {
        VerifyFault::Super(fault)
    }
}

impl From<TreeFault> for VerifyFault {
    ghost use Rattle.verity_format.specs.Verifying.{verify_fault_of};

    ghost from_gives = { λ f e. e ≡ verify_fault_of f };

    fn from(fault: TreeFault) -> VerifyFault {
        match fault {
            TreeFault::Device => VerifyFault::Device,
            TreeFault::NoMemory => VerifyFault::NoMemory,
        }
    }
}

/// Compares the tree over the data device with the one on the hash device, and its root hash with `root`.
///
/// The tree is built level by level, with one block of each level in memory. All data blocks and all hash blocks of
/// the tree are read, each once, and the verdict is true of the bytes that these reads returned. The bytes between the superblock and hash block 1 are not compared.
///
/// # Errors
///
/// - `Super` with the first wrong field of the superblock.
/// - `TooSmall` if there is no sector for the superblock, or the data or the tree ends after its device.
/// - `Device` if one of the two devices fails.
/// - `NoMemory` if an allocation fails.
pub fn verify<D: BlockDev, H: BlockDev>(
    alloc: Global,
    data_dev: &mut D,
    hash_dev: &mut H,
    root: &Digest,
) -> Result<Verdict, VerifyFault>
    ensures data { IsOnlyRead (D.state data_dev.old) (D.state data_dev.new) }
    ensures hash { IsOnlyRead (H.state hash_dev.old) (H.state hash_dev.new) }
    ensures ok { IfOk result (FindsBoth D.state H.state data_dev.old hash_dev.old data_dev.new hash_dev.new root.now) }
    ensures err { IfErr result (FailsToVerify D.state H.state data_dev.old hash_dev.old data_dev.new hash_dev.new) }
    ensures calls { JudgesOver (DeviceDoes D.state D.does) (DeviceDoes H.state H.does) data_dev.old hash_dev.old data_dev.new hash_dev.new root.now result }
{
    let superblock = read_superblock(hash_dev)?;
    verify_tree(alloc, data_dev, hash_dev, &superblock.tree(), root)
}

/// Compares the tree over the data device with the one on the hash device from hash block `tree.shape.start()` on,
/// and its root hash with `root`, as `verify` does. Nothing before the tree is read.
///
/// # Errors
///
/// - `TooSmall` if the data or the tree ends after its device; neither device was read.
/// - `Device` if one of the two devices fails.
/// - `NoMemory` if an allocation fails.
pub fn verify_tree<D: BlockDev, H: BlockDev>(
    alloc: Global,
    data_dev: &mut D,
    hash_dev: &mut H,
    tree: &VerityTree,
    root: &Digest,
) -> Result<Verdict, VerifyFault>
    ensures read { BothOnlyRead D.state H.state data_dev.old hash_dev.old data_dev.new hash_dev.new }
    ensures ok { IfOk result (FindsTree D.state H.state tree.now data_dev.old hash_dev.old data_dev.new hash_dev.new root.now) }
    ensures err { IfErr result (FailsToFindTree D.state H.state tree.now data_dev.old hash_dev.old data_dev.new hash_dev.new) }
    ensures calls { JudgesTreeOver (DeviceDoes D.state D.does) (DeviceDoes H.state H.does) tree.now.shape tree.now.salt data_dev.old hash_dev.old data_dev.new hash_dev.new root.now result }
{
    if is_too_small(data_dev, hash_dev, &tree.shape) {
        return Err(VerifyFault::TooSmall);
    }
    let (least, expected) = compare_tree(alloc, data_dev, hash_dev, &tree.shape, &tree.salt)?;
    if let Some(block) = least {
        return Ok(Verdict::AreaDiffers(block));
    }
    if !is_same(&expected, root) {
        return Ok(Verdict::RootDiffers);
    }
    Ok(Verdict::Matches)
}

/// Reads the superblock at the beginning of the hash device.
///
/// # Errors
///
/// - `Super` with the first wrong field.
/// - `TooSmall` if the device has no sector.
/// - `Device` if the device fails.
pub fn read_superblock<H: BlockDev>(hash_dev: &mut H) -> Result<Superblock, VerifyFault>
    ensures read { IsOnlyRead (H.state hash_dev.old) (H.state hash_dev.new) }
    ensures found { IfOk result (λ s. (sector : List ℕ) × IsReadFrom (H.state hash_dev.old) sector s) }
    ensures full { OnOk result (IsFullRead (H.state hash_dev.old) 1 (H.state hash_dev.new)) }
    ensures err { IfErr result (IsReadCause (H.state hash_dev.old) (H.state hash_dev.new)) }
    ensures calls { ReadsSuper (DeviceDoes H.state H.does) hash_dev.old hash_dev.new result }
{
    if hash_dev.sectors() == 0 {
        return Err(VerifyFault::TooSmall);
    }
    let mut sector = [0u8; 512];
    read_block(hash_dev, 0, &mut sector)?;
    Ok(decode(&sector)?)
}

// Returns whether the data or the tree ends after its device.
fn is_too_small<D: BlockDev, H: BlockDev>(data_dev: &D, hash_dev: &H, shape: &Shape) -> bool
    ensures { result ≡ is_too_small shape.now (D.state data_dev.now) (H.state hash_dev.now) }
{
    data_dev.sectors() < data_sectors(shape) || hash_dev.sectors() < tree_sectors(shape)
}
