//! Formatting: writing the hash image of a data image.
ghost use Rattle.std.specs.Prelude.{◌≡◌, IfOk, IfErr, OnErr, length};
ghost use Rattle.allocation.specs.Refusal.{IsOutOfMemory};
ghost use Rattle.verity_format.specs.Image.{first_block};
ghost use Rattle.verity_format.specs.FaultNames.{format_number, format_name};
ghost use Rattle.verity_format.specs.Options.{FormatsWith, HandsWith};
ghost use Rattle.verity_format.specs.Formatting.{FormatEnds, Formats, RefusesFormat, given_blocks, whole_blocks};
ghost use Rattle.verity_format.specs.Handing.{MovesImage};

use crate::Superblock;
use crate::access::{TreeFault, image_sectors};
use crate::making::check_room;
use crate::superblock::put;
use crate::writing::write_tree;
use allocation::{OutOfMemory, zeros};
use block_device::{BlockDev, DeviceFault};
use std::alloc::Global;
use thiserror::Error;
use tree_shape::{Digest, Salt, Shape};

/// Why formatting was refused or didn't complete.
#[derive(Clone, Copy, Debug, PartialEq, Eq, Error)]
pub enum FormatFault {
    /// The shape of the tree is invalid.
    #[error("Shape")]
    Shape,
    /// The data device is smaller than the data blocks.
    #[error("DataTooSmall")]
    DataTooSmall,
    /// The hash device has fewer sectors of 512 bytes than `needed`.
    #[error("HashTooSmall needed {needed}")]
    HashTooSmall { needed: u64 },
    /// The hash device is read-only.
    #[error("HashReadOnly")]
    HashReadOnly,
    /// One of the two devices failed in the call.
    #[error("Device")]
    Device,
    /// An allocation failed.
    #[error("NoMemory")]
    NoMemory,
}

impl FormatFault {
    /// Returns the number in printed output.
    pub fn number(self) -> u8
        ensures { result ≡ format_number self }
    {
        match self {
            FormatFault::Shape => 1,
            FormatFault::DataTooSmall => 2,
            FormatFault::HashTooSmall { .. } => 3,
            FormatFault::HashReadOnly => 4,
            FormatFault::Device => 5,
            FormatFault::NoMemory => 6,
        }
    }

    /// Returns the name in printed output.
    pub fn name(self) -> &'static str
        ensures { result.now ≡ format_name self }
    {
        match self {
            FormatFault::Shape => "Shape",
            FormatFault::DataTooSmall => "DataTooSmall",
            FormatFault::HashTooSmall { .. } => "HashTooSmall",
            FormatFault::HashReadOnly => "HashReadOnly",
            FormatFault::Device => "Device",
            FormatFault::NoMemory => "NoMemory",
        }
    }
}

impl From<DeviceFault> for FormatFault {
    ghost use Rattle.verity_format.specs.declared.formatting.FormatFault.TheVariants.{Device as DeviceFailed};

    ghost from_gives = { λ _ e. e ≡ DeviceFailed };

    fn from(_fault: DeviceFault) -> FormatFault {
        FormatFault::Device
    }
}

impl From<OutOfMemory> for FormatFault {
    ghost use Rattle.verity_format.specs.declared.formatting.FormatFault.TheVariants.{NoMemory};

    ghost from_gives = { λ _ e. e ≡ NoMemory };

    fn from(_error: OutOfMemory) -> FormatFault {
        FormatFault::NoMemory
    }
}

impl From<TreeFault> for FormatFault {
    ghost use Rattle.verity_format.specs.Formatting.{format_fault_of};

    ghost from_gives = { λ f e. e ≡ format_fault_of f };

    fn from(fault: TreeFault) -> FormatFault {
        match fault {
            TreeFault::Device => FormatFault::Device,
            TreeFault::NoMemory => FormatFault::NoMemory,
        }
    }
}

/// Formats the hash device for the data device: writes the superblock, zeros up to hash block 1, and the tree.
/// Returns the root hash.
///
/// The data device is read once, in runs, and never written. The tree is written first, level by level, with one
/// block of each level in memory. Hash block 0 with the superblock is written last. After `Device` or `NoMemory`
/// there is no new superblock, unless the write of hash block 0 itself failed; then the whole tree has been written.
/// The superblock of an earlier format stays until it is overwritten. Nothing is synced: a device with a write cache
/// may store hash block 0 first.
///
/// # Errors
///
/// - `DataTooSmall`, `HashTooSmall` or `HashReadOnly`, the first that applies; neither device was accessed.
/// - `Device` if one of the two devices fails.
/// - `NoMemory` if an allocation fails.
pub fn format<D: BlockDev, H: BlockDev>(
    alloc: Global,
    data_dev: &mut D,
    hash_dev: &mut H,
    params: Superblock,
) -> Result<Digest, FormatFault>
    // also states all calls, whatever the devices do
    ensures devices { MovesImage D.state D.does H.state H.does params data_dev.old hash_dev.old data_dev.new hash_dev.new result }
    ensures ok { IfOk result (Formats D.state H.state params data_dev.old hash_dev.old data_dev.new hash_dev.new) }
    ensures err { IfErr result (FormatEnds D.state H.state params data_dev.old hash_dev.old data_dev.new hash_dev.new) }
    // a refusal that applies is returned, and neither device was accessed
    ensures refused { RefusesFormat D.state H.state params data_dev.old hash_dev.old data_dev.new hash_dev.new result }
{
    let shape = params.shape();
    check_room(data_dev, hash_dev, &shape, image_sectors(&shape))?;
    let first = encoded_block(alloc, &params)?;
    let root = write_tree(alloc, data_dev, hash_dev, &shape, &params.salt())?;
    hash_dev.write(0, &first)?;
    Ok(root)
}

/// The options of formatting: the fields of the superblock.
#[derive(Clone, Copy)]
pub struct FormatOptions {
    /// The UUID in the byte order of its text form.
    pub uuid: [u8; 16],
    /// The size of a data block in bytes: 512, 1024, 2048 or 4096.
    pub data_block: u32,
    /// The size of a hash block in bytes: 512, 1024, 2048 or 4096.
    pub hash_block: u32,
    /// The number of data blocks; `None` means all whole blocks of the data device.
    pub blocks: Option<u64>,
    /// The salt that is hashed before each block.
    pub salt: Salt,
}

/// Formats as `format` does, with a superblock of these options.
///
/// # Errors
///
/// Those of `format` and, before all others, `Shape` if the shape of the tree is invalid; then neither device was
/// accessed.
pub fn format_with<D: BlockDev, H: BlockDev>(
    alloc: Global,
    data_dev: &mut D,
    hash_dev: &mut H,
    options: FormatOptions,
) -> Result<Digest, FormatFault>
    ensures formats { FormatsWith D.state H.state options data_dev.old hash_dev.old data_dev.new hash_dev.new result }
    ensures handed { HandsWith D.state D.does H.state H.does options data_dev.old hash_dev.old data_dev.new hash_dev.new result }
{
    let FormatOptions {
        uuid,
        data_block,
        hash_block,
        blocks,
        salt,
    } = options;
    let count = given_blocks(blocks, data_block, data_dev.sectors());
    match Superblock::new(uuid, data_block, hash_block, count, salt) {
        Ok(params) => format(alloc, data_dev, hash_dev, params),
        Err(_) => Err(FormatFault::Shape),
    }
}

/// Returns the number of data blocks if it is given, or the number of whole blocks of `size` bytes in `sectors`
/// sectors.
pub fn given_blocks(blocks: Option<u64>, size: u32, sectors: u64) -> u64
    ensures { result ≡ given_blocks blocks size sectors }
{
    match blocks {
        Some(count) => count,
        None => whole_blocks(sectors, size),
    }
}

// Returns the number of whole blocks of `size` bytes in `sectors` sectors.
fn whole_blocks(sectors: u64, size: u32) -> u64
    ensures { result ≡ whole_blocks sectors size }
{
    if size < 512 {
        return 0;
    }
    sectors / u64::from(size / 512)
}

// Returns hash block 0: the superblock padded with zeros.
fn encoded_block(alloc: Global, params: &Superblock) -> Result<Vec<u8>, OutOfMemory>
    ensures value { IfOk result (λ v. v.items ≡ first_block params.now) }
    ensures size { IfOk result (λ v. length v.items ≡ params.now.hash_block) }
    ensures err { OnErr result (IsOutOfMemory params.now.hash_block) }
{
    let shape = params.shape();
    let mut block = zeros(alloc, shape.hash_block() as usize)?;
    put(&mut block, 0, &params.encode());
    Ok(block)
}
