//! Where the tree of an image is stated, and that tree.
ghost use Rattle.std.specs.Prelude.{◌≡◌, IfErr, IfOk};
ghost use Rattle.verity_format.specs.Blocks.{IsOnlyRead};
ghost use Rattle.image_commands.specs.TreeSources.{IsNoTreeOf, IsNotStored, IsShapeless, IsStatedTree, IsStoredTree, IsTreeOf, may_seek, stored_source};

use crate::tree_place::tree_of;
use crate::watching::bytes_of_blocks;
use block_device::BlockDev;
use image_pin::{NoTree, Pin, TrustedRoot, find_tree, is_aligned};
use tree_shape::Digest;
use verity_format::{FormatOptions, VerityTree};

/// Where the tree of an image is stated.
#[derive(Clone, Copy)]
pub enum TreeSource {
    /// In a superblock before the tree, which must have the values of the pin, if there is one.
    Superblock(Option<Pin>),
    /// In options: there is no superblock.
    Options(FormatOptions),
}

/// A tree that is sought, and its root hash.
#[derive(Clone, Copy)]
pub struct SoughtTree {
    pub source: TreeSource,
    pub root: Digest,
}

/// Why an image has no tree of that source.
#[derive(Clone, Copy, Debug, PartialEq, Eq)]
pub enum NoSource {
    /// The superblock can't be read, differs from the pin, or is stored where no hash block begins.
    Stored(NoTree),
    /// No tree has the shape that the options state.
    Shape,
}

impl From<NoTree> for NoSource {
    ghost use Rattle.std.specs.Prelude.{◌≡◌};
    ghost use Rattle.image_commands.specs.declared.tree_source.NoSource.TheVariants as no_source;

    ghost from_gives = { λ fault given. given ≡ no_source.Stored fault };

    fn from(fault: NoTree) -> NoSource {
        NoSource::Stored(fault)
    }
}

/// Returns the tree of the superblock, which must have the values of the pin, if there is one.
pub fn stored_source(trusted: &TrustedRoot) -> SoughtTree
    ensures { result ≡ stored_source trusted.now }
{
    SoughtTree {
        source: TreeSource::Superblock(trusted.pin),
        root: trusted.root,
    }
}

/// Returns whether the tree may begin at that sector of its file, as far as that is known before the file is opened.
pub fn may_seek(source: &TreeSource, first: u64) -> bool
    ensures { result ≡ may_seek source.now first }
{
    match source {
        TreeSource::Superblock(_) => true,
        TreeSource::Options(options) => is_aligned(first, options.hash_block),
    }
}

/// Returns how many of so many bytes a command reads as data blocks, as far as that is known before it has a tree.
pub fn bytes_to_read(source: &TreeSource, bytes: u64) -> u64 {
    match source {
        TreeSource::Superblock(_) => bytes,
        TreeSource::Options(options) => bytes_of_blocks(options, bytes),
    }
}

/// Returns the tree of that source, over so many sectors of data, of a hash image that begins at that sector of its file. A command
/// that takes its tree from either source gets it by this call alone.
///
/// # Errors
///
/// - `Stored` if the superblock can't be read, differs from the pin, or is stored where no hash block begins.
/// - `Shape` if the options state no valid shape.
pub fn seek_tree<H: BlockDev>(
    source: &TreeSource,
    data_sectors: u64,
    hash_dev: &mut H,
    first: u64,
) -> Result<VerityTree, NoSource>
    ensures read { IsOnlyRead (H.state hash_dev.old) (H.state hash_dev.new) }
    ensures ok { IfOk result (IsTreeOf source.now data_sectors (H.state hash_dev.old) first (H.state hash_dev.new)) }
    ensures err { IfErr result (IsNoTreeOf source.now data_sectors (H.state hash_dev.old) first (H.state hash_dev.new)) }
{
    match source {
        TreeSource::Superblock(pin) => stored_tree(hash_dev, first, pin),
        TreeSource::Options(options) => stated_tree(options, data_sectors),
    }
}

fn stored_tree<H: BlockDev>(
    hash_dev: &mut H,
    first: u64,
    pin: &Option<Pin>,
) -> Result<VerityTree, NoSource>
    ensures read { IsOnlyRead (H.state hash_dev.old) (H.state hash_dev.new) }
    ensures ok { IfOk result (IsStoredTree (H.state hash_dev.old) first pin.now (H.state hash_dev.new)) }
    ensures err { IfErr result (IsNotStored (H.state hash_dev.old) first pin.now (H.state hash_dev.new)) }
{
    let superblock = find_tree(hash_dev, first, pin)?;
    Ok(superblock.tree())
}

fn stated_tree(options: &FormatOptions, data_sectors: u64) -> Result<VerityTree, NoSource>
    ensures ok { IfOk result (IsStatedTree options.now data_sectors) }
    ensures err { IfErr result (IsShapeless options.now data_sectors) }
{
    match tree_of(*options, data_sectors) {
        Ok(params) => Ok(params.tree_alone()),
        Err(_) => Err(NoSource::Shape),
    }
}
