//! The table line that opens a verity image.
ghost use Rattle.std.specs.Prelude.{◌≡◌, ◌≤◌, IfErr, IfOk, OnErr};
ghost use Rattle.allocation.specs.Asked.{asked};
ghost use Rattle.allocation.specs.Refusal.{IsOutOfMemory};
ghost use Rattle.verity_format.specs.Line.{image_line, line_room, names_of, names_room, parity_of, parity_room, table_text, text_room, verity_text};

use crate::access::data_sectors;
use crate::{Superblock, VerityTree};
use allocation::OutOfMemory;
use dm_table::{CorruptionMode, Line, Name, Parity, Target, Verity};
use std::alloc::Global;
use table_text::print_line;
use tree_shape::Digest;

/// The device arguments of a line, and its parity, if it has some.
#[derive(Clone, Copy)]
pub struct LineDevices<'a> {
    pub data: &'a [u8],
    pub hash: &'a [u8],
    pub parity: Option<LineParity<'a>>,
}

/// The parity of a line. It begins with its device.
#[derive(Clone, Copy)]
pub struct LineParity<'a> {
    /// The device argument.
    pub device: &'a [u8],
    /// The bytes of parity in a codeword of 255 bytes.
    pub roots: u32,
    /// The number of blocks that are covered: the data blocks, and the hash blocks from the tree on.
    pub blocks: u64,
}

/// Returns the table line of the image, `0 N verity 1 DATA HASH ..`, without a newline. The tree begins at hash block
/// 1.
///
/// # Errors
///
/// `OutOfMemory` if an allocation of at most the length of the names and the line fails.
pub fn table_line<'a>(
    alloc: Global,
    superblock: &Superblock,
    data_name: &'a [u8],
    hash_name: &'a [u8],
    root: &Digest,
) -> Result<Vec<u8>, OutOfMemory>
    ensures ok { IfOk result (λ line. line.items ≡ table_text superblock.now data_name.now hash_name.now root.now) }
    ensures err { OnErr result (IsOutOfMemory (line_room superblock.now data_name.now hash_name.now root.now 1)) }
{
    let tree = superblock.tree();
    let devices = LineDevices {
        data: data_name,
        hash: hash_name,
        parity: None,
    };
    table_line_at(alloc, &tree, devices, root, 1)
}

/// Returns the table line of an image whose tree begins at hash block `start` of the hash device, without a newline. With
/// parity it has the options for it: `.. 8 use_fec_from_device DEVICE fec_blocks N fec_start 0 fec_roots N`.
///
/// # Errors
///
/// `OutOfMemory` if an allocation of at most the length of the names and the line fails.
pub fn table_line_at(
    alloc: Global,
    tree: &VerityTree,
    devices: LineDevices<'_>,
    root: &Digest,
    start: u64,
) -> Result<Vec<u8>, OutOfMemory>
    ensures ok { IfOk result (λ text. text.items ≡ verity_text tree.now (names_of devices.entry) root.now start) }
    ensures err { OnErr result (IsOutOfMemory (text_room tree.now (names_of devices.entry) root.now start)) }
{
    let line = image_line(alloc, tree, devices, root, start)?;
    print_line(alloc, &line, true)
}

fn image_line(
    alloc: Global,
    tree: &VerityTree,
    devices: LineDevices<'_>,
    root: &Digest,
    start: u64,
) -> Result<Line, OutOfMemory>
    ensures ok { IfOk result (λ line. line ≡ image_line tree.now (names_of devices.entry) root.now start) }
    ensures err { IfErr result (λ e. asked e ≤ names_room (names_of devices.entry)) }
{
    let data = Name::new(alloc, devices.data)?;
    let hash = Name::new(alloc, devices.hash)?;
    let parity = line_parity(alloc, devices.parity)?;
    let shape = tree.shape;
    Ok(Line {
        start: 0,
        length: data_sectors(&shape),
        target: Target::Verity(Verity {
            data,
            hash,
            data_block: shape.data_block(),
            hash_block: shape.hash_block(),
            blocks: shape.blocks(),
            start,
            root: *root,
            salt: tree.salt,
            ignore_zero_blocks: false,
            corruption: CorruptionMode::Fail,
            in_tasklet: false,
            parity,
            signature_key: None,
        }),
    })
}

fn line_parity(alloc: Global, parity: Option<LineParity<'_>>) -> Result<Option<Parity>, OutOfMemory>
    ensures ok { IfOk result (λ found. found ≡ parity_of parity.entry) }
    ensures err { IfErr result (λ e. asked e ≤ parity_room (parity_of parity.entry)) }
{
    match parity {
        Some(parity) => {
            let device = Name::new(alloc, parity.device)?;
            Ok(Some(Parity {
                device,
                roots: parity.roots,
                blocks: parity.blocks,
                start: 0,
            }))
        }
        None => Ok(None),
    }
}
