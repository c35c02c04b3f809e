//! `verify --fec`: compares an image and its parity in files that are opened once.
ghost use Rattle.std.specs.Prelude.{IfErr, IfOk, OnOk};
ghost use Rattle.fec_area.specs.Layouts.{IsLaidOn};
ghost use Rattle.fec_commands.specs.Layings.{IsRoots};
ghost use Rattle.fec_commands.specs.Verifying.{FailsToCheckParity, FailsToVerifyOpen, IsUnmeasuredBy, MeasuresBy, PrintsParity, VerifiesOpen};

use crate::fault::FecFault;
use crate::image::{LaidTree, ThreeImages, data_end, lay_out};
use block_device::BlockDev;
use command_line::FecVerifyWords;
use device_adapters::{Watched, Watchers, bytes_before, watcher_of};
use fec_area::{Layout, ParityFault, check_parity};
use image_commands::{
    Bounds, ImagePair, SoughtTree, TreeSource, bytes_to_read, compare, place_parts, tree_start,
};
use program_io::Counted;
use std::alloc::Global;
use std::io::Write;
use verity_commands::sector_at;

/// Compares an image with its tree, and then its parity with the parity file. A superblock is read once.
pub(crate) fn verify_open<'a, D: BlockDev + Drop, S: Watchers, W: Write>(
    alloc: Global,
    watchers: &S,
    three: ThreeImages<'_, D>,
    words: &FecVerifyWords<'a>,
    sought: &SoughtTree,
    writer: &mut Counted<W>,
) -> Result<(), FecFault<'a>>
    requires { IsRoots words.now.fec.roots }
    ensures ok { OnOk result (VerifiesOpen D.state three.entry words.now sought.now W.contents writer.old writer.new) }
    ensures err { IfErr result (FailsToVerifyOpen D.state three.entry words.now sought.now W.contents writer.old writer.new) }
{
    let first = sector_at(words.verify.hash_offset);
    let end = data_end(&three, first);
    let all = bytes_to_read(&sought.source, bytes_before(&three.data.device, end));
    let ThreeImages { data, hash, parity } = three;
    let mut parity_dev = parity.device;
    let mut two = place_parts(data.device, hash.device, Bounds { end, first });
    let source = &sought.source;
    let roots = words.fec.roots;
    let laid = measure(&two.data, &mut two.hash, &parity_dev, first, source, roots)?;
    let watcher = watcher_of(watchers, words.verify.progress);
    let ImagePair { data, hash } = two;
    let data = Watched::new(data, watcher, all);
    let mut watched = ImagePair { data, hash };
    let size = laid.tree.shape.hash_block();
    let ahead = tree_start(first, size, 0);
    compare(alloc, &mut watched, &laid.tree, ahead, &sought.root, writer)?;
    let ImagePair { data, hash } = watched;
    let data = data.inner;
    let mut parts = ImagePair { data, hash };
    print_checked(alloc, &mut parts, &laid.layout, &mut parity_dev, writer)
}

// Returns the tree of an image and the layout of its parity, for which the parity device has enough sectors.
fn measure<'a, D: BlockDev, H: BlockDev, P: BlockDev>(
    data_dev: &D,
    hash_dev: &mut H,
    parity: &P,
    first: u64,
    source: &TreeSource,
    roots: u32,
) -> Result<LaidTree, FecFault<'a>>
    requires { IsRoots roots }
    ensures ok { IfOk result (MeasuresBy D.state H.state P.state data_dev.now hash_dev.old parity.now first source.now roots hash_dev.new) }
    ensures err { IfErr result (IsUnmeasuredBy D.state H.state P.state data_dev.now hash_dev.old parity.now first source.now roots) }
{
    let laid = lay_out(data_dev, hash_dev, first, source, roots)?;
    let needed = laid.layout.parity_sectors();
    if parity.sectors() < needed {
        return Err(FecFault::Parity(ParityFault::TooSmall { needed }));
    }
    Ok(laid)
}

// Compares the parity, and prints that it is the image's. Otherwise the fault is `Differs`.
fn print_checked<'a, D: BlockDev, H: BlockDev, P: BlockDev, W: Write>(
    alloc: Global,
    two: &mut ImagePair<D, H>,
    layout: &Layout,
    parity: &mut P,
    writer: &mut Counted<W>,
) -> Result<(), FecFault<'a>>
    requires { IsLaidOn layout.now (D.state two.old.data) (H.state two.old.hash) }
    ensures ok { OnOk result (PrintsParity layout.now D.state H.state P.state two.old parity.old W.contents writer.old writer.new) }
    ensures err { IfErr result (FailsToCheckParity layout.now D.state H.state P.state two.old parity.old W.contents writer.old writer.new) }
{
    match check_parity(alloc, layout, &mut two.data, &mut two.hash, parity)? {
        Some(round) => Err(FecFault::Differs(round)),
        None => {
            writer.put(b"parity ok\n")?;
            Ok(())
        }
    }
}
