//! Compares a hash image with a data image.
ghost use Rattle.std.specs.Prelude.{◌≡◌, OnOk, IfErr};
ghost use Rattle.image_commands.specs.Endings.{IsQuiet};
ghost use Rattle.image_commands.specs.Comparing.{FailsToCompare, FindsMatches, OnlyReadsImages};
ghost use Rattle.image_commands.specs.Places.{before, behind};

use crate::fault::ImageFault;
use crate::offsets::verdict_from;
use crate::places::Bounds;
use block_device::BlockDev;
use device_adapters::Window;
use program_io::Counted;
use std::alloc::Global;
use std::io::Write;
use std::marker::Brand;
use tree_shape::Digest;
use verity_format::{Verdict, VerityTree, verify_tree};

/// A data device and its hash device.
#[derive(Drop)]
pub struct ImagePair<D, H> {
    pub data: D,
    pub hash: H,
}

/// Returns windows of the two devices: the data device before the data's end, and the hash device from the hash image's first
/// sector on.
pub fn place_parts<D: BlockDev, H: BlockDev>(
    data_dev: D,
    hash_dev: H,
    bounds: Bounds,
) -> ImagePair<Window<D>, Window<H>>
    ensures data { ⟦<Window<D, Brand> as BlockDev>⟧.state result.data ≡ before (D.state data_dev) bounds.end }
    ensures hash { ⟦<Window<H, Brand> as BlockDev>⟧.state result.hash ≡ behind (H.state hash_dev) bounds.first }
{
    ImagePair {
        data: Window::<D, Brand>::before(data_dev, bounds.end),
        hash: Window::<H, Brand>::behind(hash_dev, bounds.first),
    }
}

/// Compares the tree over the data device with the one on the hash device, and prints `matches`.
///
/// # Errors
///
/// - `Verify` if a device is too small or failed, or an allocation was refused.
/// - `Differs` if the trees differ. Its block counts from the beginning of a file that has `ahead` hash blocks before the hash
///   device.
/// - `Write` if the line can't be written.
#[tactic(auto, using(crate::proofs::lemmas::EndingLemmas::quiet))]
pub fn compare<'a, D: BlockDev, H: BlockDev, W: Write>(
    alloc: Global,
    two: &mut ImagePair<D, H>,
    tree: &VerityTree,
    ahead: u64,
    root: &Digest,
    writer: &mut Counted<W>,
) -> Result<(), ImageFault<'a>>
    ensures read { OnlyReadsImages D.state H.state two.old two.new }
    ensures ok { OnOk result (FindsMatches D.state H.state two.old two.new W.contents writer.old writer.new tree.now root.now) }
    ensures err { IfErr result (FailsToCompare D.state H.state two.old two.new writer.new tree.now ahead root.now) }
    ensures quiet { IfErr result (λ fault. IsQuiet fault (W.contents writer.old.inner) (W.contents writer.new.inner)) }
{
    match verify_tree(alloc, &mut two.data, &mut two.hash, tree, root)? {
        Verdict::Matches => {
            writer.put(b"matches\n")?;
            Ok(())
        }
        verdict => Err(ImageFault::Differs(verdict_from(ahead, verdict))),
    }
}
