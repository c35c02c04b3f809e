//! Writes blocks that parity restored.
ghost use Rattle.std.specs.Prelude.{◌≡◌, ◌<◌, ◌≤◌, ◌+◌, ◌/◌, false, IfOk, IsTrue, OnErr, is_ok, length, IfErr};
ghost use Rattle.block_device.specs.Call.{DeviceDoes};
ghost use Rattle.block_device.specs.Device.{IsInside};
ghost use Rattle.tree_shape.specs.Digests.{digest};
ghost use Rattle.tree_repair.specs.Jobs.{job};
ghost use Rattle.tree_repair.specs.ParityBounds.{IsAskedAlone, IsReplacedOnce, kept_bill, put_bill};
ghost use Rattle.tree_repair.specs.Parity.{IsPlace, end_at};
ghost use Rattle.tree_repair.specs.RepairCalls.{IsBlockWrite, MakesRepairCalls, wrote_all};
ghost use Rattle.tree_repair.specs.Runs.{CanRun, IsWriterCause, Ran, sector_at, size_at};
ghost use Rattle.tree_repair.specs.Searching.{AreGoodFor, FailsToPutMissing, FailsToReplace, HandsMissing, IsInTree, IsMissingPut, IsMissingRead, IsReached, PutsWhereBad, TellsMissing, missing_size};
ghost use Rattle.tree_repair.specs.Sources.{due};
ghost use Rattle.tree_repair.specs.Visits.{IsBlockKept};

use crate::fault::RepairFault;
use crate::image::DamagedImage;
use crate::keeping::{are_both, is_kept};
use crate::mending::{Mended, put};
use crate::place::{Place, Repair, block_size};
use crate::saying::say_mended;
use crate::seeking::is_there;
use block_device::{BlockDev, DeviceFault};
use program_io::Counted;
use std::io::Write;
use tree_path::TreePath;
use tree_shape::Digest;

/// A lost block, and the path of verified hash blocks that leads to it.
#[derive(Clone, Copy)]
pub(crate) struct Missing<'a> {
    pub(crate) path: &'a TreePath,
    pub(crate) repair: &'a Repair,
    pub(crate) place: Place,
}

/// Writes the bytes of a block, prints its line, and reads it back. If the block doesn't read back, `kept` is cleared.
pub(crate) fn put_restored<D: BlockDev, H: BlockDev, C: BlockDev, W: Write>(
    missing: &Missing<'_>,
    image: &mut DamagedImage<D, H, C>,
    bytes: &[u8],
    block: &mut [u8],
    writer: &mut Counted<W>,
    kept: &mut bool,
) -> Result<bool, RepairFault>
    requires asked { IsTrue missing.now.repair.now.parity }
    requires can { CanRun (job missing.now.repair.now) image.old.world }
    requires place { IsInTree missing.now }
    requires way { IsReached missing.now }
    requires good { AreGoodFor missing.now bytes.now }
    requires bytes { length bytes.now ≡ missing_size missing.now }
    requires size { length block.old ≡ missing_size missing.now }
    ensures run { Ran W.contents (job missing.now.repair.now) image.old.world image.new.world writer.old writer.new result }
    ensures told { IfErr result (IsWriterCause writer.new) }
    ensures placed { IfOk result (IsMissingRead missing.now bytes.now image.old.world image.new.world) }
    ensures kept { IsTrue kept.new → IsTrue kept.old }
    ensures there { IfOk result (λ back. IsTrue back → IsTrue kept.new → IsBlockKept (job missing.now.repair.now) missing.now.place.height missing.now.place.index image.old.world image.new.world) }
    ensures within { IsAskedAlone (kept_bill (missing_size missing.now / 512)) image.old.world image.new.world }
    ensures came { TellsMissing W.contents missing.now image.old.world image.new.world writer.old writer.new result }
    ensures handed { HandsMissing (DeviceDoes D.state D.does) (DeviceDoes H.state H.does) missing.now (wrote_all result) image.old image.new }
{
    let back = put_block(missing, image, bytes, block)?;
    if !back {
        return Ok(false);
    }
    let Missing {
        path,
        repair,
        place,
    } = *missing;
    say_mended(writer, repair, place, Mended::Parity)?;
    let there = is_kept(path, repair, place, Mended::Parity, image, block);
    *kept = are_both(*kept, there);
    Ok(true)
}

/// Writes the bytes of a block, unless the block is valid on its device.
pub(crate) fn put_block<D: BlockDev, H: BlockDev, C: BlockDev>(
    missing: &Missing<'_>,
    image: &mut DamagedImage<D, H, C>,
    bytes: &[u8],
    block: &mut [u8],
) -> Result<bool, DeviceFault>
    requires asked { IsTrue missing.now.repair.now.parity }
    requires can { CanRun (job missing.now.repair.now) image.old.world }
    requires place { IsInTree missing.now }
    requires way { IsReached missing.now }
    requires good { AreGoodFor missing.now bytes.now }
    requires bytes { length bytes.now ≡ missing_size missing.now }
    requires size { length block.old ≡ missing_size missing.now }
    ensures ok { IfOk result (IsMissingPut missing.now bytes.now image.old.world image.new.world) }
    ensures err { OnErr result (FailsToPutMissing missing.now bytes.now image.old.world image.new.world) }
    ensures within { IsAskedAlone (put_bill (missing_size missing.now / 512)) image.old.world image.new.world }
    ensures handed { HandsMissing (DeviceDoes D.state D.does) (DeviceDoes H.state H.does) missing.now (is_ok result) image.old image.new }
    ensures kept { image.new.world.data_copies ≡ image.old.world.data_copies }
{
    let repair = missing.repair;
    let Place { height, index } = missing.place;
    let first = first_sector(repair, missing.place);
    let digest = missing.path.digest_at(height, index);
    if height == 0 {
        return replace(&mut image.data, first, repair, &digest, bytes, block);
    }
    replace(&mut image.hash, first, repair, &digest, bytes, block)
}

/// Returns the first sector of a block on its device.
pub(crate) fn first_sector(repair: &Repair, place: Place) -> u64
    requires { IsPlace repair.now.shape place.height place.index }
    ensures value { result ≡ sector_at repair.now.shape place.height place.index }
    ensures inside { result + size_at repair.now.shape place.height / 512 ≤ end_at repair.now.shape place.height }
{
    let Place { height, index } = place;
    let sectors = (block_size(&repair.shape, height) / 512) as u64;
    if height == 0 {
        return index * sectors;
    }
    let level = height - 1;
    let number = repair.shape.block_on_path(level, index);
    repair.shape.position(level, number) * sectors
}

// Reads a block whose bytes are known. If it doesn't have its digest, the bytes are written if the repair may write.
fn replace<B: BlockDev>(
    device: &mut B,
    first: u64,
    repair: &Repair,
    expected: &Digest,
    bytes: &[u8],
    block: &mut [u8],
) -> Result<bool, DeviceFault>
    requires inside { IsInside (B.state device.old) first (length bytes.now) }
    requires size { length block.old ≡ length bytes.now }
    requires good { digest repair.now.salt bytes.now ≡ expected.now }
    requires allowed { IsTrue repair.now.write → IsTrue (B.state device.old).may_write }
    ensures ok { PutsWhereBad B.state device.old device.new first repair.now expected.now bytes.now result }
    ensures err { FailsToReplace B.state device.old device.new first repair.now expected.now bytes.now result }
    ensures within { IsReplacedOnce (length bytes.now / 512) (B.state device.old) (B.state device.new) }
    ensures handed { MakesRepairCalls (DeviceDoes B.state B.does) (IsBlockWrite first (due repair.now.salt expected.now bytes.now)) (is_ok result) device.old device.new }
{
    if is_there(device, first, &repair.salt, expected, block) {
        return Ok(false);
    }
    put(device, first, bytes, repair.write)?;
    Ok(true)
}
