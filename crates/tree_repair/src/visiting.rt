//! Visits a block of an image: verifies it by the digest that its parent stores, and repairs it.
ghost use Rattle.std.specs.Prelude.{◌≡◌, ◌≤◌, ◌<◌, ◌+◌, ◌*◌, ◌/◌, ◌^◌, IfOk, IsTrue, OnErr, is_ok, length};
ghost use Rattle.block_device.specs.Call.{DeviceDoes};
ghost use Rattle.block_device.specs.Device.{IsInside};
ghost use Rattle.tree_shape.specs.Shape.{IsShape, levels};
ghost use Rattle.verity_format.specs.Image.{tree_sectors};
ghost use Rattle.tree_path.specs.Path.{digest_on};
ghost use Rattle.tree_survey.specs.Surveys.{IsWay};
ghost use Rattle.tree_repair.specs.AccessBudgets.{AsksHashOnce, LeavesHashVisit, LeavesVisit};
ghost use Rattle.tree_repair.specs.Jobs.{job};
ghost use Rattle.tree_repair.specs.BlockChecks.{tree_look};
ghost use Rattle.tree_repair.specs.Mending.{IsNotRemade, IsUnmended, put_calls};
ghost use Rattle.tree_repair.specs.RepairCalls.{CallsHash, HandsToData, HandsToHash, IsBlockWrite, IsHashWrite, IsPlaceWrite, VisitCalls, VisitsHash};
ghost use Rattle.tree_repair.specs.Runs.{CanRun, size_at};
ghost use Rattle.tree_repair.specs.Sources.{due};
ghost use Rattle.tree_repair.specs.Visits.{FailsToStoreBlock, IsHashLooked, IsHashUnmended, IsLooked, IsBlockMade, IsTreePut, KeepsData, hash_sector};

use crate::image::DamagedImage;
use crate::mending::{Mended, WantedBlock, mend, put};
use crate::place::{Place, Repair, block_size};
use crate::remaking::remake;
use block_device::{BlockDev, DeviceFault};
use tree_path::TreePath;

/// Verifies a block, and repairs it if it is corrupt. `memory` has 64 KiB.
///
/// # Errors
///
/// `DeviceFault` if a write failed.
pub(crate) fn visit<D: BlockDev, H: BlockDev, C: BlockDev>(
    path: &TreePath,
    repair: &Repair,
    place: Place,
    image: &mut DamagedImage<D, H, C>,
    memory: &mut [u8],
) -> Result<Mended, DeviceFault>
    requires can { CanRun (job repair.now) image.old.world }
    requires inside { place.index < repair.now.shape.blocks }
    requires way { IsWay (job repair.now).tree place.index place.height path.now }
    requires room { 65536 ≤ length memory.old }
    ensures ok { IfOk result (IsBlockMade (job repair.now) place.height place.index image.old.world image.new.world) }
    ensures err { OnErr result (FailsToStoreBlock (job repair.now) place.height place.index image.old.world image.new.world) }
    ensures asked { LeavesVisit repair.now.shape place.height place.index image.old.world image.new.world }
    ensures handed { VisitCalls (DeviceDoes D.state D.does) (DeviceDoes H.state H.does) (job repair.now) path.now place.height place.index (is_ok result) image.old image.new }
{
    let Place { height, index } = place;
    let size = block_size(&repair.shape, height);
    let (block, beneath) = memory.split_at_mut(size);
    if height == 0 {
        return visit_data(path, repair, index, image, block);
    }
    visit_hash(path, repair, height - 1, index, image, block, beneath)
}

// Visits a data block.
fn visit_data<D: BlockDev, H: BlockDev, C: BlockDev>(
    path: &TreePath,
    repair: &Repair,
    index: u64,
    image: &mut DamagedImage<D, H, C>,
    block: &mut [u8],
) -> Result<Mended, DeviceFault>
    requires can { CanRun (job repair.now) image.old.world }
    requires inside { index < repair.now.shape.blocks }
    requires way { IsWay (job repair.now).tree index 0 path.now }
    requires size { length block.old ≡ size_at repair.now.shape 0 }
    ensures ok { IfOk result (IsBlockMade (job repair.now) 0 index image.old.world image.new.world) }
    ensures err { OnErr result (FailsToStoreBlock (job repair.now) 0 index image.old.world image.new.world) }
    ensures asked { LeavesVisit repair.now.shape 0 index image.old.world image.new.world }
    ensures handed { HandsToData (DeviceDoes D.state D.does) (IsPlaceWrite (job repair.now) path.now 0 index) (is_ok result) image.old image.new }
{
    let size = block.len();
    let first = index * (size / 512) as u64;
    let digest = path.digest_at(0, index);
    let sought = WantedBlock {
        repair,
        first,
        copy_first: first,
        digest,
    };
    let copies = &mut image.data_copies;
    mend(&mut image.data, copies, &sought, block)
}

// Visits a hash block of a level. `memory` has room for a block of each height below it.
fn visit_hash<D: BlockDev, H: BlockDev, C: BlockDev>(
    path: &TreePath,
    repair: &Repair,
    level: u32,
    index: u64,
    image: &mut DamagedImage<D, H, C>,
    block: &mut [u8],
    memory: &mut [u8],
) -> Result<Mended, DeviceFault>
    requires can { CanRun (job repair.now) image.old.world }
    requires inside { index < repair.now.shape.blocks }
    requires level { level < levels repair.now.shape }
    requires way { IsWay (job repair.now).tree index (level + 1) path.now }
    requires size { length block.old ≡ repair.now.shape.hash_block }
    requires room { 4096 * (level + 1) ≤ length memory.old }
    ensures ok { IfOk result (IsHashLooked (job repair.now) path.now level index image.old.world image.new.world) }
    ensures err { OnErr result (IsHashUnmended (job repair.now) path.now level index image.old.world image.new.world) }
    ensures asked { LeavesHashVisit repair.now.shape level index image.old.world image.new.world }
    ensures handed { VisitsHash (DeviceDoes D.state D.does) (DeviceDoes H.state H.does) (IsHashWrite (job repair.now) path.now level index) (is_ok result) image.old image.new }
{
    let size = block.len();
    let sought = hash_sought(path, repair, level, index, size);
    match mend_hash(&sought, image, block)? {
        Mended::Good => Ok(Mended::Good),
        Mended::Copy(number) => Ok(Mended::Copy(number)),
        Mended::Remade => Ok(Mended::Remade),
        Mended::Parity => Ok(Mended::Parity),
        Mended::Lost => {
            if !remake(&sought, level, index, image, block, memory) {
                return Ok(Mended::Lost);
            }
            put_hash(repair, sought.first, image, block)?;
            Ok(Mended::Remade)
        }
    }
}

// Reads a hash block. If it doesn't have its digest, the copies are searched, and what is found is written if the repair may
// write.
fn mend_hash<D: BlockDev, H: BlockDev, C: BlockDev>(
    sought: &WantedBlock<'_>,
    image: &mut DamagedImage<D, H, C>,
    block: &mut [u8],
) -> Result<Mended, DeviceFault>
    requires inside { IsInside image.old.world.hash_dev sought.now.first (length block.old) }
    requires small { sought.now.copy_first + length block.old / 512 < 2 ^ 64 }
    requires allowed { IsTrue sought.now.repair.now.write → IsTrue image.old.world.hash_dev.may_write }
    ensures ok { IfOk result (IsLooked (tree_look sought.now block.old image.old.world image.new.world)) }
    ensures plain { IfOk result IsNotRemade }
    ensures err { OnErr result (IsUnmended (tree_look sought.now block.old image.old.world image.new.world)) }
    ensures kept { KeepsData image.old.world image.new.world }
    ensures asked { AsksHashOnce block.old image.old.world image.new.world }
    ensures handed { HandsToHash (DeviceDoes H.state H.does) (IsBlockWrite sought.now.first (due sought.now.repair.now.salt sought.now.digest block.old)) (is_ok result) image.old image.new }
{
    let copies = &mut image.hash_copies;
    mend(&mut image.hash, copies, sought, block)
}

// Writes a hash block if the repair may write.
fn put_hash<D: BlockDev, H: BlockDev, C: BlockDev>(
    repair: &Repair,
    first: u64,
    image: &mut DamagedImage<D, H, C>,
    block: &[u8],
) -> Result<(), DeviceFault>
    requires inside { IsInside image.old.world.hash_dev first (length block.now) }
    requires allowed { IsTrue repair.now.write → IsTrue image.old.world.hash_dev.may_write }
    ensures put { IsTreePut repair.now.write first block.now (is_ok result) image.old.world image.new.world }
    ensures handed { CallsHash (DeviceDoes H.state H.does) (put_calls repair.now.write first block.now (is_ok result)) image.old image.new }
{
    put(&mut image.hash, first, block, repair.write)
}

// The sectors and the digest of a hash block of a level.
fn hash_sought<'a>(
    path: &TreePath,
    repair: &'a Repair,
    level: u32,
    index: u64,
    size: usize,
) -> WantedBlock<'a>
    requires valid { IsShape repair.now.shape }
    requires inside { index < repair.now.shape.blocks }
    requires level { level < levels repair.now.shape }
    requires few { level < 14 }
    requires way { IsWay (job repair.now).tree index (level + 1) path.now }
    requires size { size ≡ repair.now.shape.hash_block }
    requires copy { repair.now.copy_first ≤ 2 ^ 55 }
    ensures repair { result.repair.now ≡ repair.now }
    ensures first { result.first ≡ hash_sector repair.now.shape level index }
    ensures inside { result.first + repair.now.shape.hash_block / 512 ≤ tree_sectors repair.now.shape }
    ensures copy { result.copy_first ≡ repair.now.copy_first + result.first }
    ensures digest { result.digest ≡ digest_on path.now index (level + 1) }
{
    let number = repair.shape.block_on_path(level, index);
    let place = repair.shape.position(level, number);
    let first = place * (size / 512) as u64;
    let copy_first = repair.copy_first + first;
    let digest = path.digest_at(level + 1, index);
    WantedBlock {
        repair,
        first,
        copy_first,
        digest,
    }
}
