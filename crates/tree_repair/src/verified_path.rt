//! The hash blocks on the path to the last block, kept for the next one.
ghost use Rattle.std.specs.Prelude.{◌<◌};
ghost use Rattle.tree_path.specs.Path.{LeadsTo};

use crate::image::DamagedImage;
use crate::place::Repair;
use allocation::OutOfMemory;
use block_device::BlockDev;
use tree_path::TreePath;
use tree_shape::Shape;

/// The hash blocks on the path to a data block, from the root down to a height, each with the digest that its parent stores.
/// They are those of the tree, whatever the hash device holds now.
#[derive(Drop)]
pub(crate) struct VerifiedPath {
    pub(crate) path: TreePath,
    index: u64,
    height: u32,
    ghost inside: { index < path.shape.blocks },
    ghost leads: { LeadsTo path index height },
}

impl VerifiedPath {
    ghost use Rattle.std.specs.Prelude.{◌≡◌, ◌≤◌, IfOk, OnErr, true};
    ghost use Rattle.allocation.specs.Refusal.{IsOutOfMemory};
    ghost use Rattle.block_device.specs.Call.{DeviceDoes};
    ghost use Rattle.tree_path.specs.Path.{largest_block};
    ghost use Rattle.tree_path.specs.Steps.{HasReadAtMost};
    ghost use Rattle.tree_shape.specs.Shape.{IsShape, levels};
    ghost use Rattle.verity_format.specs.Blocks.{IsOnlyRead};
    ghost use Rattle.verity_format.specs.Image.{tree_sectors};
    ghost use Rattle.tree_repair.specs.AccessBudgets.{LeavesWorld, nothing_due, reading, way_sectors};
    ghost use Rattle.tree_repair.specs.Jobs.{job};
    ghost use Rattle.tree_repair.specs.Parity.{IsPlace};
    ghost use Rattle.tree_repair.specs.ParitySearches.{IsOfTree, IsWayOr, path_found};
    ghost use Rattle.tree_repair.specs.RepairCalls.{HandsToHash, IsNoWrite, MakesRepairCalls};
    ghost use Rattle.tree_repair.specs.Worlds.{IsWorldRead};

    /// Returns a path of which nothing was read.
    ///
    /// # Errors
    ///
    /// `OutOfMemory` if the allocator refused memory for the hash blocks.
    pub(crate) fn new(repair: &Repair) -> Result<VerifiedPath, OutOfMemory>
        requires { IsShape repair.now.shape }
        ensures ok { IfOk result (λ v. IsOfTree (job repair.now).tree v.path) }
        ensures err { OnErr result (IsOutOfMemory largest_block) }
    {
        let path = TreePath::new(repair.alloc, repair.shape, repair.salt, repair.root)?;
        let height = path.levels();
        Ok(VerifiedPath {
            path,
            index: 0,
            height,
        })
    }

    /// Moves to the path to another data block, down to a height. It reads the hash blocks that the last path doesn't share.
    /// Returns whether all hash blocks of the path verify.
    pub(crate) fn reach<D: BlockDev, H: BlockDev, C: BlockDev>(
        &mut self,
        repair: &Repair,
        image: &mut DamagedImage<D, H, C>,
        index: u64,
        height: u32,
    ) -> bool
        requires tree { IsOfTree (job repair.now).tree self.old.path }
        requires place { IsPlace repair.now.shape height index }
        requires fits { tree_sectors repair.now.shape ≤ image.old.world.hash_dev.size }
        ensures tree { IsOfTree (job repair.now).tree self.new.path }
        ensures read { IsWorldRead image.old.world image.new.world }
        ensures way { IsWayOr (job repair.now).tree index height image.old.world.hash_dev image.new.world.hash_dev (path_found result self.new.path) }
        ensures asked { LeavesWorld (reading 0 (way_sectors repair.now.shape height)) nothing_due image.old.world image.new.world }
        ensures called { HandsToHash (DeviceDoes H.state H.does) IsNoWrite true image.old image.new }
        ensures kept { image.new.world.data_copies ≡ image.old.world.data_copies }
    {
        self.reach_on(repair, &mut image.hash, index, height)
    }

    // Moves to the path to another data block on a hash device.
    fn reach_on<H: BlockDev>(
        &mut self,
        repair: &Repair,
        device: &mut H,
        index: u64,
        height: u32,
    ) -> bool
        requires tree { IsOfTree (job repair.now).tree self.old.path }
        requires place { IsPlace repair.now.shape height index }
        requires fits { tree_sectors repair.now.shape ≤ (H.state device.old).size }
        ensures tree { IsOfTree (job repair.now).tree self.new.path }
        ensures read { IsOnlyRead (H.state device.old) (H.state device.new) }
        ensures way { IsWayOr (job repair.now).tree index height (H.state device.old) (H.state device.new) (path_found result self.new.path) }
        ensures asked { HasReadAtMost (H.state device.old) (way_sectors repair.now.shape height) (H.state device.new) }
        ensures counted { (H.state device.old).failures ≤ (H.state device.new).failures }
        ensures called { MakesRepairCalls (DeviceDoes H.state H.does) IsNoWrite true device.old device.new }
    {
        let from = self.shared_level(&repair.shape, index, height);
        match self.path.descend(device, index, from, height) {
            Ok(None) => {
                self.index = index;
                self.height = height;
                true
            }
            Ok(Some(level)) => {
                self.index = index;
                self.height = level + 1;
                false
            }
            Err(_) => {
                self.index = index;
                self.height = from;
                false
            }
        }
    }

    // The level, at least `height`, from which up the path to a data block has these hash blocks.
    fn shared_level(&self, shape: &Shape, index: u64, height: u32) -> u32
        requires shape { self.now.path.shape ≡ shape.now }
        requires place { IsPlace shape.now height index }
        ensures high { height ≤ result }
        ensures few { result ≤ levels shape.now }
        ensures leads { LeadsTo self.now.path index result }
    {
        let levels = shape.levels();
        let mut level = self.height.max(height);
        'levels: while level < levels {
            if shape.block_on_path(level, index) == shape.block_on_path(level, self.index) {
                return level;
            }
            level += 1;
        }
        levels
    }
}
