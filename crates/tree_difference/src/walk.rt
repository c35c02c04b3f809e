//! The paths down two trees to one data block.
ghost use Rattle.std.specs.Prelude.{◌≡◌, ◌≤◌, ◌+◌, OnOk, IfOk, IfErr};
ghost use Rattle.tree_difference.specs.Causes.{EndsWalk};
ghost use Rattle.tree_difference.specs.Walks.{CanEnter, CanWalk, Enters, IsOnWay, StopsWalk};

use crate::fault::{DifferenceFault, Which};
use crate::reading::read_down;
use block_device::BlockDev;
use tree_path::TreePath;
use tree_shape::{Digest, Shape};
use verity_format::is_same;

/// A path of each tree, the first tree's shape, and how many levels and data blocks both trees have.
#[derive(Drop)]
pub(crate) struct Walk {
    pub(crate) first: TreePath,
    pub(crate) second: TreePath,
    pub(crate) shape: Shape,
    pub(crate) levels: u32,
    pub(crate) blocks: u64,
}

/// The level of the digests at which a descent ended, and whether the digests are equal.
#[derive(Clone, Copy)]
pub(crate) struct Stop {
    pub(crate) level: u32,
    pub(crate) same: bool,
}

impl Walk {
    /// Descends both trees towards a data block from level `top`, as long as the digests differ.
    pub(crate) fn descend<D: BlockDev, E: BlockDev>(
        &mut self,
        first: &mut D,
        second: &mut E,
        index: u64,
        top: u32,
    ) -> Result<Stop, DifferenceFault>
        requires { CanWalk self.old (D.state first.old) (E.state second.old) index top }
        ensures ok { IfOk result (StopsWalk D.state E.state self.old self.new first.old second.old first.new second.new index top) }
        ensures err { IfErr result (EndsWalk D.state E.state self.old first.old second.old first.new second.new) }
        ensures way { IfErr result (IsOnWay self.old index top) }
    {
        let mut level = top;
        'levels: while !is_same(
            &self.first.digest_at(level, index),
            &self.second.digest_at(level, index),
        ) {
            if level == 0 {
                return Ok(Stop { level, same: false });
            }
            level -= 1;
            self.enter(first, second, index, level)?;
        }
        Ok(Stop { level, same: true })
    }

    // Reads and verifies the hash block of a level on the path to a data block, in both trees.
    fn enter<D: BlockDev, E: BlockDev>(
        &mut self,
        first: &mut D,
        second: &mut E,
        index: u64,
        level: u32,
    ) -> Result<(), DifferenceFault>
        requires { CanEnter self.old (D.state first.old) (E.state second.old) index level }
        ensures ok { OnOk result (Enters D.state E.state self.old self.new first.old second.old first.new second.new index level) }
        ensures err { IfErr result (EndsWalk D.state E.state self.old first.old second.old first.new second.new) }
        ensures way { IfErr result (IsOnWay self.old index (level + 1)) }
    {
        read_down(
            &mut self.first,
            first,
            Which::First,
            index,
            level + 1,
            level,
        )?;
        read_down(
            &mut self.second,
            second,
            Which::Second,
            index,
            level + 1,
            level,
        )
    }
}
