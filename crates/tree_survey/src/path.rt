//! The hash blocks on the path to a data block, some of which may be unreadable.
ghost use Rattle.std.specs.Prelude.{◌≤◌, ◌<◌, ◌*◌, ◌/◌};
ghost use Rattle.tree_shape.specs.Shape.{levels};
ghost use Rattle.verity_format.specs.Image.{tree_sectors};
ghost use Rattle.tree_path.specs.Steps.{CanDescend, HasReadAtMost, steps};
ghost use Rattle.tree_survey.specs.Failing.{IsReadOver};
ghost use Rattle.tree_survey.specs.Paths.{HasDescended, IsLoadedOr};

use block_device::BlockDev;
use tree_path::TreePath;

/// How far down the hash blocks on the path to a data block verify: all of them, or down to the level of one that doesn't, or
/// of one that can't be read.
#[derive(Clone, Copy)]
pub(crate) enum Descent {
    All,
    Bad(u32),
    Unread(u32),
}

/// Reads the hash block of a level on the path to a data block, and returns whether its digest is stored in its parent. Returns
/// `None` if the block can't be read.
pub(crate) fn load<H: BlockDev>(
    path: &mut TreePath,
    device: &mut H,
    level: u32,
    index: u64,
) -> Option<bool>
    requires level { level < levels path.old.shape }
    requires index { index < path.old.shape.blocks }
    requires fits { tree_sectors path.old.shape ≤ (H.state device.old).size }
    ensures over { IsReadOver (H.state device.old) (H.state device.new) }
    ensures asked { HasReadAtMost (H.state device.old) (path.old.shape.hash_block / 512) (H.state device.new) }
    ensures ends { IsLoadedOr (steps path.old path.new (H.state device.old) (H.state device.new) index level) result }
{
    match path.load(device, level, index) {
        Ok(good) => Some(good),
        Err(_) => None,
    }
}

/// Reads the hash blocks below level `from` on the path to a data block, from the top down, up to the first that doesn't verify
/// or can't be read.
pub(crate) fn descend<H: BlockDev>(
    path: &mut TreePath,
    device: &mut H,
    index: u64,
    from: u32,
) -> Descent
    requires { CanDescend path.old (H.state device.old) index from 0 }
    ensures over { IsReadOver (H.state device.old) (H.state device.new) }
    ensures asked { HasReadAtMost (H.state device.old) (from * (path.old.shape.hash_block / 512)) (H.state device.new) }
    ensures ends { HasDescended (steps path.old path.new (H.state device.old) (H.state device.new) index from) result }
{
    let mut level = from;
    'levels: while level > 0 {
        level -= 1;
        match load(path, device, level, index) {
            Some(true) => {}
            Some(false) => return Descent::Bad(level),
            None => return Descent::Unread(level),
        }
    }
    Descent::All
}
