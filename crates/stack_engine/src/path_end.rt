//! Verified blocks by the paths that lead to them.
ghost use Rattle.std.specs.Prelude.{◌≡◌, ◌<◌, ◌*◌, ◌+◌, ◌^◌, option_map};
ghost use Rattle.tree_shape.specs.Shape.{level_blocks, levels, per_block};
ghost use Rattle.stack_rules.specs.Rules.{IsLoaded};
ghost use Rattle.stack_meaning.specs.Erasures.{path_end, tree_block};
ghost use Rattle.stack_lines.specs.Walks.{IsTreeOf};
ghost use Rattle.stack_engine.specs.Erasures.{end_of};

use dm_table::Verity;
use stack_config::Config;
use stack_lines::tree::Tree;
use tree_shape::Shape;

/// A verified block: it is on the path to that data block, beneath so many hash blocks.
#[derive(Clone, Copy)]
pub(crate) struct PathEnd {
    pub(crate) index: u64,
    pub(crate) above: u32,
}

/// The covered block of that number, unless it is neither a data block nor one of the tree.
pub(crate) fn path_end(
    config: &Config,
    verity: &Verity,
    tree: &Tree,
    number: u64,
) -> Option<PathEnd>
    requires tree { IsTreeOf config.now verity.now tree.now }
    ensures { option_map end_of result ≡ path_end verity.now number }
{
    let _config = config;
    if number < verity.blocks {
        return Some(PathEnd {
            index: number,
            above: tree.shape.levels(),
        });
    }
    tree_block(&tree.shape, number - verity.blocks)
}

/// The hash block of that number, counted from the first block of the tree on.
fn tree_block(shape: &Shape, number: u64) -> Option<PathEnd>
    ensures { option_map end_of result ≡ tree_block shape.now (levels shape.now) number }
{
    let mut left = number;
    let mut above = 0;
    let mut level = shape.levels();
    while level > 0 {
        level -= 1;
        let count = shape.level_blocks(level);
        if left < count {
            let index = first_beneath(shape, level, left);
            return Some(PathEnd { index, above });
        }
        left -= count;
        above += 1;
    }
    None
}

/// The first data block beneath a hash block, by its level and its number there.
fn first_beneath(shape: &Shape, level: u32, number: u64) -> u64
    requires level { level < levels shape.now }
    requires number { number < level_blocks shape.now level }
    ensures { result ≡ number * per_block shape.now ^ (level + 1) }
{
    let many = shape.per_block();
    let mut index = number;
    let mut step = 0;
    while step <= level {
        index *= many;
        step += 1;
    }
    index
}
