//! The subtrees that begin at a data block, and their sizes.
ghost use Rattle.std.specs.Prelude.{◌≡◌, ◌≤◌, ◌^◌, min};
ghost use Rattle.tree_shape.specs.Shape.{per_block};
ghost use Rattle.tree_path.specs.Spans.{IsTopAt};

use tree_shape::Shape;

/// Returns the highest level, at most `most`, of a subtree that begins at data block `index`. A subtree of level k
/// has k levels of hash blocks, so one of level 0 is the data block itself.
pub fn top_at(shape: &Shape, most: u32, index: u64) -> u32
    ensures { IsTopAt (per_block shape.now) most index result }
{
    let per_block = shape.per_block();
    let mut rest = index;
    let mut level = 0;
    'levels: while level < most {
        if rest % per_block != 0 {
            return level;
        }
        rest /= per_block;
        level += 1;
    }
    level
}

/// Returns the number of data blocks of a subtree of that level, but at most `most`.
pub fn span(shape: &Shape, level: u32, most: u64) -> u64
    requires { most ≤ 2 ^ 54 }
    ensures { result ≡ min (per_block shape.now ^ level) most }
{
    let per_block = shape.per_block();
    let mut width = 1;
    'levels: for _ in 0..level {
        if width >= most {
            return most;
        }
        width *= per_block;
    }
    width.min(most)
}
