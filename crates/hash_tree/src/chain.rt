//! A data block with the hash blocks on the way to it.
ghost use Rattle.std.specs.Prelude.{◌↔◌, ◌<◌, ◌^◌, IsTrue, length};
ghost use Rattle.hash_tree.specs.Chain.{IsGood, HangsFrom, bytes_of};

use std::marker::Model;
use tree_shape::{Digest, Salt, Shape, digest_in};

/// A data block with its number, and the hash blocks on the way to it, from the top level down to level 0.
#[derive(Drop)]
pub struct Chain {
    pub index: u64,
    pub content: Vec<u8>,
    pub path: Vec<Vec<u8>>,
}

impl Model for Chain {
    ghost use Rattle.std.specs.Prelude.{map};
    ghost use Rattle.hash_tree.specs.Chain.{ChainRecord};

    ghost Value = { ChainRecord };

    ghost view = { λ c. record { index = c.index; content = c.content.items; path = map (λ b. b.items) c.path.items } };
}

impl Chain {
    /// Whether the chain leads from that root to the data block of its number.
    pub fn holds(&self, shape: &Shape, salt: &Salt, root: &Digest) -> bool
        ensures { IsTrue result ↔ IsGood shape.now salt.now root.now self.now }
    {
        self.index < shape.blocks()
            && self.path.len() == shape.levels() as usize
            && hangs(shape, salt, root, self.index, &self.path, &self.content)
    }
}

/// Whether the path, and at last the content, hang from the digest that is expected.
fn hangs(
    shape: &Shape,
    salt: &Salt,
    expected: &Digest,
    index: u64,
    path: &[Vec<u8>],
    content: &[u8],
) -> bool
    requires { length path.now < 2 ^ 32 }
    ensures { IsTrue result ↔ HangsFrom shape.now salt.now index expected.now (bytes_of path.now) content.now }
{
    let Some((block, below)) = path.split_first() else {
        return content.len() == shape.data_block() as usize && salt.digest(content) == *expected;
    };
    if block.len() != shape.hash_block() as usize || salt.digest(block) != *expected {
        return false;
    }
    let next = digest_in(block, shape.slot_on_path(below.len() as u32, index));
    hangs(shape, salt, &next, index, below, content)
}
