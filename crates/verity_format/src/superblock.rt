//! The superblock and its encoding.
ghost use Rattle.std.specs.Prelude.{◌≡◌, ◌+◌, ◌≤◌, ◌++◌, length, take, drop, IfOk};
ghost use Rattle.std.specs.Result.{result_err};
ghost use Rattle.tree_shape.specs.Shape.{IsShape, first_fault};
ghost use Rattle.verity_format.specs.Superblock.{shape_of, shape_after, super_of, IsSuperblock, Carries, spelling};
ghost use Rattle.verity_format.specs.Trees.{superblock_tree, tree_alone};

use crate::VerityTree;
use std::marker::Model;
use tree_shape::{Salt, Shape, ShapeFault};

/// The superblock at the beginning of a hash image: a UUID, the block sizes in bytes, the number of data blocks, and
/// the salt. The tree begins at hash block 1.
#[derive(Clone, Copy)]
pub struct Superblock {
    uuid: [u8; 16],
    shape: Shape,
    salt: Salt,
}

impl Model for Superblock {
    ghost use Rattle.verity_format.specs.Superblock.{SuperRecord};

    ghost Value = { SuperRecord };

    ghost use Rattle.verity_format.specs.Inside.{seen_super, IsValidInside, superblock_inside, inside_of-seen};

    ghost view = { seen_super };

    ghost invariant = { IsValidInside };

    ghost inverse = { superblock_inside };

    ghost inverse_ok = { inside_of-seen };
}

impl Superblock {
    /// Returns the superblock with these fields.
    ///
    /// # Errors
    ///
    /// The first fault of the tree's shape.
    pub fn new(
        uuid: [u8; 16],
        data_block: u32,
        hash_block: u32,
        blocks: u64,
        salt: Salt,
    ) -> Result<Superblock, ShapeFault>
        ensures value { IfOk result (λ s. s ≡ super_of uuid data_block hash_block blocks salt) }
        ensures fault { result_err result ≡ first_fault (shape_after data_block hash_block blocks) }
    {
        let shape = Shape::new(data_block, hash_block, blocks, 1)?;
        Ok(Superblock::with_shape(uuid, shape, salt))
    }

    // Returns the superblock of a tree that begins at hash block 1.
    pub(crate) fn with_shape(uuid: [u8; 16], shape: Shape, salt: Salt) -> Superblock
        requires start { shape.start ≡ 1 }
        requires valid { IsShape shape }
        ensures { result ≡ super_of uuid shape.data_block shape.hash_block shape.blocks salt }
    {
        Superblock { uuid, shape, salt }
    }

    /// Returns the UUID in the byte order of its text form.
    pub fn uuid(&self) -> [u8; 16]
        ensures value { result ≡ self.now.uuid }
        ensures size { length self.now.uuid ≡ 16 }
    {
        self.uuid
    }

    /// Returns the size of a data block in bytes.
    pub fn data_block(&self) -> u32
        ensures { result ≡ self.now.data_block }
    {
        self.shape.data_block()
    }

    /// Returns the size of a hash block in bytes.
    pub fn hash_block(&self) -> u32
        ensures { result ≡ self.now.hash_block }
    {
        self.shape.hash_block()
    }

    /// Returns the number of data blocks.
    pub fn blocks(&self) -> u64
        ensures { result ≡ self.now.blocks }
    {
        self.shape.blocks()
    }

    /// Returns the salt that is hashed before each block.
    pub fn salt(&self) -> Salt
        ensures { result ≡ self.now.salt }
    {
        self.salt
    }

    /// Returns the shape of the tree, which begins at hash block 1.
    pub fn shape(&self) -> Shape
        ensures value { result ≡ shape_of self.now }
        ensures valid { IsShape (shape_of self.now) }
    {
        self.shape
    }

    /// Returns the tree that follows the superblock, from hash block 1 on.
    pub fn tree(&self) -> VerityTree
        ensures value { result ≡ superblock_tree self.now }
        ensures valid { IsShape (shape_of self.now) }
    {
        VerityTree {
            shape: self.shape,
            salt: self.salt,
        }
    }

    /// Returns the tree with the same fields without a superblock before it, from hash block 0 on.
    pub fn tree_alone(&self) -> VerityTree
        ensures value { result ≡ tree_alone self.now }
        ensures valid { IsShape (tree_alone self.now).shape }
    {
        let after = self.shape();
        let blocks = after.blocks();
        match Shape::new(after.data_block(), after.hash_block(), blocks, 0) {
            Ok(shape) => VerityTree {
                shape,
                salt: self.salt,
            },
            Err(_) => unreachable!(),
        }
    }

    /// Returns the 512 bytes that store the superblock at the beginning of a hash image. Bytes outside all fields are
    /// zero.
    pub fn encode(&self) -> [u8; 512]
        ensures value { result ≡ spelling self.now }
        ensures carried { Carries self.now result }
    {
        let shape = self.shape();
        let algorithm = self.salt.algorithm();
        let salt = self.salt();
        let salt = salt.bytes();
        let mut bytes = [0; 512];
        put(&mut bytes, 0, b"verity\0\0");
        put(&mut bytes, 8, &1u32.to_le_bytes());
        put(&mut bytes, 12, &1u32.to_le_bytes());
        put(&mut bytes, 16, &self.uuid());
        put(&mut bytes, 32, algorithm.name());
        put(&mut bytes, 64, &shape.data_block().to_le_bytes());
        put(&mut bytes, 68, &shape.hash_block().to_le_bytes());
        put(&mut bytes, 72, &shape.blocks().to_le_bytes());
        put(&mut bytes, 80, &(salt.len() as u16).to_le_bytes());
        put(&mut bytes, 88, salt);
        bytes
    }
}

// Writes `part` at offset `at`.
pub(crate) fn put(bytes: &mut [u8], at: usize, part: &[u8])
    requires { at + length part.now ≤ length bytes.old }
    ensures { bytes.new ≡ take at bytes.old ++ part.now ++ drop (at + length part.now) bytes.old }
{
    bytes[at..at + part.len()].copy_from_slice(part);
}
