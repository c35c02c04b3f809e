//! Trees in memory, where two chains differ, and shapes, for calls and sizes that the program doesn't use.
use crate::has_digits;
use hash_tree::{Chain, Place, area, collide};
use std::alloc::{AllocError, Global};
use std::test::Fail;
use tree_shape::{Algorithm, Salt, Shape, ShapeFault};

/// The size of a hash block, the root hash and the digest of the area, by Python's hashlib. Digest i is that of the eight bytes
/// of i.
static TREES: [(u32, &str, &str); 2] = [
    (
        512,
        "fb74c70cfad7ebf38892e72b6d2d1199dcdfbc4c40318b74f2375643f1e0c9e7",
        "bca07b389ee6c0f939ef819ef210ff8120ca77438c82ef78dd498b1d6b9e7b4b",
    ),
    (
        4096,
        "7c56eb19a23135e64497a69067531f4b5a6a4e5d0c4cee1391ee9639a1584da9",
        "a8689c07cdd0e89a525a64137f62635efde581fa575052e12cdcfaf82b7065d9",
    ),
];

#[test]
fn areas_of_20001_digests(rt: HostRuntime) -> Result<(), Fail> {
    let alloc = rt.alloc();
    let salt = Salt::new(Algorithm::Sha256, &[0xab; 7]).ok_or("salt")?;
    let empty = Salt::new(Algorithm::Sha256, &[]).ok_or("salt")?;
    let mut digests = Vec::new(alloc);
    for i in 0..20_001_u64 {
        digests.push(salt.digest(&i.to_le_bytes()))?;
    }
    for (hash_block, root, bytes) in &TREES {
        let shape = Shape::new(512, *hash_block, 20_001, 1)?;
        assert!(rt; digests.len() as u64 == shape.blocks());
        let (made, top) = area(alloc, &shape, &salt, &digests)?;
        assert!(rt;
            has_digits(top.as_bytes(), root) && has_digits(empty.digest(&made).as_bytes(), bytes)
        );
    }
    Ok(())
}

/// Returns a chain of two hash blocks and a content, each of one byte.
fn chain_of(
    alloc: Global,
    index: u64,
    [top, below, content]: [u8; 3],
) -> Result<Chain, AllocError> {
    let mut path = Vec::new(alloc);
    path.push([top].to_vec(alloc)?).map_err(AllocError::from)?;
    path.push([below].to_vec(alloc)?).map_err(AllocError::from)?;
    Ok(Chain {
        index,
        content: [content].to_vec(alloc)?,
        path,
    })
}

/// The sizes of the blocks, how many there are, where the tree begins, and the shape's fault.
const SHAPES: [(u32, u32, u64, u64, Option<ShapeFault>); 12] = [
    (6144, 4096, 0, 1, Some(ShapeFault::BlockSize)),
    (4096, 256, 0, 1, Some(ShapeFault::BlockSize)),
    (4096, 4096, 0, 1, Some(ShapeFault::NoBlocks)),
    (4096, 4096, u64::MAX, 1, Some(ShapeFault::TooLarge)),
    (512, 512, 1 << 54, 1 << 53, None),
    (512, 512, 1 << 54, (1 << 54) - 1, Some(ShapeFault::TooLarge)),
    (512, 4096, 1 << 54, 0, None),
    (512, 4096, (1 << 54) + 1, 0, Some(ShapeFault::TooLarge)),
    (512, 512, 2, (1 << 54) - 1, None),
    (512, 512, 2, 1 << 54, Some(ShapeFault::TooLarge)),
    (512, 512, 2, u64::MAX, Some(ShapeFault::TooLarge)),
    (512, 512, 1, u64::MAX, None),
];

#[test]
fn chains_and_shapes_are_told_apart(rt: HostRuntime) -> Result<(), Fail> {
    let alloc = rt.alloc();
    let expected = chain_of(alloc, 5, [1, 2, 3])?;
    for (index, bytes, place) in [
        (5, [1, 2, 3], None),
        (5, [9, 2, 3], Some(Place::Hash(0))),
        (5, [1, 9, 9], Some(Place::Hash(1))),
        (5, [1, 2, 9], Some(Place::Content)),
        (6, [9, 9, 9], None),
    ] {
        assert!(rt;
            collide(&expected, &chain_of(alloc, index, bytes)?) == place,
            "{index}"
        );
    }
    let mut shorter = chain_of(alloc, 5, [9; 3])?;
    shorter.path.truncate(1);
    assert!(rt; collide(&expected, &shorter).is_none());
    for (data_block, hash_block, blocks, start, fault) in SHAPES {
        assert!(rt;
            Shape::new(data_block, hash_block, blocks, start).err() == fault,
            "{blocks} {start}"
        );
    }
    Ok(())
}
