//! A sequence of calls with their expected answers, and the largest capacities.
use std::test::Fail;
use tree_shape::Digest;
use verified_cache::{BlockCache, Key};

/// Returns the key of a block of a line.
fn key_of(line: u32, block: u64) -> Key {
    Key {
        device: 1,
        line,
        level: 0,
        block,
    }
}

/// Returns the first byte of the block that is cached for the key with a digest whose bytes are all `digest`.
fn found(cache: &mut BlockCache, key: Key, digest: u8) -> Option<u8> {
    cache
        .find(key, &Digest::new([digest; 32]))?
        .first()
        .copied()
}

/// A block that is cached, and its digest; then what is found of three blocks, in this order. A lookup with another digest
/// finds nothing, and doesn't count as a use. Blocks are of line 1 or 2.
const CALLS: [(u32, u64, u8, u8, [(u32, u64, u8, Option<u8>); 3]); 6] = [
    (
        1,
        1,
        1,
        10,
        [(1, 1, 1, Some(10)), (1, 2, 1, None), (1, 1, 2, None)],
    ),
    (
        1,
        2,
        1,
        11,
        [(1, 2, 2, None), (2, 1, 1, None), (1, 1, 1, Some(10))],
    ),
    (
        2,
        1,
        1,
        12,
        [(1, 2, 1, None), (2, 1, 1, Some(12)), (1, 1, 2, None)],
    ),
    (
        2,
        2,
        1,
        13,
        [(1, 1, 1, None), (2, 2, 1, Some(13)), (2, 1, 1, Some(12))],
    ),
    (
        2,
        1,
        2,
        14,
        [(2, 1, 1, None), (2, 1, 2, Some(14)), (2, 2, 2, None)],
    ),
    (
        1,
        1,
        1,
        15,
        [(2, 2, 1, None), (1, 1, 2, None), (2, 1, 2, Some(14))],
    ),
];

#[test]
fn the_least_recently_used_block_goes(rt: HostRuntime) -> Result<(), Fail> {
    let alloc = rt.alloc();
    let mut cache = BlockCache::new(alloc, 2)?;
    for (line, block, digest, byte, finds) in CALLS {
        let bytes = [byte].to_vec(alloc)?;
        cache.keep(key_of(line, block), Digest::new([digest; 32]), bytes)?;
        for (line, block, digest, wanted) in finds {
            assert!(rt;
                found(&mut cache, key_of(line, block), digest) == wanted,
                "behind {byte}"
            );
        }
    }
    cache.forget_line(2, 2);
    cache.forget_line(1, 3);
    assert!(rt; cache.len() == 2);
    cache.forget_line(1, 2);
    assert!(rt;
        found(&mut cache, key_of(2, 1), 2).is_none()
            && found(&mut cache, key_of(1, 1), 1) == Some(15)
    );
    cache.forget_all();
    assert!(rt; found(&mut cache, key_of(1, 1), 1).is_none());
    for (capacity, kept) in [(0, 0), (1, 1), (65_536, 65_536), (u32::MAX, 65_540)] {
        let mut cache = BlockCache::empty(alloc, capacity);
        for block in 0..65_540 {
            let bytes = [1].to_vec(alloc)?;
            cache.keep(key_of(0, block), Digest::new([1; 32]), bytes)?;
        }
        assert!(rt; cache.len() == kept && cache.capacity() == capacity);
        assert!(rt; found(&mut cache, key_of(0, 3), 1).is_some() == (kept > 65_536));
        assert!(rt; found(&mut cache, key_of(0, 65_539), 1).is_some() == (kept > 0));
        cache.forget_line(1, 0);
        assert!(rt; cache.len() == 0);
    }
    Ok(())
}
