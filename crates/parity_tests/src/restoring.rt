//! Blocks restored by veritysetup's parity.
use crate::losing::{block_of, lose, spoil};
use crate::parity::{CASES, Protected, protect};
use block_device::MemoryDev;
use fec_area::{LostBlock, RestoreFault, restore_block};
use std::alloc::Global;
use std::process::Abort;
use std::test::Fail;

/// The result of restoring a block.
enum Wanted {
    /// The original block.
    Back,
    /// Other bytes.
    Other,
    Fault(RestoreFault),
}

/// Blocks of an image that are overwritten, those of them that are known to be lost, bytes of its parity that are overwritten
/// too, and the result for the first of these blocks.
struct Loss {
    case: usize,
    lost: &'static [u64],
    known: &'static [u64],
    spoiled: &'static [usize],
    wanted: Wanted,
}

// Case 0 has 322 covered blocks, those of the tree from 300 (its top block) on, and two rounds. The tree begins at 231 in case
// 2, at 232 in case 3, at 216 in case 12 and at 217 in case 13. Cases 2 and 12 have one round, the others two.
static LOSSES: [Loss; 18] = [
    // a data block, and two blocks of a round
    Loss {
        case: 0,
        lost: &[7],
        known: &[],
        spoiled: &[],
        wanted: Wanted::Back,
    },
    Loss {
        case: 0,
        lost: &[298, 0],
        known: &[0, 298],
        spoiled: &[],
        wanted: Wanted::Back,
    },
    // the top block and a data block, with two lost blocks in the other round
    Loss {
        case: 0,
        lost: &[300, 4, 5, 321],
        known: &[4, 5, 321],
        spoiled: &[],
        wanted: Wanted::Back,
    },
    // a block that isn't known to be lost
    Loss {
        case: 0,
        lost: &[300, 4],
        known: &[],
        spoiled: &[],
        wanted: Wanted::Other,
    },
    // more blocks than the parity can restore
    Loss {
        case: 0,
        lost: &[0, 4, 298],
        known: &[298, 4],
        spoiled: &[],
        wanted: Wanted::Fault(RestoreFault::TooManyLost { count: 3 }),
    },
    // overwritten parity
    Loss {
        case: 0,
        lost: &[4],
        known: &[],
        spoiled: &[0],
        wanted: Wanted::Other,
    },
    // overwritten parity of the other round; a round's parity has 1,024 bytes
    Loss {
        case: 0,
        lost: &[7],
        known: &[],
        spoiled: &[0],
        wanted: Wanted::Back,
    },
    Loss {
        case: 0,
        lost: &[4],
        known: &[],
        spoiled: &[1024],
        wanted: Wanted::Back,
    },
    Loss {
        case: 0,
        lost: &[7],
        known: &[],
        spoiled: &[1024],
        wanted: Wanted::Other,
    },
    // eight blocks of one round
    Loss {
        case: 2,
        lost: &[246, 0, 1, 2, 3, 231, 232, 100],
        known: &[100, 246, 0, 1, 2, 3, 231, 232],
        spoiled: &[],
        wanted: Wanted::Back,
    },
    Loss {
        case: 2,
        lost: &[246, 0, 1, 2, 3, 231, 232, 100, 101],
        known: &[100, 101, 246, 0, 1, 2, 3, 231, 232],
        spoiled: &[],
        wanted: Wanted::Fault(RestoreFault::TooManyLost { count: 9 }),
    },
    // two rounds: a data block, with lost blocks and overwritten parity in the other round
    Loss {
        case: 3,
        lost: &[17, 1, 3, 5, 7, 233, 247, 101, 0, 232],
        known: &[0, 232, 17, 1, 3, 5, 7, 233, 247, 101],
        spoiled: &[0],
        wanted: Wanted::Back,
    },
    // 24 blocks, the top block first
    Loss {
        case: 12,
        lost: &[
            216, 0, 1, 2, 3, 4, 5, 6, 7, 100, 101, 102, 103, 104, 105, 106, 107, 224, 225, 226,
            227, 228, 229, 230,
        ],
        known: &[
            216, 0, 1, 2, 3, 4, 5, 6, 7, 100, 101, 102, 103, 104, 105, 106, 107, 224, 225, 226,
            227, 228, 229, 230,
        ],
        spoiled: &[],
        wanted: Wanted::Back,
    },
    Loss {
        case: 12,
        lost: &[
            216, 0, 1, 2, 3, 4, 5, 6, 7, 100, 101, 102, 103, 104, 105, 106, 107, 224, 225, 226,
            227, 228, 229, 230, 50,
        ],
        known: &[
            216, 0, 1, 2, 3, 4, 5, 6, 7, 100, 101, 102, 103, 104, 105, 106, 107, 224, 225, 226,
            227, 228, 229, 230, 50,
        ],
        spoiled: &[],
        wanted: Wanted::Fault(RestoreFault::TooManyLost { count: 25 }),
    },
    // two rounds: a hash block and a data block, with overwritten parity in the other round
    Loss {
        case: 13,
        lost: &[
            229, 1, 3, 5, 7, 9, 11, 13, 15, 17, 19, 21, 23, 25, 27, 29, 31, 101, 103, 215, 217,
            219, 223, 231,
        ],
        known: &[
            229, 1, 3, 5, 7, 9, 11, 13, 15, 17, 19, 21, 23, 25, 27, 29, 31, 101, 103, 215, 217,
            219, 223, 231,
        ],
        spoiled: &[0],
        wanted: Wanted::Back,
    },
    Loss {
        case: 13,
        lost: &[
            1, 229, 3, 5, 7, 9, 11, 13, 15, 17, 19, 21, 23, 25, 27, 29, 31, 101, 103, 215, 217,
            219, 223, 231,
        ],
        known: &[
            1, 229, 3, 5, 7, 9, 11, 13, 15, 17, 19, 21, 23, 25, 27, 29, 31, 101, 103, 215, 217,
            219, 223, 231,
        ],
        spoiled: &[0],
        wanted: Wanted::Back,
    },
    Loss {
        case: 13,
        lost: &[
            1, 229, 3, 5, 7, 9, 11, 13, 15, 17, 19, 21, 23, 25, 27, 29, 31, 101, 103, 215, 217,
            219, 223, 231,
        ],
        known: &[
            1, 229, 3, 5, 7, 9, 11, 13, 15, 17, 19, 21, 23, 25, 27, 29, 31, 101, 103, 215, 217,
            219, 223, 231,
        ],
        spoiled: &[12288],
        wanted: Wanted::Other,
    },
    // all blocks of a small image
    Loss {
        case: 7,
        lost: &[5, 0, 1, 2, 3, 4],
        known: &[0, 1, 2, 3, 4, 5],
        spoiled: &[],
        wanted: Wanted::Back,
    },
];

/// Overwrites the lost blocks, and restores the first.
fn loses<R: Abort>(rt: &R, alloc: Global, loss: &Loss) -> Result<(), Fail> {
    let case = CASES.get(loss.case).ok_or("no case")?;
    let Protected {
        data,
        hash,
        parity,
        layout,
        root: _,
    } = protect(rt, alloc, case)?;
    let mut data_bytes = data.into_bytes();
    let mut hash_bytes = hash.into_bytes();
    let mut parity_bytes = parity.into_bytes();
    let sought = *loss.lost.first().ok_or("nothing is lost")?;
    let before = block_of(alloc, &layout, sought, &data_bytes, &hash_bytes)?;
    lose(&layout, loss.lost, &mut data_bytes, &mut hash_bytes)?;
    spoil(&mut parity_bytes, loss.spoiled)?;
    let mut data = MemoryDev::new(data_bytes, false);
    let mut hash = MemoryDev::new(hash_bytes, false);
    let mut parity = MemoryDev::new(parity_bytes, false);
    let mut block = vec![in alloc; 0u8; layout.block as usize]?;
    assert!(rt; layout.is_laid_on(&data, &hash));
    assert!(rt; sought < layout.covered_blocks());
    let done = restore_block(
        alloc,
        &LostBlock {
            layout: &layout,
            lost: loss.known,
            index: sought,
        },
        &mut data,
        &mut hash,
        &mut parity,
        &mut block,
    );
    match &loss.wanted {
        Wanted::Back => {
            assert!(rt; done.is_ok());
            assert!(rt; block.as_slice() == before.as_slice());
        }
        Wanted::Other => {
            assert!(rt; done.is_ok());
            assert!(rt; block.as_slice() != before.as_slice());
        }
        Wanted::Fault(fault) => assert!(rt; done == Err(*fault)),
    }
    Ok(())
}

#[test]
fn lost_blocks_come_back(rt: HostRuntime) -> Result<(), Fail> {
    let alloc = rt.alloc();
    for loss in &LOSSES {
        loses(&rt, alloc, loss)?;
    }
    Ok(())
}
