//! Lost blocks of which others of the round can't be read, restored by veritysetup's parity.
use crate::losing::{block_of, lose};
use crate::parity::{CASES, Protected, protect};
use block_device::{FailAt, MemoryDev};
use fec_area::{LostBlock, RestoreFault, restore_block};
use std::alloc::Global;
use std::process::Abort;
use std::test::Fail;

/// Lost blocks of an image, all in one round, the first of which is to be restored; the call of the data device and of the hash
/// device that fails (0: none); and whether the block is restored.
struct Unreadable {
    case: usize,
    lost: &'static [u64],
    data_call: u64,
    hash_call: u64,
    back: bool,
}

// A call reads one block. The round of block 299 in case 0 has 150 blocks on the data device, the last of which is 299, and 11
// on the hash device, the last of which is 321; the other round's last blocks are 298 and 320. Case 2 has one round, of 231
// data blocks and 16 hash blocks.
static ROWS: [Unreadable; 6] = [
    Unreadable {
        case: 0,
        lost: &[299],
        data_call: 150,
        hash_call: 0,
        back: true,
    },
    Unreadable {
        case: 0,
        lost: &[321],
        data_call: 0,
        hash_call: 11,
        back: true,
    },
    Unreadable {
        case: 0,
        lost: &[320, 298],
        data_call: 150,
        hash_call: 11,
        back: true,
    },
    Unreadable {
        case: 2,
        lost: &[230, 229, 228, 227, 226, 225, 246, 245],
        data_call: 226,
        hash_call: 15,
        back: true,
    },
    // a block that isn't lost
    Unreadable {
        case: 0,
        lost: &[299],
        data_call: 149,
        hash_call: 0,
        back: false,
    },
    Unreadable {
        case: 0,
        lost: &[321],
        data_call: 0,
        hash_call: 10,
        back: false,
    },
];

/// Overwrites the lost blocks, and restores the first.
fn restores<R: Abort>(rt: &R, alloc: Global, row: &Unreadable) -> Result<(), Fail> {
    let case = CASES.get(row.case).ok_or("no case")?;
    let Protected {
        data,
        hash,
        mut parity,
        layout,
        root: _,
    } = protect(rt, alloc, case)?;
    let mut data_bytes = data.into_bytes();
    let mut hash_bytes = hash.into_bytes();
    let sought = *row.lost.first().ok_or("nothing is lost")?;
    let before = block_of(alloc, &layout, sought, &data_bytes, &hash_bytes)?;
    lose(&layout, row.lost, &mut data_bytes, &mut hash_bytes)?;
    let mut data = FailAt::new(MemoryDev::new(data_bytes, false), row.data_call);
    let mut hash = FailAt::new(MemoryDev::new(hash_bytes, false), row.hash_call);
    let mut block = vec![in alloc; 0u8; layout.block as usize]?;
    assert!(rt; layout.is_laid_on(&data, &hash));
    assert!(rt; sought < layout.covered_blocks());
    let done = restore_block(
        alloc,
        &LostBlock {
            layout: &layout,
            lost: row.lost,
            index: sought,
        },
        &mut data,
        &mut hash,
        &mut parity,
        &mut block,
    );
    if row.back {
        assert!(rt; done.is_ok());
        assert!(rt; block.as_slice() == before.as_slice());
    } else {
        assert!(rt; done == Err(RestoreFault::Device));
    }
    Ok(())
}

#[test]
fn lost_blocks_are_not_read(rt: HostRuntime) -> Result<(), Fail> {
    let alloc = rt.alloc();
    for row in &ROWS {
        restores(&rt, alloc, row)?;
    }
    Ok(())
}
