//! Overwrites blocks of an image.
use fec_area::Layout;
use std::alloc::Global;
use std::test::Fail;

/// Returns where a covered block is: whether on the hash device, and the offset of its first byte.
pub(crate) fn place_of(layout: &Layout, index: u64) -> (bool, usize) {
    let size = layout.block as usize;
    let data_blocks = layout.data_blocks;
    if index < data_blocks {
        return (false, (index as usize).saturating_mul(size));
    }
    let behind = index.saturating_sub(data_blocks);
    let number = layout.hash_first.saturating_add(behind);
    (true, (number as usize).saturating_mul(size))
}

/// Fills a block with bytes that differ from its old ones.
pub(crate) fn overwrite(bytes: &mut [u8], first: usize, size: usize) -> Result<(), Fail> {
    let end = first.saturating_add(size);
    let block = bytes.get_mut(first..end).ok_or("no block")?;
    for byte in block.iter_mut() {
        *byte ^= 0x5a;
    }
    Ok(())
}

/// Overwrites bytes of the parity.
pub(crate) fn spoil(parity: &mut [u8], places: &[usize]) -> Result<(), Fail> {
    for place in places {
        overwrite(parity, *place, 1)?;
    }
    Ok(())
}

/// Returns the bytes of a covered block.
pub(crate) fn block_of(
    alloc: Global,
    layout: &Layout,
    index: u64,
    data: &[u8],
    hash: &[u8],
) -> Result<Vec<u8>, Fail> {
    let (in_tree, first) = place_of(layout, index);
    let image = if in_tree { hash } else { data };
    let end = first.saturating_add(layout.block as usize);
    let mut block = Vec::new(alloc);
    block.extend_from_slice(image.get(first..end).ok_or("no block")?)?;
    Ok(block)
}

/// Overwrites covered blocks.
pub(crate) fn lose(
    layout: &Layout,
    lost: &[u64],
    data: &mut [u8],
    hash: &mut [u8],
) -> Result<(), Fail> {
    let size = layout.block as usize;
    for index in lost {
        let (in_tree, first) = place_of(layout, *index);
        if in_tree {
            overwrite(hash, first, size)?;
        } else {
            overwrite(data, first, size)?;
        }
    }
    Ok(())
}
