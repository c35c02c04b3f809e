//! Images repaired by veritysetup's parity.
ghost use Rattle.std.specs.Prelude.{◌≤◌, ◌^◌};
ghost use Rattle.fec_area.specs.Layouts.{IsLayout};

use crate::damages::{DAMAGES, Damage};
use crate::losing::{overwrite, place_of, spoil};
use crate::parity::{CASES, Protected, protect};
use block_device::{BlockDev, MemoryDev};
use fec_area::Layout;
use program_io::Counted;
use std::alloc::{AllocError, Global};
use std::process::Abort;
use std::test::Fail;
use tree_repair::{DamagedImage, Plan, repair_with_parity};
use tree_shape::Digest;
use tree_survey::survey_image;
use verity_format::read_superblock;

/// The bytes of an image.
#[derive(Drop)]
struct Image {
    data: Vec<u8>,
    hash: Vec<u8>,
}

impl Image {
    /// Returns the image with these blocks overwritten.
    fn overwritten(&self, alloc: Global, layout: &Layout, blocks: &[u64]) -> Result<Image, Fail> {
        let mut data = copy_of(alloc, &self.data)?;
        let mut hash = copy_of(alloc, &self.hash)?;
        let size = layout.block as usize;
        for index in blocks {
            let (in_tree, first) = place_of(layout, *index);
            if in_tree {
                overwrite(&mut hash, first, size)?;
            } else {
                overwrite(&mut data, first, size)?;
            }
        }
        Ok(Image { data, hash })
    }

    /// Returns the devices of the image.
    fn into_devices(self, writable: bool) -> (MemoryDev, MemoryDev) {
        let Image { data, hash } = self;
        (
            MemoryDev::new(data, writable),
            MemoryDev::new(hash, writable),
        )
    }

    /// Whether the devices hold these bytes.
    fn is_on(&self, data: MemoryDev, hash: MemoryDev) -> bool {
        let same = data.into_bytes().as_slice() == self.data.as_slice();
        same && hash.into_bytes().as_slice() == self.hash.as_slice()
    }
}

fn copy_of(alloc: Global, bytes: &[u8]) -> Result<Vec<u8>, AllocError> {
    let mut copy = Vec::new(alloc);
    copy.extend_from_slice(bytes)?;
    Ok(copy)
}

/// Returns what a scan of an image reports.
fn told_of(
    alloc: Global,
    data: &mut MemoryDev,
    hash: &mut MemoryDev,
    root: &Digest,
) -> Result<Vec<u8>, Fail> {
    let mut writer = Counted::new(Vec::new(alloc));
    let tree = read_superblock(hash)?.tree();
    survey_image(alloc, data, hash, &tree, root, &mut writer)?;
    Ok(writer.into_inner())
}

/// Repairs the damaged image, and checks what was printed, what a scan reports then, and what the devices hold.
fn repairs<R: Abort>(rt: &R, alloc: Global, row: &Damage) -> Result<(), Fail> {
    let case = CASES.get(row.case).ok_or("no case")?;
    let Protected {
        data,
        hash,
        parity,
        layout,
        root,
    } = protect(rt, alloc, case)?;
    let whole = Image {
        data: data.into_bytes(),
        hash: hash.into_bytes(),
    };
    let damaged = whole.overwritten(alloc, &layout, row.lost)?;
    let wanted = whole.overwritten(alloc, &layout, row.still)?;
    // overwriting them again gives the blocks of `copied` their original bytes
    let copy = damaged.overwritten(alloc, &layout, row.copied)?;
    let mut parity_bytes = parity.into_bytes();
    spoil(&mut parity_bytes, row.spoiled)?;
    let (data, mut hash) = damaged.into_devices(true);
    let plan = Plan {
        tree: read_superblock(&mut hash)?.tree(),
        root,
        copy_first: 0,
        write: row.write,
    };
    let (copy_data, copy_hash) = copy.into_devices(false);
    let mut image = DamagedImage {
        data,
        hash,
        data_copies: Vec::new(alloc),
        hash_copies: Vec::new(alloc),
    };
    image.data_copies.push(copy_data)?;
    image.hash_copies.push(copy_hash)?;
    let printed = mend(rt, alloc, &mut image, &layout, parity_bytes, &plan)?;
    let DamagedImage {
        mut data,
        mut hash,
        data_copies: _,
        hash_copies: _,
    } = image;
    assert!(rt; printed.as_slice() == row.lines.as_bytes());
    let told = told_of(alloc, &mut data, &mut hash, &root)?;
    assert!(rt; told.as_slice() == row.told.as_bytes());
    assert!(rt; wanted.is_on(data, hash));
    Ok(())
}

/// Repairs an image by its copies and its parity, and returns what was printed.
fn mend<R: Abort>(
    rt: &R,
    alloc: Global,
    image: &mut DamagedImage<MemoryDev, MemoryDev, MemoryDev>,
    layout: &Layout,
    parity: Vec<u8>,
    plan: &Plan,
) -> Result<Vec<u8>, Fail>
    requires layout { IsLayout layout.now }
    requires first { plan.now.copy_first ≤ 2 ^ 55 }
{
    let mut parity_dev = MemoryDev::new(parity, false);
    let mut writer = Counted::new(Vec::new(alloc));
    assert!(rt; image.data.writable());
    assert!(rt; image.hash.writable());
    assert!(rt; layout.is_laid_on(&image.data, &image.hash));
    repair_with_parity(alloc, image, layout, &mut parity_dev, plan, &mut writer)?;
    Ok(writer.into_inner())
}

#[test]
fn images_are_repaired_by_parity(rt: HostRuntime) -> Result<(), Fail> {
    let alloc = rt.alloc();
    for row in &DAMAGES {
        repairs(&rt, alloc, row)?;
    }
    Ok(())
}
