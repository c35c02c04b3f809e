//! Reading blocks from a device, and buffers for them.
ghost use Rattle.std.specs.Prelude.{◌≡◌, ◌≤◌, ◌*◌, ◌/◌, IsTrue, IsOk, OnOk, OnErr, IfOk, All, is_ok, length, max};
ghost use Rattle.allocation.specs.Refusal.{IsOutOfMemory};
ghost use Rattle.block_device.specs.Call.{DeviceDoes, Read};
ghost use Rattle.verity_format.specs.Blocks.{IsBlockRead, IsOnlyRead};
ghost use Rattle.verity_format.specs.Premises.{IsBlockOn};
ghost use Rattle.tree_path.specs.Steps.{HasFailedOnce, HasReadAtMost};

use allocation::{OutOfMemory, push, zeros};
use block_device::{BlockDev, DeviceFault};
use std::alloc::Global;

/// Returns `count` blocks of zeros of `size` bytes.
pub(crate) fn zero_blocks(
    alloc: Global,
    count: u32,
    size: usize,
) -> Result<Vec<Vec<u8>>, OutOfMemory>
    ensures count { IfOk result (λ v. length v.items ≡ count) }
    ensures sized { IfOk result (λ v. All (λ b. length b.items ≡ size) v.items) }
    ensures err { OnErr result (IsOutOfMemory (max 1 size)) }
{
    let mut blocks = Vec::new(alloc);
    for _ in 0..count {
        let block = zeros(alloc, size)?;
        push(&mut blocks, block)?;
    }
    Ok(blocks)
}

/// Reads block `index` of the size of `block`.
#[tactic(auto, unfolding(verity_format::specs::Blocks::block_at))]
pub(crate) fn read_block<D: BlockDev>(
    device: &mut D,
    index: u64,
    block: &mut [u8],
) -> Result<(), DeviceFault>
    requires { IsBlockOn (D.state device.old) (length block.old) index }
    ensures read { IsOnlyRead (D.state device.old) (D.state device.new) }
    ensures ok { OnOk result (IsBlockRead (D.state device.old) (length block.old) index block.new (D.state device.new)) }
    ensures fault { OnErr result (HasFailedOnce (D.state device.old) (D.state device.new)) }
    ensures call { DeviceDoes D.state D.does device.old (Read (index * (length block.old / 512)) block.new (is_ok result)) device.new }
    ensures sure { IsTrue (D.state device.old).never_fails → IsOk result }
    ensures asked { HasReadAtMost (D.state device.old) (length block.old / 512) (D.state device.new) }
    ensures counted { (D.state device.old).failures ≤ (D.state device.new).failures }
{
    let sectors = (block.len() / 512) as u64;
    device.read(index * sectors, block)?;
    Ok(())
}
