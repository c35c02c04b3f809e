//! Stacks of texts over two backing devices, and reads and writes of their pieces.
ghost use Rattle.std.specs.Prelude.{◌≡◌, ◌∷◌, [], IfOk};

use block_device::BlockDev;
use stack_config::Leaf;
use stack_engine::{Answer, IoFault, Stack};
use stack_loader::config_over;
use std::alloc::{AllocError, Global};
use std::test::Fail;
use table_text::parse_stack;

/// Returns the backing device with that name that the device serves.
fn leaf_of<D: BlockDev>(alloc: Global, name: &[u8], device: &D) -> Result<Leaf, AllocError>
    ensures { IfOk result (λ leaf. (leaf.sectors ≡ (D.state device.now).size) × (leaf.writable ≡ (D.state device.now).may_write)) }
{
    Ok(Leaf {
        name: Vec::from_slice(alloc, name)?,
        sectors: device.sectors(),
        writable: device.writable(),
    })
}

fn pair<T: Drop>(alloc: Global, a: T, b: T) -> Result<Vec<T>, AllocError>
    ensures { IfOk result (λ v. v.items ≡ a ∷ b ∷ []) }
{
    let mut both = Vec::new(alloc);
    both.push(a)?;
    both.push(b)?;
    Ok(both)
}

/// Returns the stack of a text over the backing devices `A` and `B`, with a cache of `capacity` blocks.
pub fn stack_of<D: BlockDev + Drop>(
    alloc: Global,
    a: D,
    b: D,
    text: &[u8],
    capacity: u32,
) -> Result<Stack<D>, Fail> {
    if text.len() > 1 << 20 {
        return Err(Fail::from("the text is too long"));
    }
    let leaves = pair(alloc, leaf_of(alloc, b"A", &a)?, leaf_of(alloc, b"B", &b)?)?;
    let devices = pair(alloc, a, b)?;
    let config = config_over(alloc, leaves)?;
    let mut stack = Stack::over(alloc, config, devices, capacity);
    let text = parse_stack(alloc, text)?;
    stack.load(&text).map_err(|_| "not loaded")?;
    Ok(stack)
}

/// Reads a piece of a device. Returns `None` if the piece isn't within the device.
pub fn read<D: BlockDev>(
    stack: &mut Stack<D>,
    name: &[u8],
    first: u64,
    n: u32,
) -> Option<Result<Answer, IoFault>> {
    let config = stack.config();
    let d = config.device(name)?;
    if d.0 as usize >= config.count() || n == 0 || n > 128 {
        return None;
    }
    let sectors = config.sectors(d);
    if first > sectors || n as u64 > sectors - first {
        return None;
    }
    Some(stack.read_piece(d, first, n))
}

/// Writes a piece of a device. Returns `None` if the device can't be written there.
pub fn write_to<D: BlockDev>(
    stack: &mut Stack<D>,
    name: &[u8],
    first: u64,
    bytes: &[u8],
) -> Option<Result<(), IoFault>> {
    let config = stack.config();
    let d = config.device(name)?;
    if d.0 as usize >= config.count() || !config.writable(d) {
        return None;
    }
    let n = bytes.len() / 512;
    if n == 0 || n > 128 || bytes.len() % 512 != 0 {
        return None;
    }
    let sectors = config.sectors(d);
    if first > sectors || n as u64 > sectors - first {
        return None;
    }
    Some(stack.write_piece(d, first, bytes))
}
