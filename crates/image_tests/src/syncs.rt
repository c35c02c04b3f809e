//! Which backing devices a sync calls.
use crate::stacks::{stack_of, write_to};
use block_device::{FailAt, MemoryDev};
use stack_engine::{IoFault, Stack};
use std::test::Fail;

const SIDE_BY_SIDE: &[u8] = b"a,,,rw,0 8 linear A 0;b,,,rw,0 8 linear B 0";

/// Whether both backing devices are synced after a write, in order up to the first fault, and not again afterwards.
fn are_synced_in_order(stack: &mut Stack<FailAt<MemoryDev>>) -> bool {
    stack.sync() == Ok(())
        && write_to(stack, b"a", 2, &[1; 512]) == Some(Ok(()))
        && write_to(stack, b"b", 2, &[1; 512]) == Some(Ok(()))
        && stack.sync() == Err(IoFault::Device(1))
        && stack.sync() == Err(IoFault::Device(2))
        && stack.sync() == Ok(())
}

/// A sync is a call that a failing device counts; here it is the second call of each device.
#[test]
fn syncs_the_leaves_that_were_written(rt: HostRuntime) -> Result<(), Fail> {
    let alloc = rt.alloc();
    let a = FailAt::new(MemoryDev::zeros(alloc, 8, true)?, 2);
    let b = FailAt::new(MemoryDev::zeros(alloc, 8, true)?, 2);
    let mut stack = stack_of(alloc, a, b, SIDE_BY_SIDE, 0)?;
    assert!(rt; are_synced_in_order(&mut stack));
    let (config, devices) = stack.into_parts();
    assert!(rt; config.count() == 2 && devices.len() == 2);
    Ok(())
}
