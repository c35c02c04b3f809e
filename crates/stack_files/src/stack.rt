//! Stacks of configurations, with a cache of hash blocks.
ghost use Rattle.std.specs.Prelude.{◌≡◌, ◌≤◌, ◌^◌, length, map, IfOk, IfErr};
ghost use Rattle.stack_meaning.specs.Leaves.{ServeLeaves};
ghost use Rattle.stack_files.specs.BareLeaves.{FailsStanding, StandsBy};
ghost use Rattle.stack_files.specs.StacksOfTexts.{FailsLoading, FailsToLoad, IsStackOf, LoadsBy};

use crate::configuration::configuration_of;
use crate::leaves::{OpenLeaves, open_all};
use crate::stack_apart::open_stack_apart;
use crate::stack_fault::StackFault;
use crate::stack_file::{OpenStack, StackFile};
use block_device::BlockDev;
use command_line::Binding;
use image_files::{Images, no_use};
use stack_engine::Stack;
use stack_loader::config_over;
use std::alloc::Global;

/// Opens the stack of a stack file over its bindings, with a cache of `cache` hash blocks.
///
/// # Errors
///
/// The faults of `open_configuration`.
pub fn open_loaded<'a, I: Images>(
    alloc: Global,
    images: &mut I,
    file: StackFile<'a, '_>,
    cache: u32,
) -> Result<Stack<I::Dev>, StackFault<'a>>
    ensures ok { IfOk result (LoadsBy I.relations I.Dev.state images.old images.new file.entry cache) }
    ensures err { IfErr result (FailsLoading I.relations I.Dev.state images.old images.new file.entry) }
{
    let over = open_stack_apart(alloc, images, no_use(), file)?;
    load_stack(alloc, over, cache)
}

/// Opens a stack without mapped devices over bindings, with a cache of `cache` hash blocks.
///
/// # Errors
///
/// - `NoMemory` if an allocation was refused.
/// - `Open` if a file can't be opened, or conflicts with an open one.
/// - `Outside` if a binding's part isn't within its file.
/// - `Leaves` if the backing devices are refused.
pub fn open_leaves<'a, I: Images>(
    alloc: Global,
    images: &mut I,
    bindings: &[Binding<'a>],
    cache: u32,
) -> Result<Stack<I::Dev>, StackFault<'a>>
    ensures ok { IfOk result (StandsBy I.relations I.Dev.state images.old images.new bindings.now cache) }
    ensures err { IfErr result (FailsStanding I.relations I.Dev.state images.old images.new bindings.now) }
{
    let OpenLeaves { leaves, devices } = open_all(alloc, images, &[], bindings)?;
    let config = config_over(alloc, leaves)?;
    Ok(Stack::over(alloc, config, devices, cache))
}

/// Returns the stack of a text over the open backing devices.
///
/// # Errors
///
/// The faults of `configuration_of`.
pub fn load_stack<'a, D: BlockDev + Drop>(
    alloc: Global,
    over: OpenStack<D>,
    cache: u32,
) -> Result<Stack<D>, StackFault<'a>>
    requires text { length over.text.bytes.items ≤ 2 ^ 20 }
    requires served { ServeLeaves over.leaves.items (map D.state over.devices.items) }
    ensures ok { IfOk result (IsStackOf D.state over cache) }
    ensures err { IfErr result (FailsToLoad over) }
{
    let OpenStack {
        text,
        leaves,
        devices,
    } = over;
    let config = match configuration_of(alloc, leaves, text.bytes.as_slice()) {
        Ok(config) => config,
        Err(fault) => return Err(fault),
    };
    Ok(Stack::over(alloc, config, devices, cache))
}
