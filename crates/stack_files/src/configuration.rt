//! Configurations from stack texts over leaves.
ghost use Rattle.std.specs.Prelude.{◌≡◌, ◌≤◌, ◌^◌, length, Ok, IfOk, IfErr};
ghost use Rattle.stack_files.specs.Configuration.{FailsToConfigure, configuration_of};
ghost use Rattle.stack_files.specs.StacksOfTexts.{ConfiguresBy, FailsLoading};

use crate::stack_apart::open_stack_apart;
use crate::stack_fault::StackFault;
use crate::stack_file::{OpenStack, StackFile};
use image_files::{Images, no_use};
use stack_config::{Config, Leaf};
use stack_loader::{config_over, load};
use std::alloc::Global;
use table_text::parse_stack;

/// Returns the configuration that a stack file makes of the bindings' backing devices.
///
/// # Errors
///
/// - `NoMemory` if an allocation was refused.
/// - `TooLong` if the stack file has more than 1 MiB.
/// - `Open` if a file can't be opened or read, or conflicts with an open one.
/// - `Outside` if a binding's part isn't within its file.
/// - `Leaves`, `Text` or `Load` if the configuration is refused.
pub fn open_configuration<'a, I: Images>(
    alloc: Global,
    images: &mut I,
    file: StackFile<'a, '_>,
) -> Result<Config, StackFault<'a>>
    ensures ok { IfOk result (ConfiguresBy I.relations I.Dev.state images.old images.new file.entry) }
    ensures err { IfErr result (FailsLoading I.relations I.Dev.state images.old images.new file.entry) }
{
    let OpenStack {
        text,
        leaves,
        devices: _devices,
    } = open_stack_apart(alloc, images, no_use(), file)?;
    configuration_of(alloc, leaves, text.bytes.as_slice())
}

/// Returns the configuration that a stack text makes of backing devices.
///
/// # Errors
///
/// The first of these faults: `Leaves` if the backing devices are refused, `Text` if the text has a fault, `Load` if the load
/// is refused. `NoMemory` if an allocation was refused.
pub fn configuration_of<'a>(
    alloc: Global,
    leaves: Vec<Leaf>,
    text: &[u8],
) -> Result<Config, StackFault<'a>>
    requires { length text.now ≤ 2 ^ 20 }
    ensures ok { IfOk result (λ config. configuration_of leaves.items text.now ≡ Ok config) }
    ensures leaves { IfOk result (λ config. config.leaves ≡ leaves.items) }
    ensures err { IfErr result (FailsToConfigure leaves.items text.now) }
{
    let mut config = config_over(alloc, leaves)?;
    let entries = parse_stack(alloc, text)?;
    load(&mut config, &entries)?;
    Ok(config)
}
