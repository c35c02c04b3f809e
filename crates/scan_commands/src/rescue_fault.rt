//! Why a pass over a device ends early.
ghost use Rattle.std.specs.Prelude.{◌≡◌};
ghost use Rattle.scan_commands.specs.MapFiles.{recovery_ending};
ghost use Rattle.scan_commands.specs.declared.rescue_fault.PassFault.TheVariants as pass_fault;

use allocation::OutOfMemory;
use block_device::DeviceFault;
use image_files::{ReplaceFault, UnopenedFile};
use rescue_map::MapFault;
use stack_recovery::RecoveryFault;

/// Why a pass over a device ended early.
#[derive(Clone, Copy, Debug, PartialEq, Eq)]
pub enum PassFault<'a> {
    /// An allocation was refused.
    NoMemory,
    /// The map file can't be read.
    Unread(UnopenedFile<'a>),
    /// The map file has more than 16 MiB.
    TooLong,
    /// The file isn't a map of the device.
    NoMap(MapFault),
    /// The device that the sectors are copied to failed.
    Output,
    /// The map file can't be replaced.
    Unwritten(ReplaceFault),
}

impl From<OutOfMemory> for PassFault<'_> {
    ghost from_gives = { λ _ given. given ≡ pass_fault.NoMemory };

    fn from(_error: OutOfMemory) -> Self {
        PassFault::NoMemory
    }
}

impl From<DeviceFault> for PassFault<'_> {
    ghost from_gives = { λ _ given. given ≡ pass_fault.Output };

    fn from(_fault: DeviceFault) -> Self {
        PassFault::Output
    }
}

impl From<ReplaceFault> for PassFault<'_> {
    ghost from_gives = { λ fault given. given ≡ pass_fault.Unwritten fault };

    fn from(fault: ReplaceFault) -> Self {
        PassFault::Unwritten(fault)
    }
}

impl From<RecoveryFault> for PassFault<'_> {
    ghost from_gives = { λ fault given. given ≡ recovery_ending fault };

    fn from(fault: RecoveryFault) -> Self {
        match fault {
            RecoveryFault::NoMemory => PassFault::NoMemory,
            RecoveryFault::Output => PassFault::Output,
        }
    }
}
