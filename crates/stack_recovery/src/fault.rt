//! Why a recovery ends early.
ghost use Rattle.std.specs.Prelude.{◌≡◌};
ghost use Rattle.stack_recovery.specs.declared.fault.RecoveryFault.TheVariants as recovery_fault;

use allocation::OutOfMemory;
use block_device::DeviceFault;
use thiserror::Error;

/// Why a recovery ends early.
#[derive(Clone, Copy, Debug, PartialEq, Eq, Error)]
pub enum RecoveryFault {
    /// An allocation was refused.
    #[error("NoMemory")]
    NoMemory,
    /// The device that the sectors are copied to failed.
    #[error("Output")]
    Output,
}

impl From<OutOfMemory> for RecoveryFault {
    ghost from_gives = { λ _ given. given ≡ recovery_fault.NoMemory };

    fn from(_error: OutOfMemory) -> Self {
        RecoveryFault::NoMemory
    }
}

impl From<DeviceFault> for RecoveryFault {
    ghost from_gives = { λ _ given. given ≡ recovery_fault.Output };

    fn from(_fault: DeviceFault) -> Self {
        RecoveryFault::Output
    }
}
