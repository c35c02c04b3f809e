//! Why the repair of an image ends early.
ghost use Rattle.std.specs.Prelude.{◌≡◌, ◌≢◌, false, IfErr, IfOk};
ghost use Rattle.fec_area.specs.declared.restoring.RestoreFault.TheVariants as restore_fault;
ghost use Rattle.tree_repair.specs.declared.fault.RepairFault.TheVariants as repair_fault;
ghost use Rattle.verity_format.specs.declared.verifying.VerifyFault.TheVariants as verify_fault;

use allocation::OutOfMemory;
use block_device::DeviceFault;
use fec_area::RestoreFault;
use program_io::WriteFault;
use verity_format::VerifyFault;

/// Why the repair of an image ends early.
#[derive(Clone, Copy, Debug, PartialEq, Eq)]
pub enum RepairFault {
    /// The data or the tree don't fit on their device, a write failed, or an allocation was refused.
    Image(VerifyFault),
    /// A line can't be written.
    Write,
}

impl From<DeviceFault> for RepairFault {
    ghost from_gives = { λ _ given. given ≡ repair_fault.Image verify_fault.Device };

    fn from(_fault: DeviceFault) -> RepairFault {
        RepairFault::Image(VerifyFault::Device)
    }
}

impl From<OutOfMemory> for RepairFault {
    ghost from_gives = { λ _ given. given ≡ repair_fault.Image verify_fault.NoMemory };

    fn from(_error: OutOfMemory) -> RepairFault {
        RepairFault::Image(VerifyFault::NoMemory)
    }
}

impl From<WriteFault> for RepairFault {
    ghost from_gives = { λ _ given. given ≡ repair_fault.Write };

    fn from(_fault: WriteFault) -> RepairFault {
        RepairFault::Write
    }
}

/// Returns `false` for a block that parity can't restore: it stays lost. Only a refused allocation ends the repair.
pub(crate) fn unrestored(fault: RestoreFault) -> Result<bool, RepairFault>
    ensures ok { IfOk result (λ back. (back ≡ false) × (fault ≢ restore_fault.NoMemory)) }
    ensures err { IfErr result (λ given. (given ≡ repair_fault.Image verify_fault.NoMemory) × (fault ≡ restore_fault.NoMemory)) }
{
    match fault {
        RestoreFault::NoMemory => Err(RepairFault::Image(VerifyFault::NoMemory)),
        RestoreFault::TooManyLost { count: _ } => Ok(false),
        RestoreFault::TooSmall { needed: _ } => Ok(false),
        RestoreFault::Device => Ok(false),
    }
}
