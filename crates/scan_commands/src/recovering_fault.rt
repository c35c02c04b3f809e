//! Why a scan or a copy of a device ends early or doesn't read all sectors.
ghost use Rattle.std.specs.Prelude.{◌≡◌};
ghost use Rattle.scan_commands.specs.declared.recovering_fault.RecoveringFault.TheVariants as recovering_fault;

use crate::pass_counts::PassCounts;
use crate::rescue_fault::PassFault;
use program_io::WriteFault;
use stack_files::StackFault;
use std::alloc::AllocError;

/// Why a scan or a copy of a device ended early or didn't read all sectors.
#[derive(Clone, Copy, Debug, PartialEq, Eq)]
pub enum RecoveringFault<'a> {
    /// Memory ran out for the runs of a JSON object, or for the object.
    NoMemory,
    /// There is no such device.
    Stack(StackFault<'a>),
    /// The image has fewer sectors than the device to be copied.
    OutputTooSmall { needed: u64 },
    /// The pass over the device ended early.
    Pass(PassFault<'a>),
    /// Sectors of a device are lost or unscraped; these are the counts.
    Lost(PassCounts),
    /// Sectors of a device are lost or unscraped, as the JSON object states.
    LostAsSaid,
    /// A line can't be written; the pass over the device was completed.
    Write,
}

impl From<AllocError> for RecoveringFault<'_> {
    ghost from_gives = { λ _ given. given ≡ recovering_fault.NoMemory };

    fn from(_error: AllocError) -> Self {
        RecoveringFault::NoMemory
    }
}

impl<'a> From<StackFault<'a>> for RecoveringFault<'a> {
    ghost from_gives = { λ fault given. given ≡ recovering_fault.Stack fault };

    fn from(fault: StackFault<'a>) -> Self {
        RecoveringFault::Stack(fault)
    }
}

impl<'a> From<PassFault<'a>> for RecoveringFault<'a> {
    ghost from_gives = { λ fault given. given ≡ recovering_fault.Pass fault };

    fn from(fault: PassFault<'a>) -> Self {
        RecoveringFault::Pass(fault)
    }
}

impl From<WriteFault> for RecoveringFault<'_> {
    ghost from_gives = { λ _ given. given ≡ recovering_fault.Write };

    fn from(_fault: WriteFault) -> Self {
        RecoveringFault::Write
    }
}
