//! Why a copy of a partition table isn't used.
ghost use Rattle.std.specs.Prelude.{◌≡◌};
ghost use Rattle.partition_table.specs.FaultNames.{read_name, read_partition};
ghost use Rattle.partition_table.specs.Reads.{is_unread};

use crate::TableFault;
use allocation::OutOfMemory;
use block_device::DeviceFault;
use thiserror::Error;

/// Why a copy of a partition table isn't used.
#[derive(Clone, Copy, Debug, PartialEq, Eq, Error)]
pub enum ReadFault {
    /// The device failed.
    #[error("Device")]
    Device,
    /// An allocation failed.
    #[error("NoMemory")]
    NoMemory,
    /// The copy that was read isn't valid.
    #[error(transparent)]
    Table(TableFault),
}

impl ReadFault {
    /// Returns the name in printed output. For `Table` it is that of the fault.
    pub fn name(self) -> &'static str
        ensures { result.now ≡ read_name self }
    {
        match self {
            ReadFault::Device => "Device",
            ReadFault::NoMemory => "NoMemory",
            ReadFault::Table(fault) => fault.name(),
        }
    }

    /// Returns the number of the faulty partition if the fault is about one.
    pub fn partition(self) -> Option<u32>
        ensures { result ≡ read_partition self }
    {
        match self {
            ReadFault::Device | ReadFault::NoMemory => None,
            ReadFault::Table(fault) => fault.partition(),
        }
    }

    /// Returns whether the copy wasn't read.
    pub(crate) fn is_unread(self) -> bool
        ensures { result ≡ is_unread self }
    {
        match self {
            ReadFault::Device | ReadFault::NoMemory => true,
            ReadFault::Table(_) => false,
        }
    }
}

impl From<DeviceFault> for ReadFault {
    ghost use Rattle.partition_table.specs.declared.read_fault.ReadFault.TheVariants.{Device as DeviceFailed};

    ghost from_gives = { λ _ fault. fault ≡ DeviceFailed };

    fn from(_fault: DeviceFault) -> ReadFault {
        ReadFault::Device
    }
}

impl From<OutOfMemory> for ReadFault {
    ghost use Rattle.partition_table.specs.declared.read_fault.ReadFault.TheVariants.{NoMemory};

    ghost from_gives = { λ _ fault. fault ≡ NoMemory };

    fn from(_error: OutOfMemory) -> ReadFault {
        ReadFault::NoMemory
    }
}
