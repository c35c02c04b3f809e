//! Warnings about a partition table that is used.
ghost use Rattle.std.specs.Prelude.{◌≡◌};
ghost use Rattle.partition_table.specs.Tables.{copy_warnings, no_warnings};

use crate::header::Header;
use crate::{Disk, Mbr};

/// Warnings about a valid copy. A copy that isn't used has none.
#[derive(Clone, Copy, Debug, PartialEq, Eq)]
pub struct CopyWarnings {
    /// The header names a sector after the end of the disk as that of the other copy's header.
    pub cut_short: bool,
    /// The header names a sector other than the one in which the other copy's header is expected.
    pub alternate: bool,
    /// A reserved byte isn't zero.
    pub reserved: bool,
}

impl CopyWarnings {
    /// Returns the warnings about a header; `other` is the sector in which the other copy's header is expected.
    pub(crate) fn of(disk: Disk, other: u64, header: &Header) -> CopyWarnings
        ensures { result ≡ copy_warnings disk other header.now }
    {
        CopyWarnings {
            cut_short: disk.sectors <= header.alternate,
            alternate: header.alternate != other,
            reserved: !header.is_clear,
        }
    }

    /// Returns no warnings.
    pub(crate) fn none() -> CopyWarnings
        ensures { result ≡ no_warnings }
    {
        CopyWarnings {
            cut_short: false,
            alternate: false,
            reserved: false,
        }
    }
}

/// Warnings about a partition table.
#[derive(Clone, Copy, Debug, PartialEq, Eq)]
pub struct TableWarnings {
    /// The master boot record in sector 0.
    pub mbr: Mbr,
    /// Warnings about the primary copy.
    pub primary: CopyWarnings,
    /// Warnings about the backup.
    pub backup: CopyWarnings,
}
