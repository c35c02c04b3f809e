//! A mapped device of a planned configuration, not yet copied.
ghost use Rattle.std.specs.Prelude.{◌≡◌};
ghost use Rattle.stack_rules.specs.Names.{table_sectors};

use crate::mapped::sectors_of;
use dm_table::Table;
use std::marker::Model;

/// A mapped device that borrows its name and table. `size` is the sum of the lengths of its lines.
#[derive(Drop)]
pub struct Planned<'a> {
    name: &'a [u8],
    writable: bool,
    table: &'a Table,
    size: u128,
}

impl<'a> Model for Planned<'a> {
    ghost use Rattle.std.specs.Prelude.{◌≡◌};
    ghost use Rattle.stack_rules.specs.Records.{DeviceRecord};
    ghost use Rattle.stack_rules.specs.Names.{table_sectors};

    ghost Value = { DeviceRecord };

    ghost view = { λ d. record { name = d.name.now; writable = d.writable; table = d.table.now } };

    ghost invariant = { λ d. d.size ≡ table_sectors d.table.now };
}

impl<'a> Planned<'a> {
    ghost use Rattle.std.specs.Prelude.{◌≡◌};
    ghost use Rattle.stack_rules.specs.Names.{table_sectors};

    /// Returns a device that borrows this name and table.
    pub fn new(name: &'a [u8], writable: bool, table: &'a Table) -> Planned<'a>
        ensures { result ≡ record { name = name.now; writable = writable; table = table.now } }
    {
        let size = sectors_of(table.lines());
        Planned {
            name,
            writable,
            table,
            size,
        }
    }

    /// Returns the name, without `/dev/mapper/`.
    pub fn name(&self) -> &'a [u8]
        ensures { result.now ≡ self.now.name }
    {
        self.name
    }

    /// Returns whether the device is writable.
    pub fn writable(&self) -> bool
        ensures { result ≡ self.now.writable }
    {
        self.writable
    }

    /// Returns the lines of the device.
    pub fn table(&self) -> &'a Table
        ensures { result.now ≡ self.now.table }
    {
        self.table
    }

    /// Returns the size in sectors of 512 bytes.
    pub fn size(&self) -> u128
        ensures { result ≡ table_sectors self.now.table }
    {
        self.size
    }
}
