//! A mapped device of a configuration.
ghost use Rattle.std.specs.Prelude.{◌≡◌, ◌≤◌, ◌+◌, length, IfOk, IfErr, position};
ghost use Rattle.allocation.specs.Asked.{asked};
ghost use Rattle.dm_table.specs.Names.{most_name};
ghost use Rattle.std.specs.Str.{bytes_eq};
ghost use Rattle.stack_rules.specs.Names.{table_sectors};

use allocation::{OutOfMemory, copied};
use dm_table::{Line, Table};
use std::alloc::Global;
use std::marker::Model;

/// A mapped device with the name of its entry. `size` is the sum of the lengths of its lines.
#[derive(Drop)]
pub struct Mapped {
    name: Vec<u8>,
    writable: bool,
    table: Table,
    size: u128,
}

impl Model for Mapped {
    ghost use Rattle.std.specs.Prelude.{◌≡◌};
    ghost use Rattle.stack_rules.specs.Records.{DeviceRecord};
    ghost use Rattle.stack_rules.specs.Names.{table_sectors};

    ghost Value = { DeviceRecord };

    ghost view = { λ d. record { name = d.name.items; writable = d.writable; table = d.table } };

    ghost invariant = { λ d. d.size ≡ table_sectors d.table };
}

/// Returns the sum of the lengths of the lines.
pub fn sectors_of(lines: &[Line]) -> u128
    ensures { result ≡ table_sectors lines.now }
{
    let mut sectors: u128 = 0;
    for line in lines {
        sectors += u128::from(line.length);
    }
    sectors
}

impl Mapped {
    ghost use Rattle.std.specs.Prelude.{◌≡◌, ◌≤◌, ◌+◌, length, IfOk, IfErr};
    ghost use Rattle.stack_rules.specs.Names.{table_sectors};

    /// Returns a device with copies of this name and table.
    ///
    /// # Errors
    ///
    /// `OutOfMemory` if an allocation fails, of room for the name, the lines or a name in a line.
    pub fn new(
        alloc: Global,
        name: &[u8],
        writable: bool,
        table: &Table,
    ) -> Result<Mapped, OutOfMemory>
        ensures ok { IfOk result (λ d. d ≡ record { name = name.now; writable = writable; table = table.now }) }
        ensures err { length name.now ≤ most_name → IfErr result (λ e. asked e ≤ length table.now + most_name) }
    {
        let name = copied(alloc, name)?;
        let table = table.try_clone(alloc)?;
        let size = sectors_of(table.lines());
        Ok(Mapped {
            name,
            writable,
            table,
            size,
        })
    }

    /// Returns the name, without `/dev/mapper/`.
    pub fn name(&self) -> &[u8]
        ensures { result.now ≡ self.now.name }
    {
        self.name.as_slice()
    }

    /// Returns whether the device is writable.
    pub fn writable(&self) -> bool
        ensures { result ≡ self.now.writable }
    {
        self.writable
    }

    /// Returns the lines of the device.
    pub fn table(&self) -> &Table
        ensures { result.now ≡ self.now.table }
    {
        &self.table
    }

    /// Returns the size in sectors of 512 bytes.
    pub fn size(&self) -> u128
        ensures { result ≡ table_sectors self.now.table }
    {
        self.size
    }
}

/// Returns the index of the first device with this name.
pub fn place_of(devices: &[Mapped], name: &[u8]) -> Option<usize>
    ensures { result ≡ position (λ d. bytes_eq d.name name.now) devices.now }
{
    devices.iter().position(|device| device.name() == name)
}
