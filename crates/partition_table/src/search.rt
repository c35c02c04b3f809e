//! Search for the partition table of a device of unknown sector size.
ghost use Rattle.std.specs.Prelude.{◌+◌, IfErr, IfOk};
ghost use Rattle.block_device.specs.Call.{DeviceDoes};
ghost use Rattle.partition_table.specs.Reads.{IsReadAtMost};
ghost use Rattle.partition_table.specs.TableCalls.{CallsOfEither, CallsOfSized};
ghost use Rattle.partition_table.specs.Tables.{IsEitherTable, IsNoEitherTable, IsNoSizedTable, IsSizedTable, found_reads};

use crate::{NoTable, PartitionTable, SectorSize, read_table};
use block_device::BlockDev;
use std::alloc::Global;

/// Returns the partition table of a device with sectors of size `size`. If that is 512 bytes, both copies were read and
/// there is no such table, returns the one with sectors of 4,096 bytes. If both exist, the table with sectors of 512
/// bytes is returned. The calls are those of `read_table` for each size that is looked for.
///
/// # Errors
///
/// The error of `read_table` with sectors of size `size`.
pub fn find_table<D: BlockDev>(
    alloc: Global,
    device: &mut D,
    size: SectorSize,
) -> Result<PartitionTable, NoTable>
    ensures read { IsReadAtMost (D.state device.old) found_reads (D.state device.new) }
    ensures ok { IfOk result (IsSizedTable (D.state device.old) (D.state device.new) size) }
    ensures calls { CallsOfSized D.state (DeviceDoes D.state D.does) size device.old device.new result }
    ensures err { IfErr result (IsNoSizedTable (D.state device.old) (D.state device.new) size) }
{
    match size {
        SectorSize::Bytes4096 => read_table(alloc, device, SectorSize::Bytes4096),
        SectorSize::Bytes512 => find_either(alloc, device),
    }
}

// Returns the table with sectors of 512 bytes or, if there is none, of 4,096.
fn find_either<D: BlockDev>(alloc: Global, device: &mut D) -> Result<PartitionTable, NoTable>
    ensures read { IsReadAtMost (D.state device.old) found_reads (D.state device.new) }
    ensures ok { IfOk result (IsEitherTable (D.state device.old) (D.state device.new)) }
    ensures calls { CallsOfEither D.state (DeviceDoes D.state D.does) device.old device.new result }
    ensures err { IfErr result (IsNoEitherTable (D.state device.old) (D.state device.new)) }
{
    match read_table(alloc, device, SectorSize::Bytes512) {
        Ok(table) => Ok(table),
        Err(fault) => {
            if fault.may_hide_table() {
                return Err(fault);
            }
            match read_table(alloc, device, SectorSize::Bytes4096) {
                Ok(table) => Ok(table),
                Err(_) => Err(fault),
            }
        }
    }
}
