//! Checks a block, and writes it if it is corrupt and was found elsewhere.
ghost use Rattle.std.specs.Prelude.{◌/◌, ◌+◌, ◌<◌, ◌^◌, IfOk, IsTrue, is_ok, length};
ghost use Rattle.block_device.specs.Call.{Calls, DeviceDoes};
ghost use Rattle.block_device.specs.Device.{IsInside};
ghost use Rattle.tree_repair.specs.AccessBudgets.{AsksOnce};
ghost use Rattle.tree_repair.specs.Mending.{IsNotRemade, IsPutAt, put_calls};
ghost use Rattle.tree_repair.specs.BlockChecks.{FailsToMend, MendsBlock};
ghost use Rattle.tree_repair.specs.RepairCalls.{IsBlockWrite, MakesRepairCalls};
ghost use Rattle.tree_repair.specs.Sources.{due};

use crate::place::Repair;
use crate::seeking::{is_there, seek};
use block_device::{BlockDev, DeviceFault};
use tree_shape::Digest;

/// The result of a visit to a block.
#[derive(Clone, Copy, Debug, PartialEq, Eq)]
pub enum Mended {
    /// The block verifies.
    Good,
    /// The block was corrupt; the copy of that number, counted from 1, has it.
    Copy(usize),
    /// The hash block is corrupt and in no copy; it was reconstructed from the blocks below it.
    Remade,
    /// The block was corrupt and in no other source; parity restored it.
    Parity,
    /// The block is corrupt and was found nowhere.
    Lost,
}

/// A block to be checked: its first sector on its device and on a copy, and its digest.
#[derive(Clone, Copy)]
pub(crate) struct WantedBlock<'a> {
    pub(crate) repair: &'a Repair,
    pub(crate) first: u64,
    pub(crate) copy_first: u64,
    pub(crate) digest: Digest,
}

/// Reads a block. If it doesn't have its digest, the copies are searched, and what is found is written if the repair may write.
///
/// # Errors
///
/// `DeviceFault` if a write to the device failed.
pub(crate) fn mend<B: BlockDev, C: BlockDev>(
    device: &mut B,
    copies: &mut Vec<C>,
    sought: &WantedBlock<'_>,
    block: &mut [u8],
) -> Result<Mended, DeviceFault>
    requires inside { IsInside (B.state device.old) sought.now.first (length block.old) }
    requires small { sought.now.copy_first + length block.old / 512 < 2 ^ 64 }
    requires allowed { IsTrue sought.now.repair.now.write → IsTrue (B.state device.old).may_write }
    ensures ok { MendsBlock B.state C.state sought.now block.old device.old device.new copies.old copies.new result }
    ensures plain { IfOk result IsNotRemade }
    ensures err { FailsToMend B.state C.state sought.now block.old device.old device.new copies.old copies.new result }
    ensures asked { AsksOnce B.state C.state block.old device.old device.new copies.old copies.new }
    ensures handed { MakesRepairCalls (DeviceDoes B.state B.does) (IsBlockWrite sought.now.first (due sought.now.repair.now.salt sought.now.digest block.old)) (is_ok result) device.old device.new }
{
    let WantedBlock {
        repair,
        first,
        copy_first,
        digest,
    } = *sought;
    let salt = &repair.salt;
    if is_there(device, first, salt, &digest, block) {
        return Ok(Mended::Good);
    }
    match seek(copies, copy_first, salt, &digest, block) {
        None => Ok(Mended::Lost),
        Some(number) => {
            put(device, first, block, repair.write)?;
            Ok(Mended::Copy(number))
        }
    }
}

/// Writes a block if `write` is set.
///
/// # Errors
///
/// `DeviceFault` if the write failed.
pub(crate) fn put<B: BlockDev>(
    device: &mut B,
    first: u64,
    block: &[u8],
    write: bool,
) -> Result<(), DeviceFault>
    requires inside { IsInside (B.state device.old) first (length block.now) }
    requires allowed { IsTrue write → IsTrue (B.state device.old).may_write }
    ensures put { IsPutAt write (B.state device.old) first block.now (is_ok result) (B.state device.new) }
    ensures handed { Calls (DeviceDoes B.state B.does) device.old (put_calls write first block.now (is_ok result)) device.new }
{
    if !write {
        return Ok(());
    }
    device.write(first, block)
}
