//! Writing bytes only if they differ.
ghost use Rattle.std.specs.Prelude.{◌≡◌, ◌+◌, ◌*◌, ◌/◌, ◌≤◌, length, is_ok, IsOk, IsTrue, OnErr, OnOk};
ghost use Rattle.block_device.specs.Call.{DeviceDoes};
ghost use Rattle.block_device.specs.CallList.{DeviceCalls};
ghost use Rattle.block_device.specs.Device.{HasFailed, IsInside, IsWhole, failures_after};
ghost use Rattle.device_adapters.specs.DifferingCalls.{BlockCalls, DifferingWrite, LeavesStanding, PutsOn};
ghost use Rattle.device_adapters.specs.Differing.{KeepsOutside};

use block_device::{BlockDev, DeviceFault};

const BLOCK: usize = 4096;

// Writes these sectors unless a read returns the same bytes.
fn put_block<D: BlockDev>(
    device: &mut D,
    first: u64,
    bytes: &[u8],
    room: &mut [u8],
) -> Result<(), DeviceFault>
    requires range { IsInside (D.state device.old) first (length bytes.now) }
    requires allowed { IsTrue (D.state device.old).may_write }
    requires room { length room.old ≡ length bytes.now }
    ensures ok { OnOk result (PutsOn D.state device.old device.new first bytes.now) }
    ensures outside { KeepsOutside (D.state device.old) first (length bytes.now / 512) (is_ok result) (D.state device.new) }
    ensures sure { IsTrue (D.state device.old).never_fails → IsOk result }
    ensures fault { OnErr result (HasFailed (D.state device.old) (D.state device.new)) }
    ensures same { OnOk result (LeavesStanding D.state device.old device.new first bytes.now) }
    ensures calls { DeviceCalls (DeviceDoes D.state D.does) (BlockCalls first bytes.now (is_ok result)) device.old device.new }
{
    device.read(first, room)?;
    if *room == *bytes {
        return Ok(());
    }
    device.write(first, bytes)
}

/// Writes bytes in blocks of 4,096, from sector `first` on, except blocks for which a read returns the same bytes.
pub(crate) fn put_blocks<D: BlockDev>(
    device: &mut D,
    first: u64,
    bytes: &[u8],
) -> Result<(), DeviceFault>
    requires range { IsInside (D.state device.old) first (length bytes.now) }
    requires allowed { IsTrue (D.state device.old).may_write }
    ensures ok { OnOk result (PutsOn D.state device.old device.new first bytes.now) }
    ensures outside { KeepsOutside (D.state device.old) first (length bytes.now / 512) (is_ok result) (D.state device.new) }
    ensures sure { IsTrue (D.state device.old).never_fails → IsOk result }
    ensures fault { OnErr result (HasFailed (D.state device.old) (D.state device.new)) }
    ensures same { OnOk result (LeavesStanding D.state device.old device.new first bytes.now) }
    ensures calls { DeviceCalls (DeviceDoes D.state D.does) (DifferingWrite first bytes.now (is_ok result)) device.old device.new }
{
    // This call gives the proof the largest size of a device.
    let _fits = device.sectors();
    let mut room = [0u8; BLOCK];
    let sectors = bytes.len() / 512;
    let mut done = 0;
    'parts: while done < sectors {
        let count = (sectors - done).min(BLOCK / 512);
        let block = &bytes[done * 512..(done + count) * 512];
        put_block(device, first + done as u64, block, &mut room[..count * 512])?;
        done += count;
    }
    Ok(())
}
