//! Copies a device to another one.
ghost use Rattle.std.specs.Prelude.{◌≡◌, ◌≤◌, ◌/◌, IsTrue, OnErr, OnOk, length};
ghost use Rattle.block_device.specs.Device.{IsInside};
ghost use Rattle.device_adapters.specs.Copying.{AreCopied, FailsToCopy};

use block_device::{BlockDev, DeviceFault};

const RUN: u64 = 128;

/// Copies all sectors of a device to the same places of another one, in runs of 128 sectors, for which there is room.
///
/// # Errors
///
/// `DeviceFault` if one of the two devices failed. Nothing is called after that.
pub fn copy_sectors<D: BlockDev, O: BlockDev>(
    from: &mut D,
    to: &mut O,
    room: &mut [u8],
) -> Result<(), DeviceFault>
    requires room { length room.old ≡ 65536 }
    requires fits { (D.state from.old).size ≤ (O.state to.old).size }
    requires allowed { IsTrue (O.state to.old).may_write }
    ensures ok { OnOk result (AreCopied (D.state from.old) (O.state to.old) 0 (D.state from.old).size (D.state from.new) (O.state to.new)) }
    ensures err { OnErr result (FailsToCopy (D.state from.old) (O.state to.old) (D.state from.new) (O.state to.new)) }
{
    let all = from.sectors();
    let mut done = 0;
    'runs: while done < all {
        let count = (all - done).min(RUN);
        copy_run(from, to, done, &mut room[..count as usize * 512])?;
        done += count;
    }
    Ok(())
}

// Copies the sectors from `first` on that fill the room.
fn copy_run<D: BlockDev, O: BlockDev>(
    from: &mut D,
    to: &mut O,
    first: u64,
    room: &mut [u8],
) -> Result<(), DeviceFault>
    requires from { IsInside (D.state from.old) first (length room.old) }
    requires to { IsInside (O.state to.old) first (length room.old) }
    requires allowed { IsTrue (O.state to.old).may_write }
    ensures ok { OnOk result (AreCopied (D.state from.old) (O.state to.old) first (length room.old / 512) (D.state from.new) (O.state to.new)) }
    ensures err { OnErr result (FailsToCopy (D.state from.old) (O.state to.old) (D.state from.new) (O.state to.new)) }
{
    from.read(first, room)?;
    to.write(first, room)
}
