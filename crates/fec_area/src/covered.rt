//! Reading the blocks that parity covers from two devices.
ghost use Rattle.std.specs.Prelude.{◌≡◌, ◌<◌, ℕ, IsOk, OnOk, OnErr, is_ok, length, slice_index};
ghost use Rattle.block_device.specs.Call.{DeviceDoes};
ghost use Rattle.fec_area.specs.Asking.{AsksBlock};
ghost use Rattle.fec_area.specs.Given.{GivesBlock};
ghost use Rattle.fec_area.specs.Layouts.{IsCovered, IsLaidOn, covered_blocks};
ghost use Rattle.fec_area.specs.Rounds.{BothNeverFail, CountsFailures, NeitherFails, OneFails, OnlyReadsCovered};

use crate::layout::Layout;
use block_device::{BlockDev, DeviceFault};

/// Reads covered block `index` into `block`.
#[tactic(auto, unfolding(verity_format::specs::Blocks::block_at))]
pub(crate) fn read_covered<D: BlockDev, H: BlockDev>(
    layout: &Layout,
    data_dev: &mut D,
    hash_dev: &mut H,
    index: u64,
    block: &mut [u8],
) -> Result<(), DeviceFault>
    requires laid { IsLaidOn layout.now (D.state data_dev.old) (H.state hash_dev.old) }
    requires index { index < covered_blocks layout.now }
    requires size { length block.old ≡ layout.now.block }
    ensures read { OnlyReadsCovered D.state H.state data_dev.old hash_dev.old data_dev.new hash_dev.new }
    ensures ok { OnOk result (NeitherFails D.state H.state data_dev.old hash_dev.old data_dev.new hash_dev.new) }
    ensures bytes { OnOk result (IsCovered layout.now (D.state data_dev.old) (H.state hash_dev.old) index block.new) }
    ensures fits { (k : ℕ) → slice_index block.new k < 256 }
    ensures err { OnErr result (OneFails D.state H.state data_dev.old hash_dev.old data_dev.new hash_dev.new) }
    ensures sure { BothNeverFail (D.state data_dev.old) (H.state hash_dev.old) → IsOk result }
    ensures asks { AsksBlock layout.now index D.state H.state data_dev.old hash_dev.old data_dev.new hash_dev.new }
    ensures given { GivesBlock (DeviceDoes D.state D.does) (DeviceDoes H.state H.does) layout.now index block.new data_dev.old hash_dev.old data_dev.new hash_dev.new (is_ok result) }
    ensures counted { CountsFailures D.state H.state data_dev.old hash_dev.old data_dev.new hash_dev.new }
{
    let sectors = u64::from(layout.block / 512);
    if index < layout.data_blocks {
        return data_dev.read(index * sectors, block);
    }
    hash_dev.read(
        (layout.hash_first + (index - layout.data_blocks)) * sectors,
        block,
    )
}
