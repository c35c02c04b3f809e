//! Comparing parity with the parity stored on a device.
ghost use Rattle.std.specs.Prelude.{◌≡◌, ◌≤◌, IfErr, IfOk, OnErr, length};
ghost use Rattle.std.specs.Str.{bytes_eq};
ghost use Rattle.block_device.specs.Call.{DeviceDoes};
ghost use Rattle.verity_format.specs.Blocks.{IsOnlyRead};
ghost use Rattle.fec_area.specs.Checking.{Checks, ChecksBy, FailsToCheck};
ghost use Rattle.fec_area.specs.GivenParity.{ChecksOver, ChecksParity};
ghost use Rattle.fec_area.specs.Layouts.{IsLaidOn, parity_sectors, round_bytes};
ghost use Rattle.fec_area.specs.Rounds.{CanSum, OnlyReadsCovered};
ghost use Rattle.fec_area.specs.Writing.{AnyFails};

use crate::code::Code;
use crate::layout::Layout;
use crate::round::sum_parity;
use crate::writing::ParityFault;
use allocation::zeros;
use block_device::{BlockDev, DeviceFault};
use reed_solomon::parity_products;
use std::alloc::Global;

/// Returns the first round whose parity differs from the parity stored from the beginning of `parity_dev` on, or
/// `None` if no round differs.
///
/// The covered blocks of each round and then its parity are read once, in order, up to that round, and nothing else is
/// read. The result is true of the bytes that these reads returned.
///
/// # Errors
///
/// - `TooSmall` if the parity device has fewer sectors than needed.
/// - `Device` if one of the three devices fails.
/// - `NoMemory` if an allocation fails; the parity device was not accessed.
pub fn check_parity<D: BlockDev, H: BlockDev, P: BlockDev>(
    alloc: Global,
    layout: &Layout,
    data_dev: &mut D,
    hash_dev: &mut H,
    parity_dev: &mut P,
) -> Result<Option<u64>, ParityFault>
    requires { IsLaidOn layout.now (D.state data_dev.old) (H.state hash_dev.old) }
    ensures read { OnlyReadsCovered D.state H.state data_dev.old hash_dev.old data_dev.new hash_dev.new }
    ensures parity { IsOnlyRead (P.state parity_dev.old) (P.state parity_dev.new) }
    ensures ok { IfOk result (Checks layout.now D.state H.state P.state data_dev.old hash_dev.old parity_dev.old) }
    ensures calls { ChecksParity (DeviceDoes D.state D.does) (DeviceDoes H.state H.does) (DeviceDoes P.state P.does) layout.now data_dev.old hash_dev.old parity_dev.old data_dev.new hash_dev.new parity_dev.new result }
    ensures err { IfErr result (FailsToCheck layout.now D.state H.state P.state data_dev.old hash_dev.old parity_dev.old data_dev.new hash_dev.new parity_dev.new) }
{
    let needed = layout.parity_sectors();
    if parity_dev.sectors() < needed {
        return Err(ParityFault::TooSmall { needed });
    }
    let products = parity_products(alloc, layout.roots)?;
    let mut block = zeros(alloc, layout.block as usize)?;
    let mut parity = zeros(alloc, layout.round_bytes())?;
    let mut stored = zeros(alloc, layout.round_bytes())?;
    let code = Code {
        layout,
        count: layout.roots,
        products: &products,
    };
    let found = check_rounds(
        &code,
        data_dev,
        hash_dev,
        parity_dev,
        &mut block,
        &mut parity,
        &mut stored,
    )?;
    Ok(found)
}

// Computes the parity of each round and compares it.
fn check_rounds<D: BlockDev, H: BlockDev, P: BlockDev>(
    code: &Code<'_>,
    data_dev: &mut D,
    hash_dev: &mut H,
    parity_dev: &mut P,
    block: &mut [u8],
    parity: &mut [u8],
    stored: &mut [u8],
) -> Result<Option<u64>, DeviceFault>
    requires sums { CanSum code.now (D.state data_dev.old) (H.state hash_dev.old) block.old parity.old }
    requires room { parity_sectors code.now.layout.now ≤ (P.state parity_dev.old).size }
    requires stored { length stored.old ≡ round_bytes code.now.layout.now }
    ensures read { OnlyReadsCovered D.state H.state data_dev.old hash_dev.old data_dev.new hash_dev.new }
    ensures parity { IsOnlyRead (P.state parity_dev.old) (P.state parity_dev.new) }
    ensures ok { IfOk result (ChecksBy code.now D.state H.state P.state data_dev.old hash_dev.old parity_dev.old) }
    ensures calls { ChecksOver (DeviceDoes D.state D.does) (DeviceDoes H.state H.does) (DeviceDoes P.state P.does) code.now.layout.now data_dev.old hash_dev.old parity_dev.old data_dev.new hash_dev.new parity_dev.new result }
    ensures err { OnErr result (AnyFails D.state H.state P.state data_dev.old hash_dev.old parity_dev.old data_dev.new hash_dev.new parity_dev.new) }
{
    let sectors = (stored.len() / 512) as u64;
    for round in 0..code.layout.rounds() {
        sum_parity(code, round, data_dev, hash_dev, block, parity)?;
        parity_dev.read(round * sectors, stored)?;
        if !is_same(parity, stored) {
            return Ok(Some(round));
        }
    }
    Ok(None)
}

fn is_same(parity: &[u8], stored: &[u8]) -> bool
    ensures { result ≡ bytes_eq parity.now stored.now }
{
    parity == stored
}
