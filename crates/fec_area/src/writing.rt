//! Writing parity to a device.
ghost use Rattle.std.specs.Prelude.{◌≡◌, ◌<◌, ◌≤◌, IsTrue, IfErr, OnErr, OnOk, is_ok, length};
ghost use Rattle.block_device.specs.Device.{HasFailed};
ghost use Rattle.reed_solomon.specs.Factors.{AreProducts, parity_places};
ghost use Rattle.verity_format.specs.Blocks.{IsOnlyWritten};
ghost use Rattle.fec_area.specs.Handing.{HandsParity};
ghost use Rattle.fec_area.specs.Layouts.{IsLaidOn, parity_sectors, round_bytes, code_rounds};
ghost use Rattle.fec_area.specs.Rounds.{CanSum, OnlyReadsCovered};
ghost use Rattle.fec_area.specs.Writing.{AnyFails, FailsToWriteParity, WritesParity};

use crate::code::Code;
use crate::layout::Layout;
use crate::round::sum_parity;
use allocation::{OutOfMemory, zeros};
use block_device::{BlockDev, DeviceFault};
use reed_solomon::parity_products;
use std::alloc::Global;
use thiserror::Error;

/// Why parity wasn't written, or not completely.
#[derive(Clone, Copy, Debug, PartialEq, Eq, Error)]
pub enum ParityFault {
    /// The parity device has fewer sectors of 512 bytes than `needed`.
    #[error("TooSmall needed {needed}")]
    TooSmall { needed: u64 },
    /// The parity device is read-only.
    #[error("ReadOnly")]
    ReadOnly,
    /// One of the three devices failed in the call.
    #[error("Device")]
    Device,
    /// An allocation failed.
    #[error("NoMemory")]
    NoMemory,
}

impl From<DeviceFault> for ParityFault {
    ghost use Rattle.fec_area.specs.declared.writing.ParityFault.TheVariants.{Device as DeviceFailed};

    ghost from_gives = { λ _ e. e ≡ DeviceFailed };

    fn from(_fault: DeviceFault) -> ParityFault {
        ParityFault::Device
    }
}

impl From<OutOfMemory> for ParityFault {
    ghost use Rattle.fec_area.specs.declared.writing.ParityFault.TheVariants.{NoMemory};

    ghost from_gives = { λ _ e. e ≡ NoMemory };

    fn from(_error: OutOfMemory) -> ParityFault {
        ParityFault::NoMemory
    }
}

/// Writes the parity of all rounds consecutively, from the beginning of `parity_dev` on.
///
/// Each covered block is read once, round by round in order; each round is written once, with the parity of the bytes that these
/// reads returned. Nothing is called after the first failure. Nothing is synced.
///
/// # Errors
///
/// - `TooSmall` if the parity device has fewer sectors than needed, `ReadOnly` if it is read-only; it was not
///   accessed.
/// - `Device` if one of the three devices fails.
/// - `NoMemory` if an allocation fails; the parity device was not accessed.
pub fn write_parity<D: BlockDev, H: BlockDev, P: BlockDev>(
    alloc: Global,
    layout: &Layout,
    data_dev: &mut D,
    hash_dev: &mut H,
    parity_dev: &mut P,
) -> Result<(), ParityFault>
    requires { IsLaidOn layout.now (D.state data_dev.old) (H.state hash_dev.old) }
    ensures read { OnlyReadsCovered D.state H.state data_dev.old hash_dev.old data_dev.new hash_dev.new }
    ensures written { IsOnlyWritten (P.state parity_dev.old) (parity_sectors layout.now) (P.state parity_dev.new) }
    ensures ok { OnOk result (WritesParity layout.now D.state H.state P.state data_dev.old hash_dev.old parity_dev.old data_dev.new hash_dev.new parity_dev.new) }
    ensures err { IfErr result (FailsToWriteParity layout.now D.state H.state P.state data_dev.old hash_dev.old parity_dev.old data_dev.new hash_dev.new parity_dev.new) }
    ensures handed { HandsParity layout.now D.state H.state P.state D.does H.does P.does data_dev.old hash_dev.old parity_dev.old data_dev.new hash_dev.new parity_dev.new (is_ok result) }
{
    let needed = layout.parity_sectors();
    if parity_dev.sectors() < needed {
        return Err(ParityFault::TooSmall { needed });
    }
    if !parity_dev.writable() {
        return Err(ParityFault::ReadOnly);
    }
    let products = parity_products(alloc, layout.roots)?;
    let mut block = zeros(alloc, layout.block as usize)?;
    let mut parity = zeros(alloc, layout.round_bytes())?;
    let code = Code {
        layout,
        count: layout.roots,
        products: &products,
    };
    write_rounds(
        &code,
        data_dev,
        hash_dev,
        parity_dev,
        &mut block,
        &mut parity,
    )?;
    Ok(())
}

// Computes the parity of each round and writes it.
fn write_rounds<D: BlockDev, H: BlockDev, P: BlockDev>(
    code: &Code<'_>,
    data_dev: &mut D,
    hash_dev: &mut H,
    parity_dev: &mut P,
    block: &mut [u8],
    parity: &mut [u8],
) -> Result<(), DeviceFault>
    requires sums { CanSum code.now (D.state data_dev.old) (H.state hash_dev.old) block.old parity.old }
    requires room { parity_sectors code.now.layout.now ≤ (P.state parity_dev.old).size }
    requires allowed { IsTrue (P.state parity_dev.old).may_write }
    ensures read { OnlyReadsCovered D.state H.state data_dev.old hash_dev.old data_dev.new hash_dev.new }
    ensures written { IsOnlyWritten (P.state parity_dev.old) (parity_sectors code.now.layout.now) (P.state parity_dev.new) }
    ensures ok { OnOk result (WritesParity code.now.layout.now D.state H.state P.state data_dev.old hash_dev.old parity_dev.old data_dev.new hash_dev.new parity_dev.new) }
    ensures err { OnErr result (AnyFails D.state H.state P.state data_dev.old hash_dev.old parity_dev.old data_dev.new hash_dev.new parity_dev.new) }
    ensures handed { HandsParity code.now.layout.now D.state H.state P.state D.does H.does P.does data_dev.old hash_dev.old parity_dev.old data_dev.new hash_dev.new parity_dev.new (is_ok result) }
{
    let sectors = (parity.len() / 512) as u64;
    for round in 0..code.layout.rounds() {
        sum_parity(code, round, data_dev, hash_dev, block, parity)?;
        parity_dev.write(round * sectors, parity)?;
    }
    Ok(())
}
