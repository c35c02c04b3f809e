//! Ranges of a mapped device's sectors.
ghost use Rattle.std.specs.Prelude.{◌≡◌, ◌+◌, ◌≤◌, ◌<◌, length, IfOk, OnOk};
ghost use Rattle.stack_rules.specs.Names.{mapped, size};
ghost use Rattle.request_queue.specs.Ranges.{HaveSectors, IsRangeInside, bytes_range, piece_len, range_of};

use crate::fault::SubmitFault;
use stack_config::{Config, DevId};

pub(crate) const MOST_PIECE: u64 = 128;

pub(crate) const MOST_READ: u64 = 2048;

const MOST_COUNT: u64 = 2048;

/// Sectors of a mapped device: the first one, from 0 on, and how many.
#[derive(Clone, Copy, Debug, PartialEq, Eq)]
pub struct SectorRange {
    pub device: DevId,
    pub first: u64,
    pub count: u64,
}

/// Returns the sectors of a request by the device's name, or why the request can't begin.
pub(crate) fn range_of(
    config: &Config,
    name: &[u8],
    first: u64,
    count: u64,
) -> Result<SectorRange, SubmitFault>
    ensures value { result ≡ range_of config.now name.now first count }
    ensures inside { IfOk result (λ range. IsRangeInside config.now range) }
{
    let Some(device) = config.device(name) else {
        return Err(SubmitFault::NoSuchDevice);
    };
    let sectors = config.sectors(device);
    if count > sectors || first > sectors - count {
        return Err(SubmitFault::OutOfRange);
    }
    if count == 0 || count > MOST_COUNT {
        return Err(SubmitFault::Length);
    }
    Ok(SectorRange {
        device,
        first,
        count,
    })
}

/// The sectors of so many bytes of a device, or why they aren't read or written.
pub(crate) fn bytes_range(
    config: &Config,
    device: DevId,
    first: u64,
    bytes: usize,
) -> Result<SectorRange, SubmitFault>
    ensures value { result ≡ bytes_range config.now device.0 first bytes }
    ensures have { OnOk result (HaveSectors config.now device.0 first bytes) }
{
    if device.0 as usize >= config.count() {
        return Err(SubmitFault::NoSuchDevice);
    }
    let size = config.sectors(device);
    let count = bytes.div_ceil(512) as u64;
    if count > size || first > size - count {
        return Err(SubmitFault::OutOfRange);
    }
    if !bytes.is_multiple_of(512) {
        return Err(SubmitFault::Length);
    }
    Ok(SectorRange {
        device,
        first,
        count,
    })
}

/// How many sectors the first piece of a range has.
pub(crate) fn piece_len(config: &Config, range: SectorRange) -> u64
    requires { IsRangeInside config.now range }
    ensures value { result ≡ piece_len config.now range }
    ensures some { 1 ≤ result }
    ensures most { result ≤ 128 }
    ensures inside { result ≤ range.count }
{
    let (_, in_line) = config.line_at(range.device, range.first);
    in_line.min(range.count).min(MOST_PIECE)
}
