//! The JSON area of a LUKS2 header.
ghost use Rattle.std.specs.Prelude.{◌≡◌, ◌+◌, ◌*◌, ◌≤◌, ◌<◌, ◌==◌, ◌^◌, length, option_map, true, None, IfErr, IfOk};
ghost use Rattle.block_device.specs.Call.{IsCall, Read};
ghost use Rattle.partition_table.specs.Labels.{before_zero};
ghost use Rattle.serde_json.specs.Errors.{IsMemory};
ghost use Rattle.serde_json.specs.View.{view};
ghost use Rattle.find_commands.specs.Areas.{IsJson, MissesArea};
ghost use Rattle.find_commands.specs.Luks.{area_first, area_sectors, fits_header, has_area, header_size, is_header_size, stated_size};

use crate::checksum::Checksum;
use crate::finding::Finding;
use allocation::{OutOfMemory, push, zeros};
use block_device::{BlockDev, DeviceFault};
use serde_json::{Error, Value};
use std::alloc::{AllocError, Global};

/// Why an area isn't read.
#[derive(Clone, Copy, Debug, PartialEq, Eq)]
pub(crate) enum AreaFault {
    /// The device failed.
    Device,
    /// An allocation failed.
    NoMemory,
}

impl From<DeviceFault> for AreaFault {
    ghost use Rattle.find_commands.specs.declared.area.AreaFault.TheVariants.{Device as DeviceFailed};

    ghost from_gives = { λ _ e. e ≡ DeviceFailed };

    fn from(_fault: DeviceFault) -> AreaFault {
        AreaFault::Device
    }
}

impl From<OutOfMemory> for AreaFault {
    ghost use Rattle.find_commands.specs.declared.area.AreaFault.TheVariants.{NoMemory};

    ghost from_gives = { λ _ e. e ≡ NoMemory };

    fn from(_error: OutOfMemory) -> AreaFault {
        AreaFault::NoMemory
    }
}

/// Returns whether a thing is a LUKS2 header of a size that there is, which ends on a disk of `sectors` sectors and whose checksum isn't
/// wrong.
pub(crate) fn has_area(sectors: u64, finding: &Finding) -> bool
    ensures { result ≡ has_area sectors finding.now }
{
    fits_header(
        sectors,
        finding.sector,
        header_size(finding.checksum, finding.size),
    )
}

/// Returns the first sector of the area.
pub(crate) fn area_first(finding: &Finding) -> u64
    requires { finding.now.sector ≤ 2 ^ 54 }
    ensures { result ≡ area_first finding.now }
{
    finding.sector + 8
}

/// Returns how many sectors the area has.
pub(crate) fn area_sectors(finding: &Finding) -> u64
    ensures { result ≡ area_sectors finding.now }
{
    (header_size(finding.checksum, finding.size) / 512).saturating_sub(8)
}

fn fits_header(sectors: u64, first: u64, size: u64) -> bool
    ensures { result ≡ fits_header sectors first size }
{
    is_header_size(size) && size / 512 <= sectors && first <= sectors - size / 512
}

#[tactic(auto, unfolding(crate::specs::Luks::is_header_size))]
pub(crate) fn is_header_size(size: u64) -> bool
    ensures { result ≡ is_header_size size }
{
    size.is_power_of_two() && 16384 <= size && size <= 4_194_304
}

// The size of a header whose checksum isn't wrong.
fn header_size(checksum: Option<Checksum>, size: Option<u64>) -> u64
    ensures { result ≡ header_size checksum size }
{
    match checksum {
        Some(Checksum::Valid) => stated_size(size),
        Some(Checksum::Unchecked) => stated_size(size),
        Some(Checksum::Wrong) => 0,
        None => 0,
    }
}

pub(crate) fn stated_size(size: Option<u64>) -> u64
    ensures { result ≡ stated_size size }
{
    match size {
        Some(size) => size,
        None => 0,
    }
}

/// Reads `count` sectors of a device from sector `first` on, by one call.
///
/// # Errors
///
/// - `Device` if the device call fails.
/// - `NoMemory` if the allocation of the sectors' bytes fails. Nothing was read.
pub(crate) fn read_area<D: BlockDev>(
    alloc: Global,
    device: &mut D,
    first: u64,
    count: u64,
) -> Result<Vec<u8>, AreaFault>
    requires { (0 < count) × (count ≤ 8192) × (first + count ≤ (D.state device.old).size) }
    ensures ok { IfOk result (λ v. (length v.items ≡ 512 * count) × IsCall (D.state device.old) (Read first v.items true) (D.state device.new)) }
    ensures err { IfErr result (MissesArea D.state first count device.old device.new) }
{
    let mut bytes = zeros(alloc, 512 * count as usize)?;
    device.read(first, &mut bytes)?;
    Ok(bytes)
}

/// Returns the text of an area: its bytes before the first zero.
///
/// # Errors
///
/// `OutOfMemory` if room for a byte was refused.
pub(crate) fn text_of(alloc: Global, area: &[u8]) -> Result<Vec<u8>, OutOfMemory>
    ensures { IfOk result (λ text. text.items ≡ before_zero area.now) }
{
    let mut text = Vec::new(alloc);
    'bytes: for byte in area {
        if is_end(*byte) {
            return Ok(text);
        }
        push(&mut text, *byte)?;
    }
    Ok(text)
}

fn is_end(byte: u8) -> bool
    ensures { result ≡ (byte == 0) }
{
    byte == 0
}

/// Returns the value of a text, or `None` if it is no JSON text.
///
/// # Errors
///
/// `AllocError` if an allocation was refused.
pub(crate) fn json_of(alloc: Global, text: &[u8]) -> Result<Option<Value>, AllocError>
    ensures { IfOk result (λ value. IsJson text.now (option_map view value)) }
{
    match Value::from_slice(alloc, text) {
        Ok(value) => Ok(Some(value)),
        Err(error) => unparsed(error),
    }
}

// No value, unless memory ran out.
fn unparsed(error: Error) -> Result<Option<Value>, AllocError>
    ensures { IfOk result (λ value. (option_map view value ≡ None) × ¬ IsMemory error) }
{
    if error.is_memory() {
        return Err(AllocError);
    }
    Ok(None)
}
