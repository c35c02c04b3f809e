//! Which requests are begun, and which bytes written at once.
ghost use Rattle.std.specs.Prelude.{◌≡◌, ◌<◌, IfOk, OnOk, length, Err, Ok};
ghost use Rattle.request_queue.specs.AtOnce.{CanBeWritten, write_range};
ghost use Rattle.request_queue.specs.Flights.{IsAdmissible, IsWorkOn, writes};
ghost use Rattle.request_queue.specs.Requests.{request_record, sectors_for, writable_sectors};

use crate::fault::SubmitFault;
use crate::range::{SectorRange, bytes_range, range_of};
use crate::request::Request;
use stack_config::{Config, DevId};

/// The sectors of a write, unless its bytes aren't whole sectors or its device may not be written.
fn writable_sectors(
    config: &Config,
    bytes: &[u8],
    range: SectorRange,
) -> Result<SectorRange, SubmitFault>
    requires { range.device.0 < length config.now.devices }
    ensures value { result ≡ writable_sectors config.now bytes.now (Ok range) }
{
    if !bytes.len().is_multiple_of(512) {
        return Err(SubmitFault::Length);
    }
    if !config.writable(range.device) {
        return Err(SubmitFault::ReadOnly);
    }
    Ok(range)
}

/// The sectors of a request, or its first refusal but those of the queue.
pub(crate) fn sectors_for(config: &Config, request: &Request) -> Result<SectorRange, SubmitFault>
    ensures value { result ≡ sectors_for config.now (request_record request.now) }
    ensures admissible { IfOk result (λ range. IsAdmissible config.now (request_record request.now) range) }
{
    match request {
        Request::Read {
            device,
            first,
            count,
        } => range_of(config, device.as_slice(), *first, *count),
        Request::Write {
            device,
            first,
            bytes,
        } => {
            let count = bytes.len().div_ceil(512) as u64;
            let range = range_of(config, device.as_slice(), *first, count)?;
            writable_sectors(config, bytes.as_slice(), range)
        }
    }
}

/// The sectors of the bytes of a device, or why they aren't written at once.
pub(crate) fn write_range(
    config: &Config,
    device: DevId,
    first: u64,
    bytes: &[u8],
) -> Result<SectorRange, SubmitFault>
    ensures value { result ≡ write_range config.now device.0 first bytes.now }
    ensures can { OnOk result (CanBeWritten config.now device.0 first bytes.now) }
{
    let range = bytes_range(config, device, first, bytes.len())?;
    writable_sectors(config, bytes, range)
}
