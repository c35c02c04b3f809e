//! The mapped devices of a stack as exports.
ghost use Rattle.std.specs.Prelude.{◌≡◌, map, IfOk, OnErr, OnOk};
ghost use Rattle.allocation.specs.Refusal.{IsOutOfMemory};
ghost use Rattle.nbd_protocol.specs.Offers.{AddsTo, AreNames, OffersBy, longest_name};

use crate::export::Export;
use allocation::{OutOfMemory, copied, push};
use stack_config::Config;
use std::alloc::Global;

/// Returns the names of all mapped devices, in configuration order.
///
/// # Errors
///
/// `OutOfMemory` if the allocator refused memory for a name.
pub fn names_of(alloc: Global, config: &Config) -> Result<Vec<Vec<u8>>, OutOfMemory>
    ensures ok { IfOk result (λ names. AreNames config.now.devices (map (λ n. n.items) names.items)) }
    ensures err { OnErr result (IsOutOfMemory longest_name) }
{
    let mut names = Vec::new(alloc);
    for device in config.devices() {
        push(&mut names, copied(alloc, device.name())?)?;
    }
    Ok(names)
}

// Appends the export of the device with that name, if the device can be exported.
fn add<'a>(
    exports: &mut Vec<Export<'a>>,
    config: &Config,
    name: &'a [u8],
) -> Result<(), OutOfMemory>
    ensures ok { OnOk result (AddsTo config.now name.now exports.old exports.new) }
    ensures err { OnErr result (IsOutOfMemory 1) }
{
    match Export::of(config, name) {
        Some(export) => push(exports, export),
        None => Ok(()),
    }
}

/// Returns the exports of the devices with these names, in the same order. Names of which `Export::of` returns `None` are left
/// out.
///
/// # Errors
///
/// `OutOfMemory` if the allocator refused memory for one more export.
pub fn exports_of<'a>(
    alloc: Global,
    config: &Config,
    names: &'a [Vec<u8>],
) -> Result<Vec<Export<'a>>, OutOfMemory>
    ensures ok { IfOk result (OffersBy config.now names.now) }
    ensures err { OnErr result (IsOutOfMemory 1) }
{
    let mut exports = Vec::new(alloc);
    for name in names {
        add(&mut exports, config, name.as_slice())?;
    }
    Ok(exports)
}
