//! Removal of a mapped device.
ghost use Rattle.std.specs.Prelude.{◌≡◌, None, Some, IfErr, OnOk, OnErr};
ghost use Rattle.std.specs.List.{list_any};
ghost use Rattle.stack_rules.specs.Cycles.{is_mapped};
ghost use Rattle.stack_rules.specs.Removal.{after_removal, removal_fault};

use stack_config::{Config, DeviceFacts};
use stack_rules::{RemoveFault, place_of};

/// Returns whether a device names the one with index `place`.
fn is_in_use(devices: &[DeviceFacts], place: usize) -> bool
    ensures { result ≡ list_any (λ device. list_any (list_any (is_mapped place)) device.lowers) devices.now }
{
    devices.iter().any(|device| device.lowers.names(place))
}

/// Removes the mapped device with this name. The indices of later devices decrease by one.
///
/// # Errors
///
/// - `NoSuchDevice` if there is no mapped device with this name.
/// - `InUse` if another device names it.
///
/// The configuration is unchanged in both cases.
pub fn remove(config: &mut Config, name: &[u8]) -> Result<(), RemoveFault>
    ensures ok { OnOk result (removal_fault config.old name.now ≡ None) }
    ensures after { OnOk result (config.new ≡ after_removal config.old name.now) }
    ensures err { IfErr result (λ fault. removal_fault config.old name.now ≡ Some fault) }
    ensures same { OnErr result (config.new ≡ config.old) }
{
    match place_of(config.devices(), name) {
        None => Err(RemoveFault::NoSuchDevice),
        Some(place) => {
            if is_in_use(config.facts().devices.as_slice(), place) {
                return Err(RemoveFault::InUse);
            }
            let (mut devices, mut facts) = config.take();
            drop(devices.remove(place));
            facts.remove(place);
            config.put(devices, facts);
            Ok(())
        }
    }
}
