//! The devices of a stack as one JSON object.
ghost use Rattle.std.specs.Prelude.{◌≡◌, ◌<◌, length, string_bytes, IfOk};
ghost use Rattle.program_io.specs.JsonLines.{json_line};
ghost use Rattle.serde_json.specs.Data.{array};
ghost use Rattle.serde_json.specs.View.{items_of, view};
ghost use Rattle.stack_rules.specs.Names.{name_of};
ghost use Rattle.scan_commands.specs.Devices.{device_json, devices_json, load_json};

use program_io::line_of;
use serde_json::{Value, json};
use stack_config::{Config, DevId};
use std::alloc::{AllocError, Global};

/// Returns the line of the object: `{"devices":[..]}` with
/// `{"depth":N,"name":TEXT,"read":N,"sectors":N,"writable":BOOL,"write":N}` for each mapped device.
///
/// # Errors
///
/// `AllocError` if an allocation was refused.
#[tactic(auto, using(crate::proofs::PlainLemmas::plain_load))]
pub fn devices_line(alloc: Global, config: &Config) -> Result<String, AllocError>
    ensures { IfOk result (λ line. string_bytes line ≡ json_line (load_json config.now)) }
{
    let value = load_value(alloc, config)?;
    line_of(alloc, &value)
}

fn load_value(alloc: Global, config: &Config) -> Result<Value, AllocError>
    ensures { IfOk result (λ value. view value ≡ load_json config.now) }
{
    let devices = devices_value(alloc, config)?;
    json!(in alloc; {"devices": devices})
}

// Returns the array of the devices.
fn devices_value(alloc: Global, config: &Config) -> Result<Value, AllocError>
    ensures { IfOk result (λ value. view value ≡ array (items_of (devices_json config.now (length config.now.devices)))) }
{
    let mut values = Vec::new(alloc);
    'devices: for d in 0..config.count() {
        let value = device_value(alloc, config, DevId(d as u32))?;
        values.push(value)?;
    }
    Ok(Value::Array(values))
}

// Returns the object of a device, its members in the order of their keys.
fn device_value(alloc: Global, config: &Config, d: DevId) -> Result<Value, AllocError>
    requires { d.0 < length config.now.devices }
    ensures { IfOk result (λ value. view value ≡ device_json config.now d.0) }
{
    let name = name_text(config, d);
    json!(in alloc; {
        "depth": config.depth(d),
        "name": name,
        "read": config.read_cost(d),
        "sectors": config.sectors(d),
        "writable": config.writable(d),
        "write": config.write_cost(d)
    })
}

// Returns the name of a device, which has only printable ASCII characters.
fn name_text(config: &Config, d: DevId) -> &str
    requires { d.0 < length config.now.devices }
    ensures { result.now ≡ name_of config.now d.0 }
{
    let _loaded = config.count();
    match str::from_utf8(config.name(d)) {
        Ok(name) => name,
        Err(_error) => unreachable!(),
    }
}
