//! The devices of a stack, a line each.
ghost use Rattle.std.specs.Prelude.{◌≡◌, ◌<◌, codes, if◌then◌else◌, length};
ghost use Rattle.program_io.specs.Counted.{Writes};
ghost use Rattle.scan_commands.specs.DeviceLines.{device_facts, device_line, devices_text};

use program_io::{Counted, WriteFault};
use stack_config::{Config, DevId};
use std::io::Write;

/// Prints a line for each mapped device: `NAME sectors S depth D read R write W rw`, or `ro` in place of `rw`.
///
/// # Errors
///
/// `WriteFault` if the writer failed.
pub fn say_devices<W: Write>(config: &Config, writer: &mut Counted<W>) -> Result<(), WriteFault>
    ensures { Writes W.contents writer.old writer.new (devices_text config.now) result }
{
    'devices: for d in 0..config.count() {
        say_device(config, DevId(d as u32), writer)?;
    }
    Ok(())
}

// Prints the line of a device.
#[tactic(auto, unfolding(crate::specs::DeviceLines::device_line))]
fn say_device<W: Write>(
    config: &Config,
    d: DevId,
    writer: &mut Counted<W>,
) -> Result<(), WriteFault>
    requires { d.0 < length config.now.devices }
    ensures { Writes W.contents writer.old writer.new (device_line config.now d.0) result }
{
    writer.put(config.name(d))?;
    say_device_facts(config, d, writer)
}

// ` sectors S depth D read R write W rw`, or `ro` in place of `rw`.
fn say_device_facts<W: Write>(
    config: &Config,
    d: DevId,
    writer: &mut Counted<W>,
) -> Result<(), WriteFault>
    requires { d.0 < length config.now.devices }
    ensures { Writes W.contents writer.old writer.new (device_facts config.now d.0) result }
{
    let sectors = config.sectors(d);
    let depth = config.depth(d);
    let read = config.read_cost(d);
    let write = config.write_cost(d);
    let flag = flag_text(config.writable(d));
    writer.print(format_args!(
        " sectors {sectors} depth {depth} read {read} write {write} {flag}\n"
    ))
}

pub(crate) fn flag_text(writable: bool) -> &'static str
    ensures { result.now ≡ (if writable then codes "rw" else codes "ro") }
{
    if writable { "rw" } else { "ro" }
}
