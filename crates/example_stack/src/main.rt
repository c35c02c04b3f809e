//! Reads a mapped device over a device of the program's own.
#![tactic(auto)]

mod ramp;

use anyhow::{Context, Result, bail};
use ramp::Ramp;
use volumes::{BlockDev, Leaf, Stack, config_over, parse_stack};

const TEXT: &[u8] = b"v,,,ro,0 8 linear R 8,8 8 zero";

fn main(rt: HostRuntime) -> Result<()> {
    let alloc = rt.alloc();
    let device = Ramp { reads: 0 };
    let leaf = Leaf {
        name: Vec::from_slice(alloc, b"R")?,
        sectors: device.sectors(),
        writable: device.writable(),
    };
    let (mut leaves, mut devices) = (Vec::new(alloc), Vec::new(alloc));
    leaves.push(leaf)?;
    devices.push(device)?;
    let config = config_over(alloc, leaves)?;
    let mut stack = Stack::over(alloc, config, devices, 64);
    stack.load(&parse_stack(alloc, TEXT)?)?;
    let device = stack.config().device(b"v").context("no device v")?;
    if stack.config().sectors(device) < 16 {
        bail!("the device is too small");
    }
    let mut bytes = [0u8; 8192];
    stack.read_bytes(device, 0, &mut bytes)?;
    println!(rt;
        "sector 0 begins with {}, sector 8 with {}",
        bytes[0], bytes[4096]
    )?;
    Ok(())
}
