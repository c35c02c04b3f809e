//! Serves a mapped device over a device of the program's own to one NBD client, on standard input and output.
#![tactic(auto)]

mod numbered;

use anyhow::{Context, Result};
use numbered::Numbered;
use std::io;
use volumes::{BlockDev, Counted, Leaf, Queue, Stack, config_over, parse_stack, serve_device};

const TEXT: &[u8] = b"v,,,ro,0 8 linear N 8,8 8 zero";

fn main(rt: HostRuntime) -> Result<()> {
    let alloc = rt.alloc();
    let device = Numbered { reads: 0 };
    let leaf = Leaf {
        name: Vec::from_slice(alloc, b"N")?,
        sectors: device.sectors(),
        writable: device.writable(),
    };
    let (mut leaves, mut devices) = (Vec::new(alloc), Vec::new(alloc));
    leaves.push(leaf)?;
    devices.push(device)?;
    let config = config_over(alloc, leaves)?;
    let mut stack = Stack::over(alloc, config, devices, 64);
    stack.load(&parse_stack(alloc, TEXT)?)?;
    let mut queue = Queue::new(alloc, stack);
    let mut reader = Counted::new(rt.reader());
    let mut writer = Counted::new(io::writer(&rt));
    serve_device(alloc, &mut queue, b"v", &mut reader, &mut writer).context("no device v")??;
    Ok(())
}
