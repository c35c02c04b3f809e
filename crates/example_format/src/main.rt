//! Formats 64 KiB of memory as a verity image, and prints the root hash.
#![tactic(auto)]

use anyhow::{Context, Result};
use volumes::{Algorithm, FormatOptions, MemoryDev, Salt, format_with};

const UUID: [u8; 16] = [0; 16];

fn main(rt: HostRuntime) -> Result<()> {
    let alloc = rt.alloc();
    let mut data = MemoryDev::ramp(alloc, 128, false)
        .ok()
        .context("no memory")?;
    let mut hash = MemoryDev::zeros(alloc, 16, true).ok().context("no memory")?;
    let options = FormatOptions {
        uuid: UUID,
        data_block: 4096,
        hash_block: 4096,
        blocks: None,
        salt: Salt::new(Algorithm::Sha256, b"salt").context("the salt is too long")?,
    };
    let root = format_with(alloc, &mut data, &mut hash, options)?;
    for byte in root.as_bytes() {
        print!(rt; "{byte:02x}")?;
    }
    println!(rt)?;
    Ok(())
}
