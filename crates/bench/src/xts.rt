//! XTS over 16 MiB of units with keys of 32 bytes each, in megabytes per second of processor time.
ghost use Rattle.std.specs.Prelude.{◌≡◌, ◌<◌, ◌%◌};

use crate::medians::{RUNS, median};
use anyhow::{Context, Result, bail};
use std::time::CpuClock;
use xts_sector::XtsKey;

const BYTES: usize = 16_777_216;

/// Prints the medians for units of 512 and of 4,096 bytes, encrypted and decrypted in turn.
pub fn measure<R: CpuClock + Print + AllocGlobal>(rt: &R) -> Result<()> {
    let mut key = [0x5a; 64];
    key[0] = 0xa5;
    let key = XtsKey::new(&key).context("the key was refused")?;
    let mut units = vec![in rt.alloc(); 0x3cu8; BYTES]?;
    measure_units(rt, &key, 512, &mut units)?;
    measure_units(rt, &key, 4096, &mut units)
}

fn measure_units<R: CpuClock + Print + AllocGlobal>(
    rt: &R,
    key: &XtsKey,
    size: usize,
    units: &mut [u8],
) -> Result<()>
    requires { (0 < size) × (size % 16 ≡ 0) }
{
    let mut numbers = Vec::new(rt.alloc());
    for i in 0..units.len() / size {
        numbers.push(i as u64)?;
    }
    if numbers.len() > BYTES / size || units.len() != size * numbers.len() {
        bail!("the units are not whole");
    }
    let mut encrypted = Vec::new(rt.alloc());
    let mut decrypted = Vec::new(rt.alloc());
    for _ in 0..RUNS {
        let start = rt.process_cpu_time()?;
        key.encrypt_units(&numbers, size, units);
        let between = rt.process_cpu_time()?;
        key.decrypt_units(&numbers, size, units);
        let end = rt.process_cpu_time()?;
        encrypted.push(between.saturating_sub(start).as_micros())?;
        decrypted.push(end.saturating_sub(between).as_micros())?;
    }
    println!(rt;
        "units of {size} bytes: encrypt {} MB/s, decrypt {} MB/s",
        speed(encrypted),
        speed(decrypted)
    )?;
    Ok(())
}

/// Returns the speed for the median of the times, which are in microseconds.
fn speed(times: Vec<u128>) -> u128 {
    BYTES as u128 / median(times).max(1)
}
