//! A call of a file that is longer than any of the program's, and what an unsteady device returns after a failure.
use block_device::{BlockDev, DeviceFault, FailAt, FileDev, MemoryDev, ScriptDev, SyncDev};
use std::fs;
use std::test::Fail;

/// More than 3 MiB, and not a multiple of 64 KiB.
const SECTORS: u32 = 6147;

// Writes bytes from a sector on, and returns whether they fit and were written.
fn writes<D: BlockDev>(dev: &mut D, first: u64, bytes: &[u8]) -> bool {
    let sectors = bytes.len() as u64 / 512;
    let fits = first <= dev.sectors() && sectors <= dev.sectors() - first;
    if !fits || !dev.writable() || sectors == 0 || bytes.len() % 512 != 0 {
        return false;
    }
    dev.write(first, bytes).is_ok()
}

// Reads bytes from a sector on, and returns whether they exist and were read.
fn reads<D: BlockDev>(dev: &mut D, first: u64, out: &mut [u8]) -> bool {
    let sectors = out.len() as u64 / 512;
    let fits = first <= dev.sectors() && sectors <= dev.sectors() - first;
    if !fits || sectors == 0 || out.len() % 512 != 0 {
        return false;
    }
    dev.read(first, out).is_ok()
}

#[test]
fn one_call_moves_more_than_3_mib(rt: HostRuntime) -> Result<(), Fail> {
    let bytes = MemoryDev::ramp(rt.alloc(), SECTORS, false)?.into_bytes();
    let mut wanted = vec![in rt.alloc(); 0u8; 4 << 20]?;
    let mut back = vec![in rt.alloc(); 0xffu8; 4 << 20]?;
    fs::create(&rt, "large")?.set_len(4 << 20)?;
    let mut dev = FileDev::open(&rt, "large", true)?;
    assert!(rt; bytes.len() == 6147 * 512 && dev.sectors() == 8192);
    wanted[2560..2560 + 6147 * 512].copy_from_slice(&bytes);
    assert!(rt; writes(&mut dev, 5, &bytes) && dev.sync().is_ok());
    assert!(rt; reads(&mut dev, 0, &mut back) && back.as_slice() == wanted.as_slice());
    assert!(rt; (dev.reads(), dev.writes(), dev.failures()) == (8192, 6147, 0));
    fs::remove_file(&rt, "large")?;
    Ok(())
}

#[test]
fn a_script_is_answered_between_failures(rt: HostRuntime) -> Result<(), Fail> {
    let alloc = rt.alloc();
    let mut answers = Vec::new(alloc);
    answers.push([1; 512].to_vec(alloc)?)?;
    answers.push([2; 512].to_vec(alloc)?)?;
    let mut dev = FailAt::new(ScriptDev::new(2, answers), 2);
    let (mut first, mut second) = ([0u8; 512], [0u8; 512]);
    assert!(rt; dev.read(0, &mut first).is_ok());
    assert!(rt; dev.read(0, &mut second).is_err());
    assert!(rt; dev.read(0, &mut second).is_ok());
    assert!(rt;
        first.as_slice() == [1; 512].as_slice() && second.as_slice() == [2; 512].as_slice()
    );
    assert!(rt; dev.inner.write(0, &[0u8; 512]) == Err(DeviceFault));
    assert!(rt; (dev.reads(), dev.writes(), dev.failures()) == (3, 0, 1));
    Ok(())
}
