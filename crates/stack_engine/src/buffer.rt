//! The buffers of pieces.
ghost use Rattle.std.specs.Prelude.{◌≡◌, ◌≤◌, ◌+◌, ◌*◌, ◌/◌, length, replicate, IfOk, OnErr, vec_len};
ghost use Rattle.allocation.specs.Refusal.{IsOutOfMemory};
ghost use Rattle.stack_rules.specs.Names.{mapped, size};
ghost use Rattle.stack_rules.specs.Rules.{IsLoaded};
ghost use Rattle.stack_meaning.specs.Meaning.{said_at};
ghost use Rattle.stack_meaning.specs.Memory.{largest_allocation};
ghost use Rattle.stack_lines.specs.Writing.{SomeEncrypt, IsBufferFor};

use allocation::{OutOfMemory, append, copied, with_capacity};
use stack_config::{Config, DevId};
use stack_lines::device_encrypts;
use std::alloc::Global;

pub(crate) fn fill_zeros(out: &mut [u8])
    ensures { out.new ≡ replicate (length out.old) 0 }
{
    out.fill(0);
}

/// Room for so many sectors, made by slices.
pub(crate) fn zero_sectors(alloc: Global, sectors: u32) -> Result<Vec<u8>, OutOfMemory>
    requires { sectors ≤ 128 }
    ensures ok { IfOk result (λ bytes. vec_len bytes ≡ sectors * 512) }
    ensures err { OnErr result (IsOutOfMemory largest_allocation) }
{
    let zeros = [0u8; 512];
    let mut bytes = with_capacity(alloc, sectors as usize * 512)?;
    for _k in 0..sectors {
        append(&mut bytes, &zeros)?;
    }
    Ok(bytes)
}

/// A block of zeros of that size.
pub(crate) fn zero_block(alloc: Global, size: u32) -> Result<Vec<u8>, OutOfMemory>
    requires { size ≤ 4096 }
    ensures ok { IfOk result (λ block. block.items ≡ replicate size 0) }
    ensures err { OnErr result (IsOutOfMemory largest_allocation) }
{
    let zeros = [0u8; 4096];
    copied(alloc, &zeros[..size as usize])
}

/// The bytes of a write once more if a line on its way encrypts some of them; else none.
pub(crate) fn bytes_to_encrypt(
    alloc: Global,
    config: &Config,
    d: DevId,
    first: u64,
    bytes: &[u8],
) -> Result<Vec<u8>, OutOfMemory>
    requires loaded { IsLoaded config.now }
    requires most { length bytes.now ≤ largest_allocation }
    requires inside { first + length bytes.now / 512 ≤ size config.now (mapped d.0) }
    ensures ok { IfOk result (λ buffer. IsBufferFor (said_at config.now (mapped d.0)) first bytes.now buffer.items) }
    ensures some { OnErr result (SomeEncrypt (said_at config.now (mapped d.0)) first (length bytes.now / 512)) }
    ensures err { OnErr result (IsOutOfMemory largest_allocation) }
{
    if device_encrypts(config, d, first, bytes.len() as u64 / 512) {
        copied(alloc, bytes)
    } else {
        Ok(Vec::new(alloc))
    }
}
