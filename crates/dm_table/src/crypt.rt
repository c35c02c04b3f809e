//! The arguments of a `crypt` line.
ghost use Rattle.std.specs.Prelude.{◌≡◌, ◌≤◌, length, take, IfOk, IfErr};
ghost use Rattle.allocation.specs.Asked.{asked};
ghost use Rattle.dm_table.specs.Crypt.{iv_large_sectors, sector_size, IsCryptOfGrammar};
ghost use Rattle.dm_table.specs.Names.{most_name};

use crate::options::{Options, is_kept};
use crate::table::Base;
use allocation::OutOfMemory;
use std::alloc::Global;
use std::marker::Model;

/// An XTS-AES key: 32 or 64 bytes in a line that was read, each half an AES key. The type implements neither `Debug`
/// nor `Display`.
#[derive(Drop)]
pub struct Key {
    bytes: [u8; 64],
    len: usize,
}

impl Model for Key {
    ghost use Rattle.std.specs.Prelude.{◌≤◌, List, ℕ, take};

    ghost Value = { List ℕ };

    ghost view = { λ k. take k.len k.bytes };

    ghost invariant = { λ k. k.len ≤ 64 };
}

impl Key {
    /// Returns the key of the first `len` bytes of the array, at most 64.
    pub fn new(bytes: [u8; 64], len: usize) -> Key
        requires { len ≤ 64 }
        ensures { result ≡ take len bytes }
    {
        Key { bytes, len }
    }

    /// Returns the bytes of the key.
    pub fn bytes(&self) -> &[u8]
        ensures value { result.now ≡ self.now }
        ensures size { length result.now ≤ 64 }
    {
        &self.bytes[..self.len]
    }

    fn copy(&self) -> Key
        ensures { result ≡ self.now }
    {
        Key {
            bytes: self.bytes,
            len: self.len,
        }
    }
}

/// Sectors of one device, encrypted with AES in XTS mode and the IV `plain64`.
#[derive(Drop)]
pub struct Crypt {
    pub key: Key,
    /// Added to the number of a unit within the line to give its IV.
    pub iv_offset: u64,
    pub base: Base,
    /// The options as written. `sector_size` and `iv_large_sectors` change the encryption; the others have no effect.
    pub options: Options,
}

impl Crypt {
    /// Returns the size of an encryption unit in bytes: 512, 1024, 2048 or 4096.
    pub fn sector_size(&self) -> u32
        ensures { result ≡ sector_size self.now }
    {
        if is_kept(&self.options, b"sector_size:4096") {
            4096
        } else if is_kept(&self.options, b"sector_size:2048") {
            2048
        } else if is_kept(&self.options, b"sector_size:1024") {
            1024
        } else {
            512
        }
    }

    /// Returns whether units are numbered in units instead of sectors of 512 bytes.
    pub fn iv_large_sectors(&self) -> bool
        ensures { result ≡ iv_large_sectors self.now }
    {
        is_kept(&self.options, b"iv_large_sectors")
    }

    pub(crate) fn try_clone(&self, alloc: Global) -> Result<Crypt, OutOfMemory>
        requires { IsCryptOfGrammar self.now }
        ensures ok { IfOk result (λ crypt. crypt ≡ self.now) }
        ensures err { IfErr result (λ e. asked e ≤ most_name) }
    {
        let base = self.base.try_clone(alloc)?;
        let options = self.options.try_clone(alloc)?;
        Ok(Crypt {
            key: self.key.copy(),
            iv_offset: self.iv_offset,
            base,
            options,
        })
    }
}
