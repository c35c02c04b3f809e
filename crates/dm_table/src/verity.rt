//! The arguments of a `verity` line.
ghost use Rattle.std.specs.Prelude.{◌≡◌, ◌≤◌, IfOk, IfErr};
ghost use Rattle.allocation.specs.Asked.{asked};
ghost use Rattle.dm_table.specs.Names.{most_name};

use crate::parity::Parity;
use crate::table::Name;
use allocation::OutOfMemory;
use std::alloc::Global;
use tree_shape::{Digest, Salt};

/// What the kernel does when a block fails verification, in addition to failing the read. No option changes a byte that is
/// read.
#[derive(Clone, Copy, Debug, PartialEq, Eq)]
pub enum CorruptionMode {
    /// Without an option: nothing more.
    Fail,
    /// `restart_on_corruption`: it restarts the system.
    Restart,
    /// `panic_on_corruption`: it panics.
    Panic,
}

/// Blocks of one device, verified with a hash tree on another.
#[derive(Drop)]
pub struct Verity {
    /// The device of the data blocks, which begin at its first byte.
    pub data: Name,
    /// The device of the hash blocks.
    pub hash: Name,
    /// The size of a data block in bytes: 512, 1,024, 2,048 or 4,096.
    pub data_block: u32,
    /// The size of a hash block in bytes: 512, 1,024, 2,048 or 4,096.
    pub hash_block: u32,
    /// The number of data blocks.
    pub blocks: u64,
    /// The offset of the tree on the hash device, in hash blocks.
    pub start: u64,
    /// The root hash of the tree.
    pub root: Digest,
    pub salt: Salt,
    /// `ignore_zero_blocks`: a data block whose digest is that of a block of zeros is returned as zeros without being
    /// read.
    pub ignore_zero_blocks: bool,
    pub corruption: CorruptionMode,
    /// `try_verify_in_tasklet`: the kernel verifies kept hash blocks in a tasklet. It changes no byte that is read.
    pub in_tasklet: bool,
    /// The parity, if the line has some.
    pub parity: Option<Parity>,
    /// `root_hash_sig_key_desc`: the description of the key in the kernel's keyring that holds the signature of the root hash.
    /// No signature is checked here. It changes no byte that is read.
    pub signature_key: Option<Name>,
}

impl Verity {
    ghost use Rattle.dm_table.specs.Verity.{IsVerityOfGrammar};

    pub(crate) fn try_clone(&self, alloc: Global) -> Result<Verity, OutOfMemory>
        requires { IsVerityOfGrammar self.now }
        ensures ok { IfOk result (λ verity. verity ≡ self.now) }
        ensures err { IfErr result (λ e. asked e ≤ most_name) }
    {
        let data = Name::new(alloc, self.data.as_slice())?;
        let hash = Name::new(alloc, self.hash.as_slice())?;
        let parity = match &self.parity {
            Some(parity) => Some(parity.try_clone(alloc)?),
            None => None,
        };
        let signature_key = match &self.signature_key {
            Some(key) => Some(Name::new(alloc, key.as_slice())?),
            None => None,
        };
        Ok(Verity {
            data,
            hash,
            data_block: self.data_block,
            hash_block: self.hash_block,
            blocks: self.blocks,
            start: self.start,
            root: self.root,
            salt: self.salt,
            ignore_zero_blocks: self.ignore_zero_blocks,
            corruption: self.corruption,
            in_tasklet: self.in_tasklet,
            parity,
            signature_key,
        })
    }
}
