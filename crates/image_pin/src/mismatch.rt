//! Comparing superblocks with a pin.
ghost use Rattle.std.specs.Prelude.{◌≡◌};
ghost use Rattle.std.specs.Result.{result_err};
ghost use Rattle.image_pin.specs.Mismatches.{mismatch_name, mismatch_number, pin_mismatch};

use crate::pin::Pin;
use thiserror::Error;
use verity_format::Superblock;

/// The field of a superblock that differs from the pin.
#[derive(Clone, Copy, Debug, PartialEq, Eq, Error)]
pub enum Mismatch {
    #[error("OtherDataBlockSize")]
    DataBlockSize,
    #[error("OtherHashBlockSize")]
    HashBlockSize,
    #[error("OtherDataBlocks")]
    DataBlocks,
    #[error("OtherSalt")]
    Salt,
}

impl Mismatch {
    /// Returns the number in printed output.
    pub fn number(self) -> u8
        ensures { result ≡ mismatch_number self }
    {
        match self {
            Mismatch::DataBlockSize => 20,
            Mismatch::HashBlockSize => 21,
            Mismatch::DataBlocks => 35,
            Mismatch::Salt => 22,
        }
    }

    /// Returns the name in printed output.
    pub fn name(self) -> &'static str
        ensures { result.now ≡ mismatch_name self }
    {
        match self {
            Mismatch::DataBlockSize => "OtherDataBlockSize",
            Mismatch::HashBlockSize => "OtherHashBlockSize",
            Mismatch::DataBlocks => "OtherDataBlocks",
            Mismatch::Salt => "OtherSalt",
        }
    }
}

/// Checks that a superblock describes the same tree as the pin.
///
/// # Errors
///
/// The first of data block size, hash block size, number of data blocks and salt that differs.
pub fn check_superblock(pin: &Pin, superblock: &Superblock) -> Result<(), Mismatch>
    ensures { result_err result ≡ pin_mismatch pin.now superblock.now }
{
    if superblock.data_block() != pin.data_block {
        return Err(Mismatch::DataBlockSize);
    }
    if superblock.hash_block() != pin.hash_block {
        return Err(Mismatch::HashBlockSize);
    }
    if superblock.blocks() != pin.blocks {
        return Err(Mismatch::DataBlocks);
    }
    let (found, wanted) = (superblock.salt(), pin.salt);
    if found.bytes() != wanted.bytes() {
        return Err(Mismatch::Salt);
    }
    Ok(())
}
