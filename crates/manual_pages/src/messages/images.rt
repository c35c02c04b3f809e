//! The sentences on verity images that aren't made or compared.
ghost use Rattle.std.specs.Prelude.{◌≡◌};
ghost use Rattle.command_line.specs.FormatOptions.{text_of};
ghost use Rattle.manual_pages.specs.messages.Images.{super_message, format_message, verify_message};

use verity_format::{FormatFault, SuperFault, VerifyFault};

/// Returns the sentence on a superblock that isn't supported.
#[tactic(auto, unfolding(crate::specs::messages::Images::super_message))]
pub fn super_message(fault: SuperFault) -> &'static str
    ensures { result.now ≡ super_message fault }
{
    match fault {
        SuperFault::Signature =>
            "there is no superblock: check that the hash image isn't DATA, and '--hash-offset'; else run an interrupted 'format' or 'update' again, or it is damaged",
        SuperFault::Version =>
            "the version of the superblock isn't 1: the hash image is damaged, or of another format",
        SuperFault::HashType =>
            "the hash type isn't 1: format the image anew without 'veritysetup --format 0', or the hash image is damaged",
        SuperFault::Algorithm =>
            "the hash algorithm isn't sha256: format the image anew with it, or the hash image is damaged",
        SuperFault::DataBlockSize =>
            "the data block size isn't 512, 1024, 2048 or 4096: format the image anew, or the hash image is damaged",
        SuperFault::HashBlockSize =>
            "the hash block size isn't 512, 1024, 2048 or 4096: format the image anew, or the hash image is damaged",
        SuperFault::DataBlocks =>
            "the number of data blocks isn't possible: the hash image is damaged",
        SuperFault::SaltSize => "the salt has more than 256 bytes: the hash image is damaged",
    }
}

/// Returns the sentence on an image that isn't made; `None` if memory ran out.
#[tactic(auto, unfolding(crate::specs::messages::Images::format_message))]
pub fn format_message(fault: FormatFault) -> Option<&'static str>
    ensures { text_of result ≡ format_message fault }
{
    match fault {
        FormatFault::Shape => Some(
            "a block size isn't allowed, DATA has no whole data block, or the image is too large",
        ),
        FormatFault::DataTooSmall => Some(
            "DATA has fewer data blocks than '--blocks' says, or they overlap the tree in the same file",
        ),
        FormatFault::HashTooSmall { .. } => Some(
            "HASH or OUT has too few sectors: extend it with '--grow', or take a larger disk",
        ),
        FormatFault::HashReadOnly => Some("HASH can't be written: check its permissions"),
        FormatFault::Device => Some(
            "an image can't be read, written or synced: look for free space with 'df', and for the cause with 'dmesg'",
        ),
        FormatFault::NoMemory => None,
    }
}

/// Returns the sentence on an image that isn't compared; `None` if memory ran out.
#[tactic(auto, unfolding(crate::specs::messages::Images::verify_message))]
pub fn verify_message(fault: VerifyFault) -> Option<&'static str>
    ensures { text_of result ≡ verify_message fault }
{
    match fault {
        VerifyFault::Super(fault) => Some(super_message(fault)),
        VerifyFault::TooSmall => Some(
            "DATA or HASH ends before its last block: it was cut short, is too small for the release, or HASH is of another image",
        ),
        VerifyFault::Device => Some(
            "an image can't be read, written or synced: look for free space with 'df', and for the cause with 'dmesg'",
        ),
        VerifyFault::NoMemory => None,
    }
}
