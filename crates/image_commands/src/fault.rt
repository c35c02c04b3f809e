//! Why a command on verity images ends early.
ghost use Rattle.std.specs.Prelude.{◌≡◌};
ghost use Rattle.image_commands.specs.declared.fault.ImageFault.TheVariants as image_fault;

use crate::tree_source::NoSource;
use allocation::OutOfMemory;
use image_files::{ReplaceFault, UnopenedFile};
use image_pin::{Mismatch, NoTree, PinFault};
use program_io::WriteFault;
use std::alloc::AllocError;
use verity_format::{FormatFault, Verdict, VerifyFault};

/// Why a command on verity images ends early.
#[derive(Clone, Copy, Debug, PartialEq, Eq)]
pub enum ImageFault<'a> {
    /// Memory ran out.
    NoMemory,
    /// A file isn't opened.
    Open(UnopenedFile<'a>),
    /// The image isn't made.
    Format(FormatFault),
    /// The images aren't compared, or there is no superblock.
    Verify(VerifyFault),
    /// The images were compared and differ.
    Differs(Verdict),
    /// A file doesn't begin with the digits of a root digest.
    RootText,
    /// No hash block begins at the place of the superblock.
    Unaligned,
    /// Data and tree are in one file, and no number of data blocks states where the data end.
    DataOverlapsTree,
    /// A text is no pin.
    Pin(PinFault),
    /// The superblock differs from the pin.
    Unpinned(Mismatch),
    /// The pin can't be written.
    PinUnwritten(ReplaceFault),
    /// There are no random bytes.
    Random,
    /// A line can't be written.
    Write,
}

impl From<AllocError> for ImageFault<'_> {
    ghost from_gives = { λ _ fault. fault ≡ image_fault.NoMemory };

    fn from(_error: AllocError) -> Self {
        ImageFault::NoMemory
    }
}

impl From<OutOfMemory> for ImageFault<'_> {
    ghost from_gives = { λ _ fault. fault ≡ image_fault.NoMemory };

    fn from(_error: OutOfMemory) -> Self {
        ImageFault::NoMemory
    }
}

impl<'a> From<UnopenedFile<'a>> for ImageFault<'a> {
    ghost from_gives = { λ file given. given ≡ image_fault.Open file };

    fn from(file: UnopenedFile<'a>) -> Self {
        ImageFault::Open(file)
    }
}

impl From<FormatFault> for ImageFault<'_> {
    ghost from_gives = { λ fault given. given ≡ image_fault.Format fault };

    fn from(fault: FormatFault) -> Self {
        ImageFault::Format(fault)
    }
}

impl From<NoTree> for ImageFault<'_> {
    ghost use Rattle.image_commands.specs.Finding.{no_tree_fault};

    ghost from_gives = { λ fault given. given ≡ no_tree_fault fault };

    fn from(fault: NoTree) -> Self {
        match fault {
            NoTree::Unread(fault) => ImageFault::Verify(fault),
            NoTree::Unaligned => ImageFault::Unaligned,
            NoTree::Unpinned(mismatch) => ImageFault::Unpinned(mismatch),
        }
    }
}

impl From<NoSource> for ImageFault<'_> {
    ghost use Rattle.image_commands.specs.Finding.{no_source_fault};

    ghost from_gives = { λ fault given. given ≡ no_source_fault fault };

    fn from(fault: NoSource) -> Self {
        match fault {
            NoSource::Stored(fault) => ImageFault::from(fault),
            NoSource::Shape => ImageFault::Format(FormatFault::Shape),
        }
    }
}

impl From<VerifyFault> for ImageFault<'_> {
    ghost from_gives = { λ fault given. given ≡ image_fault.Verify fault };

    fn from(fault: VerifyFault) -> Self {
        ImageFault::Verify(fault)
    }
}

impl From<WriteFault> for ImageFault<'_> {
    ghost from_gives = { λ _ given. given ≡ image_fault.Write };

    fn from(_fault: WriteFault) -> Self {
        ImageFault::Write
    }
}
