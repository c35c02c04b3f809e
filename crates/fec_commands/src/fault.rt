//! Why a command on an image with parity ends early.
ghost use Rattle.std.specs.Prelude.{◌≡◌};
ghost use Rattle.fec_commands.specs.declared.fault.FecFault.TheVariants as fec_fault;

use fec_area::ParityFault;
use image_commands::{ImageFault, NoSource};
use image_files::UnopenedFile;
use program_io::WriteFault;
use verity_commands::VerityFault;
use verity_format::FormatFault;

/// Why a command on an image with parity ended early.
#[derive(Clone, Copy, Debug, PartialEq, Eq)]
pub enum FecFault<'a> {
    /// The image can't be made, opened or read, or isn't the one with this root hash.
    Verity(VerityFault<'a>),
    /// The data blocks and the hash blocks have different sizes.
    BlockSizes,
    /// The parity can't be written or compared.
    Parity(ParityFault),
    /// The parity of this round, the first such round, isn't that of the image.
    Differs(u64),
}

impl<'a> From<VerityFault<'a>> for FecFault<'a> {
    ghost from_gives = { λ fault given. given ≡ fec_fault.Verity fault };

    fn from(fault: VerityFault<'a>) -> Self {
        FecFault::Verity(fault)
    }
}

impl<'a> From<ImageFault<'a>> for FecFault<'a> {
    ghost use Rattle.verity_commands.specs.declared.verity_fault.VerityFault.TheVariants as verity_fault;

    ghost from_gives = { λ fault given. given ≡ fec_fault.Verity (verity_fault.Image fault) };

    fn from(fault: ImageFault<'a>) -> Self {
        FecFault::Verity(VerityFault::Image(fault))
    }
}

impl<'a> From<UnopenedFile<'a>> for FecFault<'a> {
    ghost use Rattle.fec_commands.specs.FecFaults.{unopened};

    ghost from_gives = { λ file given. given ≡ unopened file };

    fn from(file: UnopenedFile<'a>) -> Self {
        FecFault::Verity(VerityFault::Image(ImageFault::Open(file)))
    }
}

impl From<NoSource> for FecFault<'_> {
    ghost use Rattle.fec_commands.specs.FecFaults.{no_source_fault};

    ghost from_gives = { λ fault given. given ≡ no_source_fault fault };

    fn from(fault: NoSource) -> Self {
        match fault {
            NoSource::Stored(fault) => FecFault::from(ImageFault::from(fault)),
            NoSource::Shape => FecFault::from(ImageFault::Format(FormatFault::Shape)),
        }
    }
}

impl From<ParityFault> for FecFault<'_> {
    ghost from_gives = { λ fault given. given ≡ fec_fault.Parity fault };

    fn from(fault: ParityFault) -> Self {
        FecFault::Parity(fault)
    }
}

impl From<WriteFault> for FecFault<'_> {
    ghost use Rattle.fec_commands.specs.FecFaults.{unwritten};

    ghost from_gives = { λ _ given. given ≡ unwritten };

    fn from(_fault: WriteFault) -> Self {
        FecFault::Verity(VerityFault::Image(ImageFault::Write))
    }
}
