//! Why a command on hash trees ends early.
ghost use Rattle.std.specs.Prelude.{◌≡◌};
ghost use Rattle.verity_commands.specs.declared.tree_fault.TreeFault.TheVariants as tree_fault;
ghost use Rattle.tree_survey.specs.declared.fault.SurveyFault.TheVariants as survey_fault;

use image_commands::NoSource;
use image_files::UnopenedFile;
use image_pin::{Mismatch, NoTree};
use program_io::WriteFault;
use tree_difference::DifferenceFault;
use tree_survey::SurveyFault;
use verity_format::VerifyFault;

/// Why a command on hash trees ends early.
#[derive(Clone, Copy, Debug, PartialEq, Eq)]
pub enum TreeFault<'a> {
    /// A file isn't opened.
    Open(UnopenedFile<'a>),
    /// The trees aren't compared.
    Trees(DifferenceFault),
    /// The trees were compared and differ.
    Differs,
    /// The image wasn't scanned to its end.
    Survey(SurveyFault),
    /// No hash block begins at the place of the superblock.
    Unaligned,
    /// No tree has the shape that the options state.
    NoShape,
    /// The superblock differs from the pin.
    Unpinned(Mismatch),
    /// A hash block isn't zero after its last used entry: the image that was formatted has more data blocks than the
    /// superblock says.
    UnusedEntries,
    /// The image was scanned, and not all of it is good.
    Damaged,
    /// A line can't be written.
    Write,
}

impl<'a> From<UnopenedFile<'a>> for TreeFault<'a> {
    ghost from_gives = { λ file given. given ≡ tree_fault.Open file };

    fn from(file: UnopenedFile<'a>) -> Self {
        TreeFault::Open(file)
    }
}

impl From<DifferenceFault> for TreeFault<'_> {
    ghost from_gives = { λ fault given. given ≡ tree_fault.Trees fault };

    fn from(fault: DifferenceFault) -> Self {
        TreeFault::Trees(fault)
    }
}

impl From<SurveyFault> for TreeFault<'_> {
    ghost from_gives = { λ fault given. given ≡ tree_fault.Survey fault };

    fn from(fault: SurveyFault) -> Self {
        TreeFault::Survey(fault)
    }
}

impl From<NoTree> for TreeFault<'_> {
    ghost use Rattle.verity_commands.specs.Surveys.{no_tree_fault};

    ghost from_gives = { λ fault given. given ≡ no_tree_fault fault };

    fn from(fault: NoTree) -> Self {
        match fault {
            NoTree::Unread(fault) => TreeFault::from(fault),
            NoTree::Unaligned => TreeFault::Unaligned,
            NoTree::Unpinned(mismatch) => TreeFault::Unpinned(mismatch),
        }
    }
}

impl From<NoSource> for TreeFault<'_> {
    ghost use Rattle.verity_commands.specs.Surveys.{no_source_fault};

    ghost from_gives = { λ fault given. given ≡ no_source_fault fault };

    fn from(fault: NoSource) -> Self {
        match fault {
            NoSource::Stored(fault) => TreeFault::from(fault),
            NoSource::Shape => TreeFault::NoShape,
        }
    }
}

impl From<VerifyFault> for TreeFault<'_> {
    ghost from_gives = { λ fault given. given ≡ tree_fault.Survey (survey_fault.Image fault) };

    fn from(fault: VerifyFault) -> Self {
        TreeFault::Survey(SurveyFault::Image(fault))
    }
}

impl From<WriteFault> for TreeFault<'_> {
    ghost from_gives = { λ _ given. given ≡ tree_fault.Write };

    fn from(_fault: WriteFault) -> Self {
        TreeFault::Write
    }
}
