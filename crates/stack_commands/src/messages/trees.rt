//! The sentences on commands on hash trees.
ghost use Rattle.std.specs.Prelude.{◌≡◌};
ghost use Rattle.command_line.specs.FormatOptions.{text_of};
ghost use Rattle.stack_commands.specs.messages.Trees.{unlike_message, difference_message, survey_message, tree_message};

use crate::messages::images::image_message;
use image_commands::ImageFault;
use image_pin::Mismatch;
use manual_pages::{mismatch_message, open_message, verify_message};
use tree_difference::{DifferenceFault, Unlike, Which};
use tree_survey::SurveyFault;
use verity_commands::TreeFault;
use verity_format::FormatFault;

/// Returns the sentence on trees that can't be compared.
#[tactic(auto, unfolding(crate::specs::messages::Trees::unlike_message))]
pub fn unlike_message(fault: Unlike) -> &'static str
    ensures { result.now ≡ unlike_message fault }
{
    match fault {
        Unlike::DataBlockSize => mismatch_message(Mismatch::DataBlockSize),
        Unlike::HashBlockSize => mismatch_message(Mismatch::HashBlockSize),
        Unlike::Salt => mismatch_message(Mismatch::Salt),
    }
}

/// Returns the sentence on trees that aren't compared to their end, if there is one.
#[tactic(auto, unfolding(crate::specs::messages::Trees::difference_message))]
pub fn difference_message(fault: DifferenceFault) -> Option<&'static str>
    ensures { text_of result ≡ difference_message fault }
{
    match fault {
        DifferenceFault::Image(_, fault) => verify_message(fault),
        DifferenceFault::Unaligned(Which::First) => Some(
            "the tree's offset isn't a multiple of the hash block size: check '--old-hash-offset'",
        ),
        DifferenceFault::Unaligned(Which::Second) => image_message(ImageFault::Unaligned),
        DifferenceFault::Unpinned(_, mismatch) => Some(mismatch_message(mismatch)),
        DifferenceFault::Unlike(fault) => Some(unlike_message(fault)),
        DifferenceFault::Hash(_, _, _) => Some(
            "a hash block fails verification: check the root hash or the pin; else that hash image was modified or is damaged",
        ),
        DifferenceFault::NoMemory => None,
        DifferenceFault::Write => None,
    }
}

/// Returns the sentence on an image that isn't scanned to its end, if there is one.
#[tactic(auto, unfolding(crate::specs::messages::Trees::survey_message))]
pub fn survey_message(fault: SurveyFault) -> Option<&'static str>
    ensures { text_of result ≡ survey_message fault }
{
    match fault {
        SurveyFault::Image(fault) => verify_message(fault),
        SurveyFault::Write => None,
    }
}

/// Returns the sentence on a command on hash trees that ends early, if there is one: there is none on differences.
#[tactic(auto, unfolding(crate::specs::messages::Trees::tree_message))]
pub fn tree_message(fault: TreeFault<'_>) -> Option<&'static str>
    ensures { text_of result ≡ tree_message fault.entry }
{
    match fault {
        TreeFault::Open(file) => open_message(file.fault),
        TreeFault::Trees(fault) => difference_message(fault),
        TreeFault::Differs => None,
        TreeFault::Survey(fault) => survey_message(fault),
        TreeFault::Unaligned => image_message(ImageFault::Unaligned),
        TreeFault::NoShape => image_message(ImageFault::Format(FormatFault::Shape)),
        TreeFault::Unpinned(mismatch) => Some(mismatch_message(mismatch)),
        TreeFault::UnusedEntries => Some(
            "the superblock or --blocks states fewer data blocks than were formatted; nothing was written",
        ),
        TreeFault::Damaged => None,
        TreeFault::Write => None,
    }
}
