//! The sentences on stacks that Linux refuses or reads otherwise.
ghost use Rattle.std.specs.Prelude.{◌≡◌};
ghost use Rattle.manual_pages.specs.messages.Linux.{linux_message};

use linux_rules::LinuxKind;

/// Returns the sentence on a stack that Linux refuses or reads otherwise.
#[tactic(auto, unfolding(crate::specs::messages::Linux::linux_message))]
pub fn linux_message(kind: LinuxKind) -> &'static str
    ensures { result.now ≡ linux_message kind }
{
    match kind {
        LinuxKind::LinuxSize => "Linux takes at most 2^54 - 1 sectors: shorten the line",
        LinuxKind::VerityBesideOthers =>
            "Linux takes no verity line beside lines of other targets: give it a device of its own",
        LinuxKind::SmallBlock =>
            "a block size of the verity line is smaller than a logical block of the device beneath",
        LinuxKind::BeginBeyondDevice =>
            "the hash tree begins past the end of its device: check the hash start block",
        LinuxKind::PartBlock =>
            "an offset or a length of the line isn't whole logical blocks of the device beneath",
        LinuxKind::DividedBlock =>
            "the line begins or ends inside a logical block of the device beneath: align it",
        LinuxKind::UnitStart =>
            "the crypt line doesn't begin at a multiple of its sector size: Linux would read other bytes",
        LinuxKind::DividedChunk =>
            "the chunk size isn't a multiple of a logical block beneath: Linux may not read all of it",
        LinuxKind::PartSize => "the device's size isn't a multiple of its logical block size",
    }
}
