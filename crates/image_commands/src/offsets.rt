//! Numbers that are printed of a hash image, counted from the beginning of its file.
ghost use Rattle.std.specs.Prelude.{◌≡◌};
ghost use Rattle.image_commands.specs.Offsets.{format_fault_from, verdict_from};

use verity_format::{FormatFault, Verdict};

/// The verdict on a hash image before which its file has so many hash blocks.
pub(crate) fn verdict_from(ahead: u64, verdict: Verdict) -> Verdict
    ensures { result ≡ verdict_from ahead verdict }
{
    match verdict {
        Verdict::AreaDiffers(block) => Verdict::AreaDiffers(ahead.saturating_add(block)),
        Verdict::Matches => Verdict::Matches,
        Verdict::RootDiffers => Verdict::RootDiffers,
    }
}

/// The fault of the format of a hash image that begins at that sector of its file.
pub(crate) fn format_fault_from(first: u64, fault: FormatFault) -> FormatFault
    ensures { result ≡ format_fault_from first fault }
{
    match fault {
        FormatFault::HashTooSmall { needed } => FormatFault::HashTooSmall {
            needed: first.saturating_add(needed),
        },
        fault => fault,
    }
}
