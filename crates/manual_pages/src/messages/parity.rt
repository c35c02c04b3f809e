//! The sentences on parity that can't be written or compared.
ghost use Rattle.std.specs.Prelude.{◌≡◌};
ghost use Rattle.command_line.specs.FormatOptions.{text_of};
ghost use Rattle.manual_pages.specs.messages.Parity.{parity_message};

use fec_area::ParityFault;

/// Returns the sentence on parity that can't be written or compared; `None` if memory ran out.
#[tactic(auto, unfolding(crate::specs::messages::Parity::parity_message))]
pub fn parity_message(fault: ParityFault) -> Option<&'static str>
    ensures { text_of result ≡ parity_message fault }
{
    match fault {
        ParityFault::TooSmall { .. } => Some(
            "the parity file has fewer sectors than needed: check '--fec-roots'; 'format' extends it with '--grow'",
        ),
        ParityFault::ReadOnly => Some("the parity file can't be written: check its permissions"),
        ParityFault::Device => Some(
            "the parity file can't be read, written or synced: 'dmesg' may say why",
        ),
        ParityFault::NoMemory => None,
    }
}
