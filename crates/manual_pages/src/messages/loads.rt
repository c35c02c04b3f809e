//! The sentences on stacks that break a rule.
ghost use Rattle.std.specs.Prelude.{◌≡◌};
ghost use Rattle.manual_pages.specs.messages.Loads.{load_message};

use stack_rules::LoadKind;

/// Returns the sentence on a stack that breaks a rule.
#[tactic(auto, unfolding(crate::specs::messages::Loads::load_message))]
pub fn load_message(kind: LoadKind) -> &'static str
    ensures { result.now ≡ load_message kind }
{
    match kind {
        LoadKind::DuplicateName =>
            "two entries of the stack have the same name: rename the entry with the number after 'device'",
        LoadKind::TooMany => "there are more than 64 devices, or more than 256 lines in one device",
        LoadKind::NoSuchDevice =>
            "the line names neither a mapped device nor a binding: add NAME=ro:FILE, or write /dev/mapper/NAME",
        LoadKind::StandsOnItself =>
            "the device depends on itself: follow the devices that its lines name",
        LoadKind::ZeroLength =>
            "the line, or the disk of '--disk', has no sectors: a line's second field is its length",
        LoadKind::Gap =>
            "the line doesn't start where the line before ends: the second field is a length, not an end",
        LoadKind::TooLarge =>
            "the line ends after 2^54 sectors: its start and length are in sectors",
        LoadKind::StripesDontDivide =>
            "the length isn't a multiple of COUNT times CHUNK, or of CHUNK in an unstriped line: shorten the line",
        LoadKind::BeyondDevice =>
            "the line ends past the device beneath: check the image's size, and that all numbers are sectors",
        LoadKind::LineBeyondTree =>
            "the verity line has more sectors than its data blocks: print the line with 'dmstack table'",
        LoadKind::TreeBeyondDevice =>
            "the hash tree ends past its device: check the size of HASH, or print the line with 'dmstack table'",
        LoadKind::NeedsReadOnly =>
            "a device with a verity line can't be written: replace 'rw' by 'ro' in its entry",
        LoadKind::LowerReadOnly =>
            "a device beneath this writable one is read-only: bind its image with 'rw:', or make this one 'ro'",
        LoadKind::TooDeep =>
            "more than 8 devices are stacked on each other: join some of their lines",
        LoadKind::CostTooLarge =>
            "reading one sector could move more than 2^32 sectors of the images: remove a layer",
        LoadKind::UnitDoesntDivide =>
            "the length of the crypt line isn't a multiple of its sector size: shorten the line",
        LoadKind::IvOffset => "the IV offset of the crypt line isn't a multiple of its sector size",
        LoadKind::ParityDoesntCover =>
            "the parity leaves out data or hash blocks, or data and hash blocks differ in size: check the line's 'fec_blocks'",
    }
}
