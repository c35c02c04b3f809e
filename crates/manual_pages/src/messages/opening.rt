//! The sentences on files that can't be opened or read.
ghost use Rattle.std.specs.Prelude.{◌≡◌};
ghost use Rattle.command_line.specs.FormatOptions.{text_of};
ghost use Rattle.manual_pages.specs.messages.Opening.{open_message};

use block_device::OpenFault;

/// Returns the sentence on a file that can't be opened or read; `None` if memory ran out.
#[tactic(auto, unfolding(crate::specs::messages::Opening::open_message))]
pub fn open_message(fault: OpenFault) -> Option<&'static str>
    ensures { text_of result ≡ open_message fault }
{
    match fault {
        OpenFault::NotFound => Some(
            "there is no such file, or no such part of it: check the path; in a service it has to be absolute",
        ),
        OpenFault::NotAllowed => Some(
            "the file may not be opened so: check its permissions, or its partition table with 'dmstack partitions'; a file bound with 'ro:' is only read",
        ),
        OpenFault::TooLarge => Some(
            "the file has more than 2^54 sectors: bind a part of it with 'ro@FIRST+COUNT:FILE'",
        ),
        OpenFault::OtherFault => Some(
            "this is neither a file nor a block device (of '--map': no regular file; behind 'ro%': no map of the file), or it can't be opened or read: 'dmesg' may say why",
        ),
        OpenFault::SameFile => Some(
            "an earlier argument leads to the same file, and one of the two is opened for writing: name another file, or bind both with 'ro:'",
        ),
        OpenFault::InUse => Some(
            "another process holds the file's lock: wait until it ends; a file bound with 'ro:' needs no lock",
        ),
        OpenFault::NoMemory => None,
    }
}
