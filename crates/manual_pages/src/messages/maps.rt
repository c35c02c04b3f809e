//! The sentences on map files.
ghost use Rattle.std.specs.Prelude.{◌≡◌};
ghost use Rattle.command_line.specs.FormatOptions.{text_of};
ghost use Rattle.manual_pages.specs.messages.Maps.{map_message, unwritten_map_message};

use image_files::ReplaceFault;
use rescue_map::MapFault;

/// Returns the sentence on a file that is no map of the device; `None` if memory ran out.
#[tactic(auto, unfolding(crate::specs::messages::Maps::map_message))]
pub fn map_message(fault: MapFault) -> Option<&'static str>
    ensures { text_of result ≡ map_message fault }
{
    match fault {
        MapFault::Status => Some(
            "the map has no status line; nothing was read: check the path of the map",
        ),
        MapFault::Block => Some(
            "a line of the map isn't a position, a size and a status; nothing was read",
        ),
        MapFault::PartSector => Some("a block of the map is empty; nothing was read"),
        MapFault::Gap => Some("blocks of the map leave a gap; nothing was read"),
        MapFault::Overlap => Some("blocks of the map overlap; nothing was read"),
        MapFault::Size => Some(
            "the map is of a device of another size; nothing was read: check the path of the map",
        ),
        MapFault::NoMemory => None,
    }
}

/// Returns the sentence on a map that can't be written; `None` if memory ran out.
#[tactic(auto, unfolding(crate::specs::messages::Maps::unwritten_map_message))]
pub fn unwritten_map_message(fault: ReplaceFault) -> Option<&'static str>
    ensures { text_of result ≡ unwritten_map_message fault }
{
    match fault {
        ReplaceFault::Write => Some(
            "the new map can't be written: check the space on its disk; the file has the map before it",
        ),
        ReplaceFault::Sync => Some(
            "the new map can't be synced: 'dmesg' may say why; the file has it or the map before it",
        ),
        ReplaceFault::Rename => Some(
            "the new map can't get its name: check the permissions of its directory; the file has the map before it",
        ),
        ReplaceFault::NoMemory => None,
    }
}
