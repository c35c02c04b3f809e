//! Reads a whole device once, and reports what its sectors show.
ghost use Rattle.std.specs.Prelude.{◌≡◌, length, IfErr, IfOk};
ghost use Rattle.block_device.specs.Call.{DeviceDoes};
ghost use Rattle.find_commands.specs.Searches.{Searches, StopsSearch, search_sides};

use crate::checksum::Checksum;
use crate::header::interrupt;
use crate::listing::{FindingList, ListFault};
use crate::piece::Position;
use crate::sectors::{tell_lost, tell_sectors};
use block_device::BlockDev;
use stack_recovery::Counts;

/// The size of the longest piece in bytes.
const ROOM: usize = 65536;

/// Reads each sector of a device, in rising order and in pieces of at most 128 sectors, and reports what each shows. A piece that
/// can't be read is read again, each sector by itself; a sector that then can't be read is lost. A LUKS2 header is reported after its last
/// sector, with what its checksum shows. Nothing is allocated.
///
/// # Errors
///
/// That of the receiver, which ends the search.
pub fn find_in<D: BlockDev, L: FindingList>(
    device: &mut D,
    list: &mut L,
) -> Result<Counts, ListFault>
    ensures ok { IfOk result (Searches (DeviceDoes D.state D.does) L.receives (search_sides device.old list.old) (search_sides device.new list.new) (D.state device.old).size) }
    ensures err { IfErr result (StopsSearch (DeviceDoes D.state D.does) L.receives L.refuses (search_sides device.old list.old) (search_sides device.new list.new)) }
{
    let mut room = [0u8; ROOM];
    find_through(device, list, room.as_mut_slice())
}

// Reads the device through the buffer `room`.
fn find_through<D: BlockDev, L: FindingList>(
    device: &mut D,
    list: &mut L,
    room: &mut [u8],
) -> Result<Counts, ListFault>
    requires { length room.old ≡ 65536 }
    ensures ok { IfOk result (Searches (DeviceDoes D.state D.does) L.receives (search_sides device.old list.old) (search_sides device.new list.new) (D.state device.old).size) }
    ensures err { IfErr result (StopsSearch (DeviceDoes D.state D.does) L.receives L.refuses (search_sides device.old list.old) (search_sides device.new list.new)) }
{
    let sectors = device.sectors();
    let mut position = Position::new();
    let mut header = None;
    'pieces: while position.at < sectors {
        let at = position.at;
        let count = position.piece(sectors);
        let bytes = &mut room[..count as usize * 512];
        match device.read(at, bytes) {
            Ok(()) => {
                header = tell_sectors(list, header, at, bytes)?;
                position = position.after_read(count);
            }
            Err(_fault) => {
                header = tell_lost(list, header, count)?;
                position = position.after_failure(count);
            }
        }
    }
    interrupt(list, header, Checksum::Unchecked)?;
    Ok(Counts {
        read: sectors - position.lost,
        lost: position.lost,
        untried: 0,
    })
}
