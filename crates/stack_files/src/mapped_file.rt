//! Files that are bound with a map of them.
ghost use Rattle.std.specs.Prelude.{◌≡◌, ◌≤◌, ◌^◌, length, nat_lt, IfErr, IfOk};
ghost use Rattle.allocation.specs.Refusal.{IsOutOfMemory};
ghost use Rattle.block_device.specs.declared.open_fault.OpenFault.TheVariants as open_fault;
ghost use Rattle.image_files.specs.Opener.{calls};
ghost use Rattle.rescue_map.specs.Lost.{lost_from};
ghost use Rattle.stack_files.specs.MappedFiles.{IsLostBy, IsNoMap, IsNoMapAt, OpensMapped, RefusesMap, RefusesMapped, TellsMap, map_ending, most_map};

use crate::opening_fault::OpeningFault;
use crate::whole_file::{narrow_to, open_whole, read_use};
use block_device::{BlockDev, FileId, OpenFault};
use device_adapters::Part;
use image_files::{FileText, FileUse, Images, UnopenedFile, has_clash, read_text};
use rescue_map::{Map, MapFault, lost_parts, parse_map};
use std::alloc::Global;

const MOST_BYTES: usize = 1 << 24;

/// An image without the sectors that a map doesn't have. Which file it is, and which one has the map, if that is known.
#[derive(Drop)]
pub struct MappedImage<D> {
    pub device: D,
    pub id: Option<FileId>,
    pub map_id: Option<FileId>,
}

/// Opens the image under a path, or a part of it, for reading, without the sectors that a map of all of it doesn't have. The map is
/// read first.
///
/// # Errors
///
/// - `Open` with the map's path and the opener's fault; `SameFile` if it is a file that may be written; `OtherFault` if it has more
///   than 16 MiB or is no map of the image, `NoMemory` if an allocation was refused.
/// - `Open` with the image's path and the opener's fault, or with `SameFile` if it conflicts with an open file.
/// - `Outside` if the part isn't within the image.
pub fn open_mapped<'a, I: Images>(
    alloc: Global,
    images: &mut I,
    files: &[FileUse],
    path: &'a str,
    map_file: &'a str,
    part: Option<Part>,
) -> Result<MappedImage<I::Dev>, OpeningFault<'a>>
    ensures ok { IfOk result (OpensMapped (calls I.relations I.Dev.state images.old images.new) files.now path.now map_file.now part) }
    ensures err { IfErr result (RefusesMapped (calls I.relations I.Dev.state images.old images.new) files.now path.now map_file.now part) }
{
    let text = read_map(images, files, map_file)?;
    let whole = open_whole(images, files, path, part)?;
    let sectors = whole.device.sectors();
    let lost = lost_in(alloc, map_file, text.bytes.as_slice(), sectors)?;
    let id = whole.id;
    let map_id = text.id;
    let rest = images.without(whole.device, lost);
    let device = narrow_to(images, rest, part);
    Ok(MappedImage { device, id, map_id })
}

// The text of a map, beside files that are open already.
fn read_map<'a, I: Images>(
    images: &mut I,
    files: &[FileUse],
    map_file: &'a str,
) -> Result<FileText, UnopenedFile<'a>>
    ensures ok { IfOk result (TellsMap (calls I.relations I.Dev.state images.old images.new) files.now map_file.now) }
    ensures err { IfErr result (RefusesMap (calls I.relations I.Dev.state images.old images.new) files.now map_file.now) }
{
    let text = read_text(images, map_file, MOST_BYTES + 1)?;
    if has_clash(files, read_use(text.id, None)) {
        return Err(UnopenedFile {
            fault: OpenFault::SameFile,
            path: map_file,
        });
    }
    Ok(text)
}

// The parts that the map in a text doesn't have.
fn lost_in<'a>(
    alloc: Global,
    map_file: &'a str,
    text: &[u8],
    sectors: u64,
) -> Result<Vec<Part>, UnopenedFile<'a>>
    requires { sectors ≤ 2 ^ 54 }
    ensures ok { IfOk result (λ lost. IsLostBy text.now sectors lost.items) }
    ensures err { IfErr result (IsNoMapAt text.now sectors map_file.now) }
{
    match lost_by(alloc, text, sectors) {
        Ok(lost) => Ok(lost),
        Err(fault) => Err(UnopenedFile {
            fault,
            path: map_file,
        }),
    }
}

// The parts that the map in a text doesn't have, or why there is no map.
fn lost_by(alloc: Global, text: &[u8], sectors: u64) -> Result<Vec<Part>, OpenFault>
    requires { sectors ≤ 2 ^ 54 }
    ensures ok { IfOk result (λ lost. IsLostBy text.now sectors lost.items) }
    ensures err { IfErr result (IsNoMap text.now sectors) }
{
    if is_too_long(text) {
        return Err(OpenFault::OtherFault);
    }
    match parse_map(alloc, text, sectors) {
        Ok(read) => lost_of(alloc, &read.map),
        Err(fault) => Err(map_ending(fault)),
    }
}

fn is_too_long(text: &[u8]) -> bool
    ensures { result ≡ nat_lt most_map (length text.now) }
{
    text.len() > MOST_BYTES
}

// The parts that a map doesn't have.
fn lost_of(alloc: Global, map: &Map) -> Result<Vec<Part>, OpenFault>
    ensures ok { IfOk result (λ lost. lost.items ≡ lost_from 0 map.now) }
    ensures err { IfErr result (λ fault. (fault ≡ open_fault.NoMemory) × IsOutOfMemory 1) }
{
    match lost_parts(alloc, map) {
        Ok(lost) => Ok(lost),
        Err(_) => Err(OpenFault::NoMemory),
    }
}

fn map_ending(fault: MapFault) -> OpenFault
    ensures { result ≡ map_ending fault }
{
    match fault {
        MapFault::NoMemory => OpenFault::NoMemory,
        _ => OpenFault::OtherFault,
    }
}
