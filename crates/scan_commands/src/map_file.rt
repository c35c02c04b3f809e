//! The map file of a device.
ghost use Rattle.std.specs.Prelude.{◌≡◌, ◌^◌, ◌≤◌, false, length, option_map, replicate, IfOk, IfErr};
ghost use Rattle.allocation.specs.Refusal.{IsOutOfMemory};
ghost use Rattle.image_files.specs.Opener.{calls};
ghost use Rattle.rescue_map.specs.Maps.{marks};
ghost use Rattle.scan_commands.specs.MapFiles.{BeginsMap, IsMapOfText, IsMapUnread, IsTextUnread, IsUnread, LacksMap, ReadsMap, continues, map_at, map_path_of, with_tail};
ghost use Rattle.scan_commands.specs.declared.rescue_fault.PassFault.TheVariants as pass_fault;

use crate::phase::Phase;
use crate::rescue_fault::PassFault;
use image_files::{Images, UnopenedFile, is_missing};
use rescue_map::{Map, MapKind, ParsedMap, Tail, kind_of, parse_map};
use std::alloc::Global;

pub(crate) const MOST_TEXT: usize = 1 << 24;

/// The path of a map file, the kind of map that is kept there, and the bytes that the map has after the device's sectors.
#[derive(Clone, Copy, Debug, PartialEq, Eq)]
pub struct MapPath<'a> {
    pub path: &'a str,
    pub kind: MapKind,
    pub tail: Tail,
}

/// Returns the map file of that kind, if a path is given.
pub fn map_at<'a>(path: Option<&'a str>, kind: MapKind) -> Option<MapPath<'a>>
    ensures { option_map map_path_of result ≡ map_at (option_map (λ p. p.now) path.entry) kind }
{
    let path = path?;
    let tail = Tail::none();
    Some(MapPath { path, kind, tail })
}

/// Returns the file whose maps have these bytes after the device's sectors.
pub(crate) fn with_tail<'a>(file: Option<MapPath<'a>>, tail: Tail) -> Option<MapPath<'a>>
    ensures { option_map map_path_of result ≡ with_tail (option_map map_path_of file.entry) tail }
{
    let kept = file?;
    Some(MapPath {
        path: kept.path,
        kind: kept.kind,
        tail,
    })
}

/// A map of a device, the file that it is kept in, if there is one, the pass that goes by it, and whether unscraped sectors are left.
#[derive(Drop)]
pub struct MapFile<'a> {
    pub file: Option<MapPath<'a>>,
    pub map: Map,
    pub phase: Phase,
    pub no_scrape: bool,
}

/// Returns the map that the passes over a device of `sectors` sectors begin with: that of the map file, or without one a map that marks no
/// sector as read.
///
/// # Errors
///
/// - Those of [`read_map`].
/// - Without a map file `NoMemory` if the allocator refused memory for the map's run.
pub(crate) fn begin_map<'a, I: Images>(
    alloc: Global,
    images: &mut I,
    file: Option<MapPath<'a>>,
    sectors: u64,
) -> Result<ParsedMap, PassFault<'a>>
    requires { sectors ≤ 2 ^ 54 }
    ensures ok { IfOk result (BeginsMap (calls I.relations I.Dev.state images.old images.new) (option_map map_path_of file.entry) sectors) }
    ensures sectors { IfOk result (λ begun. length (marks begun.map) ≡ sectors) }
    ensures err { IfErr result (LacksMap (calls I.relations I.Dev.state images.old images.new) (option_map map_path_of file.entry) sectors) }
{
    match file {
        None => new_map(alloc, sectors),
        Some(kept) => read_map(alloc, images, kept, sectors),
    }
}

/// Returns the map of a device of `sectors` sectors that a file holds, with the bytes that it has after these. The map marks no sector
/// as read, and has no such bytes, if there is no file, or the file has a scan's map and the map is to be a copy's.
///
/// # Errors
///
/// - `Unread` if the file can't be read.
/// - `TooLong` if it has more than 16 MiB.
/// - `NoMap` if it isn't a map of the device.
/// - `NoMemory` if the allocator refused memory for a run of the map.
pub fn read_map<'a, I: Images>(
    alloc: Global,
    images: &mut I,
    file: MapPath<'a>,
    sectors: u64,
) -> Result<ParsedMap, PassFault<'a>>
    requires { sectors ≤ 2 ^ 54 }
    ensures ok { IfOk result (ReadsMap I.relations I.Dev.state images.old images.new file.entry sectors) }
    ensures sectors { IfOk result (λ read. length (marks read.map) ≡ sectors) }
    ensures err { IfErr result (IsMapUnread (calls I.relations I.Dev.state images.old images.new) file.entry.path.now sectors) }
{
    match images.read_text(file.path, MOST_TEXT + 1) {
        Ok(text) => {
            if text.bytes.len() > MOST_TEXT {
                return Err(PassFault::TooLong);
            }
            map_in(alloc, file.kind, text.bytes.as_slice(), sectors)
        }
        Err(fault) => {
            if is_missing(fault) {
                return new_map(alloc, sectors);
            }
            let path = file.path;
            Err(PassFault::Unread(UnopenedFile { fault, path }))
        }
    }
}

// The map in a text; a map that marks no sector as read if a map of the kind doesn't continue the one in the text.
fn map_in<'a>(
    alloc: Global,
    kind: MapKind,
    text: &[u8],
    sectors: u64,
) -> Result<ParsedMap, PassFault<'a>>
    requires { sectors ≤ 2 ^ 54 }
    ensures ok { IfOk result (IsMapOfText kind text.now sectors) }
    ensures sectors { IfOk result (λ read. length (marks read.map) ≡ sectors) }
    ensures err { IfErr result (IsTextUnread text.now sectors) }
{
    let read = match parse_map(alloc, text, sectors) {
        Ok(read) => read,
        Err(fault) => return Err(PassFault::NoMap(fault)),
    };
    if continues(kind, kind_of(text)) {
        return Ok(read);
    }
    new_map(alloc, sectors)
}

/// Returns whether a map of a kind continues one that was read. A copy's map doesn't continue a scan's, because the copy doesn't have
/// the sectors that a scan marks `+`.
pub(crate) fn continues(kind: MapKind, read: MapKind) -> bool
    ensures { result ≡ continues kind read }
{
    match (kind, read) {
        (MapKind::Copy, MapKind::Scan) => false,
        _ => true,
    }
}

// A map of so many sectors, none of which was read before or is bad.
fn new_map<'a>(alloc: Global, sectors: u64) -> Result<ParsedMap, PassFault<'a>>
    requires { sectors ≤ 2 ^ 54 }
    ensures ok { IfOk result (IsUnread sectors) }
    ensures err { IfErr result (λ fault. (fault ≡ pass_fault.NoMemory) × IsOutOfMemory 1) }
{
    let map = Map::filled(alloc, sectors, false)?;
    let tail = Tail::none();
    Ok(ParsedMap { map, tail })
}
