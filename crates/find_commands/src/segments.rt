//! The segments of LUKS2 volumes as JSON values.
ghost use Rattle.std.specs.Prelude.{◌≡◌, ◌+◌, ◌++◌, ◌≤◌, ◌<◌, ◌∷◌, [], decimal, map, option_map, IfOk, OnOk};
ghost use Rattle.serde_json.specs.Data.{array, null};
ghost use Rattle.serde_json.specs.View.{items_of, view};
ghost use Rattle.find_commands.specs.Areas.{FindsSegments, SeeksSegments, ShowsSegments, StatesSegments, TriesArea, TriesSegments};
ghost use Rattle.find_commands.specs.Luks.{crypt_in, segment_at};
ghost use Rattle.find_commands.specs.Objects.{crypt_items, segment_items, segment_json, segments_json, segments_to};
ghost use Rattle.find_commands.specs.declared.area.AreaFault.TheVariants as area_fault;

use crate::area::{AreaFault, area_first, area_sectors, has_area, json_of, read_area, text_of};
use crate::crypt_line::line_value;
use crate::finding::Finding;
use crate::luks::{Extent, crypt_in, segment_at};
use crate::object::number_value;
use allocation::{number, push};
use block_device::BlockDev;
use serde_json::{Value, json};
use std::alloc::{AllocError, Global};

/// How many segments a volume can have.
const MOST_SEGMENTS: u64 = 32;

/// Returns an array of the segments that a LUKS2 header states whose checksum isn't wrong, each as
/// `{"encryption":TEXT,"id":N,"iv_tweak":N,"line":TEXT,"offset":N,"sector_size":N,"size":N}`. Null for another thing, and if the
/// header's JSON area can't be read or is no JSON text.
///
/// # Errors
///
/// `AllocError` if an allocation was refused.
pub(crate) fn find_segments<D: BlockDev>(
    alloc: Global,
    device: &mut D,
    finding: &Finding,
) -> Result<Value, AllocError>
    ensures calls { TriesSegments D.state finding.now device.old device.new }
    ensures ok { IfOk result (λ value. FindsSegments D.state finding.now device.old device.new (view value)) }
{
    let sectors = device.sectors();
    if has_area(sectors, finding) {
        return seek_segments(alloc, device, area_first(finding), area_sectors(finding));
    }
    Ok(Value::Null)
}

fn seek_segments<D: BlockDev>(
    alloc: Global,
    device: &mut D,
    first: u64,
    count: u64,
) -> Result<Value, AllocError>
    requires { (0 < count) × (count ≤ 8192) × (first + count ≤ (D.state device.old).size) }
    ensures calls { TriesArea D.state first count device.old device.new }
    ensures ok { IfOk result (λ value. SeeksSegments D.state first count device.old device.new (view value)) }
{
    match read_area(alloc, device, first, count) {
        Ok(area) => area_segments(alloc, area),
        Err(fault) => unread_segments(fault),
    }
}

// Those of an area that isn't read.
fn unread_segments(fault: AreaFault) -> Result<Value, AllocError>
    ensures { IfOk result (λ value. (fault ≡ area_fault.Device) × (view value ≡ null)) }
{
    match fault {
        AreaFault::Device => Ok(Value::Null),
        AreaFault::NoMemory => Err(AllocError),
    }
}

// Those that the bytes of an area show.
fn area_segments(alloc: Global, area: Vec<u8>) -> Result<Value, AllocError>
    ensures { IfOk result (λ value. ShowsSegments area.items (view value)) }
{
    let text = text_of(alloc, &area)?;
    text_segments(alloc, text.as_slice())
}

fn text_segments(alloc: Global, text: &[u8]) -> Result<Value, AllocError>
    ensures { IfOk result (λ value. StatesSegments text.now (view value)) }
{
    let area = json_of(alloc, text)?;
    known_segments(alloc, area)
}

fn known_segments(alloc: Global, area: Option<Value>) -> Result<Value, AllocError>
    ensures { IfOk result (λ value. view value ≡ segments_json (option_map view area)) }
{
    match area {
        Some(area) => value_segments(alloc, area),
        None => Ok(Value::Null),
    }
}

fn value_segments(alloc: Global, area: Value) -> Result<Value, AllocError>
    ensures { IfOk result (λ value. view value ≡ array (items_of (segments_to (view area) 32))) }
{
    first_segments(alloc, &area, MOST_SEGMENTS)
}

// Those among the first `count` segments of type `crypt`.
#[tactic(auto, unfolding(crate::specs::Objects::segments_to))]
fn first_segments(alloc: Global, area: &Value, count: u64) -> Result<Value, AllocError>
    ensures { IfOk result (λ value. view value ≡ array (items_of (segments_to (view area.now) count))) }
{
    let mut values = Vec::new(alloc);
    'segments: for id in 0..count {
        add_segment_at(alloc, &mut values, area, id)?;
    }
    Ok(Value::Array(values))
}

fn add_segment_at(
    alloc: Global,
    values: &mut Vec<Value>,
    area: &Value,
    id: u64,
) -> Result<(), AllocError>
    ensures { OnOk result (map view values.new.items ≡ map view values.old.items ++ segment_items id (segment_at (decimal id) (view area.now))) }
{
    let name = number(alloc, id)?;
    add_named(alloc, values, area, id, name.as_str())
}

fn add_named(
    alloc: Global,
    values: &mut Vec<Value>,
    area: &Value,
    id: u64,
    name: &str,
) -> Result<(), AllocError>
    ensures { OnOk result (map view values.new.items ≡ map view values.old.items ++ segment_items id (segment_at name.now (view area.now))) }
{
    match segment_at(area, name) {
        Some(segment) => add_crypt(alloc, values, id, segment),
        None => Ok(()),
    }
}

fn add_crypt(
    alloc: Global,
    values: &mut Vec<Value>,
    id: u64,
    segment: &Value,
) -> Result<(), AllocError>
    ensures { OnOk result (map view values.new.items ≡ map view values.old.items ++ crypt_items id (crypt_in (view segment.now))) }
{
    match crypt_in(segment) {
        Some((cipher, extent)) => add_segment(alloc, values, id, cipher, extent),
        None => Ok(()),
    }
}

fn add_segment(
    alloc: Global,
    values: &mut Vec<Value>,
    id: u64,
    cipher: &str,
    extent: Extent,
) -> Result<(), AllocError>
    ensures { OnOk result (map view values.new.items ≡ map view values.old.items ++ segment_json id cipher.now extent ∷ []) }
{
    let value = segment_value(alloc, id, cipher, &extent)?;
    push(values, value)?;
    Ok(())
}

// Returns the object of a segment, its members in the order of their keys.
fn segment_value(alloc: Global, id: u64, cipher: &str, extent: &Extent) -> Result<Value, AllocError>
    ensures { IfOk result (λ value. view value ≡ segment_json id cipher.now extent.now) }
{
    json!(in alloc; {
        "encryption": cipher,
        "id": id,
        "iv_tweak": extent.iv_tweak,
        "line": line_value(alloc, cipher, extent)?,
        "offset": extent.offset,
        "sector_size": extent.sector_size,
        "size": number_value(extent.size)
    })
}
