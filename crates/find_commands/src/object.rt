//! Findings as a JSON object.
ghost use Rattle.std.specs.Prelude.{◌≡◌, ◌++◌, ◌∷◌, [], map, string_bytes, IfOk, OnOk};
ghost use Rattle.serde_json.specs.Data.{array};
ghost use Rattle.serde_json.specs.View.{items_of, view};
ghost use Rattle.find_commands.specs.Areas.{SeeksSome, StatesFindings, StatesFound, StatesLine};
ghost use Rattle.find_commands.specs.Objects.{checksum_json, counted_json, finding_json, stated_json, uuid_json};

use crate::checksum::Checksum;
use crate::finding::Finding;
use crate::segments::find_segments;
use allocation::push;
use block_device::BlockDev;
use program_io::line_of;
use serde_json::{Value, json};
use stack_recovery::Counts;
use std::alloc::{AllocError, Global};
use uuid::Uuid;

/// Reads the JSON areas of the LUKS2 headers among the findings, and returns the line of the object:
/// `{"found":[..],"lost":N,"read":N}` with
/// `{"blocks":N,"checksum":NAME,"kind":NAME,"offset":N,"opener":NAME,"segments":[..],"size":N,"uuid":TEXT}` for each finding.
///
/// # Errors
///
/// `AllocError` if an allocation was refused.
pub(crate) fn found_line<D: BlockDev>(
    alloc: Global,
    device: &mut D,
    findings: &[Finding],
    counts: Counts,
) -> Result<String, AllocError>
    ensures calls { SeeksSome D.state device.old findings.now device.new }
    ensures ok { IfOk result (λ line. StatesLine D.state device.old findings.now device.new counts (string_bytes line)) }
{
    let value = found_value(alloc, device, findings, counts)?;
    line_of(alloc, &value)
}

fn found_value<D: BlockDev>(
    alloc: Global,
    device: &mut D,
    findings: &[Finding],
    counts: Counts,
) -> Result<Value, AllocError>
    ensures calls { SeeksSome D.state device.old findings.now device.new }
    ensures ok { IfOk result (λ value. StatesFound D.state device.old findings.now device.new counts (view value)) }
{
    let values = finding_values(alloc, device, findings)?;
    counted_value(alloc, array_value(values), counts)
}

// Returns the object, its members in the order of their keys.
fn counted_value(alloc: Global, found: Value, counts: Counts) -> Result<Value, AllocError>
    ensures { IfOk result (λ value. view value ≡ counted_json (view found) counts) }
{
    let Counts {
        read,
        lost,
        untried: _,
    } = counts;
    json!(in alloc; {"found": found, "lost": lost, "read": read})
}

fn array_value(values: Vec<Value>) -> Value
    ensures { view result ≡ array (items_of (map view values.items)) }
{
    Value::Array(values)
}

// Returns the objects of the findings.
fn finding_values<D: BlockDev>(
    alloc: Global,
    device: &mut D,
    findings: &[Finding],
) -> Result<Vec<Value>, AllocError>
    ensures calls { SeeksSome D.state device.old findings.now device.new }
    ensures ok { IfOk result (λ values. StatesFindings D.state device.old findings.now device.new (map view values.items)) }
{
    let mut values = Vec::new(alloc);
    'findings: for finding in findings {
        let segments = find_segments(alloc, device, finding)?;
        add_finding(alloc, &mut values, finding, segments)?;
    }
    Ok(values)
}

fn add_finding(
    alloc: Global,
    values: &mut Vec<Value>,
    finding: &Finding,
    segments: Value,
) -> Result<(), AllocError>
    ensures { OnOk result (map view values.new.items ≡ map view values.old.items ++ finding_json finding.now (view segments) ∷ []) }
{
    let value = finding_value(alloc, finding, segments)?;
    push(values, value)?;
    Ok(())
}

// Returns the object of a finding, its members in the order of their keys.
fn finding_value(alloc: Global, finding: &Finding, segments: Value) -> Result<Value, AllocError>
    ensures { IfOk result (λ value. view value ≡ finding_json finding.now (view segments)) }
{
    json!(in alloc; {
        "blocks": number_value(finding.blocks),
        "checksum": checksum_value(alloc, finding.checksum)?,
        "kind": finding.kind.name(),
        "offset": finding.offset,
        "opener": finding.kind.opener(),
        "segments": segments,
        "size": number_value(finding.size),
        "uuid": uuid_value(alloc, finding.uuid)?
    })
}

/// Returns a number as a value; null if there is none.
pub(crate) fn number_value(number: Option<u64>) -> Value
    ensures { view result ≡ stated_json number }
{
    match number {
        Some(number) => Value::from(number),
        None => Value::Null,
    }
}

fn checksum_value(alloc: Global, checksum: Option<Checksum>) -> Result<Value, AllocError>
    ensures { IfOk result (λ value. view value ≡ checksum_json checksum) }
{
    match checksum {
        Some(checksum) => Value::try_from_str(alloc, checksum.name()),
        None => Ok(Value::Null),
    }
}

fn uuid_value(alloc: Global, uuid: Option<[u8; 16]>) -> Result<Value, AllocError>
    ensures { IfOk result (λ value. view value ≡ uuid_json uuid) }
{
    match uuid {
        Some(uuid) => {
            let mut buffer = Uuid::encode_buffer();
            let text = Uuid::from_bytes(uuid)
                .hyphenated()
                .encode_lower(&mut buffer);
            Value::try_from_str(alloc, text)
        }
        None => Ok(Value::Null),
    }
}
