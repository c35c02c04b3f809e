//! A table as a JSON object.
ghost use Rattle.std.specs.Prelude.{◌≡◌, map, string_bytes, IfOk};
ghost use Rattle.uuid.specs.Text.{hyphenated_text, lower};
ghost use Rattle.serde_json.specs.Data.{array, string};
ghost use Rattle.serde_json.specs.View.{items_of, view};
ghost use Rattle.partition_commands.specs.Objects.{fault_json, good_copies, number_json, other_copy, partition_json, partitions_json, table_json, object_text};

use crate::kind_name;
use partition_table::{Partition, PartitionTable, ReadFault, Source, label_text};
use program_io::line_of;
use serde_json::{Value, json};
use std::alloc::{AllocError, Global};
use uuid::Uuid;

/// The line of the object: which copies are good, what is wrong of the other, and the partitions.
#[tactic(auto, using(crate::proofs::ObjectLemmas::plain_table))]
pub(crate) fn table_line(alloc: Global, table: &PartitionTable) -> Result<String, AllocError>
    ensures { IfOk result (λ line. string_bytes line ≡ object_text table.now) }
{
    let value = table_value(alloc, table.partitions.as_slice(), table.source)?;
    line_of(alloc, &value)
}

fn table_value(alloc: Global, partitions: &[Partition], source: Source) -> Result<Value, AllocError>
    ensures { IfOk result (λ value. view value ≡ table_json partitions.now source) }
{
    json!(in alloc; {
        "copies": good_copies(source),
        "fault": other_copy(alloc, source)?,
        "partitions": partitions_value(alloc, partitions)?
    })
}

fn good_copies(source: Source) -> &'static str
    ensures { result.now ≡ good_copies source }
{
    match source {
        Source::Both => "both",
        Source::Differ => "differ",
        Source::Primary(_) => "primary",
        Source::Backup(_) => "backup",
    }
}

// What is wrong with the copy that isn't good, if there is such a copy.
fn other_copy(alloc: Global, source: Source) -> Result<Value, AllocError>
    ensures { IfOk result (λ value. view value ≡ other_copy source) }
{
    match source {
        Source::Both | Source::Differ => Ok(Value::Null),
        Source::Primary(fault) => fault_value(alloc, fault),
        Source::Backup(fault) => fault_value(alloc, fault),
    }
}

fn fault_value(alloc: Global, fault: ReadFault) -> Result<Value, AllocError>
    ensures { IfOk result (λ value. view value ≡ fault_json fault) }
{
    let partition = number_value(fault.partition());
    json!(in alloc; {"name": fault.name(), "partition": partition})
}

fn number_value(number: Option<u32>) -> Value
    ensures { view result ≡ number_json number }
{
    match number {
        Some(number) => Value::from(number),
        None => Value::Null,
    }
}

// An array of the partitions.
fn partitions_value(alloc: Global, partitions: &[Partition]) -> Result<Value, AllocError>
    ensures { IfOk result (λ value. view value ≡ array (items_of (partitions_json partitions.now))) }
{
    let mut values = Vec::new(alloc);
    for partition in partitions {
        let value = partition_value(alloc, partition)?;
        values.push(value)?;
    }
    Ok(Value::Array(values))
}

// The members in the order of their keys.
fn partition_value(alloc: Global, partition: &Partition) -> Result<Value, AllocError>
    ensures { IfOk result (λ value. view value ≡ partition_json partition.now) }
{
    json!(in alloc; {
        "first": partition.first,
        "label": label_text(alloc, &partition.label)?,
        "number": partition.number,
        "sectors": partition.sectors(),
        "type": uuid_value(alloc, &partition.kind)?,
        "type_name": kind_name(&partition.kind),
        "uuid": uuid_value(alloc, &partition.uuid)?
    })
}

fn uuid_value(alloc: Global, uuid: &[u8; 16]) -> Result<Value, AllocError>
    ensures { IfOk result (λ value. view value ≡ string (hyphenated_text lower uuid.now)) }
{
    let mut buffer = Uuid::encode_buffer();
    let text = Uuid::from_bytes(*uuid)
        .hyphenated()
        .encode_lower(&mut buffer);
    Value::try_from_str(alloc, text)
}
