//! The line that ends a command early, as a JSON object.
ghost use Rattle.std.specs.Prelude.{◌≡◌, option_map, string_bytes, IfOk, IfSome, Some};
ghost use Rattle.serde_json.specs.Data.{object};
ghost use Rattle.serde_json.specs.View.{view};
ghost use Rattle.command_line.specs.Cuts.{cut_first};
ghost use Rattle.command_line.specs.FormatOptions.{text_of};
ghost use Rattle.stack_commands.specs.EndingObjects.{ending_json, ending_object, fault_json, first_line, object_line, parts_json, parts_members};
ghost use Rattle.stack_commands.specs.EndingParts.{fault_parts, fault_record, parts_of, parts_record};

use crate::ending_parts::{EndingParts, TextFaultParts, fault_parts, parts_of};
use program_io::line_of;
use serde_json::{Value, json};
use std::alloc::{AllocError, Global};

/// The object of the first line of a text: of `refused K NAME` and what follows `{"detail":TEXT,"kind":TEXT,"name":TEXT,"number":N}`.
/// `detail` is there only if something follows the name, and `number` only if the line has one. The line of a fault of a stack
/// text has its `entry` and `line`, too. Any other line is a `kind` alone. `None` if the text has no line, or if memory runs out.
pub fn ending_object(alloc: Global, text: &str) -> Option<String>
    ensures { IfSome result (λ object. ending_object text.now ≡ Some (string_bytes object)) }
{
    let line = first_line(text)?;
    match line_object(alloc, line) {
        Ok(object) => Some(object),
        Err(_error) => None,
    }
}

// What is before the first newline.
fn first_line(text: &str) -> Option<&str>
    ensures { text_of result ≡ first_line text.now }
{
    match cut_line(text) {
        Some((line, _rest)) => Some(line),
        None => None,
    }
}

// What is before the first newline, and what is after it.
fn cut_line(text: &str) -> Option<(&str, &str)>
    ensures { option_map (λ parts. (parts.0.now, parts.1.now)) result ≡ cut_first 10 text.now }
{
    text.split_once('\n')
}

fn line_object(alloc: Global, line: &str) -> Result<String, AllocError>
    ensures { IfOk result (λ object. string_bytes object ≡ object_line line.now) }
{
    let value = ending_value(alloc, line)?;
    line_of(alloc, &value)
}

fn ending_value(alloc: Global, line: &str) -> Result<Value, AllocError>
    ensures { IfOk result (λ value. view value ≡ ending_json line.now (fault_parts line.now)) }
{
    match fault_parts(line) {
        Some(fault) => fault_value(alloc, fault),
        None => parts_value(alloc, line),
    }
}

// The members in the order of their keys.
fn fault_value(alloc: Global, fault: TextFaultParts<'_>) -> Result<Value, AllocError>
    ensures { IfOk result (λ value. view value ≡ fault_json (fault_record fault.entry)) }
{
    json!(in alloc; {
        "entry": fault.entry,
        "kind": "text fault",
        "line": fault.line,
        "name": fault.name,
        "number": fault.number
    })
}

fn parts_value(alloc: Global, line: &str) -> Result<Value, AllocError>
    ensures { IfOk result (λ value. view value ≡ parts_json line.now (parts_of line.now)) }
{
    match parts_of(line) {
        Some(parts) => members_value(alloc, parts),
        None => json!(in alloc; {"kind": line}),
    }
}

// The members in the order of their keys.
fn members_value(alloc: Global, parts: EndingParts<'_>) -> Result<Value, AllocError>
    ensures { IfOk result (λ value. view value ≡ object (parts_members (parts_record parts.entry))) }
{
    let EndingParts {
        kind,
        number,
        name,
        detail,
    } = parts;
    match (detail, number) {
        (Some(detail), Some(number)) => {
            json!(in alloc; {"detail": detail, "kind": kind, "name": name, "number": number})
        }
        (Some(detail), None) => { json!(in alloc; {"detail": detail, "kind": kind, "name": name}) }
        (None, Some(number)) => { json!(in alloc; {"kind": kind, "name": name, "number": number}) }
        (None, None) => json!(in alloc; {"kind": kind, "name": name}),
    }
}
