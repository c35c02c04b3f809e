//! Lines as JSON values.
ghost use Rattle.std.specs.Prelude.{◌≡◌, ◌++◌, map, false, IfOk, OnOk};
ghost use Rattle.std.specs.List.{list_any};
ghost use Rattle.serde_json.specs.Data.{array};
ghost use Rattle.serde_json.specs.View.{items_of, view};
ghost use Rattle.runs.specs.Lines.{says_more};
ghost use Rattle.runs.specs.Objects.{hash_items, hash_json, hashes_json, run_items, run_json, runs_json};

use crate::kind::Kind;
use crate::line::Line;
use crate::run::Run;
use allocation::push;
use serde_json::{Value, json};
use std::alloc::{AllocError, Global};

/// Returns a JSON array of the runs, each as `{"count":N,"first":N,"state":KIND}`.
///
/// # Errors
///
/// `AllocError` if an allocation fails.
pub fn runs_value(alloc: Global, lines: &[Line]) -> Result<Value, AllocError>
    ensures { IfOk result (λ value. view value ≡ array (items_of (runs_json lines.now))) }
{
    let mut values = Vec::new(alloc);
    'lines: for line in lines {
        add_run(alloc, &mut values, *line)?;
    }
    Ok(Value::Array(values))
}

/// Returns a JSON array of the hash blocks, each as `{"index":N,"level":N}`.
///
/// # Errors
///
/// `AllocError` if an allocation fails.
pub fn hashes_value(alloc: Global, lines: &[Line]) -> Result<Value, AllocError>
    ensures { IfOk result (λ value. view value ≡ array (items_of (hashes_json lines.now))) }
{
    let mut values = Vec::new(alloc);
    'lines: for line in lines {
        add_hash(alloc, &mut values, *line)?;
    }
    Ok(Value::Array(values))
}

/// Returns whether one of the lines states that there are more runs.
pub fn says_more(lines: &[Line]) -> bool
    ensures { result ≡ says_more lines.now }
{
    lines.iter().any(|line| line.is_more())
}

fn add_run(alloc: Global, values: &mut Vec<Value>, line: Line) -> Result<(), AllocError>
    ensures { OnOk result (map view values.new.items ≡ map view values.old.items ++ run_items line) }
{
    match line {
        Line::Run(run) => {
            let value = run_value(alloc, run)?;
            push(values, value)?;
            Ok(())
        }
        Line::More => Ok(()),
        Line::Hash { .. } => Ok(()),
    }
}

fn add_hash(alloc: Global, values: &mut Vec<Value>, line: Line) -> Result<(), AllocError>
    ensures { OnOk result (map view values.new.items ≡ map view values.old.items ++ hash_items line) }
{
    match line {
        Line::Hash { level, number } => {
            let value = hash_value(alloc, level, number)?;
            push(values, value)?;
            Ok(())
        }
        Line::Run(_) => Ok(()),
        Line::More => Ok(()),
    }
}

fn run_value(alloc: Global, run: Run<Kind>) -> Result<Value, AllocError>
    ensures { IfOk result (λ value. view value ≡ run_json run) }
{
    json!(in alloc; {"count": run.count, "first": run.first, "state": run.kind.name()})
}

fn hash_value(alloc: Global, level: u32, number: u64) -> Result<Value, AllocError>
    ensures { IfOk result (λ value. view value ≡ hash_json level number) }
{
    json!(in alloc; {"index": number, "level": level})
}
