//! The lost sectors of a device as one JSON object.
ghost use Rattle.std.specs.Prelude.{◌≡◌, ◌≢◌, string_bytes, IfOk};
ghost use Rattle.program_io.specs.JsonLines.{json_line};
ghost use Rattle.serde_json.specs.Data.{array};
ghost use Rattle.serde_json.specs.View.{items_of, view};
ghost use Rattle.stack_recovery.specs.declared.lost_run.Loss.TheVariants as loss;
ghost use Rattle.scan_commands.specs.LostJson.{lost_json, lost_run_json, lost_runs_json};

use crate::pass_counts::PassCounts;
use program_io::line_of;
use serde_json::{Value, json};
use stack_engine::IoFault;
use stack_recovery::{Counts, Loss, LostRun};
use std::alloc::{AllocError, Global};

/// Returns the line of the object: `{"lost":N,"read":N,"runs":[..]}`, with `"restored":N` if blocks were restored and `"untried":N` if
/// sectors are unscraped, and for each run
/// `{"count":N,"fault":NAME,"first":N}`, with `"leaf":N` if a backing device failed, and `"unscraped":true` if its sectors are.
///
/// # Errors
///
/// `AllocError` if an allocation was refused.
#[tactic(auto, using(crate::proofs::PlainLemmas::plain_lost))]
pub fn lost_line(alloc: Global, runs: &[LostRun], counts: PassCounts) -> Result<String, AllocError>
    ensures { IfOk result (λ line. string_bytes line ≡ json_line (lost_json runs.now counts)) }
{
    let value = lost_value(alloc, runs, counts)?;
    line_of(alloc, &value)
}

// Returns the object, its members in the order of their keys.
fn lost_value(alloc: Global, runs: &[LostRun], counts: PassCounts) -> Result<Value, AllocError>
    ensures { IfOk result (λ value. view value ≡ lost_json runs.now counts) }
{
    let PassCounts { sectors, restored } = counts;
    if restored == 0 {
        scanned_value(alloc, runs, sectors)
    } else {
        restored_value(alloc, runs, sectors, restored)
    }
}

// Returns the object if no block was restored.
fn scanned_value(alloc: Global, runs: &[LostRun], sectors: Counts) -> Result<Value, AllocError>
    ensures { IfOk result (λ value. view value ≡ lost_json runs.now (record { sectors = sectors; restored = 0 })) }
{
    let Counts {
        read,
        lost,
        untried,
    } = sectors;
    let runs = runs_value(alloc, runs)?;
    if untried == 0 {
        return json!(in alloc; {"lost": lost, "read": read, "runs": runs});
    }
    json!(in alloc; {"lost": lost, "read": read, "runs": runs, "untried": untried})
}

// Returns the object if blocks were restored.
fn restored_value(
    alloc: Global,
    runs: &[LostRun],
    sectors: Counts,
    restored: u64,
) -> Result<Value, AllocError>
    requires { restored ≢ 0 }
    ensures { IfOk result (λ value. view value ≡ lost_json runs.now (record { sectors = sectors; restored = restored })) }
{
    let Counts {
        read,
        lost,
        untried,
    } = sectors;
    let runs = runs_value(alloc, runs)?;
    if untried == 0 {
        return json!(in alloc; {"lost": lost, "read": read, "restored": restored, "runs": runs});
    }
    json!(in alloc; {"lost": lost, "read": read, "restored": restored, "runs": runs, "untried": untried})
}

// Returns the array of the runs.
fn runs_value(alloc: Global, runs: &[LostRun]) -> Result<Value, AllocError>
    ensures { IfOk result (λ value. view value ≡ array (items_of (lost_runs_json runs.now))) }
{
    let mut values = Vec::new(alloc);
    'runs: for run in runs {
        let value = run_value(alloc, *run)?;
        values.push(value)?;
    }
    Ok(Value::Array(values))
}

// Returns the object of a run, its members in the order of their keys.
fn run_value(alloc: Global, run: LostRun) -> Result<Value, AllocError>
    ensures { IfOk result (λ value. view value ≡ lost_run_json run) }
{
    let LostRun { first, count, kind } = run;
    match kind {
        Loss::Lost(fault) => lost_run_value(alloc, first, count, fault),
        Loss::Unscraped(fault) => unscraped_value(alloc, first, count, fault),
    }
}

// Returns the object of a run of lost sectors.
fn lost_run_value(
    alloc: Global,
    first: u64,
    count: u64,
    fault: IoFault,
) -> Result<Value, AllocError>
    ensures { IfOk result (λ value. view value ≡ lost_run_json (record { first = first; count = count; kind = loss.Lost fault })) }
{
    match fault {
        IoFault::Device(leaf) => {
            json!(in alloc; {"count": count, "fault": fault.name(), "first": first, "leaf": leaf})
        }
        _ => json!(in alloc; {"count": count, "fault": fault.name(), "first": first}),
    }
}

// Returns the object of a run of unscraped sectors.
fn unscraped_value(
    alloc: Global,
    first: u64,
    count: u64,
    fault: IoFault,
) -> Result<Value, AllocError>
    ensures { IfOk result (λ value. view value ≡ lost_run_json (record { first = first; count = count; kind = loss.Unscraped fault })) }
{
    let unscraped = true;
    match fault {
        IoFault::Device(leaf) => json!(in alloc; {
            "count": count,
            "fault": fault.name(),
            "first": first,
            "leaf": leaf,
            "unscraped": unscraped
        }),
        _ => json!(in alloc; {
            "count": count,
            "fault": fault.name(),
            "first": first,
            "unscraped": unscraped
        }),
    }
}
