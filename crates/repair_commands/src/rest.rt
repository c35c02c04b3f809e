//! Reports what is still lost after a repair.
ghost use Rattle.std.specs.Prelude.{◌≡◌, IfErr, OnOk, Some};
ghost use Rattle.program_io.specs.Counted.{Writes};
ghost use Rattle.verity_commands.specs.Surveys.{survey_totals};
ghost use Rattle.verity_format.specs.Blocks.{IsOnlyRead};
ghost use Rattle.tree_repair.specs.declared.outcome.Outcome.TheVariants.{Partly};
ghost use Rattle.repair_commands.specs.Endings.{ending_fault};
ghost use Rattle.repair_commands.specs.Rest.{IsLinesEnd, IsRestTold, IsRestUntold, IsUntoldOf, SaysLines, TellsOf, all_good_totals, known_by};

use crate::only_read::{Former, OnlyRead};
use block_device::BlockDev;
use program_io::{Counted, WriteFault};
use std::alloc::Global;
use std::io::Write;
use std::marker::Brand;
use tree_repair::{Outcome, Plan, RepairFault};
use tree_survey::{SurveyFault, Totals, survey_image};
use verity_commands::{TreeFault, is_all_good, say_totals};

/// Prints what `verify --all` prints of the two devices, if the repair came to its end; otherwise returns the fault that ended it.
/// If the repair left all blocks valid, they aren't read again. The devices are returned; they were only read.
pub(crate) fn tell<'a, D: BlockDev + Drop, H: BlockDev + Drop, W: Write>(
    alloc: Global,
    devices: (D, H),
    ended: Result<Outcome, RepairFault>,
    whole: bool,
    plan: &Plan,
    writer: &mut Counted<W>,
) -> (D, H, Result<(), TreeFault<'a>>)
    ensures ok { OnOk result.2 (TellsOf D.state H.state devices result.0 result.1 ended whole plan.now W.contents writer.old writer.new) }
    ensures err { IfErr result.2 (IsUntoldOf D.state H.state devices result.0 result.1 ended whole plan.now W.contents writer.old writer.new) }
    ensures same { IfErr ended (λ cause. writer.new.failed ≡ writer.old.failed) }
{
    match ended {
        Ok(outcome) => say_rest(alloc, devices, known_by(whole, outcome), plan, writer),
        Err(fault) => {
            let (data_dev, hash_dev) = devices;
            (data_dev, hash_dev, Err(fault_of(fault)))
        }
    }
}

// Prints the totals that are known, or scans the devices.
fn say_rest<'a, D: BlockDev + Drop, H: BlockDev + Drop, W: Write>(
    alloc: Global,
    devices: (D, H),
    outcome: Outcome,
    plan: &Plan,
    writer: &mut Counted<W>,
) -> (D, H, Result<(), TreeFault<'a>>)
    ensures ok { OnOk result.2 (IsRestTold D.state H.state devices result.0 result.1 outcome plan.now W.contents writer.old writer.new) }
    ensures err { IfErr result.2 (IsRestUntold D.state H.state devices result.0 result.1 outcome plan.now W.contents writer.old writer.new) }
{
    match outcome {
        Outcome::Whole(count) => {
            let (data_dev, hash_dev) = devices;
            match say_all_good(writer, count) {
                Ok(()) => (data_dev, hash_dev, Ok(())),
                Err(fault) => (data_dev, hash_dev, Err(TreeFault::from(fault))),
            }
        }
        Outcome::Partly => say_scanned(alloc, devices, plan, writer),
    }
}

// Scans the devices, and prints what was found. A part that isn't valid is the fault `Damaged`.
fn say_scanned<'a, D: BlockDev + Drop, H: BlockDev + Drop, W: Write>(
    alloc: Global,
    devices: (D, H),
    plan: &Plan,
    writer: &mut Counted<W>,
) -> (D, H, Result<(), TreeFault<'a>>)
    ensures ok { OnOk result.2 (IsRestTold D.state H.state devices result.0 result.1 Partly plan.now W.contents writer.old writer.new) }
    ensures err { IfErr result.2 (IsRestUntold D.state H.state devices result.0 result.1 Partly plan.now W.contents writer.old writer.new) }
{
    scan_known::<D, H, Brand, Brand, W>(alloc, devices, plan, writer)
}

// Scans the image. The type parameters state what the devices held before.
fn scan_known<'a, D: BlockDev + Drop, H: BlockDev + Drop, K: Former, L: Former, W: Write>(
    alloc: Global,
    devices: (D, H),
    plan: &Plan,
    writer: &mut Counted<W>,
) -> (D, H, Result<(), TreeFault<'a>>)
    requires { (K.former ≡ Some (D.state devices.0)) × (L.former ≡ Some (H.state devices.1)) }
    ensures ok { OnOk result.2 (IsRestTold D.state H.state devices result.0 result.1 Partly plan.now W.contents writer.old writer.new) }
    ensures err { IfErr result.2 (IsRestUntold D.state H.state devices result.0 result.1 Partly plan.now W.contents writer.old writer.new) }
{
    let (data_dev, hash_dev) = devices;
    let mut data = OnlyRead::<D, K>::new(data_dev);
    let mut hash = OnlyRead::<H, L>::new(hash_dev);
    let told = say_lines(alloc, &mut data, &mut hash, plan, writer);
    let data_after = data.into_inner();
    let hash_after = hash.into_inner();
    (data_after, hash_after, told)
}

// Scans two devices. Prints a line for each run of data blocks and each hash block that isn't valid, and the totals.
fn say_lines<'a, D: BlockDev, H: BlockDev, W: Write>(
    alloc: Global,
    data_dev: &mut D,
    hash_dev: &mut H,
    plan: &Plan,
    writer: &mut Counted<W>,
) -> Result<(), TreeFault<'a>>
    ensures data { IsOnlyRead (D.state data_dev.old) (D.state data_dev.new) }
    ensures hash { IsOnlyRead (H.state hash_dev.old) (H.state hash_dev.new) }
    ensures ok { OnOk result (SaysLines D.state H.state data_dev.old hash_dev.old data_dev.new hash_dev.new plan.now W.contents writer.old writer.new) }
    ensures err { IfErr result (IsLinesEnd D.state H.state data_dev.old hash_dev.old data_dev.new hash_dev.new plan.now W.contents writer.old writer.new) }
{
    let found = survey_image(alloc, data_dev, hash_dev, &plan.tree, &plan.root, writer)?;
    say_totals(writer, found.totals)?;
    if !is_all_good(found) {
        return Err(TreeFault::Damaged);
    }
    Ok(())
}

// Returns what is known of an image after a repair. `whole` is whether all hash blocks on the path to the last data block
// verified before the repair. If not, a restored hash block may hold something after its last used entry, which only a scan
// reports.
fn known_by(whole: bool, outcome: Outcome) -> Outcome
    ensures { result ≡ known_by whole outcome }
{
    if whole { outcome } else { Outcome::Partly }
}

fn say_all_good<W: Write>(writer: &mut Counted<W>, count: u64) -> Result<(), WriteFault>
    ensures { Writes W.contents writer.old writer.new (survey_totals (all_good_totals count)) result }
{
    let totals = Totals {
        good: count,
        changed: 0,
        unknown: 0,
    };
    say_totals(writer, totals)
}

/// Returns the command's fault for a repair that ended early.
pub fn fault_of<'a>(fault: RepairFault) -> TreeFault<'a>
    ensures { result ≡ ending_fault fault }
{
    match fault {
        RepairFault::Image(fault) => TreeFault::Survey(SurveyFault::Image(fault)),
        RepairFault::Write => TreeFault::Write,
    }
}
