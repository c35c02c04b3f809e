//! The command `verify --all --json`: what of an image is good, as one JSON object.
ghost use Rattle.std.specs.Prelude.{◌≡◌, Some, string_bytes, IfOk, IfErr, OnOk};
ghost use Rattle.program_io.specs.JsonLines.{json_line};
ghost use Rattle.serde_json.specs.View.{view};
ghost use Rattle.verity_format.specs.Blocks.{IsOnlyRead};
ghost use Rattle.verity_format.specs.declared.verifying.VerifyFault.TheVariants as verify_fault;
ghost use Rattle.tree_survey.specs.declared.fault.SurveyFault.TheVariants as survey_fault;
ghost use Rattle.tree_survey.specs.Passes.{IsSurvey};
ghost use Rattle.charts.specs.declared.form.ReportForm.TheVariants.{Object};
ghost use Rattle.verity_commands.specs.Objects.{survey_json};
ghost use Rattle.verity_commands.specs.Surveyed.{surveyed};
ghost use Rattle.verity_commands.specs.Surveys.{FailsSurvey, FailsToListSurvey, FindsGood, listed_survey, unkept_survey};

use crate::survey::is_all_good;
use crate::tree_fault::TreeFault;
use block_device::BlockDev;
use image_commands::ImagePair;
use program_io::{Counted, line_of};
use runs::{KeptLines, Line, hashes_value, runs_value};
use serde_json::{Value, json};
use std::alloc::{AllocError, Global};
use std::io::Write;
use tree_shape::Digest;
use tree_survey::{Survey, SurveyFault, Totals, survey_image};
use verity_format::{VerifyFault, VerityTree};

/// Scans the two devices, and prints an object at the end.
pub(crate) fn survey_object<'a, D: BlockDev, H: BlockDev, W: Write>(
    alloc: Global,
    image: &mut ImagePair<D, H>,
    tree: &VerityTree,
    root: &Digest,
    writer: &mut Counted<W>,
) -> Result<(), TreeFault<'a>>
    ensures ok { OnOk result (FindsGood Object tree.now (surveyed D.state H.state image.old) (surveyed D.state H.state image.new) W.contents writer.old writer.new root.now) }
    ensures err { IfErr result (FailsSurvey Object tree.now (surveyed D.state H.state image.old) (surveyed D.state H.state image.new) W.contents writer.old writer.new root.now) }
{
    let mut kept = KeptLines::new(alloc);
    let found = keep_survey(alloc, image, tree, root, &mut kept)?;
    let line = survey_line(alloc, kept.lines.as_slice(), found.totals)?;
    writer.put(line.as_bytes())?;
    if !is_all_good(found) {
        return Err(TreeFault::Damaged);
    }
    Ok(())
}

// If a line isn't kept, memory ran out.
pub(crate) fn keep_survey<D: BlockDev, H: BlockDev>(
    alloc: Global,
    image: &mut ImagePair<D, H>,
    tree: &VerityTree,
    root: &Digest,
    kept: &mut KeptLines,
) -> Result<Survey, SurveyFault>
    ensures ok { IfOk result (IsSurvey tree.now (listed_survey (surveyed D.state H.state image.old) (surveyed D.state H.state image.new) kept.old kept.new) root.now) }
    ensures err { IfErr result (FailsToListSurvey tree.now (surveyed D.state H.state image.old) (surveyed D.state H.state image.new)) }
{
    match survey_image(alloc, &mut image.data, &mut image.hash, tree, root, kept) {
        Ok(found) => Ok(found),
        Err(fault) => Err(unkept(fault)),
    }
}

fn unkept(fault: SurveyFault) -> SurveyFault
    ensures { result ≡ unkept_survey fault }
{
    match fault {
        SurveyFault::Write => SurveyFault::Image(VerifyFault::NoMemory),
        SurveyFault::Image(image) => SurveyFault::Image(image),
    }
}

#[tactic(auto, using(crate::proofs::ObjectLemmas::plain_survey))]
fn survey_line(alloc: Global, lines: &[Line], totals: Totals) -> Result<String, SurveyFault>
    ensures ok { IfOk result (λ line. string_bytes line ≡ json_line (survey_json lines.now totals)) }
    ensures err { IfErr result (λ fault. fault ≡ survey_fault.Image verify_fault.NoMemory) }
{
    let Ok(value) = survey_value(alloc, lines, totals) else {
        return Err(SurveyFault::Image(VerifyFault::NoMemory));
    };
    match line_of(alloc, &value) {
        Ok(line) => Ok(line),
        Err(_) => Err(SurveyFault::Image(VerifyFault::NoMemory)),
    }
}

// The members in the order of their keys.
fn survey_value(alloc: Global, lines: &[Line], totals: Totals) -> Result<Value, AllocError>
    ensures { IfOk result (λ value. view value ≡ survey_json lines.now totals) }
{
    let Totals {
        good,
        changed,
        unknown,
    } = totals;
    let hash_blocks = hashes_value(alloc, lines)?;
    let runs = runs_value(alloc, lines)?;
    json!(in alloc; {
        "changed": changed,
        "good": good,
        "hash_blocks": hash_blocks,
        "runs": runs,
        "unknown": unknown
    })
}
