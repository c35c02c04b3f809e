//! The command `verify --all`: which data blocks of an image are good, and which hash blocks aren't.
ghost use Rattle.std.specs.Prelude.{◌≡◌, OnOk, IfErr};
ghost use Rattle.program_io.specs.Counted.{Writes};
ghost use Rattle.charts.specs.declared.form.ReportForm.TheVariants.{Lines};
ghost use Rattle.verity_commands.specs.Surveyed.{surveyed};
ghost use Rattle.verity_commands.specs.Surveys.{FailsSurvey, FailsToSurveyBehind, FailsToSurvey, FindsGood, SurveysBehind, SurveysImages, is_all_good, survey_totals};

use crate::survey_chart::survey_chart;
use crate::survey_object::survey_object;
use crate::tree_fault::TreeFault;
use block_device::BlockDev;
use charts::ReportForm;
use device_adapters::{Watchers, bytes_before};
use image_commands::{
    Bounds, ImagePair, ImagePaths, SoughtTree, bytes_to_read, data_end, may_seek, open_two,
    place_parts, seek_tree, watch,
};
use image_files::Images;
use program_io::{Counted, WriteFault};
use std::alloc::Global;
use std::io::Write;
use tree_shape::Digest;
use tree_survey::{Survey, Totals, survey_image};
use verity_format::VerityTree;

/// What is scanned: the arguments that name a data image and its hash image, and the sector of 512 bytes of what the latter
/// names where the hash image begins. What was found is reported in that form, and it may be shown how much of the data
/// was read.
#[derive(Clone, Copy, Debug, PartialEq, Eq)]
pub struct SurveyOrder<'a> {
    pub data: &'a str,
    pub hash: &'a str,
    pub hash_first: u64,
    pub form: ReportForm,
    pub progress: bool,
}

/// `verify --all [--json | --chart] [--progress] [--hash-offset BYTES] DATA HASH ROOT`, also with `--no-superblock`: prints a line
/// for each longest run of data blocks that aren't good, one for each hash block that isn't, and the totals; with `--chart` a map
/// of the data blocks before the totals, and all of it at the end; with `--json` one JSON object of all of them. If both are one
/// image, the data are what lies before the hash image.
///
/// # Errors
///
/// - `Open` if a file isn't opened.
/// - `Unaligned`, `NoShape`, `Unpinned` or `Survey` if there is no tree of that source, or the scan ends early.
/// - `Damaged` if a block isn't good.
/// - `Write` if a line after the scan can't be written.
pub fn survey_images<'a, I: Images, S: Watchers, W: Write>(
    alloc: Global,
    images: &mut I,
    watchers: &S,
    order: SurveyOrder<'a>,
    sought: &SoughtTree,
    writer: &mut Counted<W>,
) -> Result<(), TreeFault<'a>>
    ensures ok { OnOk result (SurveysImages I.relations I.Dev.state images.old images.new W.contents writer.old writer.new order.entry sought.now) }
    ensures err { IfErr result (FailsToSurvey I.relations I.Dev.state images.old images.new W.contents writer.old writer.new order.entry sought.now) }
{
    let SurveyOrder {
        data,
        hash,
        hash_first: first,
        form,
        progress,
    } = order;
    if !may_seek(&sought.source, first) {
        return Err(TreeFault::Unaligned);
    }
    let two = open_two(alloc, images, ImagePaths { data, hash }, false)?;
    let end = data_end(&two, first);
    let all = bytes_to_read(&sought.source, bytes_before(&two.data.device, end));
    let devices = watch(two, watchers, progress, all);
    let bounds = Bounds { end, first };
    survey_behind(alloc, devices, bounds, sought, form, writer)
}

// Scans the data before their end, and the hash image that begins at a sector of the hash device.
fn survey_behind<'a, D: BlockDev + Drop, H: BlockDev + Drop, W: Write>(
    alloc: Global,
    devices: (D, H),
    bounds: Bounds,
    sought: &SoughtTree,
    form: ReportForm,
    writer: &mut Counted<W>,
) -> Result<(), TreeFault<'a>>
    ensures ok { OnOk result (SurveysBehind D.state H.state devices W.contents writer.old writer.new bounds sought.now form) }
    ensures err { IfErr result (FailsToSurveyBehind D.state H.state devices W.contents writer.old writer.new bounds sought.now form) }
{
    let (data_dev, hash_dev) = devices;
    let mut two = place_parts(data_dev, hash_dev, bounds);
    let sectors = two.data.sectors();
    let tree = seek_tree(&sought.source, sectors, &mut two.hash, bounds.first)?;
    say_survey(alloc, &mut two, &tree, &sought.root, form, writer)
}

// Scans the two devices, and prints what was found.
fn say_survey<'a, D: BlockDev, H: BlockDev, W: Write>(
    alloc: Global,
    image: &mut ImagePair<D, H>,
    tree: &VerityTree,
    root: &Digest,
    form: ReportForm,
    writer: &mut Counted<W>,
) -> Result<(), TreeFault<'a>>
    ensures ok { OnOk result (FindsGood form tree.now (surveyed D.state H.state image.old) (surveyed D.state H.state image.new) W.contents writer.old writer.new root.now) }
    ensures err { IfErr result (FailsSurvey form tree.now (surveyed D.state H.state image.old) (surveyed D.state H.state image.new) W.contents writer.old writer.new root.now) }
{
    match form {
        ReportForm::Lines => survey_lines(alloc, image, tree, root, writer),
        ReportForm::Chart => survey_chart(alloc, image, tree, root, writer),
        ReportForm::Object => survey_object(alloc, image, tree, root, writer),
    }
}

// A line each, and the totals.
fn survey_lines<'a, D: BlockDev, H: BlockDev, W: Write>(
    alloc: Global,
    image: &mut ImagePair<D, H>,
    tree: &VerityTree,
    root: &Digest,
    writer: &mut Counted<W>,
) -> Result<(), TreeFault<'a>>
    ensures ok { OnOk result (FindsGood Lines tree.now (surveyed D.state H.state image.old) (surveyed D.state H.state image.new) W.contents writer.old writer.new root.now) }
    ensures err { IfErr result (FailsSurvey Lines tree.now (surveyed D.state H.state image.old) (surveyed D.state H.state image.new) W.contents writer.old writer.new root.now) }
{
    let found = survey_image(alloc, &mut image.data, &mut image.hash, tree, root, writer)?;
    say_totals(writer, found.totals)?;
    if !is_all_good(found) {
        return Err(TreeFault::Damaged);
    }
    Ok(())
}

/// Returns whether all data blocks and all hash blocks are good.
pub fn is_all_good(found: Survey) -> bool
    ensures { result ≡ is_all_good found }
{
    found.totals.changed == 0 && found.totals.unknown == 0 && found.whole_tree
}

/// Prints how many data blocks are good and how many aren't: `good N changed N unknown N`.
///
/// # Errors
///
/// `WriteFault` if the writer failed.
#[tactic(auto, unfolding(crate::specs::Surveys::survey_totals))]
pub fn say_totals<W: Write>(writer: &mut Counted<W>, totals: Totals) -> Result<(), WriteFault>
    ensures { Writes W.contents writer.old writer.new (survey_totals totals) result }
{
    let Totals {
        good,
        changed,
        unknown,
    } = totals;
    writer.print(format_args!("good {good} changed {changed} unknown {unknown}\n"))
}
