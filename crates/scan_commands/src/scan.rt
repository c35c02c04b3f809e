//! Finds which sectors of a device are lost.
ghost use Rattle.std.specs.Prelude.{OnOk, IfErr};
ghost use Rattle.image_files.specs.Opener.{calls};
ghost use Rattle.scan_commands.specs.Passes.{CanPass};
ghost use Rattle.scan_commands.specs.Counting.{EndsPrintedBy, PrintedBy};
ghost use Rattle.scan_commands.specs.Scans.{EndsReporting, IsScanEnd, NotesScan, PrintsScan, ReportsScan, words_to_scan};
ghost use Rattle.stack_files.specs.Warnings.{notes_of};

use crate::chart::tell_chart;
use crate::map_file::map_at;
use crate::map_use::{map_plan, use_map};
use crate::pass_counts::count_pass;
use crate::passing::Passing;
use crate::recovering_fault::RecoveringFault;
use crate::report::{tell_counts, tell_object};
use block_device::BlockDev;
use charts::ReportForm;
use device_adapters::Progress;
use image_files::Images;
use program_io::Counted;
use rescue_map::MapKind;
use stack_files::{DeviceSource, ErrorOutput, note_unchecked, open_source};
use stack_recovery::{Discard, KeptRuns};
use std::alloc::Global;
use std::io::Write;

/// The path of the map file of the device to be scanned, if there is one, how many times lost sectors are read again, whether
/// failed pieces aren't searched sector by sector, and the form of the report.
#[derive(Clone, Copy, Debug, PartialEq, Eq)]
pub struct ScanPlan<'a> {
    pub map: Option<&'a str>,
    pub retries: u64,
    pub no_scrape: bool,
    pub form: ReportForm,
}

/// Reads a device of a stack file over the bindings, or a disk, and reports which sectors are lost. With a map file, only sectors that the
/// map doesn't mark as read are read, and the map file is kept as a scan's map. A warning among the errors says that no signature is
/// checked, if a line names the key of one.
///
/// # Errors
///
/// - `NoMemory` if memory ran out for the JSON object, or for a run that the map needs.
/// - `Stack` if there is no such device, or a file can't be opened.
/// - `Pass` if the scan ended early.
/// - `Lost` or `LostAsSaid` if sectors are lost; the scan was completed.
/// - `Write` if a line can't be written; the scan was completed.
pub fn scan_device<'a, I: Images, W: Write, E: Write, P: Progress>(
    alloc: Global,
    images: &mut I,
    source: DeviceSource<'a, '_>,
    plan: ScanPlan<'a>,
    writer: &mut Counted<W>,
    output: ErrorOutput<'_, E, P>,
) -> Result<(), RecoveringFault<'a>>
    ensures ok { OnOk result (PrintedBy W.contents writer.old writer.new (PrintsScan (calls I.relations I.Dev.state images.old images.new) (words_to_scan source.entry plan.entry))) }
    ensures err { IfErr result (EndsPrintedBy W.contents writer.old writer.new (IsScanEnd (calls I.relations I.Dev.state images.old images.new) (words_to_scan source.entry plan.entry))) }
    ensures noted { NotesScan (calls I.relations I.Dev.state images.old images.new) (words_to_scan source.entry plan.entry) (notes_of E.contents output.entry.errors.now output.exit.0.now) }
{
    let ErrorOutput { errors, progress } = output;
    let used = use_map(images, map_plan(plan.map, MapKind::Scan, plan.retries))?;
    let (stack, device) = open_source(alloc, images, used, source)?;
    note_unchecked(errors, stack.config());
    let out = Discard::new(stack.config().sectors(device));
    let retries = plan.retries;
    let no_scrape = plan.no_scrape;
    let mut passing = Passing {
        stack,
        device,
        out,
        retries,
        no_scrape,
    };
    report_scan(alloc, images, &mut passing, plan, writer, progress)
}

// Scans an open device. Prints the lost runs after the last pass, or keeps them for a map or one JSON object.
fn report_scan<'a, I: Images, D: BlockDev, W: Write, P: Progress>(
    alloc: Global,
    images: &mut I,
    passing: &mut Passing<D, Discard>,
    plan: ScanPlan<'a>,
    writer: &mut Counted<W>,
    progress: &mut P,
) -> Result<(), RecoveringFault<'a>>
    requires { CanPass ⟦<Discard as BlockDev>⟧.state passing.old }
    ensures ok { OnOk result (ReportsScan I.relations I.Dev.state ⟦<Discard as BlockDev>⟧.state W.contents images.old images.new passing.old passing.new writer.old writer.new plan.entry) }
    ensures err { IfErr result (EndsReporting I.relations I.Dev.state ⟦<Discard as BlockDev>⟧.state W.contents images.old images.new passing.old passing.new writer.old writer.new plan.entry) }
{
    let map = map_at(plan.map, MapKind::Scan);
    match plan.form {
        ReportForm::Lines => {
            let counts = count_pass(alloc, images, passing, map, writer, progress)?;
            tell_counts(counts, writer)
        }
        ReportForm::Chart => {
            let mut runs = KeptRuns::new(alloc);
            let charted = count_pass(alloc, images, passing, map, &mut runs, progress)?;
            tell_chart(&runs, charted, writer)
        }
        ReportForm::Object => {
            let mut kept = KeptRuns::new(alloc);
            let found = count_pass(alloc, images, passing, map, &mut kept, progress)?;
            tell_object(alloc, &kept, found, writer)
        }
    }
}
