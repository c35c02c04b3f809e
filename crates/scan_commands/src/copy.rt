//! Copies the readable sectors of a device to an image.
ghost use Rattle.std.specs.Prelude.{OnOk, IfOk, IfErr};
ghost use Rattle.image_files.specs.Opener.{calls};
ghost use Rattle.scan_commands.specs.Passes.{CanPass};
ghost use Rattle.stack_files.specs.Warnings.{notes_of};
ghost use Rattle.scan_commands.specs.Copies.{CopiesBy, EndsCopyingBy, IsCopyEnd, NotesCopy, PassesToBy, PrintsCopy, StopsToBy, words_to_copy};
ghost use Rattle.scan_commands.specs.Counting.{EndsPrintedBy, PrintedBy};

use crate::map_file::map_at;
use crate::map_use::{map_plan, use_map_beside};
use crate::output::{open_with_room, source_beside};
use crate::pass_counts::{PassCounts, count_pass};
use crate::passing::Passing;
use crate::recovering_fault::RecoveringFault;
use crate::report::tell_counts;
use crate::rescue_fault::PassFault;
use block_device::{BlockDev, SyncDev};
use device_adapters::{Differing, Progress};
use image_files::{Images, OpenImage};
use program_io::Counted;
use rescue_map::MapKind;
use stack_files::{DeviceSource, ErrorOutput, note_unchecked};
use std::alloc::Global;
use std::io::Write;

/// The path of the image to copy to, whether only sectors that differ are written, the path of the map file, if there is one,
/// how many times lost sectors are read again, and whether failed pieces aren't searched sector by sector.
#[derive(Clone, Copy, Debug, PartialEq, Eq)]
pub struct CopyPlan<'a> {
    pub out: &'a str,
    pub differing: bool,
    pub map: Option<&'a str>,
    pub retries: u64,
    pub no_scrape: bool,
}

/// Copies the readable sectors of a device of a stack file, or of a disk, to an image. The image is synced and closed before the counts are
/// printed.
///
/// With a map file, only sectors that the map doesn't mark as read are copied, and the map file is kept as a copy's map. A
/// scan's map counts no sector as read: the image has none of the sectors that it marks `+`. If the map file is there, the image
/// isn't made as long as a disk.
///
/// A warning among the errors says that no signature is checked, if a line names the key of one.
///
/// # Errors
///
/// - `Stack` if there is no such device, or a file can't be opened.
/// - `OutputTooSmall` if the image has fewer sectors than the device.
/// - `Pass` if the copy ended early.
/// - `Lost` if sectors are lost; the copy was completed.
/// - `Write` if a line can't be written; the copy was completed.
pub fn copy_device<'a, I: Images, W: Write, E: Write, P: Progress>(
    alloc: Global,
    images: &mut I,
    source: DeviceSource<'a, '_>,
    plan: CopyPlan<'a>,
    writer: &mut Counted<W>,
    output: ErrorOutput<'_, E, P>,
) -> Result<(), RecoveringFault<'a>>
    ensures ok { OnOk result (PrintedBy W.contents writer.old writer.new (PrintsCopy (calls I.relations I.Dev.state images.old images.new) (words_to_copy source.entry plan.entry))) }
    ensures err { IfErr result (EndsPrintedBy W.contents writer.old writer.new (IsCopyEnd (calls I.relations I.Dev.state images.old images.new) (words_to_copy source.entry plan.entry))) }
    ensures noted { NotesCopy (calls I.relations I.Dev.state images.old images.new) (words_to_copy source.entry plan.entry) (notes_of E.contents output.entry.errors.now output.exit.0.now) }
{
    let ErrorOutput { errors, progress } = output;
    let map = map_plan(plan.map, MapKind::Copy, plan.retries);
    let used = use_map_beside(images, map, plan.out)?;
    let read = source_beside(used, source);
    let (stack, device, image) = open_with_room(alloc, images, used, read, plan.out)?;
    note_unchecked(errors, stack.config());
    let OpenImage { device: out, id: _ } = image;
    let retries = plan.retries;
    let no_scrape = plan.no_scrape;
    let passing = Passing {
        stack,
        device,
        out,
        retries,
        no_scrape,
    };
    let (left, outcome) = copy_synced(alloc, images, passing, plan, writer, progress);
    images.close(plan.out, left.out);
    match outcome {
        Ok(counts) => tell_counts(counts, writer),
        Err(fault) => Err(RecoveringFault::Pass(fault)),
    }
}

// Copies the device, and syncs the image.
fn copy_synced<'a, I: Images, D: BlockDev + Drop, O: SyncDev + Drop, W: Write, P: Progress>(
    alloc: Global,
    images: &mut I,
    passing: Passing<D, O>,
    plan: CopyPlan<'a>,
    writer: &mut Counted<W>,
    progress: &mut P,
) -> (Passing<D, O>, Result<PassCounts, PassFault<'a>>)
    requires { CanPass O.state passing }
    ensures ok { IfOk result.1 (CopiesBy I.relations I.Dev.state O.state W.contents images.old images.new passing result.0 writer.old writer.new plan.entry) }
    ensures err { IfErr result.1 (EndsCopyingBy I.relations I.Dev.state O.state W.contents images.old images.new passing result.0 writer.old writer.new plan.entry) }
{
    let (mut left, outcome) = copy_to(alloc, images, passing, plan, writer, progress);
    let counts = match outcome {
        Ok(counts) => counts,
        Err(fault) => return (left, Err(fault)),
    };
    match left.out.sync() {
        Ok(()) => (left, Ok(counts)),
        Err(_unsynced) => (left, Err(PassFault::Output)),
    }
}

// Copies the device. With `--differing` the image is wrapped in a device that reads before it writes.
fn copy_to<'a, I: Images, D: BlockDev + Drop, O: SyncDev + Drop, W: Write, P: Progress>(
    alloc: Global,
    images: &mut I,
    passing: Passing<D, O>,
    plan: CopyPlan<'a>,
    writer: &mut Counted<W>,
    progress: &mut P,
) -> (Passing<D, O>, Result<PassCounts, PassFault<'a>>)
    requires { CanPass O.state passing }
    ensures ok { IfOk result.1 (PassesToBy I.relations I.Dev.state O.state W.contents images.old images.new passing result.0 writer.old writer.new plan.entry) }
    ensures err { IfErr result.1 (StopsToBy I.relations I.Dev.state O.state W.contents images.old images.new passing result.0 writer.old writer.new plan.entry) }
{
    let map = map_at(plan.map, MapKind::Copy);
    if plan.differing {
        let Passing {
            stack,
            device,
            out,
            retries,
            no_scrape,
        } = passing;
        let out = Differing::new(out);
        let mut compared = Passing {
            stack,
            device,
            out,
            retries,
            no_scrape,
        };
        let copied = count_pass(alloc, images, &mut compared, map, writer, progress);
        let Passing {
            stack,
            device,
            out,
            retries,
            no_scrape,
        } = compared;
        let out = out.inner;
        let left = Passing {
            stack,
            device,
            out,
            retries,
            no_scrape,
        };
        return (left, copied);
    }
    let mut plain = passing;
    let outcome = count_pass(alloc, images, &mut plain, map, writer, progress);
    (plain, outcome)
}
