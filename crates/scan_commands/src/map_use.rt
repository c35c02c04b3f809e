//! The map file as a file in use, which a scan or a copy replaces. It is found before anything else is opened, so that no other
//! argument leads to it, and nothing is read if it can't be replaced.
ghost use Rattle.std.specs.Prelude.{◌≡◌, option_map, IfErr, IfOk, OnOk};
ghost use Rattle.image_files.specs.Opener.{calls};
ghost use Rattle.scan_commands.specs.MapUses.{FindsMap, IsComplete, IsMapUnused, IsMapUnusedBeside, IsOutputApart, IsOutputMap, LacksDraft, MayUse, RefusesMap, RefusesMapAt, RefusesMapBeside, UsesMap, UsesMapAt, UsesMapBeside, UsesMapBesideAt, is_complete, is_same_file, map_plan, plan_of};

use crate::map_file::{MOST_TEXT, MapPath, continues, map_at};
use crate::recovering_fault::RecoveringFault;
use crate::rescue_fault::PassFault;
use block_device::OpenFault;
use image_files::{
    FileUse, Images, UnopenedFile, image_use, is_block_device, is_missing, is_one_place, no_use,
    open_apart,
};
use rescue_map::{MapKind, is_finished, kind_of};
use stack_files::StackFault;

fn is_same_file(fault: OpenFault) -> bool
    ensures { result ≡ is_same_file fault }
{
    match fault {
        OpenFault::SameFile => true,
        _ => false,
    }
}

// How the file under a path is used, if there is one. A pipe isn't opened, since its opening would wait; nor is a directory.
fn find_map<'a, I: Images>(images: &mut I, path: &'a str) -> Result<FileUse, UnopenedFile<'a>>
    ensures ok { IfOk result (FindsMap (calls I.relations I.Dev.state images.old images.new) path.now) }
    ensures err { IfErr result (RefusesMap (calls I.relations I.Dev.state images.old images.new) path.now) }
{
    match images.open(path, false) {
        Ok(image) => {
            if is_block_device(image.id) {
                let fault = OpenFault::OtherFault;
                return Err(UnopenedFile { fault, path });
            }
            Ok(image_use(&image, true))
        }
        Err(fault) => {
            if is_missing(fault) {
                return Ok(no_use());
            }
            Err(UnopenedFile { fault, path })
        }
    }
}

/// The map file of a pass, and whether bad sectors are read again.
#[derive(Clone, Copy)]
pub(crate) struct MapPlan<'a> {
    pub(crate) file: MapPath<'a>,
    pub(crate) again: bool,
}

/// Returns the map file of that kind, if a path is given, of a pass with so many retries.
pub(crate) fn map_plan<'a>(
    path: Option<&'a str>,
    kind: MapKind,
    retries: u64,
) -> Option<MapPlan<'a>>
    ensures { option_map plan_of result ≡ map_plan (option_map (λ p. p.now) path.entry) kind retries }
{
    let file = map_at(path, kind)?;
    let again = retries > 0;
    Some(MapPlan { file, again })
}

// Whether nothing remains to be read by a text.
fn is_complete(again: bool, kind: MapKind, text: &[u8]) -> bool
    ensures { result ≡ is_complete again kind text.now }
{
    if text.len() > MOST_TEXT {
        return false;
    }
    continues(kind, kind_of(text)) && is_finished(text, again)
}

// Whether the map is complete, so that it isn't replaced.
fn find_complete<I: Images>(images: &mut I, plan: MapPlan<'_>) -> bool
    ensures { IsComplete (calls I.relations I.Dev.state images.old images.new) (plan_of plan.entry) result }
{
    match images.read_text(plan.file.path, MOST_TEXT + 1) {
        Ok(text) => is_complete(plan.again, plan.file.kind, text.bytes.as_slice()),
        Err(_fault) => false,
    }
}

// Checks that a file can be created beside a map, or that the map is complete.
fn check_draft<'a, I: Images>(images: &mut I, plan: MapPlan<'a>) -> Result<(), PassFault<'a>>
    ensures ok { OnOk result (MayUse (calls I.relations I.Dev.state images.old images.new) (plan_of plan.entry)) }
    ensures err { IfErr result (LacksDraft (calls I.relations I.Dev.state images.old images.new) (plan_of plan.entry)) }
{
    match images.try_replace(plan.file.path) {
        Ok(()) => Ok(()),
        Err(fault) => {
            if find_complete(images, plan) {
                return Ok(());
            }
            Err(PassFault::Unwritten(fault))
        }
    }
}

// How the map file of a plan is used, if there is one.
fn use_map_at<'a, I: Images>(images: &mut I, plan: MapPlan<'a>) -> Result<FileUse, PassFault<'a>>
    ensures ok { IfOk result (UsesMapAt (calls I.relations I.Dev.state images.old images.new) (plan_of plan.entry)) }
    ensures err { IfErr result (RefusesMapAt (calls I.relations I.Dev.state images.old images.new) (plan_of plan.entry)) }
{
    let used = match find_map(images, plan.file.path) {
        Ok(used) => used,
        Err(file) => return Err(PassFault::Unread(file)),
    };
    match check_draft(images, plan) {
        Ok(()) => Ok(used),
        Err(fault) => Err(fault),
    }
}

/// Returns how the map file is used, if there is one: as a file that is written.
///
/// # Errors
///
/// - `Unread` if the file can't be opened, or isn't a regular file.
/// - `Unwritten` if no file can be created beside it, and a sector remains to be read.
pub(crate) fn use_map<'a, I: Images>(
    images: &mut I,
    map: Option<MapPlan<'a>>,
) -> Result<FileUse, PassFault<'a>>
    ensures ok { IfOk result (UsesMap (calls I.relations I.Dev.state images.old images.new) (option_map plan_of map.entry)) }
    ensures err { IfErr result (IsMapUnused (calls I.relations I.Dev.state images.old images.new) (option_map plan_of map.entry)) }
{
    match map {
        Some(plan) => use_map_at(images, plan),
        None => Ok(no_use()),
    }
}

// Checks that an image to copy to isn't the map, also if neither exists yet.
fn check_output<'a, I: Images>(
    images: &mut I,
    used: FileUse,
    map: &str,
    out: &'a str,
) -> Result<(), UnopenedFile<'a>>
    ensures ok { OnOk result (IsOutputApart (calls I.relations I.Dev.state images.old images.new) used map.now out.now) }
    ensures err { IfErr result (IsOutputMap (calls I.relations I.Dev.state images.old images.new) used map.now out.now) }
{
    if is_one_place(images, out, map)? {
        let fault = OpenFault::SameFile;
        return Err(UnopenedFile { fault, path: out });
    }
    match open_apart(images, &[used], out, false) {
        Ok(_image) => Ok(()),
        Err(file) => {
            if is_same_file(file.fault) {
                return Err(file);
            }
            Ok(())
        }
    }
}

// How the map file of a plan is used, beside an image to copy to.
fn use_map_apart<'a, I: Images>(
    images: &mut I,
    plan: MapPlan<'a>,
    out: &'a str,
) -> Result<FileUse, RecoveringFault<'a>>
    ensures ok { IfOk result (UsesMapBesideAt (calls I.relations I.Dev.state images.old images.new) (plan_of plan.entry) out.now) }
    ensures err { IfErr result (RefusesMapBeside (calls I.relations I.Dev.state images.old images.new) (plan_of plan.entry) out.now) }
{
    let used = match use_map_at(images, plan) {
        Ok(used) => used,
        Err(fault) => return Err(RecoveringFault::Pass(fault)),
    };
    match check_output(images, used, plan.file.path, out) {
        Ok(()) => Ok(used),
        Err(file) => Err(RecoveringFault::Stack(StackFault::Open(file))),
    }
}

/// Returns how the map file is used, if there is one, beside an image to copy to. The image is only compared.
///
/// # Errors
///
/// - `Pass` with a fault of `use_map`.
/// - `Stack` with `SameFile` if the image is the map, also if neither exists yet; with `NoMemory` if memory ran out.
pub(crate) fn use_map_beside<'a, I: Images>(
    images: &mut I,
    map: Option<MapPlan<'a>>,
    out: &'a str,
) -> Result<FileUse, RecoveringFault<'a>>
    ensures ok { IfOk result (UsesMapBeside (calls I.relations I.Dev.state images.old images.new) (option_map plan_of map.entry) out.now) }
    ensures err { IfErr result (IsMapUnusedBeside (calls I.relations I.Dev.state images.old images.new) (option_map plan_of map.entry) out.now) }
{
    match map {
        Some(plan) => use_map_apart(images, plan, out),
        None => Ok(no_use()),
    }
}
