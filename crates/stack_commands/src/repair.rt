//! The command `repair`.
ghost use Rattle.std.specs.Prelude.{◌≡◌, ◌≤◌, ◌^◌, OnOk, IfErr};
ghost use Rattle.stack_commands.specs.Contexts.{DoesRepair, EndsByCopies, EndsByParity, EndsRepair, FixesByCopies, FixesByParity};
ghost use Rattle.stack_commands.specs.Repairing.{parity_fault};

use crate::context::Context;
use crate::fault::CommandFault;
use command_line::{FecFile, ImageCopy, OptionWords, RepairWords};
use fec_area::ParityFault;
use fec_commands::FecFault;
use image_commands::SoughtTree;
use image_files::Images;
use repair_commands::{ParityRepairFault, RepairPlaces, repair_by_parity, repair_images};
use std::alloc::Global;
use std::io::Write;
use verity_commands::{sector_at, sought_tree_in};

/// `repair [--no-superblock] [--check] [--fec FILE [--fec-roots N]] [OPTION..] [--root-hash-file FILE | --pin FILE] DATA HASH [ROOT] [COPY ..]`: the
/// root hash or the pin, and the tree that options state, are read before an image is opened.
///
/// # Errors
///
/// - `Usage` if a codeword has fewer than 2 bytes of parity, or more than 24.
/// - `Verity` if the options state no tree, or the file of the root hash or of the pin can't be read or is invalid.
/// - `Trees` or `Fec` if the repair ended early, or blocks stay corrupt.
pub fn repair_image<'a, I: Images, W: Write>(
    alloc: Global,
    context: Context<'_, I, W>,
    words: &RepairWords<'a>,
    options: &OptionWords<'a>,
) -> Result<(), CommandFault<'a>>
    ensures ok { OnOk result (DoesRepair I.relations I.Dev.state W.contents context.entry context.exit words.now options.now) }
    ensures err { IfErr result (EndsRepair I.relations I.Dev.state W.contents context.entry context.exit words.now options.now) }
{
    let bare = words.no_superblock;
    let sought = match sought_tree_in(alloc, context.images, bare, &words.root, options) {
        Ok(sought) => sought,
        Err(fault) => return Err(CommandFault::Verity(fault)),
    };
    let places = RepairPlaces {
        data: words.data_path,
        hash: words.hash_path,
        hash_first: sector_at(words.hash_offset),
        write: !words.check,
    };
    let copies = words.copies.as_slice();
    match &words.fec {
        None => by_copies(alloc, context, places, copies, &sought),
        Some(fec) => by_parity(alloc, context, places, fec, copies, &sought),
    }
}

// Without parity.
fn by_copies<'a, I: Images, W: Write>(
    alloc: Global,
    context: Context<'_, I, W>,
    places: RepairPlaces<'a>,
    copies: &[ImageCopy<'a>],
    sought: &SoughtTree,
) -> Result<(), CommandFault<'a>>
    requires { places.hash_first ≤ 2 ^ 55 }
    ensures ok { OnOk result (FixesByCopies I.relations I.Dev.state W.contents context.entry context.exit places.entry copies.now sought.now) }
    ensures err { IfErr result (EndsByCopies I.relations I.Dev.state W.contents context.entry context.exit places.entry copies.now sought.now) }
{
    let Context { images, writer } = context;
    Ok(repair_images(alloc, images, places, copies, sought, writer)?)
}

// By parity too, of which a codeword has 2 to 24 bytes.
fn by_parity<'a, I: Images, W: Write>(
    alloc: Global,
    context: Context<'_, I, W>,
    places: RepairPlaces<'a>,
    fec: &FecFile<'a>,
    copies: &[ImageCopy<'a>],
    sought: &SoughtTree,
) -> Result<(), CommandFault<'a>>
    requires { places.hash_first ≤ 2 ^ 55 }
    ensures ok { OnOk result (FixesByParity I.relations I.Dev.state W.contents context.entry context.exit places.entry fec.now copies.now sought.now) }
    ensures err { IfErr result (EndsByParity I.relations I.Dev.state W.contents context.entry context.exit places.entry fec.now copies.now sought.now) }
{
    let Context { images, writer } = context;
    if fec.roots < 2 || fec.roots > 24 {
        return Err(CommandFault::Usage(None));
    }
    match repair_by_parity(alloc, images, places, fec, copies, sought, writer) {
        Ok(()) => Ok(()),
        Err(fault) => return Err(parity_fault(fault)),
    }
}

// The texts and statuses of its faults are those of the other commands on parity.
fn parity_fault(fault: ParityRepairFault<'_>) -> CommandFault<'_>
    ensures { result ≡ parity_fault fault.entry }
{
    match fault {
        ParityRepairFault::Tree(fault) => CommandFault::Trees(fault),
        ParityRepairFault::BlockSizes => CommandFault::Fec(FecFault::BlockSizes),
        ParityRepairFault::TooSmall { needed } => {
            CommandFault::Fec(FecFault::Parity(ParityFault::TooSmall { needed }))
        }
    }
}
