//! What the passes over a device count: sectors, and blocks that parity restored.
ghost use Rattle.std.specs.Prelude.{◌≡◌, IfOk, IfErr};
ghost use Rattle.scan_commands.specs.CountedPasses.{CountsPassBy};
ghost use Rattle.scan_commands.specs.Passes.{CanPass, StopsBy};

use crate::map_file::MapPath;
use crate::passing::{Passing, run_pass};
use crate::rescue_fault::PassFault;
use block_device::{BlockDev, SyncDev};
use device_adapters::Progress;
use image_files::Images;
use stack_recovery::{Counts, Listing};
use std::alloc::Global;

/// How many sectors of a device were read, are lost and are unscraped, and how many blocks parity restored meanwhile.
#[derive(Clone, Copy, Debug, PartialEq, Eq)]
pub struct PassCounts {
    pub sectors: Counts,
    pub restored: u64,
}

/// Runs [`run_pass`], and counts the blocks that the stack restores meanwhile.
///
/// # Errors
///
/// Those of [`run_pass`].
pub(crate) fn count_pass<'a, I: Images, D: BlockDev, O: SyncDev, L: Listing, P: Progress>(
    alloc: Global,
    images: &mut I,
    passing: &mut Passing<D, O>,
    file: Option<MapPath<'a>>,
    listing: &mut L,
    progress: &mut P,
) -> Result<PassCounts, PassFault<'a>>
    requires { CanPass O.state passing.old }
    ensures ok { IfOk result (CountsPassBy I.relations I.Dev.state O.state L.told images.old images.new passing.old passing.new listing.old listing.new file.entry) }
    ensures err { IfErr result (StopsBy I.relations I.Dev.state O.state L.told images.old images.new passing.old passing.new listing.old listing.new file.entry) }
{
    let before = passing.stack.restored();
    let sectors = run_pass(alloc, images, passing, file, listing, progress)?;
    let restored = passing.stack.restored().saturating_sub(before);
    Ok(PassCounts { sectors, restored })
}
