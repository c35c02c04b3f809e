//! The files that a command reads whole: stack texts, and data to write.
ghost use Rattle.std.specs.Prelude.{IfOk, IfErr};
ghost use Rattle.image_files.specs.Opened.{TellsFile};
ghost use Rattle.image_files.specs.Opener.{calls};
ghost use Rattle.stack_files.specs.Openings.{IsTextEnd, RefusesSource, TellsStack, most_source};

use crate::opening_fault::OpeningFault;
use block_device::BlockDev;
use image_files::{FileText, Images, UnopenedFile, read_text};

/// The largest length of a stack file in bytes.
pub const MOST_TEXT: usize = 1 << 20;

// One sector more than a write may have, so that the queue refuses a longer file.
const MOST_BYTES: usize = 2049 * 512;

/// Reads the text of a stack file.
///
/// # Errors
///
/// `Open` if it can't be opened or read, and `TooLong` if it has more than 1 MiB.
pub fn read_stack<'a, I: Images>(
    images: &mut I,
    path: &'a str,
) -> Result<FileText, OpeningFault<'a>>
    ensures ok { IfOk result (TellsStack (calls I.relations I.Dev.state images.old images.new) path.now) }
    ensures err { IfErr result (IsTextEnd (calls I.relations I.Dev.state images.old images.new) path.now) }
{
    let text = read_text(images, path, MOST_TEXT + 1)?;
    if text.bytes.len() > MOST_TEXT {
        return Err(OpeningFault::TooLong);
    }
    Ok(text)
}

/// Reads at most 2,049 sectors of a file that is to be written to a device.
///
/// # Errors
///
/// `UnopenedFile` if it can't be opened or read.
pub fn read_source<'a, I: Images>(
    images: &mut I,
    path: &'a str,
) -> Result<FileText, UnopenedFile<'a>>
    ensures ok { IfOk result (TellsFile (calls I.relations I.Dev.state images.old images.new) path.now most_source) }
    ensures err { IfErr result (RefusesSource I.relations I.Dev.state images.old images.new path.now) }
{
    read_text(images, path, MOST_BYTES)
}
