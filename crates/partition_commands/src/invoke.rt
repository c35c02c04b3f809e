//! The command `partitions` by its words.
ghost use Rattle.std.specs.Prelude.{◌≡◌, OnOk, IfErr};
ghost use Rattle.partition_commands.specs.Invocations.{EndsFormQuiet, FailsToList, ListsByWords, size_of};
ghost use Rattle.stack_files.specs.Warnings.{notes_of};

use crate::fault::PartitionsFault;
use crate::image::{object_of_image, partitions_of_image, stack_of_image};
use crate::root_stack::{pinned_stack_of_image, root_stack_of_image};
use crate::{ImagePlan, StackPlan};
use command_line::{PartitionForm, PartitionsWords};
use image_files::Images;
use image_pin::TrustedRoot;
use partition_table::SectorSize;
use program_io::Counted;
use std::alloc::Global;
use std::io::Write;

const LARGE_SECTOR: u32 = 4096;

// Sectors of 4,096 bytes, or of 512.
fn size_of(bytes: u32) -> SectorSize
    ensures { result ≡ size_of bytes }
{
    if bytes == LARGE_SECTOR {
        SectorSize::Bytes4096
    } else {
        SectorSize::Bytes512
    }
}

/// `partitions [--sector-size 512|4096] [--json | --stack | --root ROOT | --pin FILE] [--writable] [--fec PARTITION [--fec-roots N]]
/// IMAGE`: prints the table in that form. What is unusual of the table goes to `errors`.
///
/// # Errors
///
/// Those of the function for that form.
pub fn invoke_partitions<'a, I: Images, W: Write, E: Write>(
    alloc: Global,
    images: &mut I,
    words: &PartitionsWords<'a>,
    writer: &mut Counted<W>,
    errors: &mut Counted<E>,
) -> Result<(), PartitionsFault<'a>>
    ensures ok { OnOk result (ListsByWords I.relations I.Dev.state images.old images.new W.contents writer.old writer.new words.now (notes_of E.contents errors.old errors.new)) }
    ensures err { IfErr result (FailsToList I.relations I.Dev.state images.old images.new writer.new words.now (notes_of E.contents errors.old errors.new)) }
    ensures quiet { IfErr result (EndsFormQuiet W.contents writer.old writer.new words.now) }
{
    let image = words.image;
    let size = size_of(words.sector_size);
    let stack = StackPlan {
        size,
        writable: words.writable,
    };
    let plan = ImagePlan {
        stack,
        fec: words.fec,
    };
    match words.form {
        PartitionForm::Lines => partitions_of_image(alloc, images, image, size, writer, errors),
        PartitionForm::Object => object_of_image(alloc, images, image, size, writer, errors),
        PartitionForm::Stack => stack_of_image(alloc, images, image, &stack, writer, errors),
        PartitionForm::Root(root) => {
            let trusted = TrustedRoot { root, pin: None };
            root_stack_of_image(alloc, images, image, &plan, &trusted, writer, errors)
        }
        PartitionForm::Pin(pin) => {
            pinned_stack_of_image(alloc, images, pin, image, &plan, writer, errors)
        }
    }
}
