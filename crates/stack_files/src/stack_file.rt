//! The files of a command on a stack file, opened in this order: the stack text, a file that is only read, and the bindings.
ghost use Rattle.std.specs.Prelude.{◌≡◌, IfOk, IfErr};
ghost use Rattle.image_files.specs.FileUses.{text_use};
ghost use Rattle.stack_files.specs.OpenStacks.{FailsWithInput, FailsWithSource, OpensWithInput, OpensWithSource};

use crate::leaves::{OpenLeaves, open_all};
use crate::opening_fault::OpeningFault;
use crate::source::{read_source, read_stack};
use block_device::BlockDev;
use command_line::Binding;
use image_files::{FileText, FileUse, Images, OpenImage, open_apart};
use stack_config::Leaf;
use std::alloc::Global;

/// The path of a stack file, and the bindings of its backing devices.
#[derive(Clone, Copy)]
pub struct StackFile<'a, 'b> {
    pub path: &'a str,
    pub bindings: &'b [Binding<'a>],
}

/// A stack text, and its backing devices with their devices in the same order.
#[derive(Drop)]
pub struct OpenStack<D> {
    pub text: FileText,
    pub leaves: Vec<Leaf>,
    pub devices: Vec<D>,
}

/// Returns how the file of a text is used.
pub(crate) fn text_use(text: &FileText) -> FileUse
    ensures { result ≡ text_use text.now }
{
    FileUse {
        id: text.id,
        writable: false,
        part: None,
    }
}

/// Reads a stack file, then a file that is to be written to a device, and then opens the bindings.
///
/// # Errors
///
/// The faults of `open_stack_apart`; `Open` also if the file to be written can't be opened or read.
pub fn open_with_source<'a, I: Images>(
    alloc: Global,
    images: &mut I,
    file: StackFile<'a, '_>,
    source: &'a str,
) -> Result<(OpenStack<I::Dev>, FileText), OpeningFault<'a>>
    ensures ok { IfOk result (OpensWithSource I.relations I.Dev.state images.old images.new file.entry source.now) }
    ensures err { IfErr result (FailsWithSource I.relations I.Dev.state images.old images.new file.entry source.now) }
{
    let text = read_stack(images, file.path)?;
    let source = read_source(images, source)?;
    let files = [text_use(&text), text_use(&source)];
    let OpenLeaves { leaves, devices } = open_all(alloc, images, &files, file.bindings)?;
    let over = OpenStack {
        text,
        leaves,
        devices,
    };
    Ok((over, source))
}

/// Reads a stack file, then opens an image for reading, which may be the stack file, and then the bindings.
///
/// # Errors
///
/// The faults of `open_stack_apart`; `Open` also if the image can't be opened.
pub fn open_with_input<'a, I: Images>(
    alloc: Global,
    images: &mut I,
    file: StackFile<'a, '_>,
    source: &'a str,
) -> Result<(OpenStack<I::Dev>, OpenImage<I::Dev>), OpeningFault<'a>>
    ensures ok { IfOk result (OpensWithInput I.relations I.Dev.state images.old images.new file.entry source.now) }
    ensures err { IfErr result (FailsWithInput I.relations I.Dev.state images.old images.new file.entry source.now) }
{
    let text = read_stack(images, file.path)?;
    let image = open_apart(images, &[text_use(&text)], source, false)?;
    let input = FileUse {
        id: image.id,
        writable: false,
        part: None,
    };
    let files = [text_use(&text), input];
    let OpenLeaves { leaves, devices } = open_all(alloc, images, &files, file.bindings)?;
    let over = OpenStack {
        text,
        leaves,
        devices,
    };
    Ok((over, image))
}
