//! The files of a command on a stack file, beside a file in use that the command replaces: the stack text, an image to copy to,
//! and the bindings.
ghost use Rattle.std.specs.Prelude.{◌≡◌, true, IfOk, IfErr};
ghost use Rattle.image_files.specs.Opener.{calls};
ghost use Rattle.stack_files.specs.StacksApart.{FailsApartBy, FailsWithOutput, IsTextEndApart, OpensApartBy, OpensWithOutput, TellsApart};

use crate::leaves::{OpenLeaves, open_all};
use crate::opening_fault::OpeningFault;
use crate::source::read_stack;
use crate::stack_file::{OpenStack, StackFile, text_use};
use block_device::{BlockDev, OpenFault};
use image_files::{
    FileText, FileUse, Images, OpenImage, UnopenedFile, has_clash, image_use, open_apart,
};
use std::alloc::Global;

// Reads the text of a stack file, which mustn't be the file in use.
fn read_apart<'a, I: Images>(
    images: &mut I,
    used: FileUse,
    path: &'a str,
) -> Result<FileText, OpeningFault<'a>>
    ensures ok { IfOk result (TellsApart (calls I.relations I.Dev.state images.old images.new) used path.now) }
    ensures err { IfErr result (IsTextEndApart (calls I.relations I.Dev.state images.old images.new) used path.now) }
{
    let text = read_stack(images, path)?;
    if has_clash(&[used], text_use(&text)) {
        let fault = OpenFault::SameFile;
        return Err(OpeningFault::Open(UnopenedFile { fault, path }));
    }
    Ok(text)
}

/// Reads a stack file, and then opens the bindings' backing devices, beside a file in use.
///
/// # Errors
///
/// - `NoMemory` if an allocation was refused.
/// - `TooLong` if the stack file has more than 1 MiB.
/// - `Open` if a file can't be opened or read, or conflicts with an open one or the file in use.
/// - `Outside` if a binding's part isn't within its file.
pub fn open_stack_apart<'a, I: Images>(
    alloc: Global,
    images: &mut I,
    used: FileUse,
    file: StackFile<'a, '_>,
) -> Result<OpenStack<I::Dev>, OpeningFault<'a>>
    ensures ok { IfOk result (OpensApartBy I.relations I.Dev.state images.old images.new used file.entry) }
    ensures err { IfErr result (FailsApartBy I.relations I.Dev.state images.old images.new used file.entry) }
{
    let text = read_apart(images, used, file.path)?;
    let files = [text_use(&text), used];
    let OpenLeaves { leaves, devices } = open_all(alloc, images, &files, file.bindings)?;
    Ok(OpenStack {
        text,
        leaves,
        devices,
    })
}

/// Reads a stack file, then opens an image to copy to, which mustn't be the stack file, and then the bindings, beside a file in use.
///
/// # Errors
///
/// The faults of `open_stack_apart`; `Open` also if the image can't be opened, or is the stack file or the file in use.
pub fn open_with_output<'a, I: Images>(
    alloc: Global,
    images: &mut I,
    used: FileUse,
    file: StackFile<'a, '_>,
    out: &'a str,
) -> Result<(OpenStack<I::Dev>, OpenImage<I::Dev>), OpeningFault<'a>>
    ensures ok { IfOk result (OpensWithOutput I.relations I.Dev.state images.old images.new used file.entry out.now) }
    ensures writable { IfOk result (λ both. (I.Dev.state both.1.device).may_write ≡ true) }
    ensures err { IfErr result (FailsWithOutput I.relations I.Dev.state images.old images.new used file.entry out.now) }
{
    let text = read_apart(images, used, file.path)?;
    let image = open_apart(images, &[text_use(&text), used], out, true)?;
    let files = [text_use(&text), used, image_use(&image, true)];
    let OpenLeaves { leaves, devices } = open_all(alloc, images, &files, file.bindings)?;
    let over = OpenStack {
        text,
        leaves,
        devices,
    };
    Ok((over, image))
}
