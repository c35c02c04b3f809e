//! Closes the images that a stack uses.
ghost use Rattle.stack_files.specs.Closings.{GivesStackBack, SyncsAndGivesBack};

use crate::leaf_closing::close_each;
use block_device::BlockDev;
use command_line::Binding;
use image_files::Images;
use stack_engine::{IoFault, Stack};

/// Closes the images of the bindings, in the state of the stack's backing devices.
pub fn close_stack<I: Images>(images: &mut I, bindings: &[Binding<'_>], stack: Stack<I::Dev>)
    ensures { GivesStackBack I.relations I.Dev.state images.old images.new bindings.now stack.leaves }
{
    let (_, devices) = stack.into_parts();
    close_each(images, bindings, devices);
}

/// Syncs what was written to the backing devices as far as possible, and closes the images.
///
/// # Errors
///
/// The first fault of a sync; the images are closed nevertheless.
pub fn sync_and_close<I: Images>(
    images: &mut I,
    bindings: &[Binding<'_>],
    mut stack: Stack<I::Dev>,
) -> Result<(), IoFault>
    ensures { SyncsAndGivesBack I.relations I.Dev.state images.old images.new bindings.now stack.leaves result }
{
    let synced = stack.sync();
    close_stack(images, bindings, stack);
    synced
}
