//! The command `update`.
ghost use Rattle.std.specs.Prelude.{IfErr, OnOk};
ghost use Rattle.stack_commands.specs.Contexts.{DoesUpdate, EndsUpdate};

use crate::context::Context;
use crate::fault::CommandFault;
use command_line::UpdateWords;
use device_adapters::Watchers;
use image_commands::read_pin;
use image_files::Images;
use std::alloc::Global;
use std::io::Write;
use update_commands::{UpdateOrder, update_images};
use verity_commands::VerityFault;

/// `update [--json] [--no-index] [--progress] --pin FILE DATA HASH NEWDATA NEWHASH [COPY ..]`: the pin is read before an image is opened.
///
/// # Errors
///
/// - `Verity` if the file of the pin can't be read or is invalid.
/// - `Trees` if the update ended early, or blocks are lost.
pub fn update_image<'a, I: Images, S: Watchers, W: Write>(
    alloc: Global,
    context: Context<'_, I, W>,
    watchers: &S,
    words: &UpdateWords<'a>,
) -> Result<(), CommandFault<'a>>
    ensures ok { OnOk result (DoesUpdate I.relations I.Dev.state W.contents context.entry context.exit words.now) }
    ensures err { IfErr result (EndsUpdate I.relations I.Dev.state W.contents context.entry context.exit words.now) }
{
    let Context { images, writer } = context;
    let pin = match read_pin(images, words.pin) {
        Ok(pin) => pin,
        Err(fault) => return Err(CommandFault::Verity(VerityFault::Image(fault))),
    };
    let order = UpdateOrder {
        data: words.data_path,
        hash: words.hash_path,
        release_hash: words.release_hash,
        pin,
        pin_path: words.pin,
        no_index: words.no_index,
        progress: words.progress,
        json: words.json,
    };
    let copies = words.copies.as_slice();
    Ok(update_images(alloc, images, watchers, &order, copies, writer)?)
}
