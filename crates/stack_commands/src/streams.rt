//! The commands `cat` and `store`: the bytes of a device.
ghost use Rattle.std.specs.Prelude.{OnOk, IfErr};
ghost use Rattle.stack_files.specs.Warnings.{notes_of};
ghost use Rattle.stack_commands.specs.Contexts.{DoesCat, EndsCat, NotesOfCat};
ghost use Rattle.stack_commands.specs.Served.{DoesStore, EndsStore, NotesOfStore};

use crate::context::Context;
use crate::fault::CommandFault;
use crate::words::stack_file;
use command_line::{CatWords, StoreWords};
use device_adapters::Progress;
use image_files::Images;
use program_io::Counted;
use stack_files::ErrorOutput;
use std::alloc::Global;
use std::io::{Read, Write};
use transfer_commands::{Target, Wanted, cat_device, store_device, store_file};

/// `cat [--cache N] [--progress] [--first N] [--count N] STACK NAME BINDING...`: writes the bytes of sectors of a device.
///
/// # Errors
///
/// `Stream` with a fault of `cat_device`.
pub fn invoke_cat<'a, I: Images, W: Write, E: Write, P: Progress>(
    alloc: Global,
    context: Context<'_, I, W>,
    words: CatWords<'a>,
    errors: &mut Counted<E>,
    progress: &mut P,
) -> Result<(), CommandFault<'a>>
    ensures ok { OnOk result (DoesCat I.relations I.Dev.state W.contents context.entry context.exit words.entry) }
    ensures err { IfErr result (EndsCat I.relations I.Dev.state W.contents context.entry context.exit words.entry) }
    ensures noted { NotesOfCat I.relations I.Dev.state W.contents context.entry context.exit words.entry (notes_of E.contents errors.old errors.new) }
{
    let Context { images, writer } = context;
    let CatWords {
        cache,
        first,
        count,
        stack,
        name,
        bindings,
        progress: is_shown,
    } = words;
    if is_shown {
        progress.begin();
    }
    let wanted = Wanted {
        name,
        first,
        count,
        cache,
    };
    let file = stack_file(stack, &bindings);
    let output = ErrorOutput { errors, progress };
    Ok(cat_device(alloc, images, file, wanted, writer, output)?)
}

/// `store [--cache N] [--progress] [--first N] STACK NAME SOURCE BINDING...`: writes the bytes of SOURCE, which is `-`, the input,
/// or a file, to a device.
///
/// # Errors
///
/// `Stream` with a fault of `store_device` or `store_file`.
pub fn invoke_store<'a, I: Images, S: Read, W: Write, E: Write, P: Progress>(
    alloc: Global,
    images: &mut I,
    words: StoreWords<'a>,
    reader: &mut Counted<S>,
    writer: &mut Counted<W>,
    output: ErrorOutput<'_, E, P>,
) -> Result<(), CommandFault<'a>>
    ensures ok { OnOk result (DoesStore I.relations I.Dev.state S.remaining W.contents images.old images.new reader.old reader.new writer.old writer.new words.entry) }
    ensures err { IfErr result (EndsStore I.relations I.Dev.state S.remaining W.contents images.old images.new reader.old reader.new writer.old writer.new words.entry) }
    ensures noted { NotesOfStore I.relations I.Dev.state images.old images.new words.entry (notes_of E.contents output.entry.errors.now output.exit.0.now) }
{
    let StoreWords {
        cache,
        first,
        stack,
        name,
        source,
        bindings,
        progress: is_shown,
    } = words;
    let ErrorOutput { errors, progress } = output;
    if is_shown {
        progress.begin();
    }
    let target = Target { name, first, cache };
    let file = stack_file(stack, &bindings);
    let output = ErrorOutput { errors, progress };
    if source == "-" {
        Ok(store_device(alloc, images, file, target, reader, writer, output)?)
    } else {
        Ok(store_file(alloc, images, file, target, source, writer, output)?)
    }
}
