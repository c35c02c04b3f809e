//! Runs the command that a command line invokes.
ghost use Rattle.std.specs.Prelude.{false, ◌≡◌, OnOk, IfErr};
ghost use Rattle.image_commands.specs.Drawing.{drawing};
ghost use Rattle.stack_commands.specs.Contexts.{EndsPage, ShowsPage};
ghost use Rattle.stack_files.specs.Warnings.{notes_of};
ghost use Rattle.stack_commands.specs.Lines.{DoesLine, EndsLine, NotesLine};
ghost use Rattle.stack_commands.specs.ServiceLog.{journal_record};

use crate::client::Client;
use crate::context::Context;
use crate::copy::invoke_copy;
use crate::diff::compare_images;
use crate::fault::CommandFault;
use crate::load::invoke_load;
use crate::nbd::{invoke_exports, invoke_nbd};
use crate::read::invoke_read;
use crate::repair::repair_image;
use crate::scan::invoke_scan;
use crate::serve::invoke_session;
use crate::streams::{invoke_cat, invoke_store};
use crate::tree_verify::check_tree;
use crate::update::update_image;
use crate::verify::check_image;
use crate::write::invoke_write;
use assemble_commands::invoke_assemble;
use command_line::Invocation;
use command_parser::CommandLine;
use device_adapters::{Progress, Watchers};
use fec_commands::{invoke_format_fec, invoke_table_fec, invoke_verify_fec};
use find_commands::invoke_find;
use image_commands::Generators;
use image_files::Images;
use manual_pages::{page_of, print_page, print_version};
use nbd_server::Journal;
use partition_commands::invoke_partitions;
use program_io::Counted;
use stack_files::ErrorOutput;
use std::alloc::Global;
use std::io::{Read, Write};
use verity_commands::{invoke_dump, invoke_format, invoke_table, invoke_table_tree};

/// Runs the command of a command line. The line's options state an image's tree.
///
/// # Errors
///
/// That of the command, in the variant of its crate's fault.
pub fn invoke<
    'a,
    I: Images,
    G: Generators + Progress + Watchers + Journal,
    S: Read,
    W: Write,
    E: Write,
>(
    alloc: Global,
    images: &mut I,
    generators: &mut G,
    line: CommandLine<'a>,
    reader: &mut Counted<S>,
    writer: &mut Counted<W>,
    errors: &mut Counted<E>,
) -> Result<(), CommandFault<'a>>
    requires reader { reader.old.failed ≡ false }
    requires writer { writer.old.failed ≡ false }
    ensures ok { OnOk result (DoesLine I.relations I.Dev.state S.remaining W.contents images.old images.new (drawing G.gives G.Generator.stream generators.old generators.new) reader.old reader.new writer.old writer.new (notes_of E.contents errors.old errors.new) (journal_record G.priorities G.shows generators.old) line.entry) }
    ensures err { IfErr result (EndsLine I.relations I.Dev.state S.remaining W.contents images.old images.new (drawing G.gives G.Generator.stream generators.old generators.new) reader.old reader.new writer.old writer.new (notes_of E.contents errors.old errors.new) (journal_record G.priorities G.shows generators.old) line.entry) }
    ensures noted { NotesLine I.relations I.Dev.state S.remaining W.contents images.old images.new (drawing G.gives G.Generator.stream generators.old generators.new) reader.old reader.new writer.old writer.new (notes_of E.contents errors.old errors.new) (journal_record G.priorities G.shows generators.old) line.entry }
{
    let CommandLine {
        invocation,
        options,
    } = line;
    match invocation {
        Invocation::Load(words) => { invoke_load(alloc, Context { images, writer }, words, errors) }
        Invocation::Read(words) => invoke_read(alloc, Context { images, writer }, words, errors),
        Invocation::Write(words) => invoke_write(alloc, Context { images, writer }, words, errors),
        Invocation::Session(words) => {
            invoke_session(alloc, images, words, reader, writer, errors)
        }
        Invocation::Nbd(words) => {
            let client = Client {
                reader,
                writer,
                errors,
                quiet: options.quiet,
                journal: &*generators,
            };
            invoke_nbd(alloc, images, words, client)
        }
        Invocation::Exports(words) => {
            let client = Client {
                reader,
                writer,
                errors,
                quiet: options.quiet,
                journal: &*generators,
            };
            invoke_exports(alloc, images, words, client)
        }
        Invocation::Scan(words) => {
            invoke_scan(alloc, Context { images, writer }, words, errors, generators)
        }
        Invocation::Copy(words) => {
            invoke_copy(alloc, Context { images, writer }, words, errors, generators)
        }
        Invocation::Cat(words) => {
            invoke_cat(alloc, Context { images, writer }, words, errors, generators)
        }
        Invocation::Store(words) => {
            let output = ErrorOutput {
                errors,
                progress: generators,
            };
            invoke_store(alloc, images, words, reader, writer, output)
        }
        Invocation::Format(words) => {
            Ok(invoke_format(alloc, images, generators, &words, &options, writer)?)
        }
        Invocation::Verify(words) => {
            check_image(alloc, Context { images, writer }, generators, &words)
        }
        Invocation::Dump(words) => Ok(invoke_dump(alloc, images, &words, writer)?),
        Invocation::Table(words) => Ok(invoke_table(alloc, images, &words, writer)?),
        Invocation::Partitions(words) => {
            Ok(invoke_partitions(alloc, images, &words, writer, errors)?)
        }
        Invocation::Diff(words) => {
            compare_images(alloc, Context { images, writer }, &words, &options)
        }
        Invocation::Repair(words) => {
            repair_image(alloc, Context { images, writer }, &words, &options)
        }
        Invocation::Update(words) => {
            update_image(alloc, Context { images, writer }, generators, &words)
        }
        Invocation::Find(words) => Ok(invoke_find(alloc, images, &words, writer)?),
        Invocation::Assemble(words) => {
            Ok(invoke_assemble(alloc, images, generators, &words, writer)?)
        }
        Invocation::VerifyTree(words) => {
            check_tree(
                alloc,
                Context { images, writer },
                generators,
                &words,
                &options,
            )
        }
        Invocation::TableTree(words) => {
            Ok(invoke_table_tree(alloc, images, &words, &options, writer)?)
        }
        Invocation::FormatFec(words) => {
            Ok(invoke_format_fec(alloc, images, generators, &words, &options, writer)?)
        }
        Invocation::VerifyFec(words) => {
            Ok(invoke_verify_fec(alloc, images, generators, &words, &options, writer)?)
        }
        Invocation::TableFec(words) => Ok(invoke_table_fec(
            alloc, images, &words, &options, writer,
        )?),
        Invocation::Manual(command) => show_page(command, writer),
        Invocation::Version => Ok(print_version(writer)?),
    }
}

// The page of a command, or of the program.
fn show_page<'a, W: Write>(
    command: Option<&'a str>,
    writer: &mut Counted<W>,
) -> Result<(), CommandFault<'a>>
    ensures ok { OnOk result (ShowsPage W.contents writer.old writer.new command.entry) }
    ensures err { IfErr result (EndsPage W.contents writer.old writer.new command.entry) }
{
    match page_of(command) {
        Some(page) => Ok(print_page(writer, page)?),
        None => Err(CommandFault::Usage(None)),
    }
}
