//! The whole program: its words, a reader and a writer in, the status out.
ghost use Rattle.std.specs.Prelude.{false, true, ◌≡◌, ◌⊎◌, ℕ, List, Option, map, string_bytes, OnOk, IfOk, IfErr};
ghost use Rattle.program_io.specs.Streams.{streams};
ghost use Rattle.command_line.specs.FormatOptions.{text_of};
ghost use Rattle.image_commands.specs.Drawing.{drawing};
ghost use Rattle.image_files.specs.Opener.{calls};
ghost use Rattle.stack_files.specs.Warnings.{notes_of};
ghost use Rattle.stack_commands.specs.Commands.{EndsCommand, ExplainsEnd, ExplainsUsage, IsCommandDone, IsRepeated, is_usage, misuse_of, object_asked, output_is_data, said_message, told_to, writes_data};
ghost use Rattle.stack_commands.specs.Contexts.{IsToldAs};
ghost use Rattle.stack_commands.specs.Lines.{DoesWords, EndsUnresolved, EndsWords, ResolvesLine};
ghost use Rattle.stack_commands.specs.ServiceLog.{journal_record};
ghost use Rattle.stack_commands.specs.Uses.{uses};

use crate::command_end::CommandEnd;
use crate::ending::{end, end_as};
use crate::fault::CommandFault;
use crate::invocation::invoke;
use crate::messages::commands::ending_message;
use command_line::{Misuse, bindings_in, with_bindings};
use command_parser::{CommandLine, parse};
use device_adapters::{Progress, Watchers};
use fec_commands::FecFault;
use image_commands::Generators;
use image_files::Images;
use manual_pages::{print_message, print_usage_error};
use nbd_server::Journal;
use program_io::{Counted, WriteFault};
use stack_files::resolve_bindings;
use std::alloc::Global;
use std::io::{Read, Write};
use verity_commands::VerityFault;

const DONE: u8 = 0;

const UNPRINTED: u8 = 1;

/// Runs the words after the program's name, and returns the exit status: 0 done, 1 refused, 2 usage, 3 a fault of
/// the stack or images that differ, 4 a client that breaks the NBD protocol.
///
/// All that is opened is opened by `images`. Why `cat` and `nbd` end early goes to `errors`, since what they write is
/// data for another program; so do the explanation of a usage error, beside `usage`, the sentence on any other end, and the
/// warnings of the table that `partitions` finds, or of a stack.
/// If the writer fails, `errors` gets the reason of every other command, too.
pub fn command<
    I: Images,
    G: Generators + Progress + Watchers + Journal,
    S: Read,
    W: Write,
    E: Write,
>(
    alloc: Global,
    images: &mut I,
    generators: &mut G,
    words: &[String],
    reader: &mut Counted<S>,
    writer: &mut Counted<W>,
    errors: &mut Counted<E>,
) -> u8
    requires reader { reader.old.failed ≡ false }
    requires writer { writer.old.failed ≡ false }
    ensures { ((result ≡ 0) × IsCommandDone (map string_bytes words.now) (uses (calls I.relations I.Dev.state images.old images.new) (drawing G.gives G.Generator.stream generators.old generators.new) (streams (S.remaining reader.old.inner) (W.contents writer.old.inner)) (streams (S.remaining reader.new.inner) (W.contents writer.new.inner)) (notes_of E.contents errors.old errors.new) (journal_record G.priorities G.shows generators.old)))
        ⊎ EndsCommand (uses (calls I.relations I.Dev.state images.old images.new) (drawing G.gives G.Generator.stream generators.old generators.new) (streams (S.remaining reader.old.inner) (W.contents writer.old.inner)) (streams (S.remaining reader.new.inner) (W.contents writer.new.inner)) (notes_of E.contents errors.old errors.new) (journal_record G.priorities G.shows generators.old)) (told_to (map string_bytes words.now) writer.new.failed (E.contents errors.old.inner) (E.contents errors.new.inner) errors.new.failed) result }
{
    match run(alloc, images, generators, words, reader, writer, errors) {
        Ok(()) => DONE,
        Err(ended) => {
            let CommandEnd { fault, json, quiet } = ended;
            explain(errors, words, fault, quiet);
            if output_is_data(words) {
                end(errors, fault)
            } else {
                report_end(alloc, writer, errors, fault, json)
            }
        }
    }
}

// Prints why a command ends early, as an object if `json` is set, and returns its status. If the writer failed, the reason is
// printed among the errors too. If it is the reason that wasn't written, the status is 1.
fn report_end<W: Write, E: Write>(
    alloc: Global,
    writer: &mut Counted<W>,
    errors: &mut Counted<E>,
    fault: CommandFault<'_>,
    json: bool,
) -> u8
    ensures told { IsToldAs W.contents writer.old writer.new json fault.entry result }
    ensures failed { writer.old.failed ≡ true → writer.new.failed ≡ true }
    ensures errors_failed { errors.old.failed ≡ true → errors.new.failed ≡ true }
    ensures errors { IsRepeated writer.new.failed fault.entry (E.contents errors.old.inner) (E.contents errors.new.inner) errors.new.failed }
{
    let status = end_as(alloc, writer, fault, json);
    let flushed = writer.flush();
    if writer.failed() {
        let _repeated = end(errors, fault);
    }
    match flushed {
        Ok(()) => status,
        Err(WriteFault) => UNPRINTED,
    }
}

// Explains on standard error why a command ends early: which argument keeps the arguments from being a command, or a sentence on
// the refusal or fault.
fn explain<E: Write>(
    errors: &mut Counted<E>,
    words: &[String],
    fault: CommandFault<'_>,
    quiet: bool,
)
    ensures usage { is_usage fault.entry ≡ true → ExplainsUsage fault.entry (map string_bytes words.now) (E.contents errors.old.inner) (E.contents errors.new.inner) errors.new.failed }
    ensures end { is_usage fault.entry ≡ false → ExplainsEnd quiet fault.entry (E.contents errors.old.inner) (E.contents errors.new.inner) errors.new.failed }
    ensures failed { errors.old.failed ≡ true → errors.new.failed ≡ true }
{
    if is_usage(fault) {
        print_misuse(errors, words, fault);
    } else {
        print_reason(errors, fault, quiet);
    }
}

fn print_misuse<E: Write>(errors: &mut Counted<E>, words: &[String], fault: CommandFault<'_>)
    ensures printed { ExplainsUsage fault.entry (map string_bytes words.now) (E.contents errors.old.inner) (E.contents errors.new.inner) errors.new.failed }
    ensures failed { errors.old.failed ≡ true → errors.new.failed ≡ true }
{
    let misuse = misuse_of(fault);
    let _said = print_usage_error(errors, words, misuse);
}

// The misused argument that a usage error names.
fn misuse_of<'a>(fault: CommandFault<'a>) -> Option<Misuse<'a>>
    ensures { result ≡ misuse_of fault.entry }
{
    match fault {
        CommandFault::Usage(misuse) => misuse,
        _ => None,
    }
}

// Prints the sentence on an end, if there is one and the options don't leave it out.
fn print_reason<E: Write>(errors: &mut Counted<E>, fault: CommandFault<'_>, quiet: bool)
    ensures printed { ExplainsEnd quiet fault.entry (E.contents errors.old.inner) (E.contents errors.new.inner) errors.new.failed }
    ensures failed { errors.old.failed ≡ true → errors.new.failed ≡ true }
{
    match said_message(fault, quiet) {
        Some(message) => {
            let _said = print_message(errors, message);
        }
        None => {}
    }
}

// The sentence on an end, if there is one and the options don't leave it out.
fn said_message(fault: CommandFault<'_>, quiet: bool) -> Option<&'static str>
    ensures { text_of result ≡ said_message quiet fault.entry }
{
    if quiet { None } else { ending_message(fault) }
}

// Whether the words are no command.
fn is_usage(fault: CommandFault<'_>) -> bool
    ensures { result ≡ is_usage fault.entry }
{
    match fault {
        CommandFault::Usage(_) => true,
        CommandFault::Verity(fault) => fault == VerityFault::Usage,
        CommandFault::Fec(FecFault::Verity(fault)) => fault == VerityFault::Usage,
        _ => false,
    }
}

/// Whether the command of that name writes data for another program, so that its output must have no line of text.
pub fn writes_data(name: &[u8]) -> bool
    ensures { result ≡ writes_data name.now }
{
    name == b"cat".as_slice() || name == b"nbd".as_slice()
}

// Whether that of the words does.
fn output_is_data(words: &[String]) -> bool
    ensures { result ≡ output_is_data (map string_bytes words.now) }
{
    match words {
        [name, ..] => writes_data(name.as_bytes()),
        [] => false,
    }
}

// The line with the partitions that its bindings name as parts of their disks.
fn resolve_line<'a, I: Images>(
    alloc: Global,
    images: &mut I,
    line: CommandLine<'a>,
) -> Result<CommandLine<'a>, CommandEnd<'a>>
    ensures ok { IfOk result (ResolvesLine I.relations I.Dev.state images.old images.new line.entry) }
    ensures err { IfErr result (EndsUnresolved I.relations I.Dev.state images.old images.new line.entry) }
{
    let CommandLine {
        invocation,
        options,
    } = line;
    match resolve_bindings(alloc, images, bindings_in(&invocation)) {
        Ok(bindings) => Ok(CommandLine {
            invocation: with_bindings(invocation, bindings),
            options,
        }),
        Err(fault) => Err(command_end(CommandFault::Stack(fault), options.json, options.quiet)),
    }
}

// Files are opened in the order of the words, once all words are read and the partitions are looked up.
fn run<'a, I: Images, G: Generators + Progress + Watchers + Journal, S: Read, W: Write, E: Write>(
    alloc: Global,
    images: &mut I,
    generators: &mut G,
    words: &'a [String],
    reader: &mut Counted<S>,
    writer: &mut Counted<W>,
    errors: &mut Counted<E>,
) -> Result<(), CommandEnd<'a>>
    requires reader { reader.old.failed ≡ false }
    requires writer { writer.old.failed ≡ false }
    ensures ok { OnOk result (DoesWords I.relations I.Dev.state S.remaining W.contents images.old images.new (drawing G.gives G.Generator.stream generators.old generators.new) reader.old reader.new writer.old writer.new (notes_of E.contents errors.old errors.new) (journal_record G.priorities G.shows generators.old) (map string_bytes words.now)) }
    ensures err { IfErr result (EndsWords I.relations I.Dev.state S.remaining W.contents images.old images.new (drawing G.gives G.Generator.stream generators.old generators.new) reader.old reader.new writer.old writer.new (notes_of E.contents errors.old errors.new) (journal_record G.priorities G.shows generators.old) (map string_bytes words.now)) }
{
    let said = parse(alloc, words)?;
    let line = resolve_line(alloc, images, said)?;
    let (json, quiet) = (line.options.json, line.options.quiet);
    match invoke(alloc, images, generators, line, reader, writer, errors) {
        Ok(()) => Ok(()),
        Err(fault) => Err(command_end(fault, json, quiet)),
    }
}

// How a command ends early, with `--json` and `--quiet` or without them: `usage` stays a line.
fn command_end(fault: CommandFault<'_>, json: bool, quiet: bool) -> CommandEnd<'_>
    ensures { result ≡ record { fault = fault.entry; json = object_asked json fault.entry; quiet = quiet } }
{
    CommandEnd {
        fault,
        json: json && !is_usage(fault),
        quiet,
    }
}
