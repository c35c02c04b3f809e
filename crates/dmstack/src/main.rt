//! The program: passes the command line, standard input and standard output to `stack_commands`.
#![tactic(auto)]

mod journal;
mod lines;
mod output;
mod system;

use image_files::{FileImages, SystemCalls};
use journal::is_journal;
use lines::Lines;
use output::Output;
use program_io::Counted;
use stack_commands::{CommandFault, command, end, writes_data};
use std::fs::File;
use std::io::{BufWriter, ErrorKind, Write};
use std::process::ExitCode;
use std::rt::Env;
use std::{env, io};
use system::System;

fn main(rt: HostRuntime) -> ExitCode {
    // A directory replaces a closed standard stream: otherwise the first image would get its descriptor, and the replies.
    let _input = File::open(&rt, "/");
    let _output = File::open(&rt, "/");
    let _errors = File::open(&rt, "/");
    let Ok(lines) = Lines::new(rt.alloc(), rt.stderr(), is_service(&rt)) else {
        return end_without_memory(&rt, io::writer(&rt), rt.stderr());
    };
    let Ok(buffered) = BufWriter::new(rt.alloc(), Output::new(io::writer(&rt))) else {
        return end_without_memory(&rt, io::writer(&rt), rt.stderr());
    };
    let mut errors = Counted::new(lines);
    let mut reader = Counted::new(rt.reader());
    let mut writer = Counted::new(buffered);
    let mut images = FileImages::new(&rt, SystemCalls::new(&rt));
    let mut system = System::new(&rt, is_service(&rt) && is_journal(&rt));
    let status = match words_of(&rt) {
        Ok(words) => command(
            rt.alloc(),
            &mut images,
            &mut system,
            &words,
            &mut reader,
            &mut writer,
            &mut errors,
        ),
        Err(error) if error.kind() == ErrorKind::OutOfMemory => {
            end_unread(&rt, &mut writer, &mut errors, CommandFault::NoMemory)
        }
        Err(_) => end_unread(&rt, &mut writer, &mut errors, CommandFault::Usage(None)),
    };
    let status = if writer.flush().is_ok() { status } else { 1 };
    let failed = writer.failed();
    let is_closed = writer.into_inner().get_ref().is_closed();
    if failed && !is_silent(&rt, is_closed) {
        let _said = errors.put(b"dmstack: standard output failed\n");
    }
    ExitCode::from(status)
}

// Prints why a command ends whose arguments can't all be read; on standard error if its output is data.
fn end_unread<R: Env, W: Write, E: Write>(
    rt: &R,
    writer: &mut Counted<W>,
    errors: &mut Counted<E>,
    fault: CommandFault<'_>,
) -> u8 {
    if is_data(rt) {
        end(errors, fault)
    } else {
        end(writer, fault)
    }
}

// Prints that memory ran out before the command.
fn end_without_memory<R: Env, W: Write + Drop, E: Write + Drop>(
    rt: &R,
    writer: W,
    errors: E,
) -> ExitCode {
    let mut writer = Counted::new(writer);
    let mut errors = Counted::new(errors);
    ExitCode::from(end_unread(rt, &mut writer, &mut errors, CommandFault::NoMemory))
}

// The first argument, if it has at most four bytes, as the names of `cat` and `nbd` have.
fn short_name<'b, R: Env>(rt: &R, buffer: &'b mut [u8; 4]) -> Option<&'b [u8]> {
    let Ok(length) = rt.arg(1, buffer) else {
        return None;
    };
    buffer.get(..length)
}

// Whether the output is data for another program, by the first argument.
fn is_data<R: Env>(rt: &R) -> bool {
    match short_name(rt, &mut [0; 4]) {
        Some(name) => writes_data(name),
        None => false,
    }
}

// Whether the command is `nbd`.
fn is_service<R: Env>(rt: &R) -> bool {
    short_name(rt, &mut [0; 4]) == Some(b"nbd".as_slice())
}

// Whether a failed output isn't reported: `nbd` has lines of its own, and the reader of `cat` may close it.
fn is_silent<R: Env>(rt: &R, is_closed: bool) -> bool {
    match short_name(rt, &mut [0; 4]) {
        Some(name) => name == b"nbd".as_slice() || is_closed && name == b"cat".as_slice(),
        None => false,
    }
}

// The arguments after the program's name. An argument that isn't UTF-8 has an error kind other than `OutOfMemory`.
fn words_of<R: Env + AllocGlobal>(rt: &R) -> io::Result<Vec<String>> {
    let mut words = env::args(rt)?;
    let _ = words.next();
    Ok(words.collect(rt.alloc())?)
}
