//! The names that a command line binds to devices.
ghost use Rattle.std.specs.Prelude.{◌≡◌, option_map};
ghost use Rattle.command_line.specs.Bindings.{backing_by, backing_record, backing_of, binding_record, binding_of, mapped_backing, named_backing, part_backing, partition_backing, placed_backing, sectors_at};

use crate::file_place::NamedPartition;
use crate::map_bindings::kind_map;
use crate::part_bindings::{FilePart, kind_part};
use crate::partition_bindings::kind_partition;
use table_text::number;

const MOST_SECTORS: u64 = 65536;

/// What a name is bound to: a file or a part of one, a partition of a disk, or new sectors in memory.
#[derive(Clone, Copy)]
pub enum Backing<'a> {
    File {
        path: &'a str,
        writable: bool,
    },
    Part {
        path: &'a str,
        writable: bool,
        part: FilePart,
    },
    /// A partition in the partition table of the file.
    Partition {
        path: &'a str,
        writable: bool,
        named: NamedPartition<'a>,
    },
    /// A file that is only read, or a part of it, of which the sectors that a map of the file doesn't have can't be.
    Mapped {
        path: &'a str,
        map_file: &'a str,
        part: Option<FilePart>,
    },
    Zeros(u32),
    Ramp(u32),
}

/// A name and the device that it is bound to.
#[derive(Clone, Copy)]
pub struct Binding<'a> {
    pub name: &'a str,
    pub backing: Backing<'a>,
}

/// Returns the binding of a word, or `None` if the word is none: `NAME=rw:FILE`, `NAME=ro:FILE`, `NAME=rw@FIRST+COUNT:FILE`,
/// `NAME=ro@FIRST+COUNT:FILE`, `NAME=rw#PARTITION:FILE`, `NAME=ro#PARTITION:FILE`, `NAME=ro%MAP:FILE`,
/// `NAME=ro@FIRST+COUNT%MAP:FILE`, `NAME=zero:N` or `NAME=ramp:N`, split at the first `=`. FIRST, COUNT and N count sectors of 512
/// bytes; PARTITION is a number, a UUID or a label; MAP is a path.
pub fn binding_of(word: &str) -> Option<Binding<'_>>
    ensures { option_map binding_record result ≡ binding_of word.now }
{
    let (name, text) = word.split_once('=')?;
    let backing = backing_of(text)?;
    Some(Binding { name, backing })
}

// What the text after the `=` binds a name to, split at the first `:`.
fn backing_of(text: &str) -> Option<Backing<'_>>
    ensures { option_map backing_record result ≡ backing_of text.now }
{
    let (kind, rest) = text.split_once(':')?;
    backing_by(kind, rest)
}

// What the text after the colon binds a name to, by the kind before the colon.
fn backing_by<'a>(kind: &'a str, rest: &'a str) -> Option<Backing<'a>>
    ensures { option_map backing_record result ≡ backing_by kind.now rest.now }
{
    let word = kind.as_bytes();
    if word == b"rw".as_slice() {
        Some(Backing::File {
            path: rest,
            writable: true,
        })
    } else if word == b"ro".as_slice() {
        Some(Backing::File {
            path: rest,
            writable: false,
        })
    } else if word == b"zero".as_slice() {
        Some(Backing::Zeros(sectors_at(rest)?))
    } else if word == b"ramp".as_slice() {
        Some(Backing::Ramp(sectors_at(rest)?))
    } else {
        placed_backing(kind, rest)
    }
}

// A part of a file, or else a partition of it, or else one with a map.
fn placed_backing<'a>(kind: &'a str, rest: &'a str) -> Option<Backing<'a>>
    ensures { option_map backing_record result ≡ placed_backing kind.now rest.now }
{
    match part_backing(kind, rest) {
        Some(backing) => Some(backing),
        None => named_backing(kind, rest),
    }
}

// A partition of a file, or else one with a map.
fn named_backing<'a>(kind: &'a str, rest: &'a str) -> Option<Backing<'a>>
    ensures { option_map backing_record result ≡ named_backing kind.now rest.now }
{
    match partition_backing(kind, rest) {
        Some(backing) => Some(backing),
        None => mapped_backing(kind, rest),
    }
}

// `rw@FIRST+COUNT` or `ro@FIRST+COUNT` before the colon.
fn part_backing<'a>(kind: &str, rest: &'a str) -> Option<Backing<'a>>
    ensures { option_map backing_record result ≡ part_backing kind.now rest.now }
{
    let (writable, part) = kind_part(kind)?;
    Some(Backing::Part {
        path: rest,
        writable,
        part,
    })
}

// `rw#PARTITION` or `ro#PARTITION` before the colon.
fn partition_backing<'a>(kind: &'a str, rest: &'a str) -> Option<Backing<'a>>
    ensures { option_map backing_record result ≡ partition_backing kind.now rest.now }
{
    let (writable, named) = kind_partition(kind)?;
    Some(Backing::Partition {
        path: rest,
        writable,
        named,
    })
}

// `ro%MAP` or `ro@FIRST+COUNT%MAP` before the colon.
fn mapped_backing<'a>(kind: &'a str, rest: &'a str) -> Option<Backing<'a>>
    ensures { option_map backing_record result ≡ mapped_backing kind.now rest.now }
{
    let (part, map_file) = kind_map(kind)?;
    Some(Backing::Mapped {
        path: rest,
        map_file,
        part,
    })
}

// From 1 to 65,536 sectors.
fn sectors_at(word: &str) -> Option<u32>
    ensures { result ≡ sectors_at word.now }
{
    let sectors = number(word.as_bytes())?;
    if sectors < 1 || sectors > MOST_SECTORS {
        return None;
    }
    Some(sectors as u32)
}
