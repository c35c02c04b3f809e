//! Parts of files, as arguments name them.
ghost use Rattle.std.specs.Prelude.{◌≡◌, ◌==◌, option_map};
ghost use Rattle.std.specs.List.{list_any};
ghost use Rattle.command_line.specs.FilePlaces.{file_place_of, file_place_record, has_slash, partition_label, named_partition, named_partition_record, partition_number, partition_place, partition_uuid, sectors_place, uuid_or_label};

use crate::image_options::identifier_of;
use crate::part_bindings::{FilePart, part_of};
use table_text::number;

const PARTITIONS_END: u64 = 1 << 32;

const UUID_LENGTH: usize = 36;

/// Which partition an argument names, by its number, its UUID in the byte order of its text form, or its label.
#[derive(Clone, Copy, Debug, PartialEq, Eq)]
pub enum NamedPartition<'a> {
    Number(u32),
    Uuid([u8; 16]),
    Label(&'a str),
}

/// Which part of a file an argument names: some sectors, or a partition in the file's partition table.
#[derive(Clone, Copy, Debug, PartialEq, Eq)]
pub enum NamedPart<'a> {
    Sectors(FilePart),
    Partition(NamedPartition<'a>),
}

/// A part of the file under a path.
#[derive(Clone, Copy, Debug, PartialEq, Eq)]
pub struct FilePlace<'a> {
    pub path: &'a str,
    pub part: NamedPart<'a>,
}

/// Returns the part of a file that `FILE@FIRST+COUNT` or `FILE#PARTITION` names, split at the last `@` or `#`.
pub fn file_place_of(text: &str) -> Option<FilePlace<'_>>
    ensures is { option_map file_place_record result ≡ file_place_of text.now }
{
    match sectors_place(text) {
        Some(place) => Some(place),
        None => partition_place(text),
    }
}

// `FILE@FIRST+COUNT`
fn sectors_place(text: &str) -> Option<FilePlace<'_>>
    ensures { option_map file_place_record result ≡ sectors_place text.now }
{
    let (path, place) = text.rsplit_once('@')?;
    let part = NamedPart::Sectors(part_of(place)?);
    Some(FilePlace { path, part })
}

// `FILE#PARTITION`
fn partition_place(text: &str) -> Option<FilePlace<'_>>
    ensures { option_map file_place_record result ≡ partition_place text.now }
{
    let (path, word) = text.rsplit_once('#')?;
    let part = NamedPart::Partition(named_partition(word)?);
    Some(FilePlace { path, part })
}

/// Returns the partition that a word names: a number from 1 to 2^32 - 1, else a UUID of 36 characters, else a label.
pub fn named_partition(word: &str) -> Option<NamedPartition<'_>>
    ensures { option_map named_partition_record result ≡ named_partition word.now }
{
    match partition_number(word) {
        Some(number) => Some(NamedPartition::Number(number)),
        None => uuid_or_label(word),
    }
}

fn uuid_or_label(word: &str) -> Option<NamedPartition<'_>>
    ensures { option_map named_partition_record result ≡ uuid_or_label word.now }
{
    match partition_uuid(word) {
        Some(uuid) => Some(NamedPartition::Uuid(uuid)),
        None => partition_label(word),
    }
}

// From 1 to 2^32 - 1.
fn partition_number(word: &str) -> Option<u32>
    ensures { result ≡ partition_number word.now }
{
    let number = number(word.as_bytes())?;
    if number < 1 || number >= PARTITIONS_END {
        return None;
    }
    Some(number as u32)
}

// 8-4-4-4-12 hexadecimal digits; the other forms of a UUID have other lengths.
fn partition_uuid(word: &str) -> Option<[u8; 16]>
    ensures { result ≡ partition_uuid word.now }
{
    if word.len() != UUID_LENGTH {
        return None;
    }
    identifier_of(word)
}

// A text with a `/` is rather a path of a file, whose folder has a `#` in its name.
fn partition_label(word: &str) -> Option<NamedPartition<'_>>
    ensures { option_map named_partition_record result ≡ partition_label word.now }
{
    if word.is_empty() || has_slash(word) {
        return None;
    }
    Some(NamedPartition::Label(word))
}

fn has_slash(word: &str) -> bool
    ensures { result ≡ has_slash word.now }
{
    word.as_bytes().iter().any(|b| *b == b'/')
}
