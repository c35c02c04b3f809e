//! The command that a command line invokes.
ghost use Rattle.std.specs.Prelude.{◌≡◌, drop, find, option_copied};
ghost use Rattle.command_line.specs.FormatOptions.{option_texts, text_of, texts_of};
ghost use Rattle.command_line.specs.CommandWords.{invoked_by, is_option, late_option};
ghost use Rattle.command_line.specs.Misuses.{ReadsValue};
ghost use Rattle.command_line.specs.Invocations.{command_said, device_said, fec_said, image_said, invocation_said, pin_allowed, root_file_allowed, served_said, tree_said};
ghost use Rattle.command_line.specs.Reading.{ReadsCommand};

use crate::fault::WordsFault;
use crate::invocation::Invocation;
use crate::misuse::{Cause, Misuse, refuse_if};
use crate::option_words::{OptionWords, has_fec_value};
use crate::words::assemble::assemble_of;
use crate::words::cat::cat_of;
use crate::words::copy::copy_of;
use crate::words::diff::diff_of;
use crate::words::dump::dump_of;
use crate::words::exports::exports_of;
use crate::words::fec_format::fec_format_of;
use crate::words::fec_table::fec_table_of;
use crate::words::fec_verify::fec_verify_of;
use crate::words::find::find_of;
use crate::words::format::format_of;
use crate::words::load::load_of;
use crate::words::manual::{manual_of, version_of};
use crate::words::nbd::nbd_of;
use crate::words::partitions::partitions_of;
use crate::words::read::read_of;
use crate::words::repair::repair_of;
use crate::words::scan::scan_of;
use crate::words::session::session_of;
use crate::words::store::store_of;
use crate::words::table::table_of;
use crate::words::tree_table::tree_table_of;
use crate::words::tree_verify::tree_verify_of;
use crate::words::update::update_of;
use crate::words::verify::verify_of;
use crate::words::write::write_of;
use std::alloc::Global;

/// Returns the command of that name with the values of its options and its positional arguments. Unless `--` precedes them, no
/// positional argument but the first may have the form of an option.
///
/// # Errors
///
/// `Usage` with the misused argument, or `NoMemory` if an allocation was refused.
#[tactic(auto, unfolding(crate::specs::CommandWords::invocation_of))]
pub fn invocation_of<'a>(
    alloc: Global,
    name: &[u8],
    options: &OptionWords<'a>,
    words: &[&'a str],
    behind_dashes: bool,
) -> Result<Invocation<'a>, WordsFault<'a>>
    ensures { ReadsCommand (invoked_by name.now options.now words.now behind_dashes) result }
{
    match late_option(words, behind_dashes) {
        Some(word) => Err(WordsFault::Usage(Misuse::new(word, Cause::LateOption))),
        None => said_by(alloc, name, options, words),
    }
}

// With `--fec FILE` the command is one on parity, and with `--no-superblock` one on a tree that has none.
#[tactic(auto, unfolding(crate::specs::Invocations::invocation_said))]
fn said_by<'a>(
    alloc: Global,
    name: &[u8],
    options: &OptionWords<'a>,
    words: &[&'a str],
) -> Result<Invocation<'a>, WordsFault<'a>>
    ensures { ReadsCommand (invocation_said name.now (option_texts options.now) (texts_of words.now)) result }
{
    allow_pin(options)?;
    allow_root_file(name, options)?;
    if name == b"repair".as_slice() {
        repair_of(alloc, options, words)
    } else if name == b"assemble".as_slice() {
        assemble_of(options, words)
    } else if name == b"partitions".as_slice() {
        partitions_of(options, words)
    } else if has_fec_value(options) {
        fec_of(name, options, words)
    } else if options.no_superblock {
        tree_of(name, options, words)
    } else {
        command_of(alloc, name, options, words)
    }
}

// An image with a pin has a superblock.
#[tactic(auto, unfolding(crate::specs::Invocations::pin_allowed))]
fn allow_pin<'a>(options: &OptionWords<'a>) -> Result<(), Misuse<'a>>
    ensures { ReadsValue (λ none. none) (pin_allowed (option_texts options.now)) result }
{
    refuse_if(
        options.pin.is_some() && options.no_superblock,
        "--no-superblock",
        Cause::WithPin,
    )
}

// A format writes the file of the root hash only of an image with a superblock.
#[tactic(auto, unfolding(crate::specs::Invocations::root_file_allowed))]
fn allow_root_file<'a>(name: &[u8], options: &OptionWords<'a>) -> Result<(), Misuse<'a>>
    ensures { ReadsValue (λ none. none) (root_file_allowed name.now (option_texts options.now)) result }
{
    let bare = options.root_hash_file.is_some() && options.no_superblock;
    refuse_if(
        name == b"format".as_slice() && bare,
        "--root-hash-file",
        Cause::WithNoSuperblock,
    )
}

// The command of that name on an image with parity.
#[tactic(auto, unfolding(crate::specs::Invocations::fec_said))]
fn fec_of<'a>(
    name: &[u8],
    options: &OptionWords<'a>,
    words: &[&'a str],
) -> Result<Invocation<'a>, WordsFault<'a>>
    ensures { ReadsCommand (fec_said name.now (option_texts options.now) (texts_of words.now)) result }
{
    if name == b"format".as_slice() {
        fec_format_of(options, words)
    } else if name == b"verify".as_slice() {
        fec_verify_of(options, words)
    } else if name == b"table".as_slice() {
        fec_table_of(options, words)
    } else {
        Err(WordsFault::Usage(Misuse::new("--fec", Cause::Unknown)))
    }
}

// The command of that name on a tree without a superblock.
#[tactic(auto, unfolding(crate::specs::Invocations::tree_said))]
fn tree_of<'a>(
    name: &[u8],
    options: &OptionWords<'a>,
    words: &[&'a str],
) -> Result<Invocation<'a>, WordsFault<'a>>
    ensures { ReadsCommand (tree_said name.now (option_texts options.now) (texts_of words.now)) result }
{
    if name == b"format".as_slice() {
        format_of(options, words)
    } else if name == b"verify".as_slice() {
        tree_verify_of(options, words)
    } else if name == b"table".as_slice() {
        tree_table_of(options, words)
    } else if name == b"diff".as_slice() {
        diff_of(options, words)
    } else {
        Err(WordsFault::Usage(Misuse::new("--no-superblock", Cause::Unknown)))
    }
}

// The command of that name with none of these options.
#[tactic(auto, unfolding(crate::specs::Invocations::command_said))]
fn command_of<'a>(
    alloc: Global,
    name: &[u8],
    options: &OptionWords<'a>,
    words: &[&'a str],
) -> Result<Invocation<'a>, WordsFault<'a>>
    ensures { ReadsCommand (command_said name.now (option_texts options.now) (texts_of words.now)) result }
{
    if name == b"load".as_slice() {
        load_of(alloc, options, words)
    } else if name == b"read".as_slice() {
        read_of(alloc, options, words)
    } else if name == b"write".as_slice() {
        write_of(alloc, options, words)
    } else if name == b"session".as_slice() {
        session_of(alloc, options, words)
    } else if name == b"nbd".as_slice() {
        served_of(alloc, options, words)
    } else {
        device_of(alloc, name, options, words)
    }
}

// One device is served to a client, or with `--all` each.
#[tactic(auto, unfolding(crate::specs::Invocations::served_said))]
fn served_of<'a>(
    alloc: Global,
    options: &OptionWords<'a>,
    words: &[&'a str],
) -> Result<Invocation<'a>, WordsFault<'a>>
    ensures { ReadsCommand (served_said (option_texts options.now) (texts_of words.now)) result }
{
    if options.all {
        exports_of(alloc, options, words)
    } else {
        nbd_of(alloc, options, words)
    }
}

// The command of that name on a device of a stack, on images or on nothing.
#[tactic(auto, unfolding(crate::specs::Invocations::device_said))]
fn device_of<'a>(
    alloc: Global,
    name: &[u8],
    options: &OptionWords<'a>,
    words: &[&'a str],
) -> Result<Invocation<'a>, WordsFault<'a>>
    ensures { ReadsCommand (device_said name.now (option_texts options.now) (texts_of words.now)) result }
{
    if name == b"scan".as_slice() {
        scan_of(alloc, options, words)
    } else if name == b"copy".as_slice() {
        copy_of(alloc, options, words)
    } else if name == b"cat".as_slice() {
        cat_of(alloc, options, words)
    } else if name == b"store".as_slice() {
        store_of(alloc, options, words)
    } else if name == b"update".as_slice() {
        update_of(alloc, options, words)
    } else if name == b"find".as_slice() {
        find_of(options, words)
    } else {
        image_of(name, options, words)
    }
}

// The command of that name on images, or on nothing.
#[tactic(auto, unfolding(crate::specs::Invocations::image_said))]
fn image_of<'a>(
    name: &[u8],
    options: &OptionWords<'a>,
    words: &[&'a str],
) -> Result<Invocation<'a>, WordsFault<'a>>
    ensures { ReadsCommand (image_said name.now (option_texts options.now) (texts_of words.now)) result }
{
    if name == b"format".as_slice() {
        format_of(options, words)
    } else if name == b"verify".as_slice() {
        verify_of(options, words)
    } else if name == b"dump".as_slice() {
        dump_of(options, words)
    } else if name == b"table".as_slice() {
        table_of(options, words)
    } else if name == b"diff".as_slice() {
        diff_of(options, words)
    } else if name == b"manual".as_slice() {
        manual_of(words)
    } else if name == b"version".as_slice() {
        version_of(words)
    } else {
        Err(WordsFault::Usage(Misuse::new("COMMAND", Cause::Unknown)))
    }
}

/// Returns whether a word has the form of an option, as `-x`; `-` alone has not.
pub fn is_option(word: &str) -> bool
    ensures { result ≡ is_option word.now }
{
    let bytes = word.as_bytes();
    bytes.len() > 1 && bytes[0] == b'-'
}

// The first option after a positional argument, unless `--` is before them.
#[tactic(auto, using(crate::proofs::CommandWordLemmas::late_texts))]
fn late_option<'a>(words: &[&'a str], behind_dashes: bool) -> Option<&'a str>
    ensures { text_of result ≡ late_option (texts_of words.now) behind_dashes }
{
    if behind_dashes {
        None
    } else {
        first_option(words).copied()
    }
}

// The first word after the first one that has the form of an option.
fn first_option<'a, 'b>(words: &'b [&'a str]) -> Option<&'b &'a str>
    ensures { option_copied result ≡ find (λ word. is_option word.now) (drop 1 words.now) }
{
    words.iter().skip(1).find(|word| is_option(word))
}
