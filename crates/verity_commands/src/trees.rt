//! The commands on trees without a superblock.
ghost use Rattle.std.specs.Prelude.{OnOk, IfErr, IfOk};
ghost use Rattle.command_line.specs.FormatOptions.{option_texts};
ghost use Rattle.verity_commands.specs.Endings.{IsTreeUnsaid};
ghost use Rattle.verity_commands.specs.Invocations.{FailsTreeSurvey, SurveysTreeByWords};
ghost use Rattle.verity_commands.specs.Trees.{FailsToPrintTree, FailsToVerifySaidTree, FailsToSeek, FailsToSeekEither, FailsToSeekStated, FailsToSeekStored, PrintsTreeByWords, SaysTree, SeeksEither, SeeksStated, SeeksStored, SeeksTree, VerifiesTreeByWords};

use crate::places::{root_in, sector_at, trusted_in};
use crate::survey::{SurveyOrder, survey_images};
use crate::tree_fault::TreeFault;
use crate::verity_fault::VerityFault;
use command_line::{OptionWords, RootOrPin, RootWord, TreeTableWords, TreeVerifyWords, options_of};
use device_adapters::Watchers;
use image_commands::{
    ImagePlaces, LineWords, SoughtTree, TreeSource, WatchedPlaces, given_options, print_tree_line,
    stored_source, verify_images,
};
use image_files::Images;
use image_pin::TrustedRoot;
use program_io::Counted;
use std::alloc::Global;
use std::io::Write;
use verity_format::FormatOptions;

const SECTOR: u64 = 512;

/// `verify --no-superblock [--progress] [OPTION..] DATA HASH [ROOT]`
///
/// # Errors
///
/// - `Usage` if an option has no valid value, or no salt is given.
/// - `Image` with a fault of `read_root` or `verify_images`.
/// - `Image` with `NoMemory` if memory for the salt was refused.
pub fn invoke_verify_tree<'a, I: Images, S: Watchers, W: Write>(
    alloc: Global,
    images: &mut I,
    watchers: &S,
    words: &TreeVerifyWords<'a>,
    options: &OptionWords<'a>,
    writer: &mut Counted<W>,
) -> Result<(), VerityFault<'a>>
    ensures ok { OnOk result (VerifiesTreeByWords I.relations I.Dev.state images.old images.new W.contents writer.old writer.new options.now words.now) }
    ensures err { IfErr result (FailsToVerifySaidTree I.relations I.Dev.state images.old images.new W.contents writer.old writer.new options.now words.now) }
{
    let sought = sought_in(alloc, images, &words.root, options)?;
    let hash_first = sector_at(words.hash_offset);
    let places = ImagePlaces {
        data: words.data_path,
        hash: words.hash_path,
        hash_first,
    };
    let progress = words.progress;
    let watched = WatchedPlaces { places, progress };
    Ok(verify_images(alloc, images, watchers, watched, &sought, writer)?)
}

/// `verify --no-superblock --all [--json | --chart] [--progress] [--hash-offset BYTES] DATA HASH ROOT`, of the tree that is sought.
///
/// # Errors
///
/// Those of `survey_images`.
pub fn invoke_tree_survey<'a, I: Images, S: Watchers, W: Write>(
    alloc: Global,
    images: &mut I,
    watchers: &S,
    words: &TreeVerifyWords<'a>,
    sought: &SoughtTree,
    writer: &mut Counted<W>,
) -> Result<(), TreeFault<'a>>
    ensures ok { OnOk result (SurveysTreeByWords I.relations I.Dev.state images.old images.new W.contents writer.old writer.new words.now sought.now) }
    ensures err { IfErr result (FailsTreeSurvey I.relations I.Dev.state images.old images.new W.contents writer.old writer.new words.now sought.now) }
{
    let order = SurveyOrder {
        data: words.data_path,
        hash: words.hash_path,
        hash_first: words.hash_offset / SECTOR,
        form: words.form,
        progress: words.progress,
    };
    survey_images(alloc, images, watchers, order, sought, writer)
}

/// `table --no-superblock [OPTION..] HASH [ROOT] DATANAME HASHNAME`
///
/// # Errors
///
/// - `Usage` if an option has no valid value, or no salt is given.
/// - `Image` with a fault of `read_root` or `print_tree_line`.
/// - `Image` with `NoMemory` if memory for the salt was refused.
pub fn invoke_table_tree<'a, I: Images, W: Write>(
    alloc: Global,
    images: &mut I,
    words: &TreeTableWords<'a>,
    options: &OptionWords<'a>,
    writer: &mut Counted<W>,
) -> Result<(), VerityFault<'a>>
    ensures ok { OnOk result (PrintsTreeByWords I.relations I.Dev.state images.old images.new W.contents writer.old writer.new options.now words.now) }
    ensures err { IfErr result (FailsToPrintTree I.relations I.Dev.state images.old images.new W.contents writer.old writer.new options.now words.now) }
{
    let given = tree_options(alloc, options)?;
    let root = root_in(images, &words.root)?;
    let first = sector_at(words.hash_offset);
    let trusted = TrustedRoot { root, pin: None };
    let line = LineWords {
        root: &trusted,
        data_name: words.data_name,
        hash_name: words.hash_name,
    };
    Ok(print_tree_line(alloc, first, words.name, line, given, writer)?)
}

/// Returns the tree that options state, and the root hash of an argument or a file.
///
/// # Errors
///
/// - `Usage` if an option has no valid value, or no salt is given.
/// - `Image` with a fault of `read_root`, or with `NoMemory` if memory for the salt was refused.
pub fn sought_in<'a, I: Images>(
    alloc: Global,
    images: &mut I,
    root: &RootWord<'a>,
    options: &OptionWords<'_>,
) -> Result<SoughtTree, VerityFault<'a>>
    ensures ok { IfOk result (SeeksTree I.relations I.Dev.state images.old images.new options.now root.now) }
    ensures err { IfErr result (FailsToSeek I.relations I.Dev.state images.old images.new options.now root.now) }
{
    let options = tree_options(alloc, options)?;
    let root = root_in(images, root)?;
    let source = TreeSource::Options(options);
    Ok(SoughtTree { source, root })
}

/// The tree that the superblock holds or, if there is none, options state, and the root hash that an argument, a file or a pin has.
///
/// # Errors
///
/// `Image` if the file has no root hash or is no pin; without a superblock those of `sought_in`, or `Usage` for a pin.
pub fn sought_tree_in<'a, I: Images>(
    alloc: Global,
    images: &mut I,
    no_superblock: bool,
    root: &RootOrPin<'a>,
    options: &OptionWords<'_>,
) -> Result<SoughtTree, VerityFault<'a>>
    ensures ok { IfOk result (SeeksEither I.relations I.Dev.state images.old images.new options.now no_superblock root.now) }
    ensures err { IfErr result (FailsToSeekEither I.relations I.Dev.state images.old images.new options.now no_superblock root.now) }
{
    if no_superblock {
        stated_in(alloc, images, root, options)
    } else {
        stored_in(images, root)
    }
}

// The tree that options state, which has no pin.
fn stated_in<'a, I: Images>(
    alloc: Global,
    images: &mut I,
    root: &RootOrPin<'a>,
    options: &OptionWords<'_>,
) -> Result<SoughtTree, VerityFault<'a>>
    ensures ok { IfOk result (SeeksStated I.relations I.Dev.state images.old images.new options.now root.now) }
    ensures err { IfErr result (FailsToSeekStated I.relations I.Dev.state images.old images.new options.now root.now) }
{
    match root {
        RootOrPin::Root(word) => sought_in(alloc, images, word, options),
        RootOrPin::Pin(_) => Err(VerityFault::Usage),
    }
}

/// The tree that the superblock holds, with the values of the pin, if there is one.
pub(crate) fn stored_in<'a, I: Images>(
    images: &mut I,
    root: &RootOrPin<'a>,
) -> Result<SoughtTree, VerityFault<'a>>
    ensures ok { IfOk result (SeeksStored I.relations I.Dev.state images.old images.new root.now) }
    ensures err { IfErr result (FailsToSeekStored I.relations I.Dev.state images.old images.new root.now) }
{
    match trusted_in(images, root) {
        Ok(trusted) => Ok(stored_source(&trusted)),
        Err(fault) => Err(VerityFault::Image(fault)),
    }
}

// Returns the options of a tree, whose salt has to be given.
fn tree_options<'a>(
    alloc: Global,
    options: &OptionWords<'_>,
) -> Result<FormatOptions, VerityFault<'a>>
    ensures ok { IfOk result (SaysTree (option_texts options.now)) }
    ensures err { IfErr result (IsTreeUnsaid (option_texts options.now)) }
{
    let options = options_of(alloc, options)?;
    match given_options(options) {
        Some(given) => Ok(given),
        None => Err(VerityFault::Usage),
    }
}
