//! `copy [--cache N] [--differing] [--map FILE] [--retries N] [--no-scrape] [--progress] (STACK NAME OUT BINDING... | --disk [--grow] DISK OUT)`
ghost use Rattle.command_line.specs.Invocations.{copy};
ghost use Rattle.command_line.specs.Reading.{ReadsAs};
ghost use Rattle.command_line.specs.FormatOptions.{option_texts, texts_of};
ghost use Rattle.command_line.specs.words.Copy.{copy_said};

use crate::binding_words::bindings_of;
use crate::bindings::Binding;
use crate::fault::WordsFault;
use crate::invocation::Invocation;
use crate::misuse::{Cause, refuse_if};
use crate::option_words::OptionWords;
use crate::positional::positional;
use crate::retries::retries_of;
use crate::source_words::{SourceWords, no_binding, source_first};
use crate::values::{cache_of, map_of};
use std::alloc::Global;

/// The arguments of `copy`, which copies the readable sectors of a device: with `differing` only those that differ from the
/// image's, with a map file only those that the map doesn't mark as read. Lost sectors are read again as many times as the retries.
/// With `no_scrape` failed pieces aren't searched sector by sector. With `grow` the image of a disk is made long enough.
#[derive(Drop)]
pub struct CopyWords<'a> {
    pub cache: u32,
    pub differing: bool,
    pub grow: bool,
    pub source: SourceWords<'a>,
    pub out: &'a str,
    pub bindings: Vec<Binding<'a>>,
    pub map: Option<&'a str>,
    pub retries: u64,
    pub no_scrape: bool,
    pub progress: bool,
}

/// Returns `copy` with its arguments, `[--cache N] [--differing] [--map FILE] [--retries N] [--no-scrape] [--progress]
/// (STACK NAME OUT BINDING... | --disk [--grow] DISK OUT)`.
///
/// # Errors
///
/// - `Usage` if STACK, NAME, DISK or OUT is missing, the value of an option is invalid, `--grow` is given without `--disk`, or a
///   further argument is no binding or is after those of a disk.
/// - `NoMemory` if an allocation was refused.
#[tactic(auto, unfolding(crate::specs::words::Copy::copy_said))]
pub fn copy_of<'a>(
    alloc: Global,
    options: &OptionWords<'a>,
    words: &[&'a str],
) -> Result<Invocation<'a>, WordsFault<'a>>
    ensures { ReadsAs copy (copy_said (option_texts options.now) (texts_of words.now)) result }
{
    let (source, words) = source_first(options.disk, words)?;
    let (out, words) = positional("OUT", words)?;
    let cache = cache_of(options.cache)?;
    let map = map_of(options.map)?;
    let retries = retries_of(options.retries)?;
    refuse_if(options.grow && !options.disk, "--grow", Cause::WithoutDisk)?;
    no_binding(options.disk, words)?;
    let bindings = bindings_of(alloc, words)?;
    Ok(Invocation::Copy(CopyWords {
        cache,
        differing: options.differing,
        grow: options.grow,
        source,
        out,
        bindings,
        map,
        retries,
        no_scrape: options.no_scrape,
        progress: options.progress,
    }))
}
