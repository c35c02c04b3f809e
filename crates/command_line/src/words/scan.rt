//! `scan [--cache N] [--map FILE] [--retries N] [--no-scrape] [--progress] [--json | --chart] (STACK NAME BINDING... | --disk DISK)`
ghost use Rattle.command_line.specs.Invocations.{scan};
ghost use Rattle.command_line.specs.Reading.{ReadsAs};
ghost use Rattle.command_line.specs.FormatOptions.{option_texts, texts_of};
ghost use Rattle.command_line.specs.words.Scan.{scan_said};

use crate::binding_words::bindings_of;
use crate::bindings::Binding;
use crate::fault::WordsFault;
use crate::invocation::Invocation;
use crate::option_words::OptionWords;
use crate::retries::retries_of;
use crate::source_words::{SourceWords, no_binding, source_first};
use crate::values::{cache_of, map_of, report_form};
use charts::ReportForm;
use std::alloc::Global;

/// The arguments of `scan`. With a map file, only sectors that the map doesn't mark as read are scanned. Lost sectors are read again as
/// many times as the retries. With `no_scrape` failed pieces aren't searched sector by sector.
#[derive(Drop)]
pub struct ScanWords<'a> {
    pub cache: u32,
    pub source: SourceWords<'a>,
    pub bindings: Vec<Binding<'a>>,
    pub map: Option<&'a str>,
    pub retries: u64,
    pub no_scrape: bool,
    pub progress: bool,
    pub form: ReportForm,
}

/// Returns `scan` with its arguments, `[--cache N] [--map FILE] [--retries N] [--no-scrape] [--progress] [--json | --chart]
/// (STACK NAME BINDING... | --disk DISK)`.
///
/// # Errors
///
/// - `Usage` if STACK, NAME or DISK is missing, the value of an option is invalid, `--json` and `--chart` are given, or a further
///   argument is no binding or is after DISK.
/// - `NoMemory` if an allocation was refused.
#[tactic(auto, unfolding(crate::specs::words::Scan::scan_said))]
pub fn scan_of<'a>(
    alloc: Global,
    options: &OptionWords<'a>,
    words: &[&'a str],
) -> Result<Invocation<'a>, WordsFault<'a>>
    ensures { ReadsAs scan (scan_said (option_texts options.now) (texts_of words.now)) result }
{
    let (source, words) = source_first(options.disk, words)?;
    let cache = cache_of(options.cache)?;
    let map = map_of(options.map)?;
    let retries = retries_of(options.retries)?;
    let form = report_form(options.json, options.chart)?;
    no_binding(options.disk, words)?;
    let bindings = bindings_of(alloc, words)?;
    Ok(Invocation::Scan(ScanWords {
        cache,
        source,
        bindings,
        map,
        retries,
        no_scrape: options.no_scrape,
        progress: options.progress,
        form,
    }))
}
