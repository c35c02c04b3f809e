//! The values of options.
ghost use Rattle.std.specs.Prelude.{◌≡◌};
ghost use Rattle.command_line.specs.FormatOptions.{text_of};
ghost use Rattle.command_line.specs.Misuses.{ReadsValue};
ghost use Rattle.command_line.specs.Values.{cache_said, count_said, first_said, form_of, form_record, form_with_pin, form_without_pin, list_form, map_said, name_said, offset_of, path_said, pin_of, report_form, root_of, root_or_pin_record, root_or_pin_said, root_said, runs_said, sector_size_of};

use crate::list_form::ListForm;
use crate::misuse::{Cause, Misuse, refuse_if};
use charts::ReportForm;
use dm_table::is_mapped_name;
use table_text::number;
use tree_shape::Digest;

const CACHED_BLOCKS: u32 = 64;

const MOST_CACHED_BLOCKS: u64 = 65536;

const SECTOR: u64 = 512;

const LARGE_SECTOR: u64 = 4096;

/// A root digest, or the path of the file that holds one.
#[derive(Clone, Copy)]
pub enum RootWord<'a> {
    Digest(Digest),
    File(&'a str),
}

/// A root digest, or the path of the pin that holds one.
#[derive(Clone, Copy)]
pub enum RootOrPin<'a> {
    Root(RootWord<'a>),
    Pin(&'a str),
}

/// How partitions are printed: as lines, a JSON object, a stack of all, or the stack of those of a root or of a pin's root.
#[derive(Clone, Copy)]
pub enum PartitionForm<'a> {
    Lines,
    Object,
    Stack,
    Root(Digest),
    Pin(&'a str),
}

/// Returns how many hash blocks are cached: 64 unless the word is another number.
///
/// # Errors
///
/// `CacheBlocks` of `--cache` if the word isn't a decimal number up to 65,536.
#[tactic(auto, unfolding(crate::specs::Values::cache_said))]
pub fn cache_of<'a>(word: Option<&'a str>) -> Result<u32, Misuse<'a>>
    ensures { ReadsValue (λ n. n) (cache_said (text_of word.entry)) result }
{
    let Some(word) = word else {
        return Ok(CACHED_BLOCKS);
    };
    match number(word.as_bytes()) {
        Some(blocks) if blocks <= MOST_CACHED_BLOCKS => Ok(blocks as u32),
        _ => Err(Misuse::new("--cache", Cause::CacheBlocks)),
    }
}

/// Returns the first sector: 0 unless the word is another number.
///
/// # Errors
///
/// `Number` of `--first` if the word isn't a decimal number.
#[tactic(auto, unfolding(crate::specs::Values::first_said))]
pub fn first_of<'a>(word: Option<&'a str>) -> Result<u64, Misuse<'a>>
    ensures { ReadsValue (λ n. n) (first_said (text_of word.entry)) result }
{
    let Some(word) = word else {
        return Ok(0);
    };
    match number(word.as_bytes()) {
        Some(first) => Ok(first),
        None => Err(Misuse::new("--first", Cause::Number)),
    }
}

/// Returns how many sectors, if there is a word.
///
/// # Errors
///
/// `Number` of `--count` if the word isn't a decimal number.
#[tactic(auto, unfolding(crate::specs::Values::count_said))]
pub fn count_of<'a>(word: Option<&'a str>) -> Result<Option<u64>, Misuse<'a>>
    ensures { ReadsValue (λ n. n) (count_said (text_of word.entry)) result }
{
    let Some(word) = word else {
        return Ok(None);
    };
    match number(word.as_bytes()) {
        Some(count) => Ok(Some(count)),
        None => Err(Misuse::new("--count", Cause::Number)),
    }
}

/// Returns how many runs are printed at most, if there is a word.
///
/// # Errors
///
/// `RunCount` of `--runs` if the word isn't a decimal number from 1 on.
#[tactic(auto, unfolding(crate::specs::Values::runs_said))]
pub fn runs_of<'a>(word: Option<&'a str>) -> Result<Option<u64>, Misuse<'a>>
    ensures { ReadsValue (λ n. n) (runs_said (text_of word.entry)) result }
{
    let Some(word) = word else {
        return Ok(None);
    };
    match number(word.as_bytes()) {
        Some(count) if count >= 1 => Ok(Some(count)),
        _ => Err(Misuse::new("--runs", Cause::RunCount)),
    }
}

/// Returns the byte of its file at which a hash image begins, by the option of that name: 0 if there is no word.
///
/// # Errors
///
/// `Offset` of `option` if the word isn't a decimal multiple of 512.
#[tactic(auto, unfolding(crate::specs::Values::offset_of))]
pub fn offset_of<'a>(option: &'a str, word: Option<&'a str>) -> Result<u64, Misuse<'a>>
    ensures { ReadsValue (λ n. n) (offset_of option.now (text_of word.entry)) result }
{
    let Some(word) = word else {
        return Ok(0);
    };
    match number(word.as_bytes()) {
        Some(offset) if offset % SECTOR == 0 => Ok(offset),
        _ => Err(Misuse::new(option, Cause::Offset)),
    }
}

/// Returns the bytes of a sector: 512, or 4,096 if that is the word.
///
/// # Errors
///
/// `SectorSize` of `--sector-size` if the word is neither of the two numbers.
#[tactic(auto, unfolding(crate::specs::Values::sector_size_of))]
pub fn sector_size_of<'a>(word: Option<&'a str>) -> Result<u32, Misuse<'a>>
    ensures { ReadsValue (λ n. n) (sector_size_of (text_of word.entry)) result }
{
    let Some(word) = word else {
        return Ok(SECTOR as u32);
    };
    match number(word.as_bytes()) {
        Some(size) if size == SECTOR || size == LARGE_SECTOR => Ok(size as u32),
        _ => Err(Misuse::new("--sector-size", Cause::SectorSize)),
    }
}

/// Returns the name of a mapped device, if there is a word.
///
/// # Errors
///
/// `MappedName` of `--name` if the word isn't the name of a mapped device.
#[tactic(auto, unfolding(crate::specs::Values::name_said))]
pub fn name_of<'a>(word: Option<&'a str>) -> Result<Option<&'a str>, Misuse<'a>>
    ensures { ReadsValue text_of (name_said (text_of word.entry)) result }
{
    let Some(word) = word else {
        return Ok(None);
    };
    if is_mapped_name(word.as_bytes()) {
        return Ok(Some(word));
    }
    Err(Misuse::new("--name", Cause::MappedName))
}

/// Returns the path of a map file, if there is a word.
///
/// # Errors
///
/// `FilePath` of `--map` if the path is empty or `-`.
#[tactic(auto, unfolding(crate::specs::Values::map_said))]
pub fn map_of<'a>(word: Option<&'a str>) -> Result<Option<&'a str>, Misuse<'a>>
    ensures { ReadsValue text_of (map_said (text_of word.entry)) result }
{
    let Some(word) = word else {
        return Ok(None);
    };
    let path = path_of("--map", word)?;
    Ok(Some(path))
}

/// Returns the path of a pin's file.
///
/// # Errors
///
/// `Missing` of `--pin` if there is no word, or `FilePath` of `--pin` if the path is empty or `-`.
#[tactic(auto, unfolding(crate::specs::Values::pin_of))]
pub fn pin_of<'a>(word: Option<&'a str>) -> Result<&'a str, Misuse<'a>>
    ensures { ReadsValue (λ path. path.now) (pin_of (text_of word.entry)) result }
{
    match word {
        Some(word) => path_of("--pin", word),
        None => Err(Misuse::new("--pin", Cause::Missing)),
    }
}

/// Returns the path of a file.
///
/// # Errors
///
/// `FilePath` of `option` if the path is empty, or `-`, the standard input.
#[tactic(auto, unfolding(crate::specs::Values::path_said))]
pub fn path_of<'a>(option: &'a str, word: &'a str) -> Result<&'a str, Misuse<'a>>
    ensures { ReadsValue (λ path. path.now) (path_said option.now word.now) result }
{
    if word.is_empty() || word.as_bytes() == b"-".as_slice() {
        return Err(Misuse::new(option, Cause::FilePath));
    }
    Ok(word)
}

/// Returns the root hash of 64 hexadecimal digits, 32 bytes, or `None` if the word is none.
pub fn root_of(word: &str) -> Option<Digest>
    ensures { result ≡ root_of word.now }
{
    let mut root = [0u8; Digest::SIZE];
    match hex::decode_to_slice(word, &mut root) {
        Ok(()) => Some(Digest::new(root)),
        Err(_) => None,
    }
}

/// Returns the root hash of an argument of that name.
///
/// # Errors
///
/// `RootHash` of `name` if the word isn't a root hash.
pub fn root_said<'a>(name: &'a str, word: &str) -> Result<Digest, Misuse<'a>>
    ensures { ReadsValue (λ bytes. bytes) (root_said name.now word.now) result }
{
    match root_of(word) {
        Some(root) => Ok(root),
        None => Err(Misuse::new(name, Cause::RootHash)),
    }
}

/// Returns the pin of that option or the file of a root hash, if one is given, or else the root hash of the argument of that
/// name.
///
/// # Errors
///
/// `FilePath` of `option` if the path of the pin is empty or `-`, or `RootHash` of `name` if the word is needed and isn't a
/// root hash.
#[tactic(auto, unfolding(crate::specs::Values::root_or_pin_said))]
pub fn root_or_pin_said<'a>(
    option: &'a str,
    pin: Option<&'a str>,
    file: Option<&'a str>,
    name: &'a str,
    word: &'a str,
) -> Result<RootOrPin<'a>, Misuse<'a>>
    ensures { ReadsValue root_or_pin_record (root_or_pin_said option.now (text_of pin.entry) (text_of file.entry) name.now word.now) result }
{
    match (pin, file) {
        (None, None) => {
            let root = root_said(name, word)?;
            Ok(RootOrPin::Root(RootWord::Digest(root)))
        }
        (None, Some(path)) => Ok(RootOrPin::Root(RootWord::File(path))),
        (Some(pin), _) => {
            let path = path_of(option, pin)?;
            Ok(RootOrPin::Pin(path))
        }
    }
}

/// Returns how a command reports, by `--json` and `--chart`.
///
/// # Errors
///
/// `WithChart` of `--json` if both are given.
pub fn report_form<'a>(json: bool, chart: bool) -> Result<ReportForm, Misuse<'a>>
    ensures { ReadsValue (λ form. form) (report_form json chart) result }
{
    match (json, chart) {
        (false, false) => Ok(ReportForm::Lines),
        (false, true) => Ok(ReportForm::Chart),
        (true, false) => Ok(ReportForm::Object),
        (true, true) => Err(Misuse::new("--json", Cause::WithChart)),
    }
}

/// Returns how the devices of a stack are printed, by `--json` and `--tree`.
///
/// # Errors
///
/// `WithTree` of `--json` if both are given.
pub fn list_form<'a>(json: bool, tree: bool) -> Result<ListForm, Misuse<'a>>
    ensures { ReadsValue (λ form. form) (list_form json tree) result }
{
    match (json, tree) {
        (false, false) => Ok(ListForm::Lines),
        (false, true) => Ok(ListForm::Tree),
        (true, false) => Ok(ListForm::Object),
        (true, true) => Err(Misuse::new("--json", Cause::WithTree)),
    }
}

/// Returns how partitions are printed, by `--pin FILE`, `--root ROOT`, `--stack` and `--json`.
///
/// # Errors
///
/// - `WithPin`, `WithRoot` or `WithStack` of another option if more than one is given.
/// - `FilePath` of `--pin` if its path is empty or `-`.
/// - `RootHash` of `--root` if its value isn't a root hash.
#[tactic(auto, unfolding(crate::specs::Values::form_of))]
pub fn form_of<'a>(
    pin: Option<&'a str>,
    root: Option<&'a str>,
    stack: bool,
    json: bool,
) -> Result<PartitionForm<'a>, Misuse<'a>>
    ensures { ReadsValue form_record (form_of (text_of pin.entry) (text_of root.entry) stack json) result }
{
    match pin {
        Some(file) => form_with_pin(file, root, stack, json),
        None => form_without_pin(root, stack, json),
    }
}

// The form, by `--root ROOT`, `--stack` and `--json`, of which at most one is given.
#[tactic(auto, unfolding(crate::specs::Values::form_without_pin))]
fn form_without_pin<'a>(
    root: Option<&'a str>,
    stack: bool,
    json: bool,
) -> Result<PartitionForm<'a>, Misuse<'a>>
    ensures { ReadsValue form_record (form_without_pin (text_of root.entry) stack json) result }
{
    match (root, stack, json) {
        (None, false, false) => Ok(PartitionForm::Lines),
        (None, false, true) => Ok(PartitionForm::Object),
        (None, true, false) => Ok(PartitionForm::Stack),
        (None, true, true) => Err(Misuse::new("--json", Cause::WithStack)),
        (Some(_), true, _) => Err(Misuse::new("--stack", Cause::WithRoot)),
        (Some(_), false, true) => Err(Misuse::new("--json", Cause::WithRoot)),
        (Some(word), false, false) => {
            let root = root_said("--root", word)?;
            Ok(PartitionForm::Root(root))
        }
    }
}

// The form that the pin of that file gives; none of the other options is given beside it.
#[tactic(auto, unfolding(crate::specs::Values::form_with_pin))]
fn form_with_pin<'a>(
    file: &'a str,
    root: Option<&'a str>,
    stack: bool,
    json: bool,
) -> Result<PartitionForm<'a>, Misuse<'a>>
    ensures { ReadsValue form_record (form_with_pin file.now (text_of root.entry) stack json) result }
{
    refuse_if(root.is_some(), "--root", Cause::WithPin)?;
    refuse_if(stack, "--stack", Cause::WithPin)?;
    refuse_if(json, "--json", Cause::WithPin)?;
    let path = path_of("--pin", file)?;
    Ok(PartitionForm::Pin(path))
}
