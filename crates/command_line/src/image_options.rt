//! The values of the options that describe an image.
ghost use Rattle.std.specs.Prelude.{◌≡◌, ◌/◌, IfErr, IfOk, Ok, Some, codes, length, option_map};
ghost use Rattle.std.specs.Result.{result_ok};
ghost use Rattle.hex.specs.Hex.{decode_of};
ghost use Rattle.uuid.specs.Text.{parsed};
ghost use Rattle.allocation.specs.Asked.{asked};
ghost use Rattle.dm_table.specs.Numbers.{number};
ghost use Rattle.command_line.specs.CommandWords.{RefusesWords};
ghost use Rattle.command_line.specs.declared.misuse.Cause.TheVariants as cause;
ghost use Rattle.command_line.specs.FormatOptions.{AreSaid, block_size_of, option_texts, salt_of, text_of};
ghost use Rattle.command_line.specs.ImageValues.{options_read, short_salt};
ghost use Rattle.command_line.specs.Misuses.{ReadsValue, wanted, wanted_if};

use crate::fault::WordsFault;
use crate::misuse::{Cause, Misuse};
use crate::option_words::OptionWords;
use allocation::{OutOfMemory, zeros};
use std::alloc::Global;
use table_text::number;
use tree_shape::{Algorithm, Salt};
use uuid::Uuid;

const BLOCK_SIZE: u32 = 4096;

const BLOCK_SIZES_END: u64 = 1 << 32;

const MOST_SALT_DIGITS: usize = 512;

/// What `format` is to make. If there is no salt or identifier, one is drawn; if there is no number of
/// blocks, all whole blocks are taken.
#[derive(Clone, Copy)]
pub struct ImageOptions {
    pub data_block: u32,
    pub hash_block: u32,
    pub blocks: Option<u64>,
    pub salt: Option<Salt>,
    pub uuid: Option<[u8; 16]>,
}

/// Returns the values of `[--data-block N] [--hash-block N] [--blocks N] [--salt HEX] [--uuid U]`. Block sizes are in bytes,
/// 4,096 if an option is missing.
///
/// # Errors
///
/// - `Usage` with the first option, in this order, whose value is invalid.
/// - `NoMemory` if an allocation was refused.
#[tactic(auto, unfolding(crate::specs::ImageValues::options_read))]
pub fn options_of<'a>(
    alloc: Global,
    words: &OptionWords<'a>,
) -> Result<ImageOptions, WordsFault<'a>>
    ensures ok { IfOk result (λ options. AreSaid (option_texts words.now) options) }
    ensures read { IfOk result (λ options. options_read (option_texts words.now) ≡ Ok tt) }
    ensures err { IfErr result (RefusesWords (options_read (option_texts words.now))) }
{
    let data_block = block_size_of("--data-block", words.data_block)?;
    let hash_block = block_size_of("--hash-block", words.hash_block)?;
    let blocks = count_of(words.blocks)?;
    let salt = salt_of(alloc, words.salt)?;
    let uuid = uuid_of(words.uuid)?;
    Ok(ImageOptions {
        data_block,
        hash_block,
        blocks,
        salt,
        uuid,
    })
}

// A block size of 4,096 bytes unless the word says another.
fn block_size_of<'a>(option: &'a str, word: Option<&'a str>) -> Result<u32, Misuse<'a>>
    ensures ok { IfOk result (λ size. block_size_of (text_of word.entry) ≡ Some size) }
    ensures is { ReadsValue (λ n. n) (wanted option.now cause.BlockSize (block_size_of (text_of word.entry))) result }
{
    let Some(word) = word else {
        return Ok(BLOCK_SIZE);
    };
    match number(word.as_bytes()) {
        Some(size) if size < BLOCK_SIZES_END => Ok(size as u32),
        _ => Err(Misuse::new(option, Cause::BlockSize)),
    }
}

fn count_of<'a>(word: Option<&'a str>) -> Result<Option<u64>, Misuse<'a>>
    ensures ok { IfOk result (λ count. option_map number (text_of word.entry) ≡ option_map Some count) }
    ensures is { ReadsValue (λ n. n) (wanted_if (codes "--blocks") cause.Number (option_map number (text_of word.entry))) result }
{
    let Some(word) = word else {
        return Ok(None);
    };
    match number(word.as_bytes()) {
        Some(count) => Ok(Some(count)),
        None => Err(Misuse::new("--blocks", Cause::Number)),
    }
}

// `-` for an empty salt, or 2 to 512 hexadecimal digits.
fn salt_of<'a>(alloc: Global, word: Option<&'a str>) -> Result<Option<Salt>, WordsFault<'a>>
    ensures ok { IfOk result (λ salt. option_map salt_of (text_of word.entry) ≡ option_map Some salt) }
    ensures read { IfOk result (λ salt. wanted_if (codes "--salt") cause.Salt (option_map short_salt (text_of word.entry)) ≡ Ok salt) }
    ensures err { IfErr result (RefusesWords (wanted_if (codes "--salt") cause.Salt (option_map short_salt (text_of word.entry)))) }
{
    let Some(word) = word else {
        return Ok(None);
    };
    if word == "-" {
        return Ok(Salt::new(Algorithm::Sha256, &[]));
    }
    let wrong = WordsFault::Usage(Misuse::new("--salt", Cause::Salt));
    if word.is_empty() {
        return Err(wrong);
    }
    if word.len() > MOST_SALT_DIGITS {
        return Err(wrong);
    }
    let Some(bytes) = bytes_of(alloc, word)? else {
        return Err(wrong);
    };
    match Salt::new(Algorithm::Sha256, bytes.as_slice()) {
        Some(salt) => Ok(Some(salt)),
        None => Err(wrong),
    }
}

// The bytes of hexadecimal digits.
fn bytes_of(alloc: Global, word: &str) -> Result<Option<Vec<u8>>, OutOfMemory>
    ensures ok { IfOk result (λ bytes. option_map (λ v. v.items) bytes ≡ result_ok (decode_of word.now)) }
    ensures err { IfErr result (λ e. asked e ≡ length word.now / 2) }
{
    let mut bytes = zeros(alloc, word.len() / 2)?;
    match hex::decode_to_slice(word, bytes.as_mut_slice()) {
        Ok(()) => Ok(Some(bytes)),
        Err(_) => Ok(None),
    }
}

fn uuid_of<'a>(word: Option<&'a str>) -> Result<Option<[u8; 16]>, Misuse<'a>>
    ensures ok { IfOk result (λ uuid. option_map parsed (text_of word.entry) ≡ option_map Some uuid) }
    ensures is { ReadsValue (λ uuid. uuid) (wanted_if (codes "--uuid") cause.Identifier (option_map parsed (text_of word.entry))) result }
{
    let Some(word) = word else {
        return Ok(None);
    };
    match identifier_of(word) {
        Some(uuid) => Ok(Some(uuid)),
        None => Err(Misuse::new("--uuid", Cause::Identifier)),
    }
}

/// Returns the bytes of an identifier in one of its usual forms.
pub fn identifier_of(word: &str) -> Option<[u8; 16]>
    ensures { result ≡ parsed word.now }
{
    match Uuid::try_parse(word) {
        Ok(uuid) => Some(uuid.into_bytes()),
        Err(_) => None,
    }
}
