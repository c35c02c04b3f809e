//! Reading the arguments of a `verity` line.
ghost use Rattle.std.specs.Prelude.{◌≡◌, ◌/◌, ◌<◌, ◌≤◌, ◌∷◌, length, MatchResult};
ghost use Rattle.dm_table.specs.declared.fault.TextKind.TheVariants as kinds;
ghost use Rattle.table_text.specs.Reading.{IsReading};
ghost use Rattle.dm_table.specs.Arguments.{bytes_at, device_at};
ghost use Rattle.dm_table.specs.Options.{options_at};
ghost use Rattle.dm_table.specs.ValuedOptions.{valued_options};
ghost use Rattle.dm_table.specs.Verity.{algorithm_at, block_size_at, corruption_at, digest_at, known_verity_options, salt_at, verity_at, version_at};

use crate::cut::Words;
use crate::digits::decode_digits;
use crate::line_fault::LineFault;
use crate::numbers::{number, read_number};
use crate::option_words::read_options;
use crate::parity_arguments::read_parity;
use crate::signature_arguments::read_signature_key;
use dm_table::{CorruptionMode, Name, Options, TextKind, Verity, is_device, is_kept};
use std::alloc::Global;
use tree_shape::{Algorithm, Digest, Salt, is_block_size};

/// The largest length of a salt: two digits for each of 256 bytes.
const MOST_SALT_DIGITS: usize = 512;

/// The mandatory arguments of a `verity` line.
#[derive(Drop)]
struct VerityWords<'a> {
    version: &'a [u8],
    device: &'a [u8],
    hash_device: &'a [u8],
    data_block: &'a [u8],
    hash_block: &'a [u8],
    blocks: &'a [u8],
    start: &'a [u8],
    algorithm: &'a [u8],
    root: &'a [u8],
    salt: &'a [u8],
}

/// Reads the arguments of a `verity` line.
pub(crate) fn read_verity(alloc: Global, mut arguments: Words<'_>) -> Result<Verity, LineFault>
    ensures { IsReading result (verity_at arguments.entry) }
{
    let words = take_verity_words(&mut arguments)?;
    check_version(words.version)?;
    check_device(words.device)?;
    check_device(words.hash_device)?;
    let data_block = read_block_size(words.data_block)?;
    let hash_block = read_block_size(words.hash_block)?;
    let blocks = read_number(words.blocks)?;
    let start = read_number(words.start)?;
    let algorithm = read_algorithm(words.algorithm)?;
    let root = read_root(words.root)?;
    let salt = read_salt(algorithm, words.salt)?;
    let options = read_verity_options(alloc, arguments.again())?;
    let corruption = corruption_mode(&options)?;
    let parity = read_parity(alloc, arguments.again(), &options)?;
    let signature_key = read_signature_key(alloc, arguments, &options)?;
    let ignore_zero_blocks = is_kept(&options, b"ignore_zero_blocks");
    let in_tasklet = is_kept(&options, b"try_verify_in_tasklet");
    let data = Name::new(alloc, words.device)?;
    let hash = Name::new(alloc, words.hash_device)?;
    Ok(Verity {
        data,
        hash,
        data_block,
        hash_block,
        blocks,
        start,
        root,
        salt,
        ignore_zero_blocks,
        corruption,
        in_tasklet,
        parity,
        signature_key,
    })
}

fn take_verity_words<'a>(arguments: &mut Words<'a>) -> Result<VerityWords<'a>, TextKind>
    ensures { MatchResult result
        (λ w. arguments.old ≡ w.version.now ∷ w.device.now ∷ w.hash_device.now ∷ w.data_block.now ∷ w.hash_block.now
        ∷ w.blocks.now ∷ w.start.now ∷ w.algorithm.now ∷ w.root.now ∷ w.salt.now ∷ arguments.new)
        (λ kind. (kind ≡ kinds.ArgCount) × (length arguments.old < 10)) }
{
    let version = arguments.take_word()?;
    let device = arguments.take_word()?;
    let hash_device = arguments.take_word()?;
    let data_block = arguments.take_word()?;
    let hash_block = arguments.take_word()?;
    let blocks = arguments.take_word()?;
    let start = arguments.take_word()?;
    let algorithm = arguments.take_word()?;
    let root = arguments.take_word()?;
    let salt = arguments.take_word()?;
    Ok(VerityWords {
        version,
        device,
        hash_device,
        data_block,
        hash_block,
        blocks,
        start,
        algorithm,
        root,
        salt,
    })
}

fn check_version(word: &[u8]) -> Result<u64, TextKind>
    ensures { result ≡ version_at word.now }
{
    match number(word) {
        Some(1) => Ok(1),
        _ => Err(TextKind::Version),
    }
}

pub(crate) fn check_device(word: &[u8]) -> Result<(), TextKind>
    ensures { MatchResult result (λ _. device_at word.now ≡ Ok word.now) (λ kind. device_at word.now ≡ Err kind) }
{
    if is_device(word) {
        Ok(())
    } else {
        Err(TextKind::Name)
    }
}

fn read_block_size(word: &[u8]) -> Result<u32, TextKind>
    ensures { result ≡ block_size_at word.now }
{
    match number(word) {
        Some(size) if size <= 4096 && is_block_size(size as u32) => Ok(size as u32),
        _ => Err(TextKind::BlockSize),
    }
}

fn read_algorithm(word: &[u8]) -> Result<Algorithm, TextKind>
    ensures { result ≡ algorithm_at word.now }
{
    Algorithm::named(word).ok_or(TextKind::Algorithm)
}

fn read_root(word: &[u8]) -> Result<Digest, TextKind>
    ensures { result ≡ digest_at word.now }
{
    let mut root = [0u8; Digest::SIZE];
    decode_digits(word, &mut root, TextKind::Digest)?;
    Ok(Digest::new(root))
}

fn read_salt(algorithm: Algorithm, word: &[u8]) -> Result<Salt, TextKind>
    ensures { result ≡ salt_at word.now }
{
    if word == b"-".as_slice() {
        return Salt::new(algorithm, &[]).ok_or(TextKind::Salt);
    }
    if word.len() < 2 || word.len() > MOST_SALT_DIGITS {
        return Err(TextKind::Salt);
    }
    let mut bytes = [0u8; 256];
    decode_salt(algorithm, word, &mut bytes[..word.len() / 2])
}

// Returns the salt with these digits. `room` is scratch space of half as many bytes.
fn decode_salt(algorithm: Algorithm, word: &[u8], room: &mut [u8]) -> Result<Salt, TextKind>
    requires half { length room.old ≡ length word.now / 2 }
    requires fits { length room.old ≤ 256 }
    ensures { result ≡ bytes_at (length word.now / 2) kinds.Salt word.now }
{
    decode_digits(word, room, TextKind::Salt)?;
    Salt::new(algorithm, room).ok_or(TextKind::Salt)
}

fn read_verity_options(alloc: Global, arguments: Words<'_>) -> Result<Options, LineFault>
    ensures { IsReading result (options_at known_verity_options valued_options arguments.entry) }
{
    read_options(
        alloc,
        arguments,
        &[
            "ignore_zero_blocks",
            "restart_on_corruption",
            "panic_on_corruption",
            "try_verify_in_tasklet",
            "root_hash_sig_key_desc",
            "use_fec_from_device",
            "fec_roots",
            "fec_blocks",
            "fec_start",
        ],
        &[
            "root_hash_sig_key_desc",
            "use_fec_from_device",
            "fec_roots",
            "fec_blocks",
            "fec_start",
        ],
    )
}

fn corruption_mode(options: &Options) -> Result<CorruptionMode, TextKind>
    ensures { result ≡ corruption_at options.now }
{
    let panics = is_kept(options, b"panic_on_corruption");
    if is_kept(options, b"restart_on_corruption") {
        if panics {
            return Err(TextKind::Option);
        }
        return Ok(CorruptionMode::Restart);
    }
    if panics {
        return Ok(CorruptionMode::Panic);
    }
    Ok(CorruptionMode::Fail)
}
