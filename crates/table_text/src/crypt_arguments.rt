//! Reading the arguments of a `crypt` line.
ghost use Rattle.std.specs.Prelude.{◌≡◌, ◌<◌, ◌∷◌, length, MatchResult};
ghost use Rattle.dm_table.specs.declared.fault.TextKind.TheVariants as kinds;
ghost use Rattle.table_text.specs.Reading.{IsReading};
ghost use Rattle.dm_table.specs.Crypt.{cipher_at, crypt_at, key_at};

use crate::cut::Words;
use crate::digits::decode_digits;
use crate::line_fault::LineFault;
use crate::numbers::read_number;
use crate::option_words::read_options;
use crate::target::read_base;
use dm_table::{Crypt, Key, TextKind};
use std::alloc::Global;

/// The mandatory arguments of a `crypt` line.
#[derive(Drop)]
struct CryptWords<'a> {
    cipher: &'a [u8],
    key: &'a [u8],
    iv_offset: &'a [u8],
    device: &'a [u8],
    offset: &'a [u8],
}

/// Reads the arguments of a `crypt` line.
pub(crate) fn read_crypt(alloc: Global, mut arguments: Words<'_>) -> Result<Crypt, LineFault>
    ensures { IsReading result (crypt_at arguments.entry) }
{
    let words = take_crypt_words(&mut arguments)?;
    check_cipher(words.cipher)?;
    let key = read_key(words.key)?;
    let iv_offset = read_number(words.iv_offset)?;
    let base = read_base(alloc, words.device, words.offset)?;
    let options = read_options(
        alloc,
        arguments,
        &[
            "allow_discards",
            "same_cpu_crypt",
            "submit_from_crypt_cpus",
            "no_read_workqueue",
            "no_write_workqueue",
            "sector_size:512",
            "sector_size:1024",
            "sector_size:2048",
            "sector_size:4096",
            "iv_large_sectors",
        ],
        &[],
    )?;
    Ok(Crypt {
        key,
        iv_offset,
        base,
        options,
    })
}

fn take_crypt_words<'a>(arguments: &mut Words<'a>) -> Result<CryptWords<'a>, TextKind>
    ensures { MatchResult result
        (λ w. arguments.old ≡ w.cipher.now ∷ w.key.now ∷ w.iv_offset.now ∷ w.device.now ∷ w.offset.now ∷ arguments.new)
        (λ kind. (kind ≡ kinds.ArgCount) × (length arguments.old < 5)) }
{
    let cipher = arguments.take_word()?;
    let key = arguments.take_word()?;
    let iv_offset = arguments.take_word()?;
    let device = arguments.take_word()?;
    let offset = arguments.take_word()?;
    Ok(CryptWords {
        cipher,
        key,
        iv_offset,
        device,
        offset,
    })
}

fn check_cipher(word: &[u8]) -> Result<(), TextKind>
    ensures { result ≡ cipher_at word.now }
{
    if word == b"aes-xts-plain64".as_slice() {
        Ok(())
    } else {
        Err(TextKind::Cipher)
    }
}

fn read_key(word: &[u8]) -> Result<Key, TextKind>
    ensures { result ≡ key_at word.now }
{
    let mut bytes = [0u8; 64];
    if word.len() == 128 {
        decode_digits(word, &mut bytes, TextKind::Key)?;
        return Ok(Key::new(bytes, 64));
    }
    decode_digits(word, &mut bytes[..32], TextKind::Key)?;
    Ok(Key::new(bytes, 32))
}
