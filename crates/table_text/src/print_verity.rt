//! Printing the arguments of a `verity` line.
ghost use Rattle.std.specs.Prelude.{◌≡◌, ◌≤◌, ◌+◌, ◌∷◌, ◌++◌, IfErr, OnOk, Some, codes, length};
ghost use Rattle.allocation.specs.Asked.{asked};
ghost use Rattle.table_text.specs.ArgumentWords.{options_words, salt_word, verity_words};
ghost use Rattle.dm_table.specs.Parity.{parity_words};
ghost use Rattle.dm_table.specs.SignatureKey.{signature_words};
ghost use Rattle.dm_table.specs.Verity.{corruption_words, verity_options, word_if};
ghost use Rattle.table_text.specs.Print.{PrintsWords, printed_length};

use crate::print::{push_spaced, push_spaced_number};
use crate::print_digits::push_digits;
use allocation::OutOfMemory;
use dm_table::{CorruptionMode, Name, Parity, Verity};

/// Prints the type and arguments of a `verity` line.
pub(crate) fn print_verity(text: &mut Vec<u8>, verity: &Verity) -> Result<(), OutOfMemory>
    ensures ok { OnOk result (PrintsWords text.old (codes "verity" ∷ verity_words verity.now) text.new) }
    ensures err { IfErr result (λ e. asked e ≤ printed_length (codes "verity" ∷ verity_words verity.now)) }
{
    push_spaced(text, b"verity")?;
    push_spaced(text, b"1")?;
    push_spaced(text, verity.data.as_slice())?;
    push_spaced(text, verity.hash.as_slice())?;
    push_spaced_number(text, u64::from(verity.data_block))?;
    push_spaced_number(text, u64::from(verity.hash_block))?;
    push_spaced_number(text, verity.blocks)?;
    push_spaced_number(text, verity.start)?;
    push_spaced(text, verity.salt.algorithm().name())?;
    push_digits(text, verity.root.as_bytes())?;
    print_salt(text, verity.salt.bytes())?;
    print_options(text, verity)?;
    Ok(())
}

fn print_salt(text: &mut Vec<u8>, salt: &[u8]) -> Result<(), OutOfMemory>
    requires { length salt.now ≤ 256 }
    ensures ok { OnOk result (text.new.items ≡ text.old.items ++ 32 ∷ salt_word salt.now) }
    ensures err { IfErr result (λ e. asked e ≤ 1 + length (salt_word salt.now)) }
{
    if salt.is_empty() {
        push_spaced(text, b"-")
    } else {
        push_digits(text, salt)
    }
}

// Appends the number of words and the options with their values, or nothing if the line has none.
fn print_options(text: &mut Vec<u8>, verity: &Verity) -> Result<(), OutOfMemory>
    ensures ok { OnOk result (PrintsWords text.old (options_words (verity_options verity.now)) text.new) }
    ensures err { IfErr result (λ e. asked e ≤ printed_length (options_words (verity_options verity.now))) }
{
    let count = option_count(verity);
    if count == 0 {
        return Ok(());
    }
    push_spaced_number(text, count)?;
    print_corruption(text, verity.corruption)?;
    print_if(text, verity.ignore_zero_blocks, b"ignore_zero_blocks")?;
    print_if(text, verity.in_tasklet, b"try_verify_in_tasklet")?;
    print_parity(text, &verity.parity)?;
    print_signature_key(text, &verity.signature_key)?;
    Ok(())
}

// Returns the number of words: the options and their values.
fn option_count(verity: &Verity) -> u64
    ensures { result ≡ length (verity_options verity.now) }
{
    let corruption = match verity.corruption {
        CorruptionMode::Fail => 0,
        CorruptionMode::Restart => 1,
        CorruptionMode::Panic => 1,
    };
    let parity = match &verity.parity {
        Some(_) => 8,
        None => 0,
    };
    let signature = match &verity.signature_key {
        Some(_) => 2,
        None => 0,
    };
    corruption
        + u64::from(verity.ignore_zero_blocks)
        + u64::from(verity.in_tasklet)
        + parity
        + signature
}

fn print_corruption(text: &mut Vec<u8>, mode: CorruptionMode) -> Result<(), OutOfMemory>
    ensures ok { OnOk result (PrintsWords text.old (corruption_words mode) text.new) }
    ensures err { IfErr result (λ e. asked e ≤ printed_length (corruption_words mode)) }
{
    match mode {
        CorruptionMode::Fail => Ok(()),
        CorruptionMode::Restart => push_spaced(text, b"restart_on_corruption"),
        CorruptionMode::Panic => push_spaced(text, b"panic_on_corruption"),
    }
}

fn print_if(text: &mut Vec<u8>, is_set: bool, word: &[u8]) -> Result<(), OutOfMemory>
    ensures ok { OnOk result (PrintsWords text.old (word_if is_set word.now) text.new) }
    ensures err { IfErr result (λ e. asked e ≤ printed_length (word_if is_set word.now)) }
{
    if is_set {
        push_spaced(text, word)
    } else {
        Ok(())
    }
}

fn print_parity(text: &mut Vec<u8>, parity: &Option<Parity>) -> Result<(), OutOfMemory>
    ensures ok { OnOk result (PrintsWords text.old (parity_words parity.now) text.new) }
    ensures err { IfErr result (λ e. asked e ≤ printed_length (parity_words parity.now)) }
{
    match parity {
        Some(parity) => print_fec(text, parity),
        None => Ok(()),
    }
}

fn print_fec(text: &mut Vec<u8>, parity: &Parity) -> Result<(), OutOfMemory>
    ensures ok { OnOk result (PrintsWords text.old (parity_words (Some parity.now)) text.new) }
    ensures err { IfErr result (λ e. asked e ≤ printed_length (parity_words (Some parity.now))) }
{
    push_spaced(text, b"use_fec_from_device")?;
    push_spaced(text, parity.device.as_slice())?;
    push_spaced(text, b"fec_blocks")?;
    push_spaced_number(text, parity.blocks)?;
    push_spaced(text, b"fec_start")?;
    push_spaced_number(text, parity.start)?;
    push_spaced(text, b"fec_roots")?;
    push_spaced_number(text, u64::from(parity.roots))?;
    Ok(())
}

fn print_signature_key(text: &mut Vec<u8>, key: &Option<Name>) -> Result<(), OutOfMemory>
    ensures ok { OnOk result (PrintsWords text.old (signature_words key.now) text.new) }
    ensures err { IfErr result (λ e. asked e ≤ printed_length (signature_words key.now)) }
{
    match key {
        Some(key) => print_description(text, key),
        None => Ok(()),
    }
}

fn print_description(text: &mut Vec<u8>, key: &Name) -> Result<(), OutOfMemory>
    ensures ok { OnOk result (PrintsWords text.old (signature_words (Some key.now)) text.new) }
    ensures err { IfErr result (λ e. asked e ≤ printed_length (signature_words (Some key.now))) }
{
    push_spaced(text, b"root_hash_sig_key_desc")?;
    push_spaced(text, key.as_slice())?;
    Ok(())
}
