//! `verify --fec FILE [--fec-roots N] [--no-superblock --salt HEX] [OPTIONS] DATA HASH [ROOT]`
ghost use Rattle.command_line.specs.Invocations.{verify_fec};
ghost use Rattle.command_line.specs.Reading.{ReadsAs};
ghost use Rattle.command_line.specs.FormatOptions.{option_texts, texts_of};
ghost use Rattle.command_line.specs.words.FecVerify.{fec_verify_said};

use crate::fault::WordsFault;
use crate::fec_file::{FecFile, fec_file_of};
use crate::invocation::Invocation;
use crate::misuse::{Cause, refuse_if};
use crate::option_words::OptionWords;
use crate::words::verify::{VerifyWords, verify_words};

/// A verity image is checked, and the parity over it. `verify.all` is false and `verify.form` is `Lines`. Its tree is that of the
/// superblock or, without one, that which `options_of` reads.
#[derive(Drop)]
pub struct FecVerifyWords<'a> {
    pub verify: VerifyWords<'a>,
    pub no_superblock: bool,
    pub fec: FecFile<'a>,
}

/// Returns `verify` with its arguments, `--fec FILE [--fec-roots N] [--no-superblock --salt HEX] [--hash-offset BYTES]
/// [--root-hash-file FILE | --pin FILE] [--progress] DATA HASH [ROOT]`.
///
/// # Errors
///
/// `Usage` if `--all` is given, `--fec` is missing, `--fec-roots` is invalid, or `verify_words` refuses the arguments.
#[tactic(auto, unfolding(crate::specs::words::FecVerify::fec_verify_said))]
pub fn fec_verify_of<'a>(
    options: &OptionWords<'a>,
    words: &[&'a str],
) -> Result<Invocation<'a>, WordsFault<'a>>
    ensures { ReadsAs verify_fec (fec_verify_said (option_texts options.now) (texts_of words.now)) result }
{
    refuse_if(options.all, "--all", Cause::WithFec)?;
    let fec = fec_file_of(options.fec, options.fec_roots)?;
    match verify_words(options, words) {
        Ok(verify) => Ok(Invocation::VerifyFec(FecVerifyWords {
            verify,
            no_superblock: options.no_superblock,
            fec,
        })),
        Err(misuse) => Err(WordsFault::Usage(misuse)),
    }
}
