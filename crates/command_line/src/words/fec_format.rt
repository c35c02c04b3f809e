//! `format --fec FILE [--fec-roots N] [OPTIONS] DATA HASH`
ghost use Rattle.command_line.specs.Invocations.{format_fec};
ghost use Rattle.command_line.specs.Reading.{ReadsAs};
ghost use Rattle.command_line.specs.FormatOptions.{option_texts, texts_of};
ghost use Rattle.command_line.specs.words.FecFormat.{fec_format_said};

use crate::fault::WordsFault;
use crate::fec_file::{FecFile, fec_file_of};
use crate::invocation::Invocation;
use crate::option_words::OptionWords;
use crate::words::format::{FormatWords, format_words};

/// A verity image is made as without parity, and the parity over it.
#[derive(Drop)]
pub struct FecFormatWords<'a> {
    pub format: FormatWords<'a>,
    pub fec: FecFile<'a>,
}

/// Returns `format` with its arguments, `--fec FILE [--fec-roots N] [OPTIONS] DATA HASH`.
///
/// # Errors
///
/// `Usage` if `--fec` is missing, `--fec-roots` is invalid, or `format_words` refuses the arguments.
#[tactic(auto, unfolding(crate::specs::words::FecFormat::fec_format_said))]
pub fn fec_format_of<'a>(
    options: &OptionWords<'a>,
    words: &[&'a str],
) -> Result<Invocation<'a>, WordsFault<'a>>
    ensures { ReadsAs format_fec (fec_format_said (option_texts options.now) (texts_of words.now)) result }
{
    let fec = fec_file_of(options.fec, options.fec_roots)?;
    let format = format_words(options, words)?;
    Ok(Invocation::FormatFec(FecFormatWords { format, fec }))
}
