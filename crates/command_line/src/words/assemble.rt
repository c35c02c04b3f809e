//! `assemble [--type TYPE] [--arch ARCH] [--fec] [--sector-size 512|4096] [--draw-from SEED] [--progress] [--pin FILE] OUT DATA`
ghost use Rattle.command_line.specs.FormatOptions.{option_texts, texts_of};
ghost use Rattle.command_line.specs.Invocations.{assemble};
ghost use Rattle.command_line.specs.Misuses.{ReadsValue};
ghost use Rattle.command_line.specs.Reading.{ReadsAs};
ghost use Rattle.command_line.specs.words.Assemble.{assemble_record, assemble_said};

use crate::disk_types::{arch_of, kind_of};
use crate::fault::WordsFault;
use crate::invocation::Invocation;
use crate::misuse::Misuse;
use crate::option_words::OptionWords;
use crate::positional::{no_more, positional};
use crate::root_file::{RootFile, root_choice_of};
use crate::values::sector_size_of;

/// A disk of a verity image is made: its data partition has the type `kind-arch`. If there is a file, the pin is written to it. If
/// there is a seed, it determines what is drawn.
#[derive(Drop)]
pub struct AssembleWords<'a> {
    pub disk_path: &'a str,
    pub data_path: &'a str,
    pub kind: &'a str,
    pub arch: &'a str,
    pub sector_size: u32,
    pub parity: bool,
    pub seed: Option<&'a str>,
    pub progress: bool,
    pub file: Option<RootFile<'a>>,
}

/// Returns `assemble` with its arguments, `[--type TYPE] [--arch ARCH] [--fec] [--sector-size 512|4096] [--draw-from SEED] [--progress]
/// [--pin FILE] OUT DATA`.
///
/// # Errors
///
/// `Usage` if `assemble_words` refuses the arguments.
pub fn assemble_of<'a>(
    options: &OptionWords<'a>,
    words: &[&'a str],
) -> Result<Invocation<'a>, WordsFault<'a>>
    ensures { ReadsAs assemble (assemble_said (option_texts options.now) (texts_of words.now)) result }
{
    let disk = assemble_words(options, words)?;
    Ok(Invocation::Assemble(disk))
}

// The arguments of `assemble` as its record.
#[tactic(auto, unfolding(crate::specs::words::Assemble::assemble_said))]
fn assemble_words<'a>(
    options: &OptionWords<'a>,
    words: &[&'a str],
) -> Result<AssembleWords<'a>, Misuse<'a>>
    ensures { ReadsValue assemble_record (assemble_said (option_texts options.now) (texts_of words.now)) result }
{
    let file = root_choice_of(options.pin, options.root_hash_file)?;
    let (disk_path, words) = positional("OUT", words)?;
    let (data_path, words) = positional("DATA", words)?;
    no_more(words)?;
    let sector_size = sector_size_of(options.sector_size)?;
    let kind = kind_of(options.kind)?;
    let arch = arch_of(options.arch)?;
    Ok(AssembleWords {
        disk_path,
        data_path,
        kind,
        arch,
        sector_size,
        parity: options.parity,
        seed: options.draw_from,
        progress: options.progress,
        file,
    })
}
