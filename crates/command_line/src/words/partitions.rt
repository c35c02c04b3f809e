//! `partitions [--sector-size 512|4096] [--json | --stack | --root ROOT | --pin FILE] [--writable] [--fec PARTITION [--fec-roots N]]
//! IMAGE`
ghost use Rattle.command_line.specs.Invocations.{partitions};
ghost use Rattle.command_line.specs.Reading.{ReadsAs};
ghost use Rattle.command_line.specs.FormatOptions.{option_texts, texts_of};
ghost use Rattle.command_line.specs.words.Partitions.{partitions_said};

use crate::fault::WordsFault;
use crate::fec_file::{FecFile, fec_choice_of};
use crate::invocation::Invocation;
use crate::misuse::{Cause, refuse_if};
use crate::option_words::{OptionWords, is_parity_alone, is_writable_table};
use crate::positional::{no_more, positional};
use crate::values::{PartitionForm, form_of, sector_size_of};

/// The partitions of an image are printed; of a stack, with `writable`, the devices over data partitions are writable. The path of
/// the parity is that of a partition: its number, UUID or label.
#[derive(Drop)]
pub struct PartitionsWords<'a> {
    pub image: &'a str,
    pub sector_size: u32,
    pub form: PartitionForm<'a>,
    pub writable: bool,
    pub fec: Option<FecFile<'a>>,
}

/// Returns `partitions` with its arguments, `[--sector-size 512|4096] [--json | --stack | --root ROOT | --pin FILE] [--writable]
/// [--fec PARTITION [--fec-roots N]] IMAGE`. The sector size is in bytes.
///
/// # Errors
///
/// `Usage` if IMAGE is missing, an argument is surplus, the value of an option is invalid, `--writable` is given and no stack is
/// printed, `--fec` is given and no stack of a verity image is printed, `--fec-roots` is given without `--fec`, or two forms are
/// given.
#[tactic(auto, unfolding(crate::specs::words::Partitions::partitions_said))]
pub fn partitions_of<'a>(
    options: &OptionWords<'a>,
    words: &[&'a str],
) -> Result<Invocation<'a>, WordsFault<'a>>
    ensures { ReadsAs partitions (partitions_said (option_texts options.now) (texts_of words.now)) result }
{
    let (image, words) = positional("IMAGE", words)?;
    no_more(words)?;
    let sector_size = sector_size_of(options.sector_size)?;
    let is_table = is_writable_table(options);
    refuse_if(is_table, "--writable", Cause::WithoutStack)?;
    let fec = fec_choice_of(options.fec, options.fec_roots)?;
    let is_alone = is_parity_alone(options);
    refuse_if(is_alone, "--root", Cause::Missing)?;
    match form_of(options.pin, options.root, options.stack, options.json) {
        Ok(form) => Ok(Invocation::Partitions(PartitionsWords {
            image,
            sector_size,
            form,
            writable: options.writable,
            fec,
        })),
        Err(misuse) => Err(WordsFault::Usage(misuse)),
    }
}
