//! `table --fec FECNAME [--fec-roots N] [--no-superblock --blocks N --salt HEX] [OPTIONS] HASH [ROOT] DATANAME HASHNAME`
ghost use Rattle.command_line.specs.Invocations.{table_fec};
ghost use Rattle.command_line.specs.Reading.{ReadsAs};
ghost use Rattle.command_line.specs.FormatOptions.{option_texts, texts_of};
ghost use Rattle.command_line.specs.words.FecTable.{fec_table_said};

use crate::fault::WordsFault;
use crate::fec_file::{FecDevice, fec_device_of};
use crate::invocation::Invocation;
use crate::option_words::OptionWords;
use crate::words::table::{TableWords, table_words};

/// The table line of a verity image with parity is printed, or a whole entry with a name. Its tree is that of the superblock or,
/// without one, that which `options_of` reads.
#[derive(Drop)]
pub struct FecTableWords<'a> {
    pub table: TableWords<'a>,
    pub no_superblock: bool,
    pub fec: FecDevice<'a>,
}

/// Returns `table` with its arguments, `--fec FECNAME [--fec-roots N] [--no-superblock --blocks N --salt HEX]
/// [--hash-offset BYTES] [--name NAME] [--root-hash-file FILE | --pin FILE] HASH [ROOT] DATANAME HASHNAME`.
///
/// # Errors
///
/// `Usage` if `--fec` is missing or no device argument, `--fec-roots` is invalid, or `table_words` refuses the arguments.
#[tactic(auto, unfolding(crate::specs::words::FecTable::fec_table_said))]
pub fn fec_table_of<'a>(
    options: &OptionWords<'a>,
    words: &[&'a str],
) -> Result<Invocation<'a>, WordsFault<'a>>
    ensures { ReadsAs table_fec (fec_table_said (option_texts options.now) (texts_of words.now)) result }
{
    let fec = fec_device_of(options.fec, options.fec_roots)?;
    match table_words(options, words) {
        Ok(table) => Ok(Invocation::TableFec(FecTableWords {
            table,
            no_superblock: options.no_superblock,
            fec,
        })),
        Err(misuse) => Err(WordsFault::Usage(misuse)),
    }
}
