//! The block sizes in the options.
ghost use Rattle.std.specs.Prelude.{◌≡◌};
ghost use Rattle.command_line.specs.FormatOptions.{block_size_of, option_texts, text_of};
ghost use Rattle.fec_commands.specs.Sizes.{differ, says_two_sizes};

use command_line::OptionWords;
use table_text::number;

const SIZE: u64 = 4096;

/// Returns whether the options give different sizes for data blocks and hash blocks.
pub(crate) fn says_two_sizes(options: &OptionWords<'_>) -> bool
    ensures { result ≡ says_two_sizes (option_texts options.now) }
{
    differ(size_in(options.data_block), size_in(options.hash_block))
}

fn differ(a: Option<u64>, b: Option<u64>) -> bool
    ensures { result ≡ differ a b }
{
    match (a, b) {
        (Some(a), Some(b)) => a != b,
        _ => false,
    }
}

// The block size in an option: 4,096 bytes if there is none. `None` if it isn't a number below 2^32.
fn size_in(word: Option<&str>) -> Option<u64>
    ensures { result ≡ block_size_of (text_of word.entry) }
{
    let Some(word) = word else {
        return Some(SIZE);
    };
    let size = number(word.as_bytes())?;
    if size < 4294967296 {
        return Some(size);
    }
    None
}
