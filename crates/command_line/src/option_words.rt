//! The options of a command line, as words.
ghost use Rattle.std.specs.Prelude.{◌≡◌};
ghost use Rattle.command_line.specs.FormatOptions.{option_texts};
ghost use Rattle.command_line.specs.OptionGroups.{has_fec_value, in_superblock, is_parity_alone, is_writable_table, table_stated, tree_given, tree_stated};
ghost use Rattle.command_line.specs.Misuses.{ReadsValue};

use crate::misuse::{Cause, Misuse, refuse_if};

/// The values of the options, as they are in the words, and which options without a value were given.
#[derive(Clone, Copy)]
pub struct OptionWords<'a> {
    pub data_block: Option<&'a str>,
    pub hash_block: Option<&'a str>,
    pub blocks: Option<&'a str>,
    pub salt: Option<&'a str>,
    pub uuid: Option<&'a str>,
    pub cache: Option<&'a str>,
    pub first: Option<&'a str>,
    pub count: Option<&'a str>,
    pub hash_offset: Option<&'a str>,
    pub old_hash_offset: Option<&'a str>,
    pub root_hash_file: Option<&'a str>,
    pub name: Option<&'a str>,
    pub sector_size: Option<&'a str>,
    pub root: Option<&'a str>,
    pub map: Option<&'a str>,
    pub fec: Option<&'a str>,
    pub fec_roots: Option<&'a str>,
    pub pin: Option<&'a str>,
    pub old_pin: Option<&'a str>,
    pub old_root_hash_file: Option<&'a str>,
    pub runs: Option<&'a str>,
    pub retries: Option<&'a str>,
    pub kind: Option<&'a str>,
    pub arch: Option<&'a str>,
    pub draw_from: Option<&'a str>,
    pub all: bool,
    pub stack: bool,
    pub no_superblock: bool,
    pub grow: bool,
    pub differing: bool,
    pub no_scrape: bool,
    pub no_index: bool,
    pub progress: bool,
    pub json: bool,
    pub check: bool,
    pub linux: bool,
    pub chart: bool,
    pub tree: bool,
    pub quiet: bool,
    pub writable: bool,
    pub parity: bool,
    pub disk: bool,
}

/// Returns whether `--fec` or `--fec-roots` is given.
#[tactic(auto, unfolding(crate::specs::OptionGroups::has_fec_value))]
pub fn has_fec_value(options: &OptionWords<'_>) -> bool
    ensures { result ≡ has_fec_value (option_texts options.now) }
{
    options.fec.is_some() || options.fec_roots.is_some()
}

/// Returns whether `--writable` is given without an option that prints a stack: `--stack`, `--root` or `--pin`.
#[tactic(auto, unfolding(crate::specs::OptionGroups::is_writable_table))]
pub fn is_writable_table(options: &OptionWords<'_>) -> bool
    ensures { result ≡ is_writable_table (option_texts options.now) }
{
    options.writable && !options.stack && options.root.is_none() && options.pin.is_none()
}

/// Returns whether `--fec` is given without an option that prints the stack of a verity image: `--root` or `--pin`.
#[tactic(auto, unfolding(crate::specs::OptionGroups::is_parity_alone))]
pub fn is_parity_alone(options: &OptionWords<'_>) -> bool
    ensures { result ≡ is_parity_alone (option_texts options.now) }
{
    options.fec.is_some() && options.root.is_none() && options.pin.is_none()
}

/// Refuses the options of the tree whose values the superblock holds.
///
/// # Errors
///
/// `InSuperblock` of the first of `--data-block`, `--hash-block`, `--blocks` and `--salt` that is given.
#[tactic(auto, unfolding(crate::specs::OptionGroups::in_superblock))]
pub fn in_superblock<'a>(options: &OptionWords<'a>) -> Result<(), Misuse<'a>>
    ensures { ReadsValue (λ none. none) (in_superblock (option_texts options.now)) result }
{
    refuse_if(
        options.data_block.is_some(),
        "--data-block",
        Cause::InSuperblock,
    )?;
    refuse_if(
        options.hash_block.is_some(),
        "--hash-block",
        Cause::InSuperblock,
    )?;
    refuse_if(options.blocks.is_some(), "--blocks", Cause::InSuperblock)?;
    refuse_if(options.salt.is_some(), "--salt", Cause::InSuperblock)
}

/// Refuses the options of the tree whose values the superblock holds. With `--no-superblock` they are allowed, and the salt is
/// required.
///
/// # Errors
///
/// `Missing` of `--salt` if `--no-superblock` is given without it, or the misuse of `in_superblock`.
#[tactic(auto, unfolding(crate::specs::OptionGroups::tree_stated))]
pub fn tree_stated<'a>(options: &OptionWords<'a>) -> Result<(), Misuse<'a>>
    ensures { ReadsValue (λ none. none) (tree_stated (option_texts options.now)) result }
{
    if options.no_superblock {
        refuse_if(options.salt.is_none(), "--salt", Cause::Missing)
    } else {
        in_superblock(options)
    }
}

/// Refuses the options of the tree whose values the superblock holds. With `--no-superblock` they are allowed, and those of
/// `tree_given` are required.
///
/// # Errors
///
/// The misuse of `tree_given` if `--no-superblock` is given, otherwise that of `in_superblock`.
#[tactic(auto, unfolding(crate::specs::OptionGroups::table_stated))]
pub fn table_stated<'a>(options: &OptionWords<'a>) -> Result<(), Misuse<'a>>
    ensures { ReadsValue (λ none. none) (table_stated (option_texts options.now)) result }
{
    if options.no_superblock {
        tree_given(options)
    } else {
        in_superblock(options)
    }
}

/// Requires the options without which no tree is known before the data are.
///
/// # Errors
///
/// `Missing` of the first of `--blocks` and `--salt` that isn't given.
#[tactic(auto, unfolding(crate::specs::OptionGroups::tree_given))]
pub fn tree_given<'a>(options: &OptionWords<'a>) -> Result<(), Misuse<'a>>
    ensures { ReadsValue (λ none. none) (tree_given (option_texts options.now)) result }
{
    refuse_if(options.blocks.is_none(), "--blocks", Cause::Missing)?;
    refuse_if(options.salt.is_none(), "--salt", Cause::Missing)
}
