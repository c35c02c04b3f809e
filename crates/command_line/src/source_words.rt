//! What a command reads: a device of a stack, or a disk without one.
ghost use Rattle.command_line.specs.FormatOptions.{texts_of};
ghost use Rattle.command_line.specs.Misuses.{ReadsValue};
ghost use Rattle.command_line.specs.SourceWords.{disk_first, first_source, no_binding, source_first, stack_first};

use crate::misuse::Misuse;
use crate::positional::{no_more, positional};

/// What a command reads.
#[derive(Clone, Copy)]
pub enum SourceWords<'a> {
    /// A mapped device of a stack file, by its name.
    Stack { stack: &'a str, name: &'a str },
    /// A file, a device or a part of one, whole.
    Disk(&'a str),
}

/// Returns what a command reads, and the arguments after it: DISK if `disk` is set, else STACK and NAME.
///
/// # Errors
///
/// `Missing` of `DISK`, `STACK` or `NAME` if there is no such argument.
#[tactic(auto, unfolding(crate::specs::SourceWords::source_first))]
pub fn source_first<'a, 'b>(
    disk: bool,
    words: &'b [&'a str],
) -> Result<(SourceWords<'a>, &'b [&'a str]), Misuse<'a>>
    ensures { ReadsValue first_source (source_first disk (texts_of words.now)) result }
{
    if disk {
        disk_first(words)
    } else {
        stack_first(words)
    }
}

// DISK, and the arguments after it.
#[tactic(auto, unfolding(crate::specs::SourceWords::disk_first))]
fn disk_first<'a, 'b>(words: &'b [&'a str]) -> Result<(SourceWords<'a>, &'b [&'a str]), Misuse<'a>>
    ensures { ReadsValue first_source (disk_first (texts_of words.now)) result }
{
    let (place, rest) = positional("DISK", words)?;
    Ok((SourceWords::Disk(place), rest))
}

// STACK and NAME, and the arguments after them.
#[tactic(auto, unfolding(crate::specs::SourceWords::stack_first))]
fn stack_first<'a, 'b>(words: &'b [&'a str]) -> Result<(SourceWords<'a>, &'b [&'a str]), Misuse<'a>>
    ensures { ReadsValue first_source (stack_first (texts_of words.now)) result }
{
    let (stack, words) = positional("STACK", words)?;
    let (name, rest) = positional("NAME", words)?;
    Ok((SourceWords::Stack { stack, name }, rest))
}

/// Refuses a further argument if `disk` is set: a disk has no bindings.
///
/// # Errors
///
/// `Surplus` of the next argument if there is one.
#[tactic(auto, unfolding(crate::specs::SourceWords::no_binding))]
pub fn no_binding<'a>(disk: bool, words: &[&'a str]) -> Result<(), Misuse<'a>>
    ensures { ReadsValue (λ none. none) (no_binding disk (texts_of words.now)) result }
{
    if disk { no_more(words) } else { Ok(()) }
}
