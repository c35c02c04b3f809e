//! The values of `--type` and `--arch`, which name the types of a disk's partitions.
ghost use Rattle.std.specs.Prelude.{◌≡◌, map};
ghost use Rattle.std.specs.List.{list_any};
ghost use Rattle.std.specs.Str.{bytes_eq};
ghost use Rattle.command_line.specs.DiskTypes.{arch_said, is_architecture, is_file_system, kind_said};
ghost use Rattle.command_line.specs.FormatOptions.{text_of};
ghost use Rattle.command_line.specs.Misuses.{ReadsValue};

use crate::misuse::{Cause, Misuse};

/// Returns which file system the data are: `root` unless there is a word.
///
/// # Errors
///
/// `PartitionType` of `--type` if the word is neither `root` nor `usr`.
#[tactic(auto, unfolding(crate::specs::DiskTypes::kind_said))]
pub fn kind_of<'a>(word: Option<&'a str>) -> Result<&'a str, Misuse<'a>>
    ensures { ReadsValue (λ kind. kind.now) (kind_said (text_of word.entry)) result }
{
    let Some(word) = word else {
        return Ok("root");
    };
    if is_file_system(word.as_bytes()) {
        return Ok(word);
    }
    Err(Misuse::new("--type", Cause::PartitionType))
}

/// Returns the architecture of the data: `x86-64` unless there is a word.
///
/// # Errors
///
/// `PartitionType` of `--arch` if no architecture of the Discoverable Partitions Specification has that name.
#[tactic(auto, unfolding(crate::specs::DiskTypes::arch_said))]
pub fn arch_of<'a>(word: Option<&'a str>) -> Result<&'a str, Misuse<'a>>
    ensures { ReadsValue (λ arch. arch.now) (arch_said (text_of word.entry)) result }
{
    let Some(word) = word else {
        return Ok("x86-64");
    };
    if is_architecture(word.as_bytes()) {
        return Ok(word);
    }
    Err(Misuse::new("--arch", Cause::PartitionType))
}

#[tactic(auto, unfolding(crate::specs::DiskTypes::is_file_system))]
fn is_file_system(word: &[u8]) -> bool
    ensures { result ≡ is_file_system word.now }
{
    is_one_of(&["root", "usr"], word)
}

// The names that the types of partitions have.
#[tactic(auto, unfolding(crate::specs::DiskTypes::is_architecture))]
fn is_architecture(word: &[u8]) -> bool
    ensures { result ≡ is_architecture word.now }
{
    is_one_of(
        &[
            "alpha",
            "arc",
            "arm",
            "arm64",
            "ia64",
            "loongarch64",
            "mips",
            "mips64",
            "mips-le",
            "mips64-le",
            "parisc",
            "ppc",
            "ppc64",
            "ppc64-le",
            "riscv32",
            "riscv64",
            "s390",
            "s390x",
            "tilegx",
            "x86",
            "x86-64",
        ],
        word,
    )
}

fn is_one_of(names: &[&str], word: &[u8]) -> bool
    ensures { result ≡ list_any (λ name. bytes_eq name word.now) (map (λ name. name.now) names.now) }
{
    has_name(names, word)
}

fn has_name(names: &[&str], word: &[u8]) -> bool
    ensures { result ≡ list_any (λ name. bytes_eq name.now word.now) names.now }
{
    names.iter().any(|name| name.as_bytes() == word)
}
