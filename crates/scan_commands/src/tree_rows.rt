//! The rows of a tree.
ghost use Rattle.std.specs.Prelude.{◌≡◌, ◌++◌, codes, if◌then◌else◌, map};
ghost use Rattle.program_io.specs.Counted.{Writes};
ghost use Rattle.command_line.specs.Bindings.{binding_record};
ghost use Rattle.io_fault_text.specs.Paths.{shown_path};
ghost use Rattle.scan_commands.specs.TreeRows.{IsIn, bars_text, branch_text, file_text, line_text, lower_text, offset_of, size_text, type_of};

use crate::device_lines::flag_text;
use command_line::{Backing, Binding};
use dm_table::{Line, Target, TargetType};
use io_fault_text::say_path;
use program_io::{Counted, WriteFault};
use stack_config::{Config, Lower};
use std::io::Write;

/// Prints the bars and the branch at the left of a row.
pub(crate) fn say_branch<W: Write>(
    bars: &[bool],
    last: bool,
    writer: &mut Counted<W>,
) -> Result<(), WriteFault>
    ensures { Writes W.contents writer.old writer.new (bars_text bars.now ++ branch_text last) result }
{
    'bars: for bar in bars {
        writer.put(bar_text(*bar))?;
    }
    writer.put(branch_text(last))
}

fn bar_text(bar: bool) -> &'static [u8]
    ensures { result.now ≡ (if bar then codes "| " else codes "  ") }
{
    if bar { b"| " } else { b"  " }
}

fn branch_text(last: bool) -> &'static [u8]
    ensures { result.now ≡ branch_text last }
{
    if last { b"`-" } else { b"|-" }
}

/// Prints `TYPE FIRST COUNT` of a line.
#[tactic(auto, unfolding(crate::specs::TreeRows::line_text))]
pub(crate) fn say_line<W: Write>(line: &Line, writer: &mut Counted<W>) -> Result<(), WriteFault>
    ensures { Writes W.contents writer.old writer.new (line_text line.now) result }
{
    writer.put(type_of(&line.target).word())?;
    let first = line.start;
    let count = line.length;
    writer.print(format_args!(" {first} {count}"))
}

fn type_of(target: &Target) -> TargetType
    ensures { result ≡ type_of target.now }
{
    match target {
        Target::Linear(_) => TargetType::Linear,
        Target::Striped { .. } => TargetType::Striped,
        Target::Zero => TargetType::Zero,
        Target::Error => TargetType::Error,
        Target::Crypt(_) => TargetType::Crypt,
        Target::Verity(_) => TargetType::Verity,
        Target::Unstriped(_) => TargetType::Unstriped,
    }
}

/// Returns the sector of device `i` of a target at which its range begins, or its hash tree or parity.
pub(crate) fn offset_of(target: &Target, i: u32) -> u128
    ensures { result ≡ offset_of target.now i }
{
    match target {
        Target::Linear(base) => u128::from(base.offset),
        Target::Striped { bases, .. } => match bases.as_slice().get(i as usize) {
            Some(base) => u128::from(base.offset),
            None => 0,
        },
        Target::Zero => 0,
        Target::Error => 0,
        Target::Crypt(crypt) => u128::from(crypt.base.offset),
        Target::Verity(verity) => {
            if i == 0 {
                0
            } else if i == 1 {
                u128::from(verity.start) * u128::from(verity.hash_block / 512)
            } else {
                match &verity.parity {
                    Some(parity) => {
                        u128::from(parity.start) * u128::from(verity.data_block / 512)
                    }
                    None => 0,
                }
            }
        }
        Target::Unstriped(unstriped) => u128::from(unstriped.base.offset),
    }
}

/// Prints `NAME sectors S rw` of a leaf or device, or `ro`.
#[tactic(auto, unfolding(crate::specs::TreeRows::lower_text))]
pub(crate) fn say_lower<W: Write>(
    config: &Config,
    lower: Lower,
    writer: &mut Counted<W>,
) -> Result<(), WriteFault>
    requires { IsIn config.now lower }
    ensures { Writes W.contents writer.old writer.new (lower_text config.now lower) result }
{
    match lower {
        Lower::Leaf(i) => {
            let leaf = &config.leaves()[i as usize];
            writer.put(leaf.name())?;
            say_size(leaf.sectors(), leaf.writable(), writer)
        }
        Lower::Device(d) => {
            writer.put(config.name(d))?;
            say_size(config.sectors(d), config.writable(d), writer)
        }
    }
}

// ` sectors S rw`, or `ro` in place of `rw`.
fn say_size<W: Write>(
    sectors: u64,
    writable: bool,
    writer: &mut Counted<W>,
) -> Result<(), WriteFault>
    ensures { Writes W.contents writer.old writer.new (size_text sectors writable) result }
{
    let flag = flag_text(writable);
    writer.print(format_args!(" sectors {sectors} {flag}"))
}

/// Prints ` file PATH` if the leaf with this index is in a file.
pub(crate) fn say_file<W: Write>(
    bindings: &[Binding<'_>],
    i: u32,
    writer: &mut Counted<W>,
) -> Result<(), WriteFault>
    ensures { Writes W.contents writer.old writer.new (file_text (map binding_record bindings.now) i) result }
{
    match bindings.get(i as usize) {
        Some(binding) => match binding.backing {
            Backing::File { path, writable: _ } => say_path_of(path, writer),
            Backing::Part {
                path,
                writable: _,
                part: _,
            } => say_path_of(path, writer),
            Backing::Partition { path, .. } => say_path_of(path, writer),
            Backing::Mapped { path, .. } => say_path_of(path, writer),
            Backing::Zeros(_) => Ok(()),
            Backing::Ramp(_) => Ok(()),
        },
        None => Ok(()),
    }
}

// Prints ` file PATH`.
fn say_path_of<W: Write>(path: &str, writer: &mut Counted<W>) -> Result<(), WriteFault>
    ensures { Writes W.contents writer.old writer.new (codes " file " ++ shown_path path.now) result }
{
    writer.put(b" file ")?;
    say_path(writer, path)
}
