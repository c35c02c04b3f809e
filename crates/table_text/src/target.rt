//! The target of a line.
ghost use Rattle.std.specs.Prelude.{◌≡◌, ◌≤◌, ◌*◌, IfOk};
ghost use Rattle.table_text.specs.Reading.{IsReading};
ghost use Rattle.dm_table.specs.Arguments.{base_at};
ghost use Rattle.dm_table.specs.Lines.{arguments_at, bare_at, bases_at, chunk_at, linear_at, striped_at, stripes_at, target_at};

use crate::crypt_arguments::read_crypt;
use crate::cut::Words;
use crate::line_fault::LineFault;
use crate::numbers::number;
use crate::unstriped_arguments::read_unstriped;
use crate::verity_arguments::read_verity;
use dm_table::{Base, Bases, Name, Target, TargetType, TextKind, is_device};
use std::alloc::Global;

/// Reads a target from its type and its arguments.
#[tactic(auto, unfolding(dm_table::specs::Lines::target_at))]
pub(crate) fn read_target(
    alloc: Global,
    word: &[u8],
    arguments: Words<'_>,
) -> Result<Target, LineFault>
    ensures { IsReading result (target_at word.now arguments.entry) }
{
    let target_type = TargetType::named(word).ok_or(TextKind::Target)?;
    read_arguments(alloc, target_type, arguments)
}

fn read_arguments(
    alloc: Global,
    target_type: TargetType,
    arguments: Words<'_>,
) -> Result<Target, LineFault>
    ensures { IsReading result (arguments_at target_type arguments.entry) }
{
    match target_type {
        TargetType::Linear => read_linear(alloc, arguments),
        TargetType::Striped => read_striped(alloc, arguments),
        TargetType::Zero => read_bare(Target::Zero, arguments),
        TargetType::Error => read_bare(Target::Error, arguments),
        TargetType::Crypt => Ok(Target::Crypt(read_crypt(alloc, arguments)?)),
        TargetType::Verity => Ok(Target::Verity(read_verity(alloc, arguments)?)),
        TargetType::Unstriped => Ok(Target::Unstriped(read_unstriped(alloc, arguments)?)),
    }
}

fn read_bare(target: Target, mut arguments: Words<'_>) -> Result<Target, LineFault>
    ensures { IsReading result (bare_at target arguments.entry) }
{
    arguments.end()?;
    Ok(target)
}

fn read_linear(alloc: Global, mut arguments: Words<'_>) -> Result<Target, LineFault>
    ensures { IsReading result (linear_at arguments.entry) }
{
    let device = arguments.take_word()?;
    let offset = arguments.take_word()?;
    arguments.end()?;
    Ok(Target::Linear(read_base(alloc, device, offset)?))
}

fn read_striped(alloc: Global, mut arguments: Words<'_>) -> Result<Target, LineFault>
    ensures { IsReading result (striped_at arguments.entry) }
{
    let count = arguments.take_word()?;
    let size = arguments.take_word()?;
    let stripes = stripe_count(count)?;
    let chunk = chunk_size(size)?;
    if !arguments.are(2 * stripes) {
        return Err(LineFault::Kind(TextKind::ArgCount));
    }
    let bases = read_bases(alloc, arguments, stripes)?;
    Ok(Target::Striped { chunk, bases })
}

fn stripe_count(word: &[u8]) -> Result<usize, TextKind>
    ensures value { result ≡ stripes_at word.now }
    ensures few { IfOk result (λ count. count ≤ 16) }
{
    match number(word) {
        Some(count) if 1 <= count && count <= 16 => Ok(count as usize),
        _ => Err(TextKind::StripeCount),
    }
}

fn chunk_size(word: &[u8]) -> Result<u64, TextKind>
    ensures { result ≡ chunk_at word.now }
{
    match number(word) {
        Some(chunk) if 1 <= chunk => Ok(chunk),
        _ => Err(TextKind::ZeroChunk),
    }
}

pub(crate) fn read_bases(
    alloc: Global,
    mut words: Words<'_>,
    count: usize,
) -> Result<Bases, LineFault>
    requires { count ≤ 16 }
    ensures { IsReading result (bases_at words.entry) }
{
    let mut bases = Bases::with_capacity(alloc, count)?;
    'pairs: while let Some(device) = words.next_word() {
        let offset = words.take_word()?;
        bases.push(read_base(alloc, device, offset)?)?;
    }
    Ok(bases)
}

pub(crate) fn read_base(alloc: Global, device: &[u8], offset: &[u8]) -> Result<Base, LineFault>
    ensures { IsReading result (base_at device.now offset.now) }
{
    if !is_device(device) {
        return Err(LineFault::Kind(TextKind::Name));
    }
    let offset = number(offset).ok_or(TextKind::Number)?;
    let device = Name::new(alloc, device)?;
    Ok(Base { device, offset })
}
