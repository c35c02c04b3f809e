//! Reading the arguments of an `unstriped` line.
ghost use Rattle.std.specs.Prelude.{◌≡◌, ◌<◌, ◌∷◌, length, MatchResult};
ghost use Rattle.dm_table.specs.declared.fault.TextKind.TheVariants as kinds;
ghost use Rattle.table_text.specs.Reading.{IsReading};
ghost use Rattle.dm_table.specs.Unstriped.{count_at, stripe_at, unstriped_at};

use crate::cut::Words;
use crate::line_fault::LineFault;
use crate::numbers::number;
use crate::target::read_base;
use dm_table::{TextKind, Unstriped};
use std::alloc::Global;

/// The arguments of an `unstriped` line.
#[derive(Drop)]
struct UnstripedWords<'a> {
    count: &'a [u8],
    size: &'a [u8],
    place: &'a [u8],
    device: &'a [u8],
    offset: &'a [u8],
}

/// Reads the arguments of an `unstriped` line.
pub(crate) fn read_unstriped(
    alloc: Global,
    mut arguments: Words<'_>,
) -> Result<Unstriped, LineFault>
    ensures { IsReading result (unstriped_at arguments.entry) }
{
    if !arguments.are(5) {
        return Err(LineFault::Kind(TextKind::ArgCount));
    }
    let words = take_unstriped_words(&mut arguments)?;
    let stripes = read_count(words.count, TextKind::StripeCount)?;
    let chunk = read_count(words.size, TextKind::ZeroChunk)?;
    let stripe = read_stripe(words.place, stripes)?;
    let base = read_base(alloc, words.device, words.offset)?;
    Ok(Unstriped {
        stripes,
        chunk,
        stripe,
        base,
    })
}

fn take_unstriped_words<'a>(arguments: &mut Words<'a>) -> Result<UnstripedWords<'a>, TextKind>
    ensures { MatchResult result
        (λ w. arguments.old ≡ w.count.now ∷ w.size.now ∷ w.place.now ∷ w.device.now ∷ w.offset.now ∷ arguments.new)
        (λ kind. (kind ≡ kinds.ArgCount) × (length arguments.old < 5)) }
{
    let count = arguments.take_word()?;
    let size = arguments.take_word()?;
    let place = arguments.take_word()?;
    let device = arguments.take_word()?;
    let offset = arguments.take_word()?;
    Ok(UnstripedWords {
        count,
        size,
        place,
        device,
        offset,
    })
}

fn read_count(word: &[u8], kind: TextKind) -> Result<u32, TextKind>
    ensures { result ≡ count_at kind word.now }
{
    match number(word) {
        Some(count) if 1 <= count && count < 0x1_0000_0000 => Ok(count as u32),
        _ => Err(kind),
    }
}

fn read_stripe(word: &[u8], stripes: u32) -> Result<u32, TextKind>
    ensures { result ≡ stripe_at stripes word.now }
{
    match number(word) {
        Some(stripe) if stripe < u64::from(stripes) => Ok(stripe as u32),
        _ => Err(TextKind::StripeNumber),
    }
}
