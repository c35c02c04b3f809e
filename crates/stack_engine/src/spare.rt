//! The spare of a block: the sum, by exclusive-or, of the other blocks of its round and of their parity; and which blocks of a round are lost.
ghost use Rattle.std.specs.Prelude.{◌≡◌, ◌≤◌, ◌<◌, ◌*◌, ◌/◌, ◌%◌, length, slice_index, IfOk, IfSome, IsSome, None, OnErr, Some};
ghost use Rattle.dm_table.specs.declared.parity.Parity.{Parity};
ghost use Rattle.dm_table.specs.Grammar.{IsParityOfGrammar};
ghost use Rattle.stack_rules.specs.Rules.{IsLoaded};
ghost use Rattle.stack_meaning.specs.Erasures.{scaled_block, with_scaled_parity};
ghost use Rattle.stack_meaning.specs.Memory.{largest_allocation};
ghost use Rattle.stack_meaning.specs.Spares.{added_block, with_parity};
ghost use Rattle.stack_lines.specs.Extents.{LiesInsideLower};
ghost use Rattle.stack_lines.specs.Walks.{HasVerifiedBlock};
ghost use Rattle.allocation.specs.Refusal.{IsOutOfMemory};
ghost use Rattle.stack_rules.specs.Trees.{round_count};
ghost use Rattle.stack_engine.specs.Erasures.{judge_by, own_loss, record_of};
ghost use Rattle.stack_engine.specs.SectorCalls.{covered_at, other_by, other_in, other_number, place_in};
ghost use Rattle.stack_engine.specs.Healing.{can_heal, first_device, unhealed};
ghost use Rattle.stack_engine.specs.Restored.{one_more};
ghost use Rattle.stack_engine.specs.Spares.{IsCoveredBy, IsStoredAt};

use crate::losses::{Judged, Losses};
use allocation::{OutOfMemory, push};
use dm_table::{Parity, Verity};
use reed_solomon::{Products, add_parity, add_parity_products};
use stack_config::{Config, Lower};
use stack_lines::tree::{Extent, Tree, covered_extent, parity_start};
use stack_meaning::IoFault;
use stack_rules::round_count;
use std::alloc::Global;
use tree_shape::Digest;

/// A block that isn't readable or has another digest, by its number among those that parity covers, and the digest that is expected of
/// it.
#[derive(Clone, Copy)]
pub(crate) struct LostBlock {
    pub(crate) index: u64,
    pub(crate) digest: Digest,
}

/// The parity of a round: the device, the first sector, and how many there are.
#[derive(Clone, Copy)]
pub(crate) struct Stored {
    pub(crate) lower: Lower,
    pub(crate) first: u64,
    pub(crate) sectors: u32,
}

/// The fault of the block if that is a device's, else that of the device that failed as the spare was read.
fn first_device(own: IoFault, failed: u32) -> IoFault
    ensures { result ≡ first_device own failed }
{
    match own {
        IoFault::Stack(_) => IoFault::Device(failed),
        IoFault::Device(leaf) => IoFault::Device(leaf),
        IoFault::NoMemory => IoFault::Device(failed),
    }
}

/// The fault of a block whose own read ended in a fault, and the read of its spare in another one: its own fault, unless an
/// allocation failed, or a device did for the spare alone.
pub(crate) fn unhealed(own: IoFault, vain: IoFault) -> IoFault
    ensures { result ≡ unhealed own vain }
{
    match vain {
        IoFault::Stack(_) => own,
        IoFault::Device(failed) => first_device(own, failed),
        IoFault::NoMemory => IoFault::NoMemory,
    }
}

/// Whether the spare of a block is read after its own read ended in that fault: in one of the lines or in a device's, if the line has
/// parity.
pub(crate) fn can_heal(verity: &Verity, own: IoFault) -> bool
    ensures { result ≡ can_heal verity.now.parity own }
{
    match own {
        IoFault::Stack(_) => verity.parity.is_some(),
        IoFault::Device(_) => verity.parity.is_some(),
        IoFault::NoMemory => false,
    }
}

/// The count of restored blocks after one more.
pub(crate) fn one_more(count: u64) -> u64
    ensures { result ≡ one_more count }
{
    if count < u64::MAX { count + 1 } else { count }
}

/// Adds the bytes of a block to the sums. To a sum, a byte is the same as the parity of a codeword that has one byte of it.
pub(crate) fn add_block(block: &[u8], sums: &mut [u8])
    requires { length block.now ≡ length sums.old }
    ensures { sums.new ≡ added_block sums.old block.now }
{
    add_parity(block, 1, sums);
}

/// Adds the parity of a round to the sums of its blocks.
pub(crate) fn add_stored(stored: &[u8], sums: &mut [u8])
    requires some { 0 < length sums.old }
    requires whole { length stored.now % length sums.old ≡ 0 }
    ensures { sums.new ≡ with_parity (length stored.now / length sums.old) sums.old stored.now }
{
    let count = stored.len() / sums.len();
    add_parity(stored, count, sums);
}

/// The number of the covered block at a position of the round of a block, unless it is that block, or there is none.
fn other_number(parity: &Parity, index: u64, place: u32) -> Option<u64>
    requires grammar { IsParityOfGrammar parity.now }
    requires inside { index < parity.now.blocks }
    ensures { result ≡ other_number parity.now index place }
{
    let rounds = round_count(parity);
    if u64::from(place) == index / rounds {
        return None;
    }
    let number = u128::from(place) * u128::from(rounds) + u128::from(index % rounds);
    if number < u128::from(parity.blocks) {
        Some(number as u64)
    } else {
        None
    }
}

/// Where the block at a position of the round of a block lies, unless it is that block, or there is none.
pub(crate) fn other_extent(
    config: &Config,
    verity: &Verity,
    tree: &Tree,
    index: u64,
    place: u32,
) -> Option<Extent>
    requires loaded { IsLoaded config.now }
    requires block { HasVerifiedBlock config.now verity.now tree.now index }
    ensures is { result ≡ other_by (place_in verity.now tree.now index) verity.now.parity place }
    ensures lies { IfSome result (LiesInsideLower config.now) }
    ensures few { IfSome result (λ e. e.sectors ≤ 8) }
{
    match &verity.parity {
        None => None,
        Some(parity) => match other_number(parity, index, place) {
            None => None,
            Some(number) => Some(covered_extent(config, verity, parity, tree, number)),
        },
    }
}

/// Where the parity of the round of a block lies, if the line has parity.
pub(crate) fn stored_extent(
    config: &Config,
    verity: &Verity,
    tree: &Tree,
    index: u64,
) -> Option<Stored>
    requires loaded { IsLoaded config.now }
    requires block { HasVerifiedBlock config.now verity.now tree.now index }
    ensures is { IfSome result (λ at. (q : Parity) × (verity.now.parity ≡ Some q) × IsStoredAt config.now (place_in verity.now tree.now index) q at) }
    ensures few { IfSome result (λ at. at.sectors ≤ 192) }
    ensures some { (q : Parity) → verity.now.parity ≡ Some q → IsSome result }
{
    match &verity.parity {
        None => None,
        Some(parity) => match tree.parity {
            None => None,
            Some(lower) => {
                let round = index % round_count(parity);
                Some(Stored {
                    lower,
                    first: parity_start(config, verity, parity, tree, round),
                    sectors: verity.data_block / 512 * parity.roots,
                })
            }
        },
    }
}

/// Adds to the sums the bytes of a block, each times the factor.
pub(crate) fn add_scaled_block(factor: u8, block: &[u8], sums: &mut [u8])
    requires { length block.now ≡ length sums.old }
    ensures { sums.new ≡ added_block sums.old (scaled_block factor block.now) }
{
    Products::by(factor).add_to(sums, block);
}

/// Adds to the sums of blocks the parity of their round, each byte of a codeword times its factor.
pub(crate) fn add_scaled_stored(factors: &[u8], stored: &[u8], sums: &mut [u8])
    requires { length stored.now ≡ length sums.old * length factors.now }
    ensures { sums.new ≡ with_scaled_parity (slice_index factors.now) (length factors.now) sums.old stored.now }
{
    add_parity_products(factors, stored, sums);
}

/// The number of the covered block at a position of the round of a block, unless it is that block, or there is none.
pub(crate) fn other_covered(
    config: &Config,
    verity: &Verity,
    tree: &Tree,
    index: u64,
    place: u32,
) -> Option<u64>
    requires loaded { IsLoaded config.now }
    requires block { HasVerifiedBlock config.now verity.now tree.now index }
    ensures is { result ≡ other_in verity.now.parity index place }
    ensures covered { IfSome result (IsCoveredBy config.now verity.now tree.now) }
{
    let (_config, _tree) = (config, tree);
    match &verity.parity {
        None => None,
        Some(parity) => other_number(parity, index, place),
    }
}

/// Where a covered block lies.
pub(crate) fn covered_by(
    config: &Config,
    verity: &Verity,
    tree: &Tree,
    number: u64,
) -> Option<Extent>
    requires loaded { IsLoaded config.now }
    requires block { IsCoveredBy config.now verity.now tree.now number }
    ensures is { result ≡ Some (covered_at (place_in verity.now tree.now number) number) }
    ensures lies { IfSome result (LiesInsideLower config.now) }
{
    match &verity.parity {
        None => None,
        Some(parity) => Some(covered_extent(config, verity, parity, tree, number)),
    }
}

/// The position of a block in its round.
fn place_of(parity: &Parity, index: u64) -> usize
    requires grammar { IsParityOfGrammar parity.now }
    requires inside { index < parity.now.blocks }
    ensures { result ≡ index / round_count parity.now }
{
    (index / round_count(parity)) as usize
}

/// A block as the only lost one of its round.
pub(crate) fn own_loss(
    alloc: Global,
    config: &Config,
    verity: &Verity,
    tree: &Tree,
    lost: &LostBlock,
) -> Result<Losses, OutOfMemory>
    requires loaded { IsLoaded config.now }
    requires block { HasVerifiedBlock config.now verity.now tree.now lost.now.index }
    ensures ok { IfOk result (λ l. l.lost ≡ lost.now) }
    ensures place { IfOk result (λ l. (q : Parity) → verity.now.parity ≡ Some q → record_of l ≡ own_loss (lost.now.index / round_count q)) }
    ensures none { IfOk result (λ l. l.failed ≡ None) }
    ensures err { OnErr result (IsOutOfMemory largest_allocation) }
{
    let (_config, _tree) = (config, tree);
    let place = match &verity.parity {
        None => 0,
        Some(parity) => place_of(parity, lost.index),
    };
    let mut places = Vec::new(alloc);
    push(&mut places, place)?;
    Ok(Losses {
        lost: *lost,
        places,
        unread: Vec::new(alloc),
        failed: None,
    })
}

/// Whether a block is lost that has that digest, or whose leaf failed, by the digest that is expected of it. One whose expected digest
/// isn't known is taken as it is stored; if its leaf failed, the attempt ends with that leaf's fault.
pub(crate) fn judge_by(
    own: Result<Digest, u32>,
    known: Result<Digest, IoFault>,
) -> Result<Judged, IoFault>
    ensures { result ≡ judge_by own known }
{
    match known {
        Err(IoFault::Stack(_)) => match own {
            Ok(_) => Ok(Judged::Kept),
            Err(leaf) => Err(IoFault::Device(leaf)),
        },
        Err(IoFault::Device(failed)) => Err(IoFault::Device(failed)),
        Err(IoFault::NoMemory) => Err(IoFault::NoMemory),
        Ok(digest) => match own {
            Ok(made) => Ok(if made == digest {
                Judged::Kept
            } else {
                Judged::Lost
            }),
            Err(leaf) => Ok(Judged::Unread(leaf, digest)),
        },
    }
}
