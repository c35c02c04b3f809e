//! Reads through the lines of a stack, down to its leaves.
ghost use Rattle.std.specs.Prelude.{ℕ, ◌≡◌, false, ◌≤◌, ◌<◌, ◌+◌, ◌-◌, ◌*◌, ◌/◌, ◌%◌, length, map, take, get_or, All, OnOk, IfOk, IfErr, Some, Err};
ghost use Rattle.block_device.specs.Call.{DeviceDoes};
ghost use Rattle.tree_shape.specs.Shape.{levels};
ghost use Rattle.dm_table.specs.declared.parity.Parity.{Parity};
ghost use Rattle.stack_rules.specs.Trees.{tree_of};
ghost use Rattle.stack_rules.specs.Names.{mapped, size};
ghost use Rattle.stack_lines.specs.declared.source.Source.TheVariants.{Below};
ghost use Rattle.stack_meaning.specs.Reading.{buffer_answer};
ghost use Rattle.stack_lines.specs.Extents.{LiesInsideLower};
ghost use Rattle.stack_lines.specs.Touches.{leaves_of};
ghost use Rattle.stack_engine.specs.Healing.{HealsFault, IsLost, row_answer};
ghost use Rattle.stack_lines.specs.Walks.{HasDataBlock, HasVerifiedBlock, IsTreeOf, block_in};
ghost use Rattle.stack_lines.specs.Caches.{IsPlaceOf, hash_stored};
ghost use Rattle.stack_meaning.specs.Blocks.{is_ignored};
ghost use Rattle.verified_cache.specs.Cache.{CachedBlock};
ghost use Rattle.stack_engine.specs.Backings.{leaves_in, IsBacking, Asks, StaysSound, did};
ghost use Rattle.stack_engine.specs.Erasures.{end_of, no_columns, record_of};
ghost use Rattle.stack_engine.specs.SectorCalls.{block_of, columns_of, digest_of, erased_of, hash_of, known_of, one_asked, only_of, place_in, restored_of, spare_of, sums_of, way_of, whole_data};
ghost use Rattle.stack_engine.specs.ReadSteps.{all_of, CanFill, StepFrom, StepAt, ReadsOn, GivesFrom, GivesAt, GivesAny, GivesData, GivesOnWay, WalksTo, GotAt, GetsBy, extent_wanted, data_wanted, hash_wanted, way_wanted, ChainBy, WalkedBy, ReadsWay, expected_in, block_answer, content_answer};
ghost use Rattle.stack_engine.specs.Spares.{AddsColumns, AddsTo, AreFound, AreLossesOf, AreUnfound, DigestBy, FindsNext, HealsBy, IsCoveredBy, IsJudged, IsUnjudged, JudgesBlock, NamesLeaf, SettlesBy, columns_wanted, decoded_wanted, digest_wanted, erased_wanted, failed_of, judge_cost, kept_wanted, known_digest_wanted, only_wanted, other_wanted, restored_wanted, spare_wanted, stored_digest_wanted, stored_wanted};
ghost use Rattle.stack_engine.specs.Keeping.{ReadsAs, ReadsSourceAs};
ghost use Rattle.stack_engine.specs.Held.{IsHeld};

use crate::backing::Backing;
use crate::buffer::{fill_zeros, zero_block, zero_sectors};
use crate::kept_data::kept_data;
use crate::leaf::read_leaf;
use crate::losses::{Judged, Losses, take_first};
use crate::path::{Chains, PathBlock, WantedBlock, WantedData, put, stands};
use crate::path_end::{PathEnd, path_end};
use crate::rows::{JudgedBlock, NextBlock, alone_as_far, judge, read_as_far, row_len, settle};
use crate::spare::{
    LostBlock, add_block, add_stored, can_heal, covered_by, judge_by, one_more, other_covered,
    other_extent, own_loss, stored_extent, unhealed,
};
use allocation::push;
use block_device::BlockDev;
use dm_table::Verity;
use hash_tree::{Chain, digest_blocks};
use stack_config::{Config, DevId, Lower};
use stack_lines::tree::{
    Extent, Tree, copy_part, data_extent, data_key, find, hash_extent, hash_key, hash_number,
    is_ignored, tree_of,
};
use stack_lines::units::{MOST, decrypt, take_sectors, unit_at, whole_unit};
use stack_lines::{CryptPart, Source, VerityPart, run_to_read};
use stack_meaning::{Fault, Found, IoFault};
use tree_shape::{Digest, Salt, digest_in};
use verified_cache::Key;

/// The most bytes of a data block, and of the parity of a round.
const MOST_BLOCK: usize = 4096;

const MOST_STORED: usize = 24 * MOST_BLOCK;

/// The sectors of a leaf or a mapped device, from `first` on. The chains that are found are kept or dropped.
#[cycle(read)]
fn read_lower<D: BlockDev>(
    config: &Config,
    backing: &mut Backing<D>,
    from: (Lower, u64),
    out: &mut [u8],
    chains: Chains,
    found: &mut Vec<Found>,
) -> Result<(), IoFault>
    requires { CanFill D.state config.now backing.old found.old.items (Below from.0 from.1) out.old }
    ensures reads { ReadsAs chains config.now from.0 from.1 (length out.old / 512)
        (did D.state backing.old found.old.items backing.new found.new.items)
        (buffer_answer result out.new) }
    ensures step { StepAt D.state config.now from.0 from.1 out.old backing.old backing.new result }
    ensures given { GivesAt (DeviceDoes D.state D.does) config.now from.0 from.1 (length out.old / 512) backing.old backing.new (buffer_answer result out.new) }
{
    let first = from.1;
    match from.0 {
        Lower::Leaf(leaf) => read_leaf(config, backing.devices.as_mut_slice(), leaf, first, out),
        Lower::Device(d) => read_device(config, backing, (d, first), out, chains, found),
    }
}

/// The sectors of one run.
#[cycle(read)]
fn read_run<D: BlockDev>(
    config: &Config,
    backing: &mut Backing<D>,
    source: Source<'_>,
    out: &mut [u8],
    chains: Chains,
    found: &mut Vec<Found>,
) -> Result<(), IoFault>
    requires { CanFill D.state config.now backing.old found.old.items source out.old }
    ensures reads { ReadsSourceAs chains config.now source.entry (length out.old / 512)
        (did D.state backing.old found.old.items backing.new found.new.items)
        (buffer_answer result out.new) }
    ensures step { StepFrom D.state config.now source.entry out.old backing.old backing.new result }
    ensures given { GivesFrom (DeviceDoes D.state D.does) config.now source.entry (length out.old / 512) backing.old backing.new (buffer_answer result out.new) }
{
    match source {
        Source::Below { lower, first } => {
            read_lower(config, backing, (lower, first), out, chains, found)
        }
        Source::Units(part) => read_units(config, backing, part, out, chains, found),
        Source::UnitPart(part) => read_unit_part(config, backing, part, out, chains, found),
        Source::Zeros => {
            fill_zeros(out);
            Ok(())
        }
        Source::Fails => Err(IoFault::Stack(Fault::ErrorTarget)),
        Source::Block(part) => read_block(config, backing, part, out, chains, found),
        Source::Blocks(part) => read_blocks(config, backing, part, out, chains, found),
    }
}

/// Whole units of a crypt line, which are decrypted in place.
#[cycle(read)]
pub(crate) fn read_units<D: BlockDev>(
    config: &Config,
    backing: &mut Backing<D>,
    part: CryptPart<'_>,
    out: &mut [u8],
    chains: Chains,
    found: &mut Vec<Found>,
) -> Result<(), IoFault>
    requires { CanFill D.state config.now backing.old found.old.items (Source.Units part) out.old }
    ensures reads { ReadsSourceAs chains config.now (Source.Units part.entry) (length out.old / 512)
        (did D.state backing.old found.old.items backing.new found.new.items)
        (buffer_answer result out.new) }
    ensures step { StepFrom D.state config.now (Source.Units part.entry) out.old backing.old backing.new result }
    ensures given { GivesFrom (DeviceDoes D.state D.does) config.now (Source.Units part.entry) (length out.old / 512) backing.old backing.new (buffer_answer result out.new) }
{
    let unit = unit_at(&part);
    let from = (part.lower, unit.first);
    match read_lower(config, backing, from, out, chains, found) {
        Ok(()) => {
            decrypt(&part, unit.index, out);
            Ok(())
        }
        Err(fault) => Err(fault),
    }
}

/// Sectors of one unit of a crypt line, which is read whole.
#[cycle(read)]
fn read_unit_part<D: BlockDev>(
    config: &Config,
    backing: &mut Backing<D>,
    part: CryptPart<'_>,
    out: &mut [u8],
    chains: Chains,
    found: &mut Vec<Found>,
) -> Result<(), IoFault>
    requires { CanFill D.state config.now backing.old found.old.items (Source.UnitPart part) out.old }
    ensures reads { ReadsSourceAs chains config.now (Source.UnitPart part.entry) (length out.old / 512)
        (did D.state backing.old found.old.items backing.new found.new.items)
        (buffer_answer result out.new) }
    ensures step { StepFrom D.state config.now (Source.UnitPart part.entry) out.old backing.old backing.new result }
    ensures given { GivesFrom (DeviceDoes D.state D.does) config.now (Source.UnitPart part.entry) (length out.old / 512) backing.old backing.new (buffer_answer result out.new) }
{
    let whole = whole_unit(&part);
    let mut room = [0u8; MOST];
    let all = room.as_mut_slice();
    let unit = &mut all[..whole.sectors as usize * 512];
    match read_units(config, backing, whole.from, unit, chains, found) {
        Ok(()) => {
            take_sectors(unit, whole.within, out);
            Ok(())
        }
        Err(fault) => Err(fault),
    }
}

/// Sectors of one data block of a verity line: of its chain, which was found before, or is found here and kept or dropped.
#[cycle(read)]
fn read_block<D: BlockDev>(
    config: &Config,
    backing: &mut Backing<D>,
    part: VerityPart<'_>,
    out: &mut [u8],
    chains: Chains,
    found: &mut Vec<Found>,
) -> Result<(), IoFault>
    requires { CanFill D.state config.now backing.old found.old.items (Source.Block part) out.old }
    ensures reads { ReadsSourceAs chains config.now (Source.Block part.entry) (length out.old / 512)
        (did D.state backing.old found.old.items backing.new found.new.items)
        (buffer_answer result out.new) }
    ensures step { StepFrom D.state config.now (Source.Block part.entry) out.old backing.old backing.new result }
    ensures given { GivesFrom (DeviceDoes D.state D.does) config.now (Source.Block part.entry) (length out.old / 512) backing.old backing.new (buffer_answer result out.new) }
{
    let verity = part.verity;
    let sectors = u64::from(verity.data_block / 512);
    let index = part.first / sectors;
    let within = part.first % sectors;
    match find(found.as_slice(), part.device.0, part.line, index) {
        Some(at) => {
            copy_part(found.as_slice(), at, within, out);
            Ok(())
        }
        None => {
            let tree = tree_of(config, &part);
            let is_part = (out.len() as u64 / 512) < sectors;
            match walk(config, backing, verity, &tree, index, is_part) {
                Err(fault) => Err(fault),
                Ok(chain) => {
                    let at = found.len();
                    let one = Found {
                        device: part.device.0,
                        line: part.line,
                        chain,
                    };
                    match push(found, one) {
                        Err(_) => Err(IoFault::NoMemory),
                        Ok(()) => {
                            copy_part(found.as_slice(), at, within, out);
                            chains.hand_out(found, at);
                            Ok(())
                        }
                    }
                }
            }
        }
    }
}

/// Whole data blocks of a verity line. Each is checked after the way to it was read, and read together with later ones; or alone, if
/// they can't be read and the line has parity.
#[cycle(read)]
fn read_blocks<D: BlockDev>(
    config: &Config,
    backing: &mut Backing<D>,
    part: VerityPart<'_>,
    out: &mut [u8],
    chains: Chains,
    found: &mut Vec<Found>,
) -> Result<(), IoFault>
    requires { CanFill D.state config.now backing.old found.old.items (Source.Blocks part) out.old }
    ensures reads { ReadsSourceAs chains config.now (Source.Blocks part.entry) (length out.old / 512)
        (did D.state backing.old found.old.items backing.new found.new.items)
        (buffer_answer result out.new) }
    ensures step { StepFrom D.state config.now (Source.Blocks part.entry) out.old backing.old backing.new result }
    ensures given { GivesFrom (DeviceDoes D.state D.does) config.now (Source.Blocks part.entry) (length out.old / 512) backing.old backing.new (buffer_answer result out.new) }
{
    let verity = part.verity;
    let tree = tree_of(config, &part);
    let size = verity.data_block as usize;
    let first = part.first / u64::from(verity.data_block / 512);
    let count = out.len() / size;
    let mut room = [Digest::new([0; Digest::SIZE]); 2048];
    let made = room.as_mut_slice();
    let mut path = Vec::new(backing.alloc);
    let mut read = 0;
    let mut alone = 0;
    let mut at = 0;
    'checks: while at < count {
        let index = first + at as u64;
        let expected = match walk_path(config, backing, verity, &tree, index, &mut path) {
            Err(first) => return Err(first),
            Ok(expected) => expected,
        };
        let way = &path.as_slice()[..tree.shape.levels() as usize];
        let next = NextBlock {
            block: index,
            at,
            read,
            count,
            ignored: is_ignored(config, verity, &tree, &expected),
        };
        let many = row_len(config, verity, &tree, way, next);
        let from = at * size;
        let extent = data_extent(config, verity, &tree, index);
        let row = &mut out[from..from + many * size];
        let lost = match read_row(config, backing, verity, (tree.data, extent.first), row) {
            Err(met) => return Err(met),
            Ok(lost) => lost,
        };
        let row = &out[from..from + many * size];
        digest_blocks(&verity.salt, size, row, &mut made[at..at + many]);
        read = read_as_far(next, many);
        alone = alone_as_far(lost, read, alone);
        let judged = judge(next, &expected, &made[at], alone);
        let block = &mut out[from..from + size];
        match settle_block(config, backing, verity, &tree, &judged, block) {
            Err(vain) => return Err(vain),
            Ok(()) => {}
        }
        match chains.keep(&part, index, way, &out[from..from + size], found) {
            Err(_) => return Err(IoFault::NoMemory),
            Ok(()) => at += 1,
        }
    }
    Ok(())
}

/// The sectors of some data blocks, of which there may be none; or the fault that ended the read, if there is parity for each block.
#[cycle(read)]
fn read_row<D: BlockDev>(
    config: &Config,
    backing: &mut Backing<D>,
    verity: &Verity,
    from: (Lower, u64),
    out: &mut [u8],
) -> Result<Option<IoFault>, IoFault>
    requires stack { IsBacking D.state config.now backing.old }
    requires whole { length out.old % 512 ≡ 0 }
    requires inside { from.1 + length out.old / 512 ≤ size config.now from.0 }
    ensures reads { GotAt D.state config.now from.0 from.1 out.old backing.old backing.new (row_answer result out.new) }
    ensures lost { IsLost verity.now.parity result }
    ensures cached { StaysSound D.state config.now backing.old backing.new }
    ensures touches { Asks D.state config.now (leaves_of config.now from.0) backing.old backing.new (row_answer result out.new) }
    ensures given { GivesAny (DeviceDoes D.state D.does) config.now (from.0, from.1) out.old backing.old backing.new (row_answer result out.new) }
{
    match read_beneath(config, backing, from.0, from.1, out) {
        Ok(()) => Ok(None),
        Err(fault) => {
            if can_heal(verity, fault) {
                return Ok(Some(fault));
            }
            Err(fault)
        }
    }
}

/// The sectors of a leaf or a mapped device, of which there may be none. Chains of lines beneath are dropped.
#[cycle(read)]
fn read_beneath<D: BlockDev>(
    config: &Config,
    backing: &mut Backing<D>,
    lower: Lower,
    first: u64,
    out: &mut [u8],
) -> Result<(), IoFault>
    requires stack { IsBacking D.state config.now backing.old }
    requires whole { length out.old % 512 ≡ 0 }
    requires inside { first + length out.old / 512 ≤ size config.now lower }
    ensures reads { GotAt D.state config.now lower first out.old backing.old backing.new (buffer_answer result out.new) }
    ensures cached { StaysSound D.state config.now backing.old backing.new }
    ensures touches { Asks D.state config.now (leaves_of config.now lower) backing.old backing.new result }
    ensures given { GivesAny (DeviceDoes D.state D.does) config.now (lower, first) out.old backing.old backing.new (buffer_answer result out.new) }
{
    if out.is_empty() {
        return Ok(());
    }
    let mut beneath = Vec::new(backing.alloc);
    read_lower(
        config,
        backing,
        (lower, first),
        out,
        Chains::Kept,
        &mut beneath,
    )
}

/// The chain of a data block, from the root down to the first block that has another digest. If a part of the data block alone is
/// read, the block that is kept may be used.
#[cycle(read)]
fn walk<D: BlockDev>(
    config: &Config,
    backing: &mut Backing<D>,
    verity: &Verity,
    tree: &Tree,
    index: u64,
    part: bool,
) -> Result<Chain, IoFault>
    requires stack { IsBacking D.state config.now backing.old }
    requires block { HasDataBlock config.now verity.now tree.now index }
    ensures reads { ChainBy D.state config.now verity.now index backing.old backing.new result }
    ensures cached { StaysSound D.state config.now backing.old backing.new }
    ensures touches { Asks D.state config.now (leaves_of config.now (mapped tree.now.device.0)) backing.old backing.new result }
    ensures given { ReadsOn (DeviceDoes D.state D.does) config.now (whole_data (place_in verity.now tree.now index) (one_asked part)) backing.old backing.new (content_answer result) }
{
    let mut expected = verity.root;
    let mut path: Vec<Vec<u8>> = Vec::new(backing.alloc);
    let mut level = tree.shape.levels();
    while level > 0 {
        level -= 1;
        let wanted = WantedBlock {
            at: path.len(),
            level,
            block: index,
            digest: expected,
        };
        match way_block(config, backing, verity, tree, &wanted) {
            Err(first) => return Err(first),
            Ok(block) => {
                expected = digest_in(block.as_slice(), tree.shape.slot_on_path(level, index));
                match push(&mut path, block) {
                    Err(_) => return Err(IoFault::NoMemory),
                    Ok(()) => {}
                }
            }
        }
    }
    let wanted = WantedData {
        block: index,
        digest: expected,
        part,
    };
    match read_data(config, backing, verity, tree, &wanted) {
        Err(fault) => Err(fault),
        Ok(content) => Ok(Chain {
            index,
            content,
            path,
        }),
    }
}

/// The data block that is wanted, or its spare. One that the line ignores is zeros, and isn't read; nor is the one that is kept, if a
/// part of it alone is read.
#[cycle(read)]
fn read_data<D: BlockDev>(
    config: &Config,
    backing: &mut Backing<D>,
    verity: &Verity,
    tree: &Tree,
    wanted: &WantedData,
) -> Result<Vec<u8>, IoFault>
    requires stack { IsBacking D.state config.now backing.old }
    requires block { HasDataBlock config.now verity.now tree.now wanted.now.block }
    ensures reads { GetsBy D.state (data_wanted config.now verity.now wanted.now.block wanted.now.digest) backing.old backing.new result }
    ensures cached { StaysSound D.state config.now backing.old backing.new }
    ensures touches { Asks D.state config.now (leaves_of config.now (mapped tree.now.device.0)) backing.old backing.new result }
    ensures given { GivesData (DeviceDoes D.state D.does) config.now (place_in verity.now tree.now wanted.now.block) wanted.now backing.old backing.new (block_answer result) }
{
    if is_ignored(config, verity, tree, &wanted.digest) {
        return match zero_block(backing.alloc, verity.data_block) {
            Ok(block) => Ok(block),
            Err(_) => Err(IoFault::NoMemory),
        };
    }
    match kept_data(backing.alloc, &backing.cache, tree, wanted) {
        Err(_) => Err(IoFault::NoMemory),
        Ok(Some(block)) => Ok(block),
        Ok(None) => fetch_data(config, backing, verity, tree, wanted),
    }
}

/// The data block that is wanted, which is read, checked, and then kept; or its spare, which isn't kept.
#[cycle(read)]
fn fetch_data<D: BlockDev>(
    config: &Config,
    backing: &mut Backing<D>,
    verity: &Verity,
    tree: &Tree,
    wanted: &WantedData,
) -> Result<Vec<u8>, IoFault>
    requires stack { IsBacking D.state config.now backing.old }
    requires block { HasDataBlock config.now verity.now tree.now wanted.now.block }
    requires used { is_ignored verity.now wanted.now.digest ≡ false }
    ensures reads { GetsBy D.state (data_wanted config.now verity.now wanted.now.block wanted.now.digest) backing.old backing.new result }
    ensures cached { StaysSound D.state config.now backing.old backing.new }
    ensures touches { Asks D.state config.now (leaves_of config.now (mapped tree.now.device.0)) backing.old backing.new result }
    ensures given { GivesData (DeviceDoes D.state D.does) config.now (place_in verity.now tree.now wanted.now.block) (all_of wanted.now) backing.old backing.new (block_answer result) }
{
    let extent = data_extent(config, verity, tree, wanted.block);
    match read_checked(config, backing, extent, &verity.salt, &wanted.digest) {
        Ok(block) => {
            let key = data_key(tree, wanted.block);
            // As for a hash block, if memory is short.
            let _kept = backing
                .cache
                .keep_last(backing.alloc, key, wanted.digest, block.as_slice());
            Ok(block)
        }
        Err(own) => {
            if can_heal(verity, own) {
                let lost = LostBlock {
                    index: wanted.block,
                    digest: wanted.digest,
                };
                return heal(config, backing, verity, tree, &lost, own);
            }
            Err(own)
        }
    }
}

/// The spare of a block whose own read ended in that fault, which is counted; or the fault, if the attempt is in vain.
#[cycle(read)]
fn heal<D: BlockDev>(
    config: &Config,
    backing: &mut Backing<D>,
    verity: &Verity,
    tree: &Tree,
    lost: &LostBlock,
    fault: IoFault,
) -> Result<Vec<u8>, IoFault>
    requires stack { IsBacking D.state config.now backing.old }
    requires block { HasVerifiedBlock config.now verity.now tree.now lost.now.index }
    requires fault { HealsFault verity.now.parity (leaves_of config.now (mapped tree.now.device.0)) fault }
    ensures reads { HealsBy D.state (DeviceDoes D.state D.does) config.now (place_in verity.now tree.now lost.now.index) lost.now fault backing.old backing.new result }
    ensures cached { StaysSound D.state config.now backing.old backing.new }
    ensures touches { Asks D.state config.now (leaves_of config.now (mapped tree.now.device.0)) backing.old backing.new result }
{
    let mut healed = match zero_block(backing.alloc, verity.data_block) {
        Ok(block) => block,
        Err(_) => return Err(IoFault::NoMemory),
    };
    match mend(config, backing, verity, tree, lost, healed.as_mut_slice()) {
        Ok(()) => {
            backing.restored = one_more(backing.restored);
            Ok(healed)
        }
        Err(vain) => Err(unhealed(fault, vain)),
    }
}

/// Settles a data block that was read together with others: one that is ignored is replaced by zeros, one of another digest by its
/// spare, which is counted. If they couldn't be read, it is read alone.
#[cycle(read)]
fn settle_block<D: BlockDev>(
    config: &Config,
    backing: &mut Backing<D>,
    verity: &Verity,
    tree: &Tree,
    one: &JudgedBlock,
    block: &mut [u8],
) -> Result<(), IoFault>
    requires stack { IsBacking D.state config.now backing.old }
    requires block { HasDataBlock config.now verity.now tree.now one.now.lost.index }
    requires size { length block.old ≡ verity.now.data_block }
    ensures reads { SettlesBy D.state (DeviceDoes D.state D.does) config.now (place_in verity.now tree.now one.now.lost.index) one.now block.old backing.old backing.new (buffer_answer result block.new) }
    ensures cached { StaysSound D.state config.now backing.old backing.new }
    ensures touches { Asks D.state config.now (leaves_of config.now (mapped tree.now.device.0)) backing.old backing.new result }
{
    let lost = &one.lost;
    if one.alone {
        let wanted = WantedData {
            block: lost.index,
            digest: lost.digest,
            part: false,
        };
        return match read_data(config, backing, verity, tree, &wanted) {
            Err(gone) => Err(gone),
            Ok(content) => {
                block.copy_from_slice(content.as_slice());
                Ok(())
            }
        };
    }
    if settle(one.ignored, &one.made, &lost.digest, block) {
        return Ok(());
    }
    match mend(config, backing, verity, tree, lost, block) {
        Ok(()) => {
            backing.restored = one_more(backing.restored);
            Ok(())
        }
        Err(vain) => Err(unhealed(IoFault::Stack(Fault::Mismatch), vain)),
    }
}

/// Adds to the sums the block at a position of the round of a block, unless it is that one, or there is none.
#[cycle(read)]
fn add_other<D: BlockDev>(
    config: &Config,
    backing: &mut Backing<D>,
    verity: &Verity,
    tree: &Tree,
    at: (u64, u32),
    sums: &mut [u8],
) -> Result<(), IoFault>
    requires stack { IsBacking D.state config.now backing.old }
    requires block { HasVerifiedBlock config.now verity.now tree.now at.0 }
    requires size { length sums.old ≡ verity.now.data_block }
    ensures reads { (q : Parity) → verity.now.parity ≡ Some q → GetsBy D.state (other_wanted (block_in config.now verity.now at.0) q at.1 sums.old) backing.old backing.new (buffer_answer result sums.new) }
    ensures cached { StaysSound D.state config.now backing.old backing.new }
    ensures touches { Asks D.state config.now (leaves_of config.now (mapped tree.now.device.0)) backing.old backing.new result }
    ensures given { (q : Parity) → verity.now.parity ≡ Some q → at.1 < 255 - q.roots → AddsTo (DeviceDoes D.state D.does) config.now (place_in verity.now tree.now at.0) q at.1 sums.old backing.old backing.new (buffer_answer result sums.new) }
{
    match other_extent(config, verity, tree, at.0, at.1) {
        None => Ok(()),
        Some(extent) => {
            let mut room = [0u8; MOST_BLOCK];
            let all = room.as_mut_slice();
            let block = &mut all[..extent.sectors as usize * 512];
            match read_beneath(config, backing, extent.lower, extent.first, block) {
                Err(fault) => Err(fault),
                Ok(()) => {
                    add_block(block, sums);
                    Ok(())
                }
            }
        }
    }
}

/// Adds to the sums the parity of the round of a block.
#[cycle(read)]
fn add_parity<D: BlockDev>(
    config: &Config,
    backing: &mut Backing<D>,
    verity: &Verity,
    tree: &Tree,
    index: u64,
    sums: &mut [u8],
) -> Result<(), IoFault>
    requires stack { IsBacking D.state config.now backing.old }
    requires block { HasVerifiedBlock config.now verity.now tree.now index }
    requires size { length sums.old ≡ verity.now.data_block }
    ensures reads { (q : Parity) → verity.now.parity ≡ Some q → GetsBy D.state (stored_wanted (block_in config.now verity.now index) q sums.old) backing.old backing.new (buffer_answer result sums.new) }
    ensures cached { StaysSound D.state config.now backing.old backing.new }
    ensures touches { Asks D.state config.now (leaves_of config.now (mapped tree.now.device.0)) backing.old backing.new result }
    ensures given { (q : Parity) → verity.now.parity ≡ Some q → ReadsOn (DeviceDoes D.state D.does) config.now (sums_of (place_in verity.now tree.now index) q (255 - q.roots) sums.old) backing.old backing.new (buffer_answer result sums.new) }
{
    match stored_extent(config, verity, tree, index) {
        None => Ok(()),
        Some(stored) => {
            let mut room = [0u8; MOST_STORED];
            let all = room.as_mut_slice();
            let parity = &mut all[..stored.sectors as usize * 512];
            match read_beneath(config, backing, stored.lower, stored.first, parity) {
                Err(fault) => Err(fault),
                Ok(()) => {
                    add_stored(parity, sums);
                    Ok(())
                }
            }
        }
    }
}

/// The spare of a block: that by exclusive-or, or else by erasures.
#[cycle(read)]
fn mend<D: BlockDev>(
    config: &Config,
    backing: &mut Backing<D>,
    verity: &Verity,
    tree: &Tree,
    lost: &LostBlock,
    out: &mut [u8],
) -> Result<(), IoFault>
    requires stack { IsBacking D.state config.now backing.old }
    requires block { HasVerifiedBlock config.now verity.now tree.now lost.now.index }
    requires size { length out.old ≡ verity.now.data_block }
    ensures reads { GetsBy D.state (spare_wanted config.now verity.now lost.now) backing.old backing.new (buffer_answer result out.new) }
    ensures cached { StaysSound D.state config.now backing.old backing.new }
    ensures touches { Asks D.state config.now (leaves_of config.now (mapped tree.now.device.0)) backing.old backing.new result }
    ensures given { ReadsOn (DeviceDoes D.state D.does) config.now (spare_of (place_in verity.now tree.now lost.now.index) lost.now.digest) backing.old backing.new (buffer_answer result out.new) }
{
    match mend_only(config, backing, verity, tree, lost, out) {
        Ok(()) => Ok(()),
        Err(alone) => {
            if can_heal(verity, alone) {
                return match mend_erased(config, backing, verity, tree, lost, out) {
                    Ok(()) => Ok(()),
                    Err(vain) => Err(unhealed(alone, vain)),
                };
            }
            Err(alone)
        }
    }
}

/// The spare of a block as the only lost one of its round: the sum of the other blocks and of their parity, if it has the digest.
#[cycle(read)]
fn mend_only<D: BlockDev>(
    config: &Config,
    backing: &mut Backing<D>,
    verity: &Verity,
    tree: &Tree,
    lost: &LostBlock,
    out: &mut [u8],
) -> Result<(), IoFault>
    requires stack { IsBacking D.state config.now backing.old }
    requires block { HasVerifiedBlock config.now verity.now tree.now lost.now.index }
    requires size { length out.old ≡ verity.now.data_block }
    ensures reads { GetsBy D.state (only_wanted config.now verity.now lost.now) backing.old backing.new (buffer_answer result out.new) }
    ensures cached { StaysSound D.state config.now backing.old backing.new }
    ensures touches { Asks D.state config.now (leaves_of config.now (mapped tree.now.device.0)) backing.old backing.new result }
    ensures given { ReadsOn (DeviceDoes D.state D.does) config.now (only_of (place_in verity.now tree.now lost.now.index) lost.now.digest) backing.old backing.new (buffer_answer result out.new) }
{
    let index = lost.index;
    let count = match &verity.parity {
        None => return Err(IoFault::Stack(Fault::Mismatch)),
        Some(parity) => 255 - parity.roots,
    };
    fill_zeros(out);
    let mut place = 0;
    while place < count {
        match add_other(config, backing, verity, tree, (index, place), out) {
            Err(unread) => return Err(unread),
            Ok(()) => place += 1,
        }
    }
    match add_parity(config, backing, verity, tree, index, out) {
        Err(fault) => return Err(fault),
        Ok(()) => {}
    }
    if verity.salt.digest(out) == lost.digest {
        return Ok(());
    }
    Err(IoFault::Stack(Fault::Mismatch))
}

/// The spare of a block by the lost blocks of its round as erasures, if it has the digest.
#[cycle(read)]
fn mend_erased<D: BlockDev>(
    config: &Config,
    backing: &mut Backing<D>,
    verity: &Verity,
    tree: &Tree,
    lost: &LostBlock,
    out: &mut [u8],
) -> Result<(), IoFault>
    requires stack { IsBacking D.state config.now backing.old }
    requires block { HasVerifiedBlock config.now verity.now tree.now lost.now.index }
    requires size { length out.old ≡ verity.now.data_block }
    ensures reads { GetsBy D.state (erased_wanted config.now verity.now lost.now) backing.old backing.new (buffer_answer result out.new) }
    ensures cached { StaysSound D.state config.now backing.old backing.new }
    ensures touches { Asks D.state config.now (leaves_of config.now (mapped tree.now.device.0)) backing.old backing.new result }
    ensures given { ReadsOn (DeviceDoes D.state D.does) config.now (erased_of (place_in verity.now tree.now lost.now.index) lost.now.digest) backing.old backing.new (buffer_answer result out.new) }
{
    let roots = match &verity.parity {
        None => return Err(IoFault::Stack(Fault::Mismatch)),
        Some(parity) => parity.roots as usize,
    };
    let losses = match find_losses(config, backing, verity, tree, lost) {
        Err(full) => return Err(full),
        Ok(losses) => losses,
    };
    if losses.places.len() > roots {
        return Err(losses.vain());
    }
    match restore(config, backing, verity, tree, &losses, out) {
        Ok(()) => Ok(()),
        Err(fault) => Err(unhealed(losses.vain(), fault)),
    }
}

/// The lost blocks of the round of a block, itself among them: all, or more than can be restored.
#[cycle(read)]
fn find_losses<D: BlockDev>(
    config: &Config,
    backing: &mut Backing<D>,
    verity: &Verity,
    tree: &Tree,
    lost: &LostBlock,
) -> Result<Losses, IoFault>
    requires stack { IsBacking D.state config.now backing.old }
    requires block { HasVerifiedBlock config.now verity.now tree.now lost.now.index }
    ensures same { IfOk result (λ l. l.lost ≡ lost.now) }
    ensures named { IfOk result (λ l. NamesLeaf (leaves_of config.now (mapped tree.now.device.0)) l.failed) }
    ensures ok { IfOk result (λ l. (q : Parity) → verity.now.parity ≡ Some q → AreFound D.state (DeviceDoes D.state D.does) config.now (place_in verity.now tree.now lost.now.index) q backing.old backing.new (record_of l)) }
    ensures err { IfErr result (λ fault. (q : Parity) → verity.now.parity ≡ Some q → AreUnfound D.state (DeviceDoes D.state D.does) config.now (place_in verity.now tree.now lost.now.index) q backing.old backing.new fault) }
    ensures cached { StaysSound D.state config.now backing.old backing.new }
    ensures touches { Asks D.state config.now (leaves_of config.now (mapped tree.now.device.0)) backing.old backing.new result }
{
    let mut losses = match own_loss(backing.alloc, config, verity, tree, lost) {
        Err(_) => return Err(IoFault::NoMemory),
        Ok(losses) => losses,
    };
    let roots = match &verity.parity {
        None => return Ok(losses),
        Some(parity) => parity.roots,
    };
    let count = 255 - roots;
    let mut place = 0;
    while place < count {
        if losses.places.len() > roots as usize {
            return Ok(losses);
        }
        match judge_other(config, backing, verity, tree, place, &mut losses) {
            Err(full) => return Err(full),
            Ok(()) => place += 1,
        }
    }
    Ok(losses)
}

/// Judges the block at a position of the round of a block, unless it is that one, or there is none.
#[cycle(read)]
fn judge_other<D: BlockDev>(
    config: &Config,
    backing: &mut Backing<D>,
    verity: &Verity,
    tree: &Tree,
    place: u32,
    losses: &mut Losses,
) -> Result<(), IoFault>
    requires stack { IsBacking D.state config.now backing.old }
    requires block { HasVerifiedBlock config.now verity.now tree.now losses.old.lost.index }
    ensures same { OnOk result (losses.new.lost ≡ losses.old.lost) }
    ensures named { OnOk result (NamesLeaf (leaves_of config.now (mapped tree.now.device.0)) losses.old.failed → NamesLeaf (leaves_of config.now (mapped tree.now.device.0)) losses.new.failed) }
    ensures finds { (q : Parity) → verity.now.parity ≡ Some q → length losses.old.places.items ≤ q.roots → place < 255 - q.roots
        → FindsNext D.state (DeviceDoes D.state D.does) config.now (place_in verity.now tree.now losses.old.lost.index) q place (record_of losses.old) (record_of losses.new) backing.old backing.new result }
    ensures cached { StaysSound D.state config.now backing.old backing.new }
    ensures touches { Asks D.state config.now (leaves_of config.now (mapped tree.now.device.0)) backing.old backing.new result }
{
    match other_covered(config, verity, tree, losses.lost.index, place) {
        None => Ok(()),
        Some(number) => match judge_block(config, backing, verity, tree, number) {
            Err(full) => Err(full),
            Ok(judged) => match losses.note(place, judged) {
                Err(_) => Err(IoFault::NoMemory),
                Ok(()) => Ok(()),
            },
        },
    }
}

/// Whether a covered block is lost, as it and the hash blocks on its path are stored.
#[cycle(read)]
fn judge_block<D: BlockDev>(
    config: &Config,
    backing: &mut Backing<D>,
    verity: &Verity,
    tree: &Tree,
    number: u64,
) -> Result<Judged, IoFault>
    requires stack { IsBacking D.state config.now backing.old }
    requires block { IsCoveredBy config.now verity.now tree.now number }
    ensures ok { IfOk result (IsJudged config.now verity.now number (leaves_in D.state backing.old) (leaves_in D.state backing.new)) }
    ensures named { IfOk result (λ judged. NamesLeaf (leaves_of config.now (mapped tree.now.device.0)) (failed_of judged)) }
    ensures err { IfErr result (IsUnjudged (block_in config.now verity.now number) (judge_cost (block_in config.now verity.now number)) (leaves_in D.state backing.old) (leaves_in D.state backing.new)) }
    ensures cached { StaysSound D.state config.now backing.old backing.new }
    ensures touches { Asks D.state config.now (leaves_of config.now (mapped tree.now.device.0)) backing.old backing.new result }
    ensures given { JudgesBlock (DeviceDoes D.state D.does) config.now verity.now tree.now number backing.old backing.new result }
{
    match stored_digest(config, backing, verity, tree, number) {
        Err(IoFault::Stack(_)) => Ok(Judged::Lost),
        Err(IoFault::NoMemory) => Err(IoFault::NoMemory),
        Err(IoFault::Device(leaf)) => {
            let known = known_digest(config, backing, verity, tree, number);
            judge_by(Err(leaf), known)
        }
        Ok(own) => {
            let known = known_digest(config, backing, verity, tree, number);
            judge_by(Ok(own), known)
        }
    }
}

/// The digest of a covered block, as it is stored.
#[cycle(read)]
fn stored_digest<D: BlockDev>(
    config: &Config,
    backing: &mut Backing<D>,
    verity: &Verity,
    tree: &Tree,
    number: u64,
) -> Result<Digest, IoFault>
    requires stack { IsBacking D.state config.now backing.old }
    requires block { IsCoveredBy config.now verity.now tree.now number }
    ensures reads { GetsBy D.state (stored_digest_wanted config.now verity.now number) backing.old backing.new result }
    ensures cached { StaysSound D.state config.now backing.old backing.new }
    ensures touches { Asks D.state config.now (leaves_of config.now (mapped tree.now.device.0)) backing.old backing.new result }
    ensures given { DigestBy (DeviceDoes D.state D.does) config.now (place_in verity.now tree.now number) number backing.old backing.new result }
{
    match covered_by(config, verity, tree, number) {
        None => Err(IoFault::Stack(Fault::Mismatch)),
        Some(extent) => {
            let mut room = [0u8; MOST_BLOCK];
            let all = room.as_mut_slice();
            let block = &mut all[..extent.sectors as usize * 512];
            match read_beneath(config, backing, extent.lower, extent.first, block) {
                Err(fault) => Err(fault),
                Ok(()) => Ok(verity.salt.digest(block)),
            }
        }
    }
}

/// The digest that is expected of a covered block, if each hash block on its path, as it is stored, has its own.
#[cycle(read)]
fn known_digest<D: BlockDev>(
    config: &Config,
    backing: &mut Backing<D>,
    verity: &Verity,
    tree: &Tree,
    number: u64,
) -> Result<Digest, IoFault>
    requires stack { IsBacking D.state config.now backing.old }
    requires tree { IsTreeOf config.now verity.now tree.now }
    ensures reads { GetsBy D.state (known_digest_wanted config.now verity.now number) backing.old backing.new result }
    ensures cached { StaysSound D.state config.now backing.old backing.new }
    ensures touches { Asks D.state config.now (leaves_of config.now (mapped tree.now.device.0)) backing.old backing.new result }
    ensures given { (j : ℕ) → ReadsOn (DeviceDoes D.state D.does) config.now (known_of (place_in verity.now tree.now j) number) backing.old backing.new result }
{
    match path_end(config, verity, tree, number) {
        None => Err(IoFault::Stack(Fault::Mismatch)),
        Some(end) => digest_beneath(config, backing, verity, tree, end),
    }
}

/// The digest that is expected of a verified block, if each hash block on its path, as it is stored, has its own.
#[cycle(read)]
fn digest_beneath<D: BlockDev>(
    config: &Config,
    backing: &mut Backing<D>,
    verity: &Verity,
    tree: &Tree,
    end: PathEnd,
) -> Result<Digest, IoFault>
    requires stack { IsBacking D.state config.now backing.old }
    requires block { HasDataBlock config.now verity.now tree.now end.index }
    requires above { end.above ≤ levels (tree_of verity.now) }
    ensures reads { GetsBy D.state (digest_wanted config.now verity.now end.index end.above) backing.old backing.new result }
    ensures cached { StaysSound D.state config.now backing.old backing.new }
    ensures touches { Asks D.state config.now (leaves_of config.now (mapped tree.now.device.0)) backing.old backing.new result }
    ensures given { (j : ℕ) → ReadsOn (DeviceDoes D.state D.does) config.now (digest_of (place_in verity.now tree.now j) (end_of end) 0 verity.now.root) backing.old backing.new result }
{
    let index = end.index;
    let mut digest = verity.root;
    let mut height = tree.shape.levels();
    let last = height - end.above;
    while height > last {
        height -= 1;
        let extent = hash_extent(config, verity, tree, height, index);
        let key = hash_key(tree, height, index);
        match hash_block(config, backing, key, extent, &verity.salt, &digest) {
            Err(stops) => return Err(stops),
            Ok(block) => {
                digest = digest_in(block.as_slice(), tree.shape.slot_on_path(height, index));
            }
        }
    }
    Ok(digest)
}

/// The first of the lost blocks of a round, if it has its digest, and so has each whose leaf failed.
#[cycle(read)]
fn restore<D: BlockDev>(
    config: &Config,
    backing: &mut Backing<D>,
    verity: &Verity,
    tree: &Tree,
    losses: &Losses,
    out: &mut [u8],
) -> Result<(), IoFault>
    requires stack { IsBacking D.state config.now backing.old }
    requires block { HasVerifiedBlock config.now verity.now tree.now losses.now.lost.index }
    requires losses { AreLossesOf verity.now losses.now.lost.index (record_of losses.now) }
    requires few { length losses.now.places.items ≤ 24 }
    requires size { length out.old ≡ verity.now.data_block }
    ensures reads { (q : Parity) → verity.now.parity ≡ Some q → GetsBy D.state (restored_wanted (block_in config.now verity.now losses.now.lost.index) q (record_of losses.now) losses.now.lost.digest) backing.old backing.new (buffer_answer result out.new) }
    ensures cached { StaysSound D.state config.now backing.old backing.new }
    ensures touches { Asks D.state config.now (leaves_of config.now (mapped tree.now.device.0)) backing.old backing.new result }
    ensures given { (q : Parity) → verity.now.parity ≡ Some q → ReadsOn (DeviceDoes D.state D.does) config.now (restored_of (place_in verity.now tree.now losses.now.lost.index) q (record_of losses.now) losses.now.lost.digest) backing.old backing.new (buffer_answer result out.new) }
{
    let size = out.len();
    let mut room = [0u8; MOST_STORED];
    let all = room.as_mut_slice();
    let sums = &mut all[..losses.room(size)];
    match decode(config, backing, verity, tree, losses, sums) {
        Err(fault) => return Err(fault),
        Ok(()) => {}
    }
    if losses.are_whole(verity, sums) {
        take_first(sums, out);
        return Ok(());
    }
    Err(IoFault::Stack(Fault::Mismatch))
}

/// The lost blocks of a round by its other blocks and its parity.
#[cycle(read)]
fn decode<D: BlockDev>(
    config: &Config,
    backing: &mut Backing<D>,
    verity: &Verity,
    tree: &Tree,
    losses: &Losses,
    sums: &mut [u8],
) -> Result<(), IoFault>
    requires stack { IsBacking D.state config.now backing.old }
    requires block { HasVerifiedBlock config.now verity.now tree.now losses.now.lost.index }
    requires losses { AreLossesOf verity.now losses.now.lost.index (record_of losses.now) }
    requires size { length sums.old ≡ length losses.now.places.items * verity.now.data_block }
    ensures reads { (q : Parity) → verity.now.parity ≡ Some q → GetsBy D.state (decoded_wanted (block_in config.now verity.now losses.now.lost.index) q losses.now.places.items) backing.old backing.new (buffer_answer result sums.new) }
    ensures cached { StaysSound D.state config.now backing.old backing.new }
    ensures touches { Asks D.state config.now (leaves_of config.now (mapped tree.now.device.0)) backing.old backing.new result }
    ensures given { (q : Parity) → verity.now.parity ≡ Some q → ReadsOn (DeviceDoes D.state D.does) config.now (columns_of (place_in verity.now tree.now losses.now.lost.index) q losses.now.places.items 0 (no_columns verity.now.data_block losses.now.places.items)) backing.old backing.new (buffer_answer result sums.new) }
{
    let count = match &verity.parity {
        None => return Ok(()),
        Some(parity) => 255 - parity.roots,
    };
    fill_zeros(sums);
    let mut place = 0;
    while place < count {
        match add_kept(config, backing, verity, tree, (losses, place), sums) {
            Err(unread) => return Err(unread),
            Ok(()) => place += 1,
        }
    }
    add_columns(config, backing, verity, tree, losses, sums)
}

/// Adds to the sums of each lost block the block at a position of the round, times its factor, unless it is lost, or there is none.
#[cycle(read)]
fn add_kept<D: BlockDev>(
    config: &Config,
    backing: &mut Backing<D>,
    verity: &Verity,
    tree: &Tree,
    at: (&Losses, u32),
    sums: &mut [u8],
) -> Result<(), IoFault>
    requires stack { IsBacking D.state config.now backing.old }
    requires block { HasVerifiedBlock config.now verity.now tree.now at.0.now.lost.index }
    requires losses { AreLossesOf verity.now at.0.now.lost.index (record_of at.0.now) }
    requires place { at.1 < 255 }
    requires size { length sums.old ≡ length at.0.now.places.items * verity.now.data_block }
    ensures reads { (q : Parity) → verity.now.parity ≡ Some q → at.entry.1 < 255 - q.roots → GetsBy D.state (kept_wanted (block_in config.now verity.now at.entry.0.now.lost.index) q at.entry.0.now.places.items at.entry.1 sums.old) backing.old backing.new (buffer_answer result sums.new) }
    ensures cached { StaysSound D.state config.now backing.old backing.new }
    ensures touches { Asks D.state config.now (leaves_of config.now (mapped tree.now.device.0)) backing.old backing.new result }
    ensures given { (q : Parity) → verity.now.parity ≡ Some q → at.entry.1 < 255 - q.roots → AddsColumns (DeviceDoes D.state D.does) config.now (place_in verity.now tree.now at.entry.0.now.lost.index) q at.entry.0.now.places.items at.entry.1 sums.old backing.old backing.new (buffer_answer result sums.new) }
{
    let (losses, place) = at;
    if losses.has(place) {
        return Ok(());
    }
    match other_extent(config, verity, tree, losses.lost.index, place) {
        None => Ok(()),
        Some(extent) => {
            let mut room = [0u8; MOST_BLOCK];
            let all = room.as_mut_slice();
            let block = &mut all[..extent.sectors as usize * 512];
            match read_beneath(config, backing, extent.lower, extent.first, block) {
                Err(fault) => Err(fault),
                Ok(()) => {
                    losses.add_block(place, block, sums);
                    Ok(())
                }
            }
        }
    }
}

/// Adds to the sums of each lost block the parity of the round, each byte times the factor of its position.
#[cycle(read)]
fn add_columns<D: BlockDev>(
    config: &Config,
    backing: &mut Backing<D>,
    verity: &Verity,
    tree: &Tree,
    losses: &Losses,
    sums: &mut [u8],
) -> Result<(), IoFault>
    requires stack { IsBacking D.state config.now backing.old }
    requires block { HasVerifiedBlock config.now verity.now tree.now losses.now.lost.index }
    requires losses { AreLossesOf verity.now losses.now.lost.index (record_of losses.now) }
    requires size { length sums.old ≡ length losses.now.places.items * verity.now.data_block }
    ensures reads { (q : Parity) → verity.now.parity ≡ Some q → GetsBy D.state (columns_wanted (block_in config.now verity.now losses.now.lost.index) q losses.now.places.items sums.old) backing.old backing.new (buffer_answer result sums.new) }
    ensures cached { StaysSound D.state config.now backing.old backing.new }
    ensures touches { Asks D.state config.now (leaves_of config.now (mapped tree.now.device.0)) backing.old backing.new result }
    ensures given { (q : Parity) → verity.now.parity ≡ Some q → ReadsOn (DeviceDoes D.state D.does) config.now (columns_of (place_in verity.now tree.now losses.now.lost.index) q losses.now.places.items (255 - q.roots) sums.old) backing.old backing.new (buffer_answer result sums.new) }
{
    match stored_extent(config, verity, tree, losses.lost.index) {
        None => Ok(()),
        Some(stored) => {
            let mut room = [0u8; MOST_STORED];
            let all = room.as_mut_slice();
            let parity = &mut all[..stored.sectors as usize * 512];
            match read_beneath(config, backing, stored.lower, stored.first, parity) {
                Err(fault) => Err(fault),
                Ok(()) => {
                    let roots = parity.len() / verity.data_block as usize;
                    losses.add_parity(parity, roots, sums);
                    Ok(())
                }
            }
        }
    }
}

/// A hash block: the one that is kept under its key and that digest, or it is read, checked, and then kept.
#[cycle(read)]
fn hash_block<D: BlockDev>(
    config: &Config,
    backing: &mut Backing<D>,
    key: Key,
    extent: Extent,
    salt: &Salt,
    expected: &Digest,
) -> Result<Vec<u8>, IoFault>
    requires stack { IsBacking D.state config.now backing.old }
    requires key { IsPlaceOf hash_stored config.now salt.now key extent }
    ensures reads { GetsBy D.state (extent_wanted config.now extent salt.now expected.now) backing.old backing.new result }
    ensures cached { StaysSound D.state config.now backing.old backing.new }
    ensures touches { Asks D.state config.now (leaves_of config.now extent.lower) backing.old backing.new result }
    ensures given { ReadsOn (DeviceDoes D.state D.does) config.now (hash_of (expected_in extent salt.now expected.now)) backing.old backing.new (block_answer result) }
{
    match backing.cache.copy_of(backing.alloc, key, expected) {
        Err(_) => Err(IoFault::NoMemory),
        Ok(Some(block)) => Ok(block),
        Ok(None) => match read_checked(config, backing, extent, salt, expected) {
            Err(fault) => Err(fault),
            Ok(block) => {
                backing.cache.cover(extent.lower);
                // Where memory is short the block isn't kept, and the answer is the same.
                let _kept = backing
                    .cache
                    .keep_copy(backing.alloc, key, *expected, block.as_slice());
                Ok(block)
            }
        },
    }
}

/// A hash block on the way to a data block, or its spare, which isn't kept.
#[cycle(read)]
fn way_block<D: BlockDev>(
    config: &Config,
    backing: &mut Backing<D>,
    verity: &Verity,
    tree: &Tree,
    wanted: &WantedBlock,
) -> Result<Vec<u8>, IoFault>
    requires stack { IsBacking D.state config.now backing.old }
    requires block { HasDataBlock config.now verity.now tree.now wanted.now.block }
    requires level { wanted.now.level < levels (tree_of verity.now) }
    ensures reads { GetsBy D.state (hash_wanted config.now verity.now wanted.now) backing.old backing.new result }
    ensures cached { StaysSound D.state config.now backing.old backing.new }
    ensures touches { Asks D.state config.now (leaves_of config.now (mapped tree.now.device.0)) backing.old backing.new result }
    ensures given { ReadsOn (DeviceDoes D.state D.does) config.now (way_of (place_in verity.now tree.now wanted.now.block) wanted.now.level wanted.now.digest) backing.old backing.new (block_answer result) }
{
    let extent = hash_extent(config, verity, tree, wanted.level, wanted.block);
    let key = hash_key(tree, wanted.level, wanted.block);
    match hash_block(config, backing, key, extent, &verity.salt, &wanted.digest) {
        Ok(block) => Ok(block),
        Err(own) => {
            if can_heal(verity, own) {
                let number = hash_number(config, verity, tree, wanted.level, wanted.block);
                let lost = LostBlock {
                    index: number,
                    digest: wanted.digest,
                };
                return heal(config, backing, verity, tree, &lost, own);
            }
            Err(own)
        }
    }
}

/// A hash block of a path: the one that the path has, or one that is fetched and stored in the path.
#[cycle(read)]
fn path_block<D: BlockDev>(
    config: &Config,
    backing: &mut Backing<D>,
    verity: &Verity,
    tree: &Tree,
    path: &mut Vec<PathBlock>,
    wanted: &WantedBlock,
) -> Result<(), IoFault>
    requires stack { IsBacking D.state config.now backing.old }
    requires block { HasDataBlock config.now verity.now tree.now wanted.now.block }
    requires level { wanted.now.level < levels (tree_of verity.now) }
    requires held { All (IsHeld config.now (leaves_in D.state backing.old)) path.old.items }
    requires at { wanted.now.at ≤ length path.old.items }
    ensures reads { (x : CachedBlock) → GetsBy D.state (way_wanted config.now verity.now wanted.now) backing.old backing.new (buffer_answer result ((get_or path.new.items wanted.now.at x).bytes)) }
    ensures there { OnOk result (wanted.now.at < length path.new.items) }
    ensures above { take wanted.now.at path.new.items ≡ take wanted.now.at path.old.items }
    ensures held { All (IsHeld config.now (leaves_in D.state backing.new)) path.new.items }
    ensures cached { StaysSound D.state config.now backing.old backing.new }
    ensures touches { Asks D.state config.now (leaves_of config.now (mapped tree.now.device.0)) backing.old backing.new result }
    ensures given { GivesOnWay (DeviceDoes D.state D.does) config.now (place_in verity.now tree.now wanted.now.block) wanted.now path.new.items backing.old backing.new result }
{
    let at = wanted.at;
    let digest = wanted.digest;
    let key = hash_key(tree, wanted.level, wanted.block);
    if stands(path.as_slice(), at, key, &digest) {
        return Ok(());
    }
    match way_block(config, backing, verity, tree, wanted) {
        Err(fault) => Err(fault),
        Ok(bytes) => match put(path, at, PathBlock { key, digest, bytes }) {
            Err(_) => Err(IoFault::NoMemory),
            Ok(()) => Ok(()),
        },
    }
}

/// The digest that is expected of a data block. Hash blocks that are on the path of the block before aren't read again.
#[cycle(read)]
fn walk_path<D: BlockDev>(
    config: &Config,
    backing: &mut Backing<D>,
    verity: &Verity,
    tree: &Tree,
    index: u64,
    path: &mut Vec<PathBlock>,
) -> Result<Digest, IoFault>
    requires stack { IsBacking D.state config.now backing.old }
    requires block { HasDataBlock config.now verity.now tree.now index }
    requires held { All (IsHeld config.now (leaves_in D.state backing.old)) path.old.items }
    ensures ok { IfOk result (WalkedBy D.state config.now verity.now index path.new.items backing.old backing.new) }
    ensures err { IfErr result (λ e. ChainBy D.state config.now verity.now index backing.old backing.new (Err e)) }
    ensures moved { ReadsWay D.state config.now verity.now index backing.old backing.new }
    ensures held { All (IsHeld config.now (leaves_in D.state backing.new)) path.new.items }
    ensures cached { StaysSound D.state config.now backing.old backing.new }
    ensures touches { Asks D.state config.now (leaves_of config.now (mapped tree.now.device.0)) backing.old backing.new result }
    ensures given { WalksTo (DeviceDoes D.state D.does) config.now (place_in verity.now tree.now index) path.new.items backing.old backing.new result }
{
    let mut digest = verity.root;
    let mut at = 0usize;
    let mut left = tree.shape.levels();
    while left > 0 {
        left -= 1;
        let wanted = WantedBlock {
            at,
            level: left,
            block: index,
            digest,
        };
        match path_block(config, backing, verity, tree, path, &wanted) {
            Err(first) => return Err(first),
            Ok(()) => {
                let block = &path.as_slice()[at];
                digest = digest_in(block.bytes.as_slice(), tree.shape.slot_on_path(left, index));
                at += 1;
            }
        }
    }
    Ok(digest)
}

/// Those sectors as one block, if it has the digest. Chains of lines beneath are dropped.
#[cycle(read)]
fn read_checked<D: BlockDev>(
    config: &Config,
    backing: &mut Backing<D>,
    extent: Extent,
    salt: &Salt,
    expected: &Digest,
) -> Result<Vec<u8>, IoFault>
    requires stack { IsBacking D.state config.now backing.old }
    requires lies { LiesInsideLower config.now extent }
    ensures reads { GetsBy D.state (extent_wanted config.now extent salt.now expected.now) backing.old backing.new result }
    ensures cached { StaysSound D.state config.now backing.old backing.new }
    ensures touches { Asks D.state config.now (leaves_of config.now extent.lower) backing.old backing.new result }
    ensures given { ReadsOn (DeviceDoes D.state D.does) config.now (block_of (expected_in extent salt.now expected.now)) backing.old backing.new (block_answer result) }
{
    let mut block = match zero_sectors(backing.alloc, extent.sectors) {
        Ok(block) => block,
        Err(_) => return Err(IoFault::NoMemory),
    };
    let mut beneath = Vec::new(backing.alloc);
    match read_lower(
        config,
        backing,
        (extent.lower, extent.first),
        block.as_mut_slice(),
        Chains::Kept,
        &mut beneath,
    ) {
        Err(fault) => return Err(fault),
        Ok(()) => {}
    }
    if salt.digest(block.as_slice()) == *expected {
        Ok(block)
    } else {
        Err(IoFault::Stack(Fault::Mismatch))
    }
}

/// The sectors of a mapped device from that one on, run by run.
#[cycle(read)]
pub(crate) fn read_device<D: BlockDev>(
    config: &Config,
    backing: &mut Backing<D>,
    from: (DevId, u64),
    out: &mut [u8],
    chains: Chains,
    found: &mut Vec<Found>,
) -> Result<(), IoFault>
    requires { CanFill D.state config.now backing.old found.old.items (Below (mapped from.0.0) from.1) out.old }
    ensures reads { ReadsAs chains config.now (mapped from.0.0) from.1 (length out.old / 512)
        (did D.state backing.old found.old.items backing.new found.new.items)
        (buffer_answer result out.new) }
    ensures step { StepAt D.state config.now (mapped from.0.0) from.1 out.old backing.old backing.new result }
    ensures given { GivesAt (DeviceDoes D.state D.does) config.now (mapped from.0.0) from.1 (length out.old / 512) backing.old backing.new (buffer_answer result out.new) }
{
    let mut at = 0;
    while at < out.len() {
        let rest = (out.len() - at) as u64 / 512;
        let first = from.1 + at as u64 / 512;
        let cache = &backing.cache;
        let run = run_to_read(config, cache, from.0, first, rest, found.as_slice());
        let end = at + run.count as usize * 512;
        let part = &mut out[at..end];
        match read_run(config, backing, run.source, part, chains, found) {
            Ok(()) => at = end,
            Err(fault) => return Err(fault),
        }
    }
    Ok(())
}
