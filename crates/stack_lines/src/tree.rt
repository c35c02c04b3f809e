//! What a read of a `verity` line's blocks uses.
ghost use Rattle.std.specs.Prelude.{◌≡◌, ◌<◌, ◌≤◌, ◌+◌, ◌*◌, ℕ, length, take, drop, get_or, IfSome, IfNone};
ghost use Rattle.tree_shape.specs.Shape.{ancestor, levels};
ghost use Rattle.stack_rules.specs.Names.{size};
ghost use Rattle.stack_rules.specs.Rules.{IsLoaded};
ghost use Rattle.stack_rules.specs.Trees.{tree_of, block_sectors};
ghost use Rattle.stack_meaning.specs.Blocks.{covered_hash, hash_sectors, hash_start, is_ignored};
ghost use Rattle.stack_meaning.specs.Spares.{covered_start, parity_start};
ghost use Rattle.stack_meaning.specs.Found.{FoundRecord, found_entry};
ghost use Rattle.stack_lines.specs.Covered.{HasCoveredBlock, HasRound, covered_lower};
ghost use Rattle.stack_lines.specs.Extents.{IsExtent};
ghost use Rattle.stack_lines.specs.Sources.{IsVerityPart};
ghost use Rattle.stack_lines.specs.Walks.{HasDataBlock, IsTreeOf};

use crate::source::VerityPart;
use dm_table::{Parity, Verity};
use stack_config::{Config, DevId, Lower};
use stack_meaning::Found;
use tree_shape::{Digest, Shape};
use verified_cache::Key;

/// Where the blocks of a `verity` line lie: the devices of its data blocks, of its hash blocks, and of its parity if it
/// has some, and the shape.
#[derive(Clone, Copy)]
pub struct Tree {
    pub device: DevId,
    pub line: u32,
    pub data: Lower,
    pub hash: Lower,
    pub parity: Option<Lower>,
    pub shape: Shape,
}

/// So many sectors of a leaf or device, from that one on.
#[derive(Clone, Copy)]
pub struct Extent {
    pub lower: Lower,
    pub first: u64,
    pub sectors: u32,
}

/// Returns where the blocks of a part's line lie.
pub fn tree_of(config: &Config, part: &VerityPart<'_>) -> Tree
    requires loaded { IsLoaded config.now }
    requires part { IsVerityPart config.now part.now }
    ensures tree { IsTreeOf config.now part.now.verity.now result }
    ensures device { result.device ≡ part.now.device }
    ensures data { result.data ≡ part.now.data }
{
    let _config = config;
    let verity = part.verity;
    match Shape::new(
        verity.data_block,
        verity.hash_block,
        verity.blocks,
        verity.start,
    ) {
        Ok(shape) => Tree {
            device: part.device,
            line: part.line,
            data: part.data,
            hash: part.hash,
            parity: part.parity,
            shape,
        },
        Err(_) => unreachable!(),
    }
}

/// Returns the extent of the hash block of a level on the way to data block `index`. Levels count from 0 above the data blocks.
pub fn hash_extent(config: &Config, verity: &Verity, tree: &Tree, level: u32, index: u64) -> Extent
    requires loaded { IsLoaded config.now }
    requires block { HasDataBlock config.now verity.now tree.now index }
    requires level { level < levels (tree_of verity.now) }
    ensures { IsExtent config.now tree.now.hash (hash_start verity.now level index) (hash_sectors verity.now) result }
{
    let place = tree
        .shape
        .position(level, tree.shape.block_on_path(level, index));
    let sectors = verity.hash_block / 512;
    Extent {
        lower: tree.hash,
        first: u64::from(sectors) * place,
        sectors,
    }
}

/// Returns the number, among the blocks that parity covers, of the hash block of a level on the way to data block `index`.
pub fn hash_number(config: &Config, verity: &Verity, tree: &Tree, level: u32, index: u64) -> u64
    requires loaded { IsLoaded config.now }
    requires block { HasDataBlock config.now verity.now tree.now index }
    requires level { level < levels (tree_of verity.now) }
    ensures { result ≡ covered_hash verity.now level (ancestor (tree_of verity.now) (level + 1) index) }
{
    let _config = config;
    let place = tree
        .shape
        .position(level, tree.shape.block_on_path(level, index));
    let within = place - verity.start;
    verity.blocks + within
}

/// Returns the key under which a cache keeps the hash block of a level on the way to data block `index`.
pub fn hash_key(tree: &Tree, level: u32, index: u64) -> Key
    requires { index < tree.now.shape.blocks }
    ensures { result ≡ record { device = tree.now.device.0; line = tree.now.line; level = level; block = ancestor tree.now.shape (level + 1) index } }
{
    Key {
        device: tree.device.0,
        line: tree.line,
        level,
        block: tree.shape.block_on_path(level, index),
    }
}

/// Returns the key under which a cache keeps data block `index`.
pub fn data_key(tree: &Tree, index: u64) -> Key
    ensures { result ≡ record { device = tree.now.device.0; line = tree.now.line; level = 0; block = index } }
{
    let device = tree.device.0;
    Key {
        device,
        line: tree.line,
        level: 0,
        block: index,
    }
}

/// Returns the extent of data block `index`; blocks count from 0.
pub fn data_extent(config: &Config, verity: &Verity, tree: &Tree, index: u64) -> Extent
    requires loaded { IsLoaded config.now }
    requires block { HasDataBlock config.now verity.now tree.now index }
    ensures { IsExtent config.now tree.now.data (block_sectors verity.now * index) (block_sectors verity.now) result }
{
    let sectors = verity.data_block / 512;
    Extent {
        lower: tree.data,
        first: u64::from(sectors) * index,
        sectors,
    }
}

/// Returns the extent of a block that parity covers: the data blocks, then those of the hash device from the tree on, are
/// numbered from 0.
pub fn covered_extent(
    config: &Config,
    verity: &Verity,
    parity: &Parity,
    tree: &Tree,
    number: u64,
) -> Extent
    requires loaded { IsLoaded config.now }
    requires block { HasCoveredBlock config.now verity.now parity.now tree.now number }
    ensures { IsExtent config.now (covered_lower verity.now tree.now number) (covered_start verity.now number) (block_sectors verity.now) result }
{
    let _parity = parity;
    if number < verity.blocks {
        return data_extent(config, verity, tree, number);
    }
    let sectors = verity.data_block / 512;
    let block = verity.start + (number - verity.blocks);
    let first = u64::from(sectors) * block;
    Extent {
        lower: tree.hash,
        first,
        sectors,
    }
}

/// Returns the first sector of the parity of a round on its device; rounds count from 0.
pub fn parity_start(
    config: &Config,
    verity: &Verity,
    parity: &Parity,
    tree: &Tree,
    round: u64,
) -> u64
    requires loaded { IsLoaded config.now }
    requires round { HasRound config.now verity.now parity.now tree.now round }
    ensures value { result ≡ parity_start verity.now parity.now round }
    ensures inside { IfSome tree.now.parity (λ lower. result + block_sectors verity.now * parity.now.roots ≤ size config.now lower) }
{
    let (_config, _tree) = (config, tree);
    let roots = u64::from(parity.roots);
    let within = round * roots;
    let block = parity.start + within;
    let sectors = u64::from(verity.data_block / 512);
    sectors * block
}

/// Returns whether the line ignores a data block with that digest, and reads it as zeros.
pub fn is_ignored(config: &Config, verity: &Verity, tree: &Tree, expected: &Digest) -> bool
    requires { IsTreeOf config.now verity.now tree.now }
    ensures { result ≡ is_ignored verity.now expected.now }
{
    if !verity.ignore_zero_blocks {
        return false;
    }
    match config.zero_digest(tree.device, tree.line) {
        Some(zeros) => zeros == *expected,
        None => false,
    }
}

/// Returns the place in the list of the chain of data block `index` of a line, or `None` if it isn't in the list.
pub fn find(found: &[Found], device: u32, line: u32, index: u64) -> Option<usize>
    ensures some { IfSome result (λ k. (k < length found.now) × ((x : FoundRecord) → found_entry (get_or found.now k x) ≡ (device, line, index))) }
    ensures none { IfNone result ((k : ℕ) → k < length found.now → (x : FoundRecord) → found_entry (get_or found.now k x) ≡ (device, line, index) → ⊥) }
{
    let mut at = 0;
    for one in found {
        let chain = &one.chain;
        if one.device == device && one.line == line && chain.index == index {
            return Some(at);
        }
        at += 1;
    }
    None
}

/// Copies sectors of the content of the found chain at place `at`, from its sector `within` on, as many as fill the buffer.
pub fn copy_part(found: &[Found], at: usize, within: u64, out: &mut [u8])
    requires at { at < length found.now }
    requires small { within ≤ 8 }
    requires inside { (x : FoundRecord) → 512 * within + length out.old ≤ length ((get_or found.now at x).chain.content) }
    ensures { (x : FoundRecord) → out.new ≡ take (length out.old) (drop (512 * within) ((get_or found.now at x).chain.content)) }
{
    let from = within as usize * 512;
    let one = &found[at];
    let chain = &one.chain;
    let content = chain.content.as_slice();
    out.copy_from_slice(&content[from..from + out.len()]);
}
