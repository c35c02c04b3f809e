//! Writes through the lines of a stack, down to its leaves.
ghost use Rattle.std.specs.Prelude.{◌≡◌, ◌≤◌, ◌+◌, ◌-◌, ◌/◌, ◌⊎◌, ◌++◌, [], IfErr, IsTrue, is_ok, map, take, drop};
ghost use Rattle.block_device.specs.Call.{DeviceDoes, Write};
ghost use Rattle.stack_rules.specs.Names.{mapped, may_write};
ghost use Rattle.stack_lines.specs.declared.source.Source.TheVariants.{Below};
ghost use Rattle.stack_meaning.specs.Meaning.{said_at};
ghost use Rattle.stack_lines.specs.Sources.{source_said};
ghost use Rattle.stack_lines.specs.Writing.{AreHeld, sectors_in, destination_of, WritesSectors};
ghost use Rattle.stack_engine.specs.Stacks.{IsSound};
ghost use Rattle.stack_engine.specs.Premises.{FitsIn};
ghost use Rattle.stack_engine.specs.LeafCalls.{IsLeafCall};
ghost use Rattle.stack_engine.specs.WriteSteps.{CanPut, PutTo, WriteStepTo, PutAt, WriteStepAt, HandsOver};

use crate::backing::Backing;
use crate::path::Chains;
use crate::read::read_units;
use block_device::BlockDev;
use stack_config::{Config, DevId, Lower};
use stack_lines::units::{MOST, encrypt, put_sectors, unit_at, whole_unit};
use stack_lines::{CryptPart, Source, Steps, lower_cuts, run_at};
use stack_meaning::{Fault, IoFault};

/// The sectors of a leaf, by one call of its device.
fn write_sectors<D: BlockDev>(
    config: &Config,
    devices: &mut [D],
    leaf: u32,
    first: u64,
    bytes: &[u8],
) -> Result<(), IoFault>
    requires sound { IsSound config.now (map D.state devices.old) }
    requires allowed { IsTrue (may_write config.now (Lower.Leaf leaf)) }
    requires fits { FitsIn config.now (Below (Lower.Leaf leaf) first) bytes.now }
    ensures writes { WritesSectors (destination_of config.now (Lower.Leaf leaf)) first (sectors_in bytes.now)
        (map D.state devices.old) (map D.state devices.new) result }
    ensures call { IsLeafCall (DeviceDoes D.state D.does) leaf devices.old (Write first bytes.now (is_ok result)) devices.new }
    ensures err { IfErr result (λ fault. fault ≡ IoFault.Device (leaf + 1)) }
{
    match devices[leaf as usize].write(first, bytes) {
        Ok(()) => Ok(()),
        Err(_) => Err(IoFault::Device(leaf + 1)),
    }
}

/// Writes the sectors of a leaf, after the blocks of the lines whose hash device is on the leaf were dropped from the cache.
fn write_leaf<D: BlockDev>(
    config: &Config,
    backing: &mut Backing<D>,
    leaf: u32,
    first: u64,
    bytes: &[u8],
) -> Result<(), IoFault>
    requires { CanPut D.state config.now backing.old (Below (Lower.Leaf leaf) first) bytes.now }
    ensures writes { PutAt D.state config.now (Lower.Leaf leaf) first bytes.now backing.old backing.new result }
    ensures step { WriteStepAt D.state config.now (Lower.Leaf leaf) first bytes.now backing.old backing.new }
    ensures call { IsLeafCall (DeviceDoes D.state D.does) leaf backing.old.devices.items (Write first bytes.now (is_ok result)) backing.new.devices.items }
    ensures err { IfErr result (λ fault. fault ≡ IoFault.Device (leaf + 1)) }
{
    backing.cache.forget_leaf(config, leaf);
    write_sectors(config, backing.devices.as_mut_slice(), leaf, first, bytes)
}

/// The bytes of a write, which are in one of two places.
fn held<'a>(plain: &'a [u8], buffer: &'a [u8]) -> &'a [u8]
    requires { (plain.now ≡ []) ⊎ (buffer.now ≡ []) }
    ensures { result.now ≡ plain.now ++ buffer.now }
{
    if plain.is_empty() { buffer } else { plain }
}

/// Returns the bytes from `at` to `end`, or up to their end if it is earlier.
fn between(bytes: &[u8], at: usize, end: usize) -> &[u8]
    requires { at ≤ end }
    ensures { result.now ≡ take (end - at) (drop at bytes.now) }
{
    let from = at.min(bytes.len());
    let to = end.min(bytes.len());
    &bytes[from..to]
}

/// The sectors of a leaf or a mapped device. Their bytes are the caller's, `plain`, if no line encrypts them; else
/// they are those of `buffer` and are encrypted there, each part by the lines on its way. The other one is empty.
#[cycle(write)]
fn write_lower<D: BlockDev>(
    config: &Config,
    backing: &mut Backing<D>,
    lower: Lower,
    first: u64,
    plain: &[u8],
    buffer: &mut [u8],
) -> Result<(), IoFault>
    requires can { CanPut D.state config.now backing.old (Below lower first) (plain.now ++ buffer.old) }
    requires bytes { AreHeld (said_at config.now lower) first plain.now buffer.old }
    ensures writes { PutAt D.state config.now lower first (plain.now ++ buffer.old) backing.old backing.new result }
    ensures step { WriteStepAt D.state config.now lower first (plain.now ++ buffer.old) backing.old backing.new }
    ensures handed { HandsOver (DeviceDoes D.state D.does) config.now (Below lower first) (plain.now ++ buffer.old) backing.old backing.new result }
{
    match lower {
        Lower::Leaf(leaf) => write_leaf(config, backing, leaf, first, held(plain, buffer)),
        Lower::Device(d) => write_device(config, backing, d, first, plain, buffer),
    }
}

/// The sectors of one run.
#[cycle(write)]
fn write_run<D: BlockDev>(
    config: &Config,
    backing: &mut Backing<D>,
    source: Source<'_>,
    plain: &[u8],
    buffer: &mut [u8],
) -> Result<(), IoFault>
    requires can { CanPut D.state config.now backing.old source (plain.now ++ buffer.old) }
    requires bytes { AreHeld (source_said config.now source) 0 plain.now buffer.old }
    ensures writes { PutTo D.state config.now source.entry (plain.now ++ buffer.old) backing.old backing.new result }
    ensures step { WriteStepTo D.state config.now source.entry (plain.now ++ buffer.old) backing.old backing.new }
    ensures handed { HandsOver (DeviceDoes D.state D.does) config.now source.entry (plain.now ++ buffer.old) backing.old backing.new result }
{
    match source {
        Source::Below { lower, first } => write_lower(config, backing, lower, first, plain, buffer),
        Source::Units(part) => write_units(config, backing, part, buffer),
        Source::UnitPart(part) => write_unit_part(config, backing, part, buffer),
        Source::Zeros => Ok(()),
        Source::Fails => Err(IoFault::Stack(Fault::ErrorTarget)),
        Source::Block(_) | Source::Blocks(_) => unreachable!(),
    }
}

/// Whole units of a crypt line, which are encrypted in place. They are written at once if that makes no difference,
/// and else each by itself.
#[cycle(write)]
fn write_units<D: BlockDev>(
    config: &Config,
    backing: &mut Backing<D>,
    part: CryptPart<'_>,
    units: &mut [u8],
) -> Result<(), IoFault>
    requires { CanPut D.state config.now backing.old (Source.Units part) units.old }
    ensures writes { PutTo D.state config.now (Source.Units part.entry) units.old backing.old backing.new result }
    ensures step { WriteStepTo D.state config.now (Source.Units part.entry) units.old backing.old backing.new }
    ensures handed { HandsOver (DeviceDoes D.state D.does) config.now (Source.Units part.entry) units.old backing.old backing.new result }
{
    let unit = unit_at(&part);
    let sectors = part.units.size.sectors();
    let size = sectors as usize * 512;
    encrypt(&part, unit.index, units);
    let none: &[u8] = &[];
    let len = units.len();
    let steps = Steps {
        size: u64::from(sectors),
        skip: 0,
    };
    if lower_cuts(config, part.lower, unit.first, len as u64 / 512, steps) {
        return write_lower(config, backing, part.lower, unit.first, none, units);
    }
    let mut at = 0;
    while at < len {
        let first = unit.first + at as u64 / 512;
        let end = len.min(at + size);
        match write_lower(
            config,
            backing,
            part.lower,
            first,
            none,
            &mut units[at..end],
        ) {
            Ok(()) => at = end,
            Err(fault) => return Err(fault),
        }
    }
    Ok(())
}

/// Sectors of one unit of a crypt line, which is read, changed and written whole.
#[cycle(write)]
fn write_unit_part<D: BlockDev>(
    config: &Config,
    backing: &mut Backing<D>,
    part: CryptPart<'_>,
    bytes: &[u8],
) -> Result<(), IoFault>
    requires { CanPut D.state config.now backing.old (Source.UnitPart part) bytes.now }
    ensures writes { PutTo D.state config.now (Source.UnitPart part.entry) bytes.now backing.old backing.new result }
    ensures step { WriteStepTo D.state config.now (Source.UnitPart part.entry) bytes.now backing.old backing.new }
    ensures handed { HandsOver (DeviceDoes D.state D.does) config.now (Source.UnitPart part.entry) bytes.now backing.old backing.new result }
{
    let whole = whole_unit(&part);
    let mut room = [0u8; MOST];
    let all = room.as_mut_slice();
    let unit = &mut all[..whole.sectors as usize * 512];
    let mut own = Vec::new(backing.alloc);
    match read_units(config, backing, whole.from, unit, Chains::Kept, &mut own) {
        Ok(()) => {}
        Err(fault) => return Err(fault),
    }
    put_sectors(unit, whole.within, bytes);
    write_units(config, backing, whole.from, unit)
}

/// The sectors of a mapped device, run by run.
#[cycle(write)]
pub(crate) fn write_device<D: BlockDev>(
    config: &Config,
    backing: &mut Backing<D>,
    d: DevId,
    first: u64,
    plain: &[u8],
    buffer: &mut [u8],
) -> Result<(), IoFault>
    requires can { CanPut D.state config.now backing.old (Below (mapped d.0) first) (plain.now ++ buffer.old) }
    requires bytes { AreHeld (said_at config.now (mapped d.0)) first plain.now buffer.old }
    ensures writes { PutAt D.state config.now (mapped d.0) first (plain.now ++ buffer.old) backing.old backing.new result }
    ensures step { WriteStepAt D.state config.now (mapped d.0) first (plain.now ++ buffer.old) backing.old backing.new }
    ensures handed { HandsOver (DeviceDoes D.state D.does) config.now (Below (mapped d.0) first) (plain.now ++ buffer.old) backing.old backing.new result }
{
    let room = buffer.len();
    let len = held(plain, buffer).len();
    let mut at = 0;
    while at < len {
        let rest = (len - at) as u64 / 512;
        let run = run_at(config, d, first + at as u64 / 512, rest);
        let end = at + run.count as usize * 512;
        let part = between(plain, at, end);
        let from = at.min(room);
        let to = end.min(room);
        match write_run(config, backing, run.source, part, &mut buffer[from..to]) {
            Ok(()) => at = end,
            Err(fault) => return Err(fault),
        }
    }
    Ok(())
}
