//! The rules on all lines of all devices.
ghost use Rattle.std.specs.Prelude.{◌≡◌, ◌≤◌, ◌<◌, ◌+◌, List, length};
ghost use Rattle.dm_table.specs.declared.table.Line.{Line as SomeLine};
ghost use Rattle.stack_rules.specs.Names.{lines_of, table_sectors};
ghost use Rattle.stack_rules.specs.Descend.{by_name};
ghost use Rattle.stack_rules.specs.Passing.{RowsMean};
ghost use Rattle.stack_rules.specs.Rules.{most_lines};
ghost use Rattle.linux_rules.specs.Blocks.{block_in};
ghost use Rattle.linux_rules.specs.Rules.{device_block, device_refusal, first_from, line_refusal, size_refusal, stack_refusal, IsChecked};

use crate::block::{blocks, rows};
use crate::lines::{Above, line_fault};
use crate::refusal::{LinuxFault, LinuxKind, LinuxRefusal};
use crate::target::{begins_with_verity, is_part};
use dm_table::Table;
use stack_config::{Config, DevId};
use stack_rules::LineLowers;

/// The first rule that applies to a line of device d, which counts from 1.
fn lines_refusal(
    config: &Config,
    blocks: &[u64],
    block: u64,
    table: &Table,
    rows: &[LineLowers],
    d: u32,
) -> Option<LinuxRefusal>
    requires lines { length table.now ≤ most_lines }
    requires rows { RowsMean config.now rows.now table.now }
    requires block { 1 ≤ block }
    ensures { result ≡ first_from (line_refusal config.now (by_name config.now 0 (block_in blocks.now)) block table.now d) 1 table.now }
{
    let lines = table.lines();
    let verity_first = begins_with_verity(lines);
    for (i, line) in lines.iter().enumerate() {
        let above = Above {
            block,
            verity_first,
        };
        match line_fault(config, blocks, above, rows[i].as_slice(), line) {
            Some(kind) => {
                return Some(LinuxRefusal {
                    kind,
                    device: d,
                    line: i as u32 + 1,
                });
            }
            None => {}
        }
    }
    None
}

/// The rule on the size of device d, which counts from 1.
fn size_refusal(block: u64, sectors: u64, d: u32) -> Option<LinuxRefusal>
    requires { 1 ≤ block }
    ensures { (lines : List SomeLine) → table_sectors lines ≡ sectors → result ≡ size_refusal block lines d }
{
    if is_part(block, sectors) {
        return Some(LinuxRefusal {
            kind: LinuxKind::PartSize,
            device: d,
            line: 0,
        });
    }
    None
}

/// The first rule that applies to a device, whose place counts from 0.
fn device_refusal(config: &Config, blocks: &[u64], place: DevId) -> Option<LinuxRefusal>
    requires device { place.0 < length config.now.devices }
    requires count { length blocks.now ≡ length config.now.devices }
    ensures { result ≡ device_refusal config.now (by_name config.now 0 (block_in blocks.now)) (device_block (block_in blocks.now) (place.0 + 1)) (place.0 + 1) (lines_of config.now place.0) }
{
    let _loaded = config.count();
    let block = blocks[place.0 as usize].max(1);
    let d = place.0 + 1;
    let rows = rows(config, place);
    match lines_refusal(config, blocks, block, config.table(place), rows, d) {
        Some(refusal) => return Some(refusal),
        None => {}
    }
    size_refusal(block, config.sectors(place), d)
}

/// The first rule that applies to a configuration, by the given blocks of its devices.
fn stack_refusal(config: &Config, blocks: &[u64]) -> Option<LinuxRefusal>
    requires { length blocks.now ≡ length config.now.devices }
    ensures { result ≡ stack_refusal config.now (block_in blocks.now) }
{
    for d in 0..config.count() {
        match device_refusal(config, blocks, DevId(d as u32)) {
            Some(refusal) => return Some(refusal),
            None => {}
        }
    }
    None
}

/// Checks nine rules on what Linux refuses of a configuration, or reads otherwise.
///
/// # Errors
///
/// `Refused` names the first rule that applies, by device and line. `NoMemory` if an allocation was refused, of room for as
/// many numbers as there are devices.
pub fn check_linux(config: &Config) -> Result<(), LinuxFault>
    ensures { IsChecked config.now result }
{
    let blocks = blocks(config)?;
    match stack_refusal(config, blocks.as_slice()) {
        Some(refusal) => Err(LinuxFault::Refused(refusal)),
        None => Ok(()),
    }
}
