//! Collection of the values computed for each device.
ghost use Rattle.std.specs.Prelude.{◌≡◌, ◌≤◌, ◌+◌, length, map, All, IfOk, OnErr};
ghost use Rattle.std.specs.List.{range_with_len};
ghost use Rattle.allocation.specs.Refusal.{IsOutOfMemory};
ghost use Rattle.stack_rules.specs.Rules.{most_lines};
ghost use Rattle.stack_loader.specs.Facts.{facts_at};

use crate::keys::line_keys;
use crate::zero_digests::line_digests;
use allocation::{OutOfMemory, push, with_capacity};
use stack_config::DeviceFacts;
use stack_rules::{DeviceLowers, Planned};
use std::alloc::Global;

/// Returns the values of each device: its depth, its costs and the devices that its lines name, together with its
/// keys and digests of blocks of zeros.
pub(crate) fn device_facts(
    alloc: Global,
    devices: &[Planned<'_>],
    depths: &[u64],
    read_costs: &[u64],
    write_costs: &[u64],
    lowers: Vec<DeviceLowers>,
) -> Result<Vec<DeviceFacts>, OutOfMemory>
    requires lines { All (λ d. length d.table ≤ most_lines) devices.now }
    requires lengths { let n = length devices.now in (length depths.now ≡ n) × (length read_costs.now ≡ n) × (length write_costs.now ≡ n) × (length lowers.items ≡ n) }
    ensures ok { IfOk result (λ facts. facts.items ≡ map (facts_at devices.now depths.now read_costs.now write_costs.now lowers.items) (range_with_len 0 (length devices.now))) }
    ensures err { OnErr result (IsOutOfMemory (length devices.now + most_lines)) }
{
    let mut facts = with_capacity(alloc, devices.len())?;
    for (i, lowers) in lowers.into_iter().enumerate() {
        let lines = devices[i].table().lines();
        let device = DeviceFacts {
            depth: depths[i],
            read_cost: read_costs[i],
            write_cost: write_costs[i],
            lowers,
            keys: line_keys(alloc, lines)?,
            zero_digests: line_digests(alloc, lines)?,
        };
        push(&mut facts, device)?;
    }
    Ok(facts)
}
