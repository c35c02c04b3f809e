//! The leaves beneath each mapped device, and whether it is clear.
ghost use Rattle.std.specs.Prelude.{◌≡◌, ◌<◌, ◌+◌, length};
ghost use Rattle.stack_rules.specs.Descend.{depth};
ghost use Rattle.stack_rules.specs.Lines.{names_at};
ghost use Rattle.stack_rules.specs.Names.{mapped, names};
ghost use Rattle.stack_rules.specs.Records.{Configuration};
ghost use Rattle.stack_rules.specs.Rules.{IsLoaded};
ghost use Rattle.stack_lines.specs.Clear.{adds_no_fault};
ghost use Rattle.stack_lines.specs.Standing.{is_verity, IsPossibleLower, HasLeaves, HasLineLeaves, KnowsLeaves, AreSetsBelow, AreLeafSets};

use crate::leaf_set::LeafSet;
use dm_table::Target;
use stack_config::{Config, DevId, Lower, verity_of};
use stack_rules::name_count;

/// The depth of the deepest device.
const MOST_DEPTH: u32 = 8;

/// The leaves beneath a device, by the sets of the devices, or the leaf itself.
pub(crate) fn lower_leaves(sets: &[LeafSet; 64], lower: Lower) -> LeafSet
    requires { IsPossibleLower lower }
    ensures { (c : Configuration) → IsLoaded c → KnowsLeaves c sets.now lower → HasLeaves c lower result }
{
    match lower {
        Lower::Leaf(leaf) => LeafSet::empty(true).with(leaf),
        Lower::Device(d) => sets[d.0 as usize],
    }
}

/// Whether a target is that of a `verity` line.
pub(crate) fn is_verity(target: &Target) -> bool
    ensures { result ≡ is_verity target.now }
{
    verity_of(target).is_some()
}

/// Whether the sectors of a line meet no faults but those that sectors beneath them meet.
fn adds_no_fault(target: &Target) -> bool
    ensures { result ≡ adds_no_fault target.now }
{
    match target {
        Target::Error => false,
        Target::Verity(_) => false,
        Target::Linear(_) => true,
        Target::Striped { .. } => true,
        Target::Zero => true,
        Target::Crypt(_) => true,
        Target::Unstriped(_) => true,
    }
}

/// The leaves beneath one line, by the `count` devices that it names, and whether it is known to be clear.
fn line_leaves(
    config: &Config,
    sets: &[LeafSet; 64],
    d: DevId,
    line: u32,
    target: &Target,
    count: u32,
) -> LeafSet
    requires loaded { IsLoaded config.now }
    requires device { d.0 < length config.now.devices }
    requires names { (names_at config.now d.0 line ≡ names target.now) × (count ≡ length (names target.now)) }
    requires below { AreSetsBelow config.now (depth config.now (mapped d.0)) sets.now }
    ensures { HasLineLeaves config.now (names_at config.now d.0 line) target.now result }
{
    let mut leaves = LeafSet::empty(adds_no_fault(target));
    for i in 0..count {
        let lower = config.lower(d, line, i);
        leaves = leaves.union(lower_leaves(sets, lower));
    }
    leaves
}

/// The leaves beneath a device, by the sets of its lines.
fn device_leaves(config: &Config, sets: &[LeafSet; 64], d: DevId) -> LeafSet
    requires loaded { IsLoaded config.now }
    requires device { d.0 < length config.now.devices }
    requires below { AreSetsBelow config.now (depth config.now (mapped d.0)) sets.now }
    ensures { HasLeaves config.now (mapped d.0) result }
{
    let mut leaves = LeafSet::empty(true);
    let mut number = 0;
    let lines = config.table(d).lines();
    for line in lines {
        let target = &line.target;
        let count = name_count(target) as u32;
        leaves = leaves.union(line_leaves(config, sets, d, number, target, count));
        number += 1;
    }
    leaves
}

/// The sets of the devices of one depth, by those of the devices that are less deep.
fn settle(config: &Config, deep: u32, sets: &mut [LeafSet; 64])
    requires loaded { IsLoaded config.now }
    requires below { AreSetsBelow config.now deep sets.old }
    ensures { AreSetsBelow config.now (deep + 1) sets.new }
{
    for place in 0..config.count() {
        let d = DevId(place as u32);
        if config.depth(d) == deep {
            sets[place] = device_leaves(config, sets, d);
        }
    }
}

/// The set of each device.
pub(crate) fn leaf_sets(config: &Config) -> [LeafSet; 64]
    requires { IsLoaded config.now }
    ensures { AreLeafSets config.now result }
{
    let mut sets = [LeafSet::empty(false); 64];
    for deep in 0..MOST_DEPTH {
        settle(config, deep + 1, &mut sets);
    }
    sets
}
