//! The rules on leaves.
ghost use Rattle.std.specs.Prelude.{◌≡◌, ◌==◌, not, nat_lt};
ghost use Rattle.std.specs.List.{list_any, starts_with};
ghost use Rattle.std.specs.Str.{bytes_eq};
ghost use Rattle.dm_table.specs.Names.{mapper};
ghost use Rattle.stack_rules.specs.Rules.{is_leaf_name, most_sectors};
ghost use Rattle.stack_rules.specs.Leaves.{first_leaf_fault, has_duplicate};

use dm_table::is_device;
use stack_rules::{ConfigFault, Leaf};

const MOST_LEAVES: usize = 64;

pub(crate) const MOST_SECTORS: u64 = 1 << 54;

fn begins_as_path(name: &[u8]) -> bool
    ensures { result ≡ starts_with ◌==◌ name.now mapper }
{
    name.starts_with(b"/dev/mapper/")
}

// Returns whether the name is a device argument other than the path of a mapped device.
fn is_leaf_name(name: &[u8]) -> bool
    ensures { result ≡ is_leaf_name name.now }
{
    if begins_as_path(name) {
        return false;
    }
    is_device(name)
}

fn has_name(leaves: &[Leaf], name: &[u8]) -> bool
    ensures { result ≡ list_any (λ l. bytes_eq name.now l.name) leaves.now }
{
    leaves.iter().any(|leaf| name == leaf.name())
}

fn has_duplicate(leaves: &[Leaf]) -> bool
    ensures { result ≡ has_duplicate leaves.now }
{
    for (i, leaf) in leaves.iter().enumerate() {
        if has_name(&leaves[i + 1..], leaf.name()) {
            return true;
        }
    }
    false
}

fn has_bad_name(leaves: &[Leaf]) -> bool
    ensures { result ≡ list_any (λ l. not (is_leaf_name l.name)) leaves.now }
{
    leaves.iter().any(|leaf| !is_leaf_name(leaf.name()))
}

fn has_too_large(leaves: &[Leaf]) -> bool
    ensures { result ≡ list_any (λ l. nat_lt most_sectors l.sectors) leaves.now }
{
    leaves.iter().any(|leaf| leaf.sectors() > MOST_SECTORS)
}

/// Returns the first rule that refuses the leaves.
#[tactic(auto, unfolding(stack_rules::specs::Leaves::first_leaf_fault))]
pub fn leaves_fault(leaves: &[Leaf]) -> Option<ConfigFault>
    ensures { result ≡ first_leaf_fault leaves.now }
{
    if has_duplicate(leaves) {
        return Some(ConfigFault::DuplicateLeaf);
    }
    if leaves.len() > MOST_LEAVES {
        return Some(ConfigFault::TooMany);
    }
    if has_bad_name(leaves) {
        return Some(ConfigFault::BadName);
    }
    if has_too_large(leaves) {
        return Some(ConfigFault::TooLarge);
    }
    None
}
