//! New configurations, and loads.
ghost use Rattle.std.specs.Prelude.{◌≡◌, None, Some, [], IfOk, IfErr, OnOk, OnErr, Err};
ghost use Rattle.stack_rules.specs.Leaves.{first_leaf_fault};
ghost use Rattle.allocation.specs.Refusal.{IsOutOfMemory};
ghost use Rattle.stack_rules.specs.Passing.{largest_load_allocation};
ghost use Rattle.stack_rules.specs.declared.refusal.Refusal.{Refusal};
ghost use Rattle.stack_rules.specs.Rules.{IsRefusal, after_load, first_refusal};

use crate::check::next_load;
use crate::leaves::leaves_fault;
use dm_table::StackText;
use stack_config::Config;
use stack_rules::{ConfigFault, Leaf, LoadFault};
use std::alloc::Global;

/// Returns a configuration of these leaves without mapped devices.
///
/// # Errors
///
/// The first rule that refuses the leaves.
pub fn config_over(alloc: Global, leaves: Vec<Leaf>) -> Result<Config, ConfigFault>
    ensures ok { IfOk result (λ c. c ≡ record { leaves = leaves.items; devices = [] }) }
    ensures leaves { OnOk result (first_leaf_fault leaves.items ≡ None) }
    ensures err { IfErr result (λ fault. first_leaf_fault leaves.items ≡ Some fault) }
{
    match leaves_fault(leaves.as_slice()) {
        Some(fault) => Err(fault),
        None => Ok(Config::new(alloc, leaves)),
    }
}

/// Creates each device that the text names, or replaces its table and flag. Either all devices are loaded or none.
///
/// # Errors
///
/// - `Refused` by the first rule that refuses the resulting configuration.
/// - `NoMemory` if an allocation of at most `largest_load_allocation` elements fails.
///
/// The configuration is unchanged in both cases.
pub fn load(config: &mut Config, text: &StackText) -> Result<(), LoadFault>
    ensures ok { OnOk result (first_refusal config.old text.now ≡ None) }
    ensures after { OnOk result (config.new ≡ after_load config.old text.now) }
    ensures refused { (r : Refusal) → result ≡ Err (LoadFault.Refused r) → IsRefusal config.old text.now r }
    ensures memory { result ≡ Err LoadFault.NoMemory → IsOutOfMemory largest_load_allocation }
    ensures same { OnErr result (config.new ≡ config.old) }
{
    let next = next_load(
        config.alloc(),
        config.leaves(),
        config.devices(),
        text.as_slice(),
    )?;
    config.put(next.devices, next.facts);
    Ok(())
}
