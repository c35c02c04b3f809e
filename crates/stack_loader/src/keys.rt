//! The keys of `crypt` lines, expanded once when a table is loaded.
ghost use Rattle.std.specs.Prelude.{◌≡◌, ◌≤◌, ◌<◌, ◌^◌, length, All, IfOk, OnErr};
ghost use Rattle.allocation.specs.Refusal.{IsOutOfMemory};
ghost use Rattle.dm_table.specs.Grammar.{IsTargetOfGrammar, IsLineOfGrammar};
ghost use Rattle.stack_config.specs.Keys.{keys_from};
ghost use Rattle.stack_rules.specs.Lines.{key_of};

use allocation::{OutOfMemory, push};
use dm_table::{Line, Target};
use stack_config::{DeviceKeys, LineKey};
use stack_rules::crypt_of;
use std::alloc::Global;
use xts_sector::XtsKey;

/// Returns the key of a target, if it has one.
fn key_of(target: &Target) -> Option<XtsKey>
    requires { IsTargetOfGrammar target.now }
    ensures { result ≡ key_of target.now }
{
    match crypt_of(target) {
        Some(crypt) => XtsKey::new(crypt.key.bytes()),
        None => None,
    }
}

/// Returns the keys of the `crypt` lines of a device.
pub(crate) fn line_keys(alloc: Global, lines: &[Line]) -> Result<DeviceKeys, OutOfMemory>
    requires few { length lines.now < 2 ^ 32 }
    requires grammar { All IsLineOfGrammar lines.now }
    ensures ok { IfOk result (λ keys. keys ≡ keys_from 0 lines.now) }
    ensures err { OnErr result (IsOutOfMemory 1) }
{
    let mut list = Vec::new(alloc);
    for (i, line) in lines.iter().enumerate() {
        match key_of(&line.target) {
            Some(key) => push(
                &mut list,
                LineKey {
                    line: i as u32,
                    key,
                },
            )?,
            None => {}
        }
    }
    Ok(DeviceKeys::new(list))
}
