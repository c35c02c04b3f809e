//! The keys of the hash blocks that are stored on a leaf.
ghost use Rattle.std.specs.Prelude.{◌≡◌, ◌<◌, length};
ghost use Rattle.stack_rules.specs.Names.{lines_of};
ghost use Rattle.stack_rules.specs.Rules.{IsLoaded, most_leaves};
ghost use Rattle.stack_lines.specs.Standing.{AreLeafSets, key_stands_on, line_stands_on};

use crate::leaf_set::LeafSet;
use crate::leaf_sets::{is_verity, lower_leaves};
use stack_config::{Config, DevId};
use verified_cache::{Key, Keys};

/// The keys of the `verity` lines whose hash device is a leaf, or is stacked on it.
#[derive(Clone, Copy)]
pub(crate) struct KeysOnLeaf<'a> {
    pub(crate) config: &'a Config,
    /// The leaves beneath each mapped device.
    pub(crate) beneath: &'a [LeafSet; 64],
    pub(crate) leaf: u32,
}

impl Keys for KeysOnLeaf<'_> {
    ghost can_tell = { λ keys. (keys.leaf < most_leaves) × AreLeafSets keys.config.now keys.beneath.now };

    ghost has = { λ keys. key_stands_on keys.config.now keys.leaf };

    fn has(&self, key: Key) -> bool {
        let d = DevId(key.device);
        if key.device as usize >= self.config.count() {
            return false;
        }
        if key.line as usize >= self.config.table(d).lines().len() {
            return false;
        }
        is_hashed_on(self.config, self.beneath, d, key.line, self.leaf)
    }
}

// Whether the hash device of a line is the leaf, or is stacked on it.
fn is_hashed_on(config: &Config, beneath: &[LeafSet; 64], d: DevId, line: u32, leaf: u32) -> bool
    requires loaded { IsLoaded config.now }
    requires device { d.0 < length config.now.devices }
    requires line { line < length (lines_of config.now d.0) }
    requires leaf { leaf < most_leaves }
    requires sets { AreLeafSets config.now beneath.now }
    ensures { result ≡ line_stands_on config.now leaf d.0 line }
{
    let lines = config.table(d).lines();
    if !is_verity(&lines[line as usize].target) {
        return false;
    }
    let hash = config.lower(d, line, 1);
    lower_leaves(beneath, hash).contains(leaf)
}
