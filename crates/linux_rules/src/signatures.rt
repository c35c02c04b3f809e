//! Signatures of root hashes, which Linux checks.
ghost use Rattle.std.specs.Prelude.{◌≡◌};
ghost use Rattle.std.specs.List.{list_any};
ghost use Rattle.linux_rules.specs.Signatures.{has_signature, is_signed};

use dm_table::Line;
use stack_config::Config;
use stack_rules::verity_of;

/// Returns whether Linux checks a signature when it loads the configuration: whether a `verity` line names the key that holds the
/// signature of its root hash. The signature changes no byte that is read.
#[tactic(auto, unfolding(crate::specs::Signatures::has_signature))]
pub fn has_signature(config: &Config) -> bool
    ensures { result ≡ has_signature config.now }
{
    config
        .devices()
        .iter()
        .any(|device| has_signed(device.table().lines()))
}

fn has_signed(lines: &[Line]) -> bool
    ensures { result ≡ list_any is_signed lines.now }
{
    lines.iter().any(|line| is_signed(line))
}

fn is_signed(line: &Line) -> bool
    ensures { result ≡ is_signed line.now }
{
    match verity_of(&line.target) {
        Some(verity) => verity.signature_key.is_some(),
        None => false,
    }
}
