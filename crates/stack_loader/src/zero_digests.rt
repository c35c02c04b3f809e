//! The digests of data blocks of zeros, computed once when a table is loaded, for `verity` lines with
//! `ignore_zero_blocks`.
ghost use Rattle.std.specs.Prelude.{◌≡◌, ◌≤◌, length, All, IfOk, OnErr};
ghost use Rattle.allocation.specs.Refusal.{IsOutOfMemory};
ghost use Rattle.dm_table.specs.Grammar.{IsTargetOfGrammar, IsLineOfGrammar};
ghost use Rattle.tree_shape.specs.Digests.{digest};
ghost use Rattle.stack_config.specs.Keys.{zero_digests_of};
ghost use Rattle.stack_rules.specs.Lines.{zero_digest_of};
ghost use Rattle.stack_rules.specs.Trees.{zero_block};

use allocation::{OutOfMemory, push, with_capacity};
use dm_table::{Line, Target, Verity};
use stack_config::ZeroDigests;
use stack_rules::verity_of;
use std::alloc::Global;
use tree_shape::Digest;

fn digest_of_zeros(verity: &Verity) -> Digest
    requires { verity.now.data_block ≤ 4096 }
    ensures { result ≡ digest verity.now.salt (zero_block verity.now) }
{
    let zeros = [0u8; 4096];
    verity.salt.digest(&zeros[..verity.data_block as usize])
}

fn zero_digest_of(target: &Target) -> Option<Digest>
    requires { IsTargetOfGrammar target.now }
    ensures { result ≡ zero_digest_of target.now }
{
    match verity_of(target) {
        Some(verity) => {
            if verity.ignore_zero_blocks {
                Some(digest_of_zeros(verity))
            } else {
                None
            }
        }
        None => None,
    }
}

/// Returns the digests of blocks of zeros for the lines of a device.
pub(crate) fn line_digests(alloc: Global, lines: &[Line]) -> Result<ZeroDigests, OutOfMemory>
    requires { All IsLineOfGrammar lines.now }
    ensures ok { IfOk result (λ digests. digests ≡ zero_digests_of lines.now) }
    ensures err { OnErr result (IsOutOfMemory (length lines.now)) }
{
    let mut digests = with_capacity(alloc, lines.len())?;
    for line in lines {
        push(&mut digests, zero_digest_of(&line.target))?;
    }
    Ok(ZeroDigests::new(digests))
}
