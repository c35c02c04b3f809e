//! Blocks of 16 bytes.

ghost use Rattle.std.specs.Prelude.{◌≡◌, ◌+◌, ◌*◌, ◌≤◌, length};
ghost use Rattle.aes_block.specs.Blocks.{block};

use crate::state::State;

/// Returns block `j` of `bytes`, the 16 bytes from byte `16 * j` on.
pub fn block(bytes: &[u8], j: usize) -> State
    requires { 16 * j + 16 ≤ length bytes.now }
    ensures { result ≡ block bytes.now j }
{
    let mut block = [0; 16];
    block.copy_from_slice(&bytes[16 * j..16 * j + 16]);
    block
}
