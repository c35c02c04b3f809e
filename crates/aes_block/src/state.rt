//! The state (FIPS 197, 3.4) as an array, and InvMixColumns (5.3.3), which is applied to round keys.

ghost use Rattle.std.specs.Prelude.{◌≡◌, ℕ, ◌<◌};
ghost use Rattle.aes_block.specs.State.{byte_at};
ghost use Rattle.aes_block.specs.Rounds.{unmixed_byte, inv_mix_columns};

use crate::field::multiply;

/// Four rows and four columns of bytes: byte i is in row i % 4 and column i / 4.
pub type State = [u8; 16];

fn byte_at(state: &State, row: usize, column: usize) -> u8
    requires row { row < 4 }
    requires column { column < 4 }
    ensures { result ≡ byte_at state.now row column }
{
    state[4 * column + row]
}

/// Returns the state whose byte in each row and column is `byte(row, column)`.
fn state_of<F: Fn(usize, usize) -> u8>(byte: F) -> State
    requires { (row column : ℕ) → row < 4 → column < 4 → F.pre byte row column }
    ensures { (row column : ℕ) → row < 4 → column < 4 → F.post byte row column (byte_at result row column) }
{
    let mut state = [0; 16];
    for (i, place) in state.iter_mut().enumerate() {
        *place = byte(i % 4, i / 4);
    }
    state
}

/// Returns a byte after InvMixColumns: `a` is the column's byte in the same row, `b`, `c`, `d` are those in the next
/// rows.
fn unmixed_byte(a: u8, b: u8, c: u8, d: u8) -> u8
    ensures { result ≡ unmixed_byte a b c d }
{
    multiply(a, 14) ^ multiply(b, 11) ^ (multiply(c, 13) ^ multiply(d, 9))
}

/// Applies InvMixColumns to a state (5.3.3).
pub fn inv_mix_columns(state: &State) -> State
    ensures { result ≡ inv_mix_columns state.now }
{
    state_of(|row, column| {
        unmixed_byte(
            byte_at(state, row, column),
            byte_at(state, (row + 1) % 4, column),
            byte_at(state, (row + 2) % 4, column),
            byte_at(state, (row + 3) % 4, column),
        )
    })
}
