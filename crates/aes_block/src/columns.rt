//! States as four words, one for each column.

ghost use Rattle.std.specs.Prelude.{◌≡◌, ℕ, ◌+◌, ◌-◌, ◌*◌, ◌%◌, ◌<◌, ◌≤◌, length, slice_index};
ghost use Rattle.aes_block.specs.Columns.{row_of, state_of_columns};
ghost use Rattle.aes_block.specs.Rounds.{add_round_key};
ghost use Rattle.aes_block.specs.KeyExpansion.{round_key};

use crate::state::State;

/// The columns of a state, with row r in bits 8r to 8r + 7.
pub type Columns = [u32; 4];

/// Returns the column stored in the four bytes from byte `i` on.
#[inline(always)]
fn column_at(bytes: &[u8], i: usize) -> u32
    requires { i + 4 ≤ length bytes.now }
    ensures { (row : ℕ) → row < 4 → row_of result row ≡ slice_index bytes.now (i + row) }
{
    u32::from_le_bytes([bytes[i], bytes[i + 1], bytes[i + 2], bytes[i + 3]])
}

/// Returns a round key of a key schedule as columns.
#[inline(always)]
pub fn round_key(schedule: &[u8], round: usize) -> Columns
    requires { 16 * round + 16 ≤ length schedule.now }
    ensures { state_of_columns result ≡ round_key schedule.now round }
{
    let start = 16 * round;
    [
        column_at(schedule, start),
        column_at(schedule, start + 4),
        column_at(schedule, start + 8),
        column_at(schedule, start + 12),
    ]
}

/// Returns the columns of a block.
#[inline(always)]
pub fn columns_of(block: &State) -> Columns
    ensures { state_of_columns result ≡ block.now }
{
    round_key(block, 0)
}

/// Returns the block with these columns.
#[inline(always)]
pub fn block_of(columns: Columns) -> State
    ensures { result ≡ state_of_columns columns }
{
    let a = columns[0].to_le_bytes();
    let b = columns[1].to_le_bytes();
    let c = columns[2].to_le_bytes();
    let d = columns[3].to_le_bytes();
    [
        a[0], a[1], a[2], a[3], b[0], b[1], b[2], b[3], c[0], c[1], c[2], c[3], d[0], d[1], d[2],
        d[3],
    ]
}

/// Returns the byte that ShiftRows moves to this row and column: the one `row` columns to the right.
#[inline(always)]
pub fn shifted_byte(state: &Columns, row: usize, column: usize) -> usize
    requires row { row < 4 }
    requires column { column < 4 }
    ensures { result ≡ row_of (slice_index state.now ((column + row) % 4)) row }
{
    ((state[(column + row) % 4] >> (8 * row)) & 255) as usize
}

/// Returns the byte that InvShiftRows moves to this row and column: the one `row` columns to the left.
#[inline(always)]
pub fn unshifted_byte(state: &Columns, row: usize, column: usize) -> usize
    requires row { row < 4 }
    requires column { column < 4 }
    ensures { result ≡ row_of (slice_index state.now ((column + 4 - row) % 4)) row }
{
    ((state[(column + 4 - row) % 4] >> (8 * row)) & 255) as usize
}

/// Adds a round key: AddRoundKey (5.1.4).
#[inline(always)]
pub fn add_round_key(state: Columns, key: Columns) -> Columns
    ensures { state_of_columns result ≡ add_round_key (state_of_columns state) (state_of_columns key) }
{
    [
        state[0] ^ key[0],
        state[1] ^ key[1],
        state[2] ^ key[2],
        state[3] ^ key[3],
    ]
}
