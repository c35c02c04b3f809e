//! The fields of headers.
ghost use Rattle.std.specs.Prelude.{◌≡◌, ◌+◌, ◌≤◌, ◌^◌, length};
ghost use Rattle.find_commands.specs.Fields.{big_endian32, big_endian64, block_bytes, identifier, blocks_product};

// The largest size of a block that a header may state, 2 to this power.
const MOST_EXPONENT: u32 = 16;

/// Returns the big-endian number in the 4 bytes from `at` on.
pub(crate) fn big_endian32(bytes: &[u8], at: usize) -> u32
    requires { at + 4 ≤ length bytes.now }
    ensures { result ≡ big_endian32 bytes.now at }
{
    let mut number = [0; 4];
    number.copy_from_slice(&bytes[at..at + 4]);
    u32::from_be_bytes(number)
}

/// Returns the big-endian number in the 8 bytes from `at` on.
pub(crate) fn big_endian64(bytes: &[u8], at: usize) -> u64
    requires { at + 8 ≤ length bytes.now }
    ensures { result ≡ big_endian64 bytes.now at }
{
    let mut number = [0; 8];
    number.copy_from_slice(&bytes[at..at + 8]);
    u64::from_be_bytes(number)
}

/// Returns the identifier in the 16 bytes from `at` on.
pub(crate) fn identifier(bytes: &[u8], at: usize) -> [u8; 16]
    requires { at + 16 ≤ length bytes.now }
    ensures { result ≡ identifier bytes.now at }
{
    let mut uuid = [0; 16];
    uuid.copy_from_slice(&bytes[at..at + 16]);
    uuid
}

/// Returns 2 to that power, or 0 if that is more than 65,536.
pub(crate) fn block_bytes(exponent: u32) -> u64
    ensures { result ≡ block_bytes exponent }
{
    if exponent > MOST_EXPONENT {
        0
    } else {
        power(exponent)
    }
}

fn power(exponent: u32) -> u64
    requires { exponent ≤ 16 }
    ensures { result ≡ 2 ^ exponent }
{
    2_u64.pow(exponent)
}

/// Returns the size of so many blocks, or `None` if it doesn't fit in 64 bits.
pub(crate) fn blocks_product(blocks: u64, each: u64) -> Option<u64>
    ensures { result ≡ blocks_product blocks each }
{
    blocks.checked_mul(each)
}
