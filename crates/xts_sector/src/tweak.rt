//! The tweaks of a data unit (IEEE 1619-2007, 5.1 and 5.2).

ghost use Rattle.std.specs.Prelude.{◌≡◌};
ghost use Rattle.xts_sector.specs.Tweak.{unit_number, number_block, times_alpha};

/// A block of the cipher.
pub type Block = [u8; 16];

/// Returns the number of a data unit as 16 bytes in little-endian order (5.1).
pub fn unit_number(unit: u64) -> Block
    ensures { result ≡ unit_number unit }
{
    let mut number = [0; 16];
    number[..8].copy_from_slice(&unit.to_le_bytes());
    number
}

/// Returns the product of a block by α, the polynomial x (5.2). The block is a little-endian number.
#[inline(always)]
pub fn times_alpha(a: u128) -> u128
    ensures { number_block result ≡ times_alpha (number_block a) }
{
    (a << 1) ^ (a >> 127) * 0x87
}
