//! The field of 256 elements (FIPS 197, section 4).

ghost use Rattle.std.specs.Prelude.{◌≡◌};
ghost use Rattle.aes_block.specs.Field.{xtimes, product, power_of_x};

/// Returns the product of `a` by x, modulo x^8 + x^4 + x^3 + x + 1 (4.2).
pub fn xtimes(a: u8) -> u8
    ensures { result ≡ xtimes a }
{
    (a << 1) ^ (a >> 7) * 0x1b
}

/// Returns the product of two bytes (4.2): the sum of `a` times each power of x in `b`.
pub fn multiply(a: u8, b: u8) -> u8
    ensures { result ≡ product a b }
{
    let mut sum = 0;
    let mut shifted = a;
    let mut rest = b;
    for _bit in 0..8_u32 {
        if rest & 1 == 1 {
            sum ^= shifted;
        }
        shifted = xtimes(shifted);
        rest >>= 1;
    }
    sum
}

/// Returns x to the power `exponent`.
pub fn power_of_x(exponent: usize) -> u8
    ensures { result ≡ power_of_x exponent }
{
    let mut power = 1;
    for _step in 0..exponent {
        power = xtimes(power);
    }
    power
}
