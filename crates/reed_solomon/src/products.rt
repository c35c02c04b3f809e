//! Multiplication of every byte by one factor, as a table.

ghost use Rattle.std.specs.Prelude.{◌≡◌, length, slice_index};
ghost use Rattle.reed_solomon.specs.Field.{field_product};
ghost use Rattle.reed_solomon.specs.Products.{AreAdded};

use crate::field::multiply;
use std::marker::Model;

/// The multiplication table of a factor. Contracts treat it as the factor.
#[derive(Drop)]
pub struct Products {
    of: [u8; 256],
}

impl Model for Products {
    ghost use Rattle.std.specs.Prelude.{ℕ};

    ghost Value = { ℕ };

    ghost use Rattle.reed_solomon.specs.Products.{factor_of, HoldsProducts};

    ghost view = { factor_of };

    ghost invariant = { HoldsProducts };
}

impl Products {
    /// Returns the multiplication table of `factor`.
    pub fn by(factor: u8) -> Products
        ensures { result ≡ factor }
    {
        let mut of = [0; 256];
        for byte in 0..256_usize {
            of[byte] = multiply(factor, byte as u8);
        }
        Products { of }
    }

    /// Returns the product of the factor and a byte.
    pub fn times(&self, byte: u8) -> u8
        ensures { result ≡ field_product self.now byte }
    {
        self.of[byte as usize]
    }

    /// Adds to each byte of `sum` the product of the factor and the byte of `bytes` at the same index.
    pub fn add_to(&self, sum: &mut [u8], bytes: &[u8])
        requires { length bytes.now ≡ length sum.old }
        ensures { AreAdded (λ k. field_product self.now (slice_index bytes.now k)) sum.old sum.new }
    {
        for k in 0..sum.len() {
            sum[k] ^= self.of[bytes[k] as usize];
        }
    }
}
