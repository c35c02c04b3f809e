//! Recovery of bytes erased at the same positions of many codewords, one position at a time.

ghost use Rattle.std.specs.Prelude.{◌≡◌, ◌<◌, ◌≤◌, ◌*◌, length, slice_index, EachIndex, IfOk, OnErr};
ghost use Rattle.allocation.specs.Refusal.{IsOutOfMemory};
ghost use Rattle.reed_solomon.specs.Factors.{AreProducts, AreRows, parity_places};
ghost use Rattle.reed_solomon.specs.Products.{AreAdded, product_at};

use crate::products::Products;
use crate::restoring::factors;
use allocation::{OutOfMemory, append, push};
use std::alloc::Global;

/// Returns the multiplication tables that recover the erased bytes of codewords. With n erasures, the table of
/// position i for erasure k is at index i * n + k. The positions in `lost` are below 255.
///
/// # Errors
///
/// `OutOfMemory` if an allocation fails.
pub fn restoring_products(alloc: Global, lost: &[usize]) -> Result<Vec<Products>, OutOfMemory>
    requires in_word { EachIndex lost.now (λ k. slice_index lost.now k < 255) }
    requires few { length lost.now ≤ 255 }
    ensures ok { IfOk result (λ v. AreProducts lost.now v.items) }
    ensures err { OnErr result (IsOutOfMemory 255) }
{
    let rows = factor_rows(alloc, lost)?;
    let mut products = Vec::new(alloc);
    for at in 0..255 * lost.len() {
        let row = at % lost.len();
        let factor = rows[row * 255 + at / lost.len()];
        push(&mut products, Products::by(factor))?;
    }
    Ok(products)
}

// Returns the factors of all positions for each erasure: consecutive rows of 255 bytes.
fn factor_rows(alloc: Global, lost: &[usize]) -> Result<Vec<u8>, OutOfMemory>
    requires { EachIndex lost.now (λ k. slice_index lost.now k < 255) }
    ensures ok { IfOk result (λ v. AreRows lost.now v.items (length lost.now)) }
    ensures err { OnErr result (IsOutOfMemory 255) }
{
    let mut rows = Vec::new(alloc);
    for place in lost {
        append(&mut rows, &factors(lost, *place))?;
    }
    Ok(rows)
}

/// Returns the tables of `restoring_products` for erasures at the last `parity` positions: the parity bytes of a
/// codeword.
///
/// # Errors
///
/// `OutOfMemory` if an allocation fails.
pub fn parity_products(alloc: Global, parity: usize) -> Result<Vec<Products>, OutOfMemory>
    requires { parity ≤ 24 }
    ensures ok { IfOk result (λ v. AreProducts (parity_places parity) v.items) }
    ensures err { OnErr result (IsOutOfMemory 255) }
{
    let mut places = Vec::new(alloc);
    for place in 255 - parity..255_usize {
        push(&mut places, place)?;
    }
    restoring_products(alloc, &places)
}

/// Adds the products of one byte of each codeword to its sums: with n products, those of `bytes[c]` are added to the
/// n sums from index c * n on.
pub fn add_products(products: &[Products], bytes: &[u8], sums: &mut [u8])
    requires { length sums.old ≡ length bytes.now * length products.now }
    ensures { AreAdded (product_at products.now bytes.now) sums.old sums.new }
{
    let count = products.len();
    for c in 0..bytes.len() {
        let byte = bytes[c];
        let at = c * count;
        for k in 0..count {
            sums[at + k] ^= products[k].times(byte);
        }
    }
}
