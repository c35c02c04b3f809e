//! Vectors.
ghost use Rattle.std.specs.Prelude.{◌≡◌, ◌≤◌, ◌<◌, ◌+◌, ◌-◌, ◌++◌, ◌∷◌, [], length, take, replicate, IfOk, IsOk, OnOk, OnErr, IfErr, vec_capacity, vec_len};
ghost use Rattle.allocation.specs.Asked.{WasRefused};

use crate::out_of_memory::{OutOfMemory, refused};
use std::alloc::Global;

/// Returns an empty vector with room for `capacity` elements.
///
/// # Errors
///
/// `OutOfMemory` if the allocation fails.
pub fn with_capacity<T>(alloc: Global, capacity: usize) -> Result<Vec<T>, OutOfMemory>
    ensures ok { IfOk result (λ v. (v.items ≡ []) × (capacity ≤ vec_capacity v)) }
    ensures err { IfErr result (WasRefused capacity) }
    ensures sure { capacity ≡ 0 → IsOk result }
{
    match Vec::with_capacity(alloc, capacity) {
        Ok(v) => Ok(v),
        Err(_) => Err(refused(capacity)),
    }
}

/// Appends an element.
///
/// # Errors
///
/// `OutOfMemory` if the vector is full and the allocation of room for one more element fails; the vector keeps its
/// elements.
pub fn push<T: Drop>(v: &mut Vec<T>, x: T) -> Result<(), OutOfMemory>
    ensures ok { OnOk result (v.new.items ≡ v.old.items ++ x ∷ []) }
    ensures same { OnErr result (v.new.items ≡ v.old.items) }
    ensures err { IfErr result (WasRefused 1) }
    ensures sure { vec_len v.old < vec_capacity v.old → IsOk result }
{
    match v.push(x) {
        Ok(()) => Ok(()),
        Err(_) => Err(refused(1)),
    }
}

/// Reserves room for `more` elements.
///
/// # Errors
///
/// `OutOfMemory` if they don't fit and the allocation of room for them fails.
pub fn reserve<T>(v: &mut Vec<T>, more: usize) -> Result<(), OutOfMemory>
    ensures same { v.new.items ≡ v.old.items }
    ensures ok { OnOk result (vec_len v.new + more ≤ vec_capacity v.new) }
    ensures err { IfErr result (WasRefused more) }
    ensures sure { vec_len v.old + more ≤ vec_capacity v.old → IsOk result }
{
    match v.reserve(more) {
        Ok(()) => Ok(()),
        Err(_) => Err(refused(more)),
    }
}

/// Appends copies of the elements.
///
/// # Errors
///
/// `OutOfMemory` if they don't fit and the allocation of room for them fails; the vector keeps its elements.
pub fn append<T: Copy>(v: &mut Vec<T>, items: &[T]) -> Result<(), OutOfMemory>
    ensures ok { OnOk result (v.new.items ≡ v.old.items ++ items.now) }
    ensures same { OnErr result (v.new.items ≡ v.old.items) }
    ensures err { IfErr result (WasRefused (length items.now)) }
    ensures sure { vec_len v.old + length items.now ≤ vec_capacity v.old → IsOk result }
{
    match v.extend_from_slice(items) {
        Ok(()) => Ok(()),
        Err(_) => Err(refused(items.len())),
    }
}

/// Truncates a vector to `count` elements, or extends it to `count` elements with copies of `value`.
///
/// # Errors
///
/// `OutOfMemory` if they don't fit and the allocation of room for them fails; the vector keeps its elements.
pub fn resize<T: Copy>(v: &mut Vec<T>, count: usize, value: T) -> Result<(), OutOfMemory>
    ensures ok { OnOk result (v.new.items ≡ take count v.old.items ++ replicate (count - vec_len v.old) value) }
    ensures same { OnErr result (v.new.items ≡ v.old.items) }
    ensures err { IfErr result (WasRefused count) }
    ensures sure { count ≤ vec_capacity v.old → IsOk result }
{
    match v.resize(count, value) {
        Ok(()) => Ok(()),
        Err(_) => Err(refused(count)),
    }
}

/// Returns a vector with copies of the elements.
///
/// # Errors
///
/// `OutOfMemory` if the allocation fails.
pub fn copied<T: Copy>(alloc: Global, items: &[T]) -> Result<Vec<T>, OutOfMemory>
    ensures ok { IfOk result (λ v. v.items ≡ items.now) }
    ensures err { IfErr result (WasRefused (length items.now)) }
{
    match Vec::from_slice(alloc, items) {
        Ok(v) => Ok(v),
        Err(_) => Err(refused(items.len())),
    }
}

/// Returns a vector of `count` copies of `value`.
///
/// # Errors
///
/// `OutOfMemory` if the allocation fails.
pub fn filled<T: Copy + Drop>(alloc: Global, count: usize, value: T) -> Result<Vec<T>, OutOfMemory>
    ensures ok { IfOk result (λ v. v.items ≡ replicate count value) }
    ensures err { IfErr result (WasRefused count) }
{
    let mut v = with_capacity(alloc, count)?;
    resize(&mut v, count, value)?;
    Ok(v)
}

/// Returns `count` zero bytes.
///
/// # Errors
///
/// `OutOfMemory` if the allocation fails.
pub fn zeros(alloc: Global, count: usize) -> Result<Vec<u8>, OutOfMemory>
    ensures ok { IfOk result (λ v. v.items ≡ replicate count 0) }
    ensures err { IfErr result (WasRefused count) }
{
    match vec![in alloc; 0u8; count] {
        Ok(v) => Ok(v),
        Err(_) => Err(refused(count)),
    }
}
