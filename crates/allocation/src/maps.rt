//! Insertion into maps.
ghost use Rattle.std.specs.Prelude.{◌≡◌, Some, IfOk, IfErr, OnOk, OnErr};
ghost use Rattle.std.specs.HashMap.{get, IsUnchanged, Updates};
ghost use Rattle.allocation.specs.Asked.{WasRefused};

use crate::out_of_memory::{OutOfMemory, refused};
use std::collections::HashMap;
use std::hash::Hash;

/// Inserts a value under a key, and returns the previous value.
///
/// # Errors
///
/// `OutOfMemory` if the key is new and the allocation of room for it fails; the map keeps its entries.
pub fn insert<K: Eq + Hash + Drop, V: Drop>(
    map: &mut HashMap<K, V>,
    key: K,
    value: V,
) -> Result<Option<V>, OutOfMemory>
    ensures old { IfOk result (λ old. old ≡ get K.eq map.old key) }
    ensures updates { OnOk result (Updates K.eq map.old map.new key (Some value)) }
    ensures same { OnErr result (IsUnchanged map.old map.new) }
    ensures err { IfErr result (WasRefused 1) }
{
    match map.insert(key, value) {
        Ok(old) => Ok(old),
        Err(_) => Err(refused(1)),
    }
}
