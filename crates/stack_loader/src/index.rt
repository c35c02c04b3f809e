//! Leaves and devices by name.
ghost use Rattle.std.specs.Prelude.{◌≡◌, ◌<◌, ◌^◌, ℕ, List, length, position, IfOk, IfErr};
ghost use Rattle.std.specs.Str.{bytes_eq};
ghost use Rattle.std.specs.HashMap.{get_by};
ghost use Rattle.allocation.specs.Asked.{WasRefused};
ghost use Rattle.stack_rules.specs.Names.{path_of};
ghost use Rattle.stack_rules.specs.Records.{DeviceRecord};
ghost use Rattle.stack_loader.specs.Places.{IsPlaces};

use allocation::{OutOfMemory, insert};
use stack_rules::{DevId, Leaf, Lower, Planned};
use std::alloc::Global;
use std::collections::HashMap;

/// Returns the index of the first leaf with each name.
fn leaf_places<'a>(alloc: Global, leaves: &'a [Leaf]) -> Result<HashMap<&'a [u8], u32>, OutOfMemory>
    requires { length leaves.now < 2 ^ 32 }
    ensures ok { IfOk result (λ m. (q : List ℕ) → get_by (λ k. bytes_eq q k.now) m ≡ position (λ l. bytes_eq l.name q) leaves.now) }
    ensures err { IfErr result (WasRefused 1) }
{
    let mut places = HashMap::new(alloc);
    for i in (0..leaves.len()).rev() {
        insert(&mut places, leaves[i].name(), i as u32)?;
    }
    Ok(places)
}

/// Returns the index of the first device with each name.
fn device_places<'a>(
    alloc: Global,
    devices: &[Planned<'a>],
) -> Result<HashMap<&'a [u8], u32>, OutOfMemory>
    requires { length devices.now < 2 ^ 32 }
    ensures ok { IfOk result (λ m. (q : List ℕ) → get_by (λ k. bytes_eq q k.now) m ≡ position (λ d. bytes_eq d.name q) devices.now) }
    ensures err { IfErr result (WasRefused 1) }
{
    let mut places = HashMap::new(alloc);
    for i in (0..devices.len()).rev() {
        insert(&mut places, devices[i].name(), i as u32)?;
    }
    Ok(places)
}

fn place_in(places: &HashMap<&[u8], u32>, name: &[u8]) -> Option<u32>
    ensures { result ≡ get_by (λ k. bytes_eq name.now k.now) places.now }
{
    places.get(&name).copied()
}

/// Returns the index of the device with this path.
fn path_place(places: &HashMap<&[u8], u32>, path: &[u8]) -> Option<u32>
    ensures { (devices : List DeviceRecord) → IsPlaces devices places.now → result ≡ position (λ d. bytes_eq (path_of d.name) path.now) devices }
{
    let name = path.strip_prefix(b"/dev/mapper/")?;
    place_in(places, name)
}

/// The leaves and devices of a configuration by name.
#[derive(Drop)]
pub(crate) struct Index<'a> {
    leaves: HashMap<&'a [u8], u32>,
    devices: HashMap<&'a [u8], u32>,
}

impl<'a> Index<'a> {
    ghost use Rattle.std.specs.Prelude.{◌≡◌, ◌<◌, ◌^◌, length, IfOk, IfErr};
    ghost use Rattle.allocation.specs.Asked.{WasRefused};
    ghost use Rattle.stack_rules.specs.Names.{named};
    ghost use Rattle.stack_rules.specs.Records.{Configuration};
    ghost use Rattle.stack_loader.specs.Index.{IsIndex};

    pub(crate) fn new(
        alloc: Global,
        leaves: &'a [Leaf],
        devices: &[Planned<'a>],
    ) -> Result<Index<'a>, OutOfMemory>
        requires leaves { length leaves.now < 2 ^ 32 }
        requires devices { length devices.now < 2 ^ 32 }
        ensures ok { IfOk result (IsIndex (record { leaves = leaves.now; devices = devices.now })) }
        ensures err { IfErr result (WasRefused 1) }
    {
        Ok(Index {
            leaves: leaf_places(alloc, leaves)?,
            devices: device_places(alloc, devices)?,
        })
    }

    /// Returns the leaf or device that a name in a table refers to.
    pub(crate) fn named(&self, name: &[u8]) -> Option<Lower>
        ensures { (c : Configuration) → IsIndex c self.now → result ≡ named c name.now }
    {
        match place_in(&self.leaves, name) {
            Some(place) => Some(Lower::Leaf(place)),
            None => match path_place(&self.devices, name) {
                Some(place) => Some(Lower::Device(DevId(place))),
                None => None,
            },
        }
    }
}
