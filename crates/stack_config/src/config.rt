//! A loaded configuration.
ghost use Rattle.std.specs.Prelude.{◌≡◌, ◌<◌, length, Some, [], option_map, IsTrue, is_some};
ghost use Rattle.stack_rules.specs.Names.{device_named, name_of, lines_of, mapped, size, may_write};
ghost use Rattle.stack_rules.specs.Descend.{depth, read_cost, write_cost};
ghost use Rattle.stack_rules.specs.Lines.{IsIn, names_at, lower_at, key_of_line, zero_digest_at};
ghost use Rattle.stack_rules.specs.Rules.{AreLeaves, IsLoaded};

use crate::facts::{DeviceFacts, Facts};
use crate::sectors::line_of;
use dm_table::Table;
use stack_rules::{DevId, Leaf, Lower, Mapped, place_of};
use std::alloc::Global;
use std::marker::Model;
use std::mem;
use tree_shape::Digest;
use xts_sector::XtsKey;

/// Leaves, and the mapped devices that were loaded onto them.
#[derive(Drop)]
pub struct Config {
    alloc: Global,
    leaves: Vec<Leaf>,
    devices: Vec<Mapped>,
    facts: Facts,
}

impl Model for Config {
    ghost use Rattle.stack_rules.specs.Records.{Configuration};
    ghost use Rattle.stack_config.specs.Facts.{IsLoadedWith};

    ghost Value = { Configuration };

    ghost view = { λ c. record { leaves = c.leaves.items; devices = c.devices.items } };

    ghost invariant = { λ c. IsLoadedWith (record { leaves = c.leaves.items; devices = c.devices.items }) c.facts };
}

impl Config {
    ghost use Rattle.stack_config.specs.Facts.{IsLoadedWith, IsOfDevice};

    /// Returns a configuration of these leaves without mapped devices.
    pub fn new(alloc: Global, leaves: Vec<Leaf>) -> Config
        requires { AreLeaves leaves.items }
        ensures { result ≡ record { leaves = leaves.items; devices = [] } }
    {
        Config {
            alloc,
            leaves,
            devices: Vec::new(alloc),
            facts: Facts::none(alloc),
        }
    }

    /// Returns the allocator of the configuration.
    pub fn alloc(&self) -> Global {
        self.alloc
    }

    /// Returns the leaves, in order.
    pub fn leaves(&self) -> &[Leaf]
        ensures { result.now ≡ self.now.leaves }
    {
        self.leaves.as_slice()
    }

    /// Returns the mapped devices in order of creation.
    pub fn devices(&self) -> &[Mapped]
        ensures value { result.now ≡ self.now.devices }
        ensures loaded { IsLoaded self.now }
    {
        self.devices.as_slice()
    }

    /// Returns the values computed for the mapped devices.
    pub fn facts(&self) -> &Facts
        ensures { IsLoadedWith self.now result.now }
    {
        &self.facts
    }

    /// Removes and returns all mapped devices with the values computed for them.
    pub fn take(&mut self) -> (Vec<Mapped>, Facts)
        ensures devices { result.0.items ≡ self.old.devices }
        ensures facts { IsLoadedWith self.old result.1 }
        ensures left { self.new ≡ record self.old { devices = [] } }
    {
        let devices = mem::replace(&mut self.devices, Vec::new(self.alloc));
        let facts = mem::replace(&mut self.facts, Facts::none(self.alloc));
        (devices, facts)
    }

    /// Replaces the mapped devices and the values computed for them. All changes of a configuration use this
    /// function.
    pub fn put(&mut self, devices: Vec<Mapped>, facts: Facts)
        requires { IsLoadedWith (record self.old { devices = devices.items }) facts }
        ensures { self.new ≡ record self.old { devices = devices.items } }
    {
        self.devices = devices;
        self.facts = facts;
    }

    /// Returns the number of mapped devices.
    pub fn count(&self) -> usize
        ensures value { result ≡ length self.now.devices }
        ensures loaded { IsLoaded self.now }
    {
        self.devices.len()
    }

    /// Returns the mapped device with this name, without `/dev/mapper/`. Devices are numbered from 0 in order of
    /// creation.
    pub fn device(&self, name: &[u8]) -> Option<DevId>
        ensures { result ≡ option_map (λ d. record { 0 = d }) (device_named self.now name.now) }
    {
        let place = place_of(self.devices.as_slice(), name)?;
        Some(DevId(place as u32))
    }

    /// Returns the name of a mapped device, without `/dev/mapper/`.
    pub fn name(&self, d: DevId) -> &[u8]
        requires { d.0 < length self.now.devices }
        ensures { result.now ≡ name_of self.now d.0 }
    {
        self.devices[d.0 as usize].name()
    }

    /// Returns the size of a mapped device in sectors of 512 bytes.
    pub fn sectors(&self, d: DevId) -> u64
        requires { d.0 < length self.now.devices }
        ensures { result ≡ size self.now (mapped d.0) }
    {
        self.devices[d.0 as usize].size() as u64
    }

    /// Returns whether a mapped device is writable: the flag of the entry that it was last loaded from.
    pub fn writable(&self, d: DevId) -> bool
        requires { d.0 < length self.now.devices }
        ensures { result ≡ may_write self.now (mapped d.0) }
    {
        self.devices[d.0 as usize].writable()
    }

    fn device_facts(&self, d: DevId) -> &DeviceFacts
        requires { d.0 < length self.now.devices }
        ensures { IsOfDevice self.now d.0 result.now }
    {
        &self.facts.devices[d.0 as usize]
    }

    /// Returns the depth of a mapped device: one more than that of the deepest device that it names. A leaf has depth
    /// 0.
    pub fn depth(&self, d: DevId) -> u32
        requires { d.0 < length self.now.devices }
        ensures { result ≡ depth self.now (mapped d.0) }
    {
        self.device_facts(d).depth as u32
    }

    /// Returns the most leaf sectors that are read to read one sector.
    pub fn read_cost(&self, d: DevId) -> u64
        requires { d.0 < length self.now.devices }
        ensures { result ≡ read_cost self.now (mapped d.0) }
    {
        self.device_facts(d).read_cost
    }

    /// Returns the most leaf sectors that are read and written to write one sector.
    pub fn write_cost(&self, d: DevId) -> u64
        requires { d.0 < length self.now.devices }
        ensures { result ≡ write_cost self.now (mapped d.0) }
    {
        self.device_facts(d).write_cost
    }

    /// Returns the lines of a mapped device, in order of their sectors.
    pub fn table(&self, d: DevId) -> &Table
        requires { d.0 < length self.now.devices }
        ensures { result.now ≡ lines_of self.now d.0 }
    {
        self.devices[d.0 as usize].table()
    }

    /// Returns the index of the line that a sector is in, and the number of sectors from it to the end of the line.
    /// Sectors and lines of a device are numbered from 0.
    pub fn line_at(&self, d: DevId, sector: u64) -> (u32, u64)
        requires device { d.0 < length self.now.devices }
        requires sector { sector < size self.now (mapped d.0) }
        ensures { IsIn (lines_of self.now d.0) sector result.0 result.1 }
    {
        line_of(self.devices[d.0 as usize].table(), sector)
    }

    /// Returns the leaf or device that name `i` of a line refers to. Lines of a device and names of a line are
    /// numbered from 0.
    pub fn lower(&self, d: DevId, line: u32, i: u32) -> Lower
        requires device { d.0 < length self.now.devices }
        requires name { i < length (names_at self.now d.0 line) }
        ensures { lower_at self.now d.0 line i ≡ Some result }
    {
        self.device_facts(d).lowers.at(line as usize, i as usize)
    }

    /// Returns the key of a `crypt` line, which was expanded when the table was loaded. Lines of a device are
    /// numbered from 0.
    pub fn key(&self, d: DevId, line: u32) -> &XtsKey
        requires device { d.0 < length self.now.devices }
        requires crypt { IsTrue (is_some (key_of_line self.now d.0 line)) }
        ensures { key_of_line self.now d.0 line ≡ Some result.now }
    {
        self.device_facts(d).keys.at(line)
    }

    /// Returns the digest of a data block of zeros with the salt of a line, which was computed when the table was
    /// loaded, or `None` unless it is a `verity` line with `ignore_zero_blocks`. Lines of a device are numbered from
    /// 0.
    pub fn zero_digest(&self, d: DevId, line: u32) -> Option<Digest>
        requires { d.0 < length self.now.devices }
        ensures { result ≡ zero_digest_at self.now d.0 line }
    {
        self.device_facts(d).zero_digests.at(line)
    }
}
