//! The leaves and devices that the names in a table refer to, looked up once when it is loaded.
ghost use Rattle.std.specs.Prelude.{◌≡◌, ◌<◌, length, map, slice_get, get_or, []};
ghost use Rattle.std.specs.List.{list_any};
ghost use Rattle.stack_rules.specs.Cycles.{is_mapped};
ghost use Rattle.stack_rules.specs.Removal.{lower_after};

use crate::lower::Lower;
use std::marker::Model;

/// The leaves and devices that the names in one line refer to, from left to right.
#[derive(Drop)]
pub struct LineLowers {
    list: Vec<Lower>,
}

impl Model for LineLowers {
    ghost use Rattle.std.specs.Prelude.{List};
    ghost use Rattle.stack_rules.specs.declared.lower.Lower.{Lower};

    ghost Value = { List Lower };

    ghost view = { λ l. l.list.items };
}

impl LineLowers {
    /// Returns the leaves and devices of a line, in the order of its names.
    pub fn new(list: Vec<Lower>) -> LineLowers
        ensures { result ≡ list.items }
    {
        LineLowers { list }
    }

    /// Returns the leaves and devices in the order of the names.
    pub fn as_slice(&self) -> &[Lower]
        ensures { result.now ≡ self.now }
    {
        self.list.as_slice()
    }

    fn names(&self, d: usize) -> bool
        ensures { result ≡ list_any (is_mapped d) self.now }
    {
        self.list.iter().any(|lower| lower.is_mapped(d))
    }

    /// Adjusts the indices for the removal of device `d`.
    fn remove(&mut self, d: usize)
        ensures { self.new ≡ map (lower_after d) self.old }
    {
        for lower in self.list.as_mut_slice() {
            *lower = lower.after_removal(d);
        }
    }
}

/// The leaves and devices that each line of one device names.
#[derive(Drop)]
pub struct DeviceLowers {
    lines: Vec<LineLowers>,
}

impl Model for DeviceLowers {
    ghost use Rattle.std.specs.Prelude.{List};
    ghost use Rattle.stack_rules.specs.declared.lower.Lower.{Lower};

    ghost Value = { List (List Lower) };

    ghost view = { λ d. d.lines.items };
}

impl DeviceLowers {
    /// Returns the leaves and devices of a device's lines, in order.
    pub fn new(lines: Vec<LineLowers>) -> DeviceLowers
        ensures { result ≡ lines.items }
    {
        DeviceLowers { lines }
    }

    /// Returns the leaves and devices of each line, in order.
    pub fn lines(&self) -> &[LineLowers]
        ensures { result.now ≡ self.now }
    {
        self.lines.as_slice()
    }

    /// Returns the leaf or device that name `i` of a line refers to. Lines and names are numbered from 0.
    pub fn at(&self, line: usize, i: usize) -> Lower
        requires line { line < length self.now }
        requires name { i < length (get_or self.now line []) }
        ensures { slice_get (get_or self.now line []) i ≡ Some result }
    {
        let lowers = &self.lines[line];
        lowers.list[i]
    }

    /// Returns whether a line names device `d`.
    pub fn names(&self, d: usize) -> bool
        ensures { result ≡ list_any (list_any (is_mapped d)) self.now }
    {
        self.lines.iter().any(|line| line.names(d))
    }

    /// Adjusts the indices for the removal of device `d`.
    pub fn remove(&mut self, d: usize)
        ensures { self.new ≡ map (map (lower_after d)) self.old }
    {
        for line in self.lines.as_mut_slice() {
            line.remove(d);
        }
    }
}
