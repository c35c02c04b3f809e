//! The keys of `crypt` lines.
ghost use Rattle.std.specs.Prelude.{◌≡◌, ◌==◌, IsTrue, is_some, find, Some, option_copied};
ghost use Rattle.std.specs.Option.{option_map};

use std::marker::Model;
use xts_sector::XtsKey;

/// The key of a line, with the index of the line in its device.
#[derive(Drop)]
pub struct LineKey {
    pub line: u32,
    pub key: XtsKey,
}

/// The keys of the `crypt` lines of a device, in order of the lines.
#[derive(Drop)]
pub struct DeviceKeys {
    list: Vec<LineKey>,
}

impl Model for DeviceKeys {
    ghost use Rattle.std.specs.Prelude.{List};
    ghost use Rattle.stack_config.specs.declared.keys.LineKey.{LineKey};

    ghost Value = { List LineKey };

    ghost view = { λ k. k.list.items };
}

impl DeviceKeys {
    /// Returns these keys, in order of their lines.
    pub fn new(list: Vec<LineKey>) -> DeviceKeys
        ensures { result ≡ list.items }
    {
        DeviceKeys { list }
    }

    fn find(&self, line: u32) -> Option<&LineKey>
        ensures { option_copied result ≡ find (λ k. k.line == line) self.now }
    {
        self.list.iter().find(|key| key.line == line)
    }

    /// Returns the key of a line.
    pub(crate) fn at(&self, line: u32) -> &XtsKey
        requires { IsTrue (is_some (find (λ k. k.line == line) self.now)) }
        ensures { option_map (λ k. k.key) (find (λ k. k.line == line) self.now) ≡ Some result.now }
    {
        match self.find(line) {
            Some(found) => &found.key,
            None => unreachable!(),
        }
    }
}
