//! The devices of a stack text.
ghost use Rattle.std.specs.Prelude.{◌≡◌, length};
ghost use Rattle.dm_table.specs.Reading.{IsAnswer};
ghost use Rattle.dm_table.specs.StackText.{IsStackOfGrammar, single_of};

use crate::fault::{ParseFault, TextFault, TextKind};
use crate::name::is_mapped_name;
use crate::table::{Name, Table};
use allocation::{push, with_capacity};
use std::alloc::Global;
use std::marker::Model;

/// A device of a stack.
#[derive(Drop)]
pub struct Entry {
    pub number: u32,
    /// The name of the mapped device. Another entry may have the same name.
    pub name: Name,
    /// Whether the flags are `rw`; otherwise they are `ro`.
    pub writable: bool,
    pub table: Table,
}

/// The devices of a stack text in the order written. Their numbers increase.
#[derive(Drop)]
pub struct StackText {
    entries: Vec<Entry>,
}

impl Model for StackText {
    ghost use Rattle.std.specs.Prelude.{List};
    ghost use Rattle.dm_table.specs.declared.stack.Entry.{Entry};
    ghost use Rattle.dm_table.specs.StackText.{IsStackOfGrammar};

    ghost Value = { List Entry };

    ghost view = { λ t. t.entries.items };

    ghost invariant = { λ t. IsStackOfGrammar t.entries.items };
}

impl StackText {
    /// Returns a stack of these devices.
    pub fn new(entries: Vec<Entry>) -> StackText
        requires { IsStackOfGrammar entries.items }
        ensures { result ≡ entries.items }
    {
        StackText { entries }
    }

    /// Returns a stack of a single device with this name and table, as entry 1.
    ///
    /// # Errors
    ///
    /// - `Text` with the fault `Name` of entry 1, line 0, if `name` isn't the name of a mapped device.
    /// - `NoMemory` if an allocation of at most `most_name` (255) elements fails.
    ///
    /// Either error drops the table.
    pub fn single(
        alloc: Global,
        name: &[u8],
        writable: bool,
        table: Table,
    ) -> Result<StackText, ParseFault>
        ensures { IsAnswer result (single_of name.now writable table) }
    {
        if !is_mapped_name(name) {
            return Err(ParseFault::Text(TextFault {
                entry: 1,
                line: 0,
                kind: TextKind::Name,
            }));
        }
        let name = Name::new(alloc, name)?;
        let mut entries = with_capacity(alloc, 1)?;
        push(
            &mut entries,
            Entry {
                number: 1,
                name,
                writable,
                table,
            },
        )?;
        Ok(StackText { entries })
    }

    /// Returns the number of devices.
    pub fn entries(&self) -> usize
        ensures { result ≡ length self.now }
    {
        self.entries.len()
    }

    /// Returns the devices in the order written.
    pub fn as_slice(&self) -> &[Entry]
        ensures value { result.now ≡ self.now }
        ensures grammar { IsStackOfGrammar self.now }
    {
        self.entries.as_slice()
    }
}
