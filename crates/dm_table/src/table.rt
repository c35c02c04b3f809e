//! The table of a device.
ghost use Rattle.std.specs.Prelude.{◌≡◌, ◌≤◌, ◌+◌, List, ℕ, ◌∷◌, [], ◌++◌, length, IfOk, IfErr, OnOk, OnErr};
ghost use Rattle.allocation.specs.Asked.{WasRefused, asked};
ghost use Rattle.dm_table.specs.Grammar.{IsBaseOfGrammar, AreBasesOfGrammar, IsTargetOfGrammar, IsLineOfGrammar, IsTableOfGrammar};
ghost use Rattle.dm_table.specs.Names.{most_name};

use crate::crypt::Crypt;
use crate::unstriped::Unstriped;
use crate::verity::Verity;
use allocation::{OutOfMemory, copied, push, with_capacity};
use std::alloc::Global;
use std::marker::Model;

/// A name as written. A mapped name has 1 to 127 bytes. A device argument is `/dev/mapper/` followed by a mapped
/// name, or a leaf name of 1 to 255 bytes.
#[derive(Drop)]
pub struct Name {
    bytes: Vec<u8>,
}

impl Model for Name {
    ghost use Rattle.std.specs.Prelude.{List, ℕ};

    ghost Value = { List ℕ };

    ghost view = { λ n. n.bytes.items };
}

impl Name {
    /// Returns a name with these bytes. They aren't checked.
    ///
    /// # Errors
    ///
    /// `OutOfMemory` if the allocation of room for the bytes fails.
    pub fn new(alloc: Global, bytes: &[u8]) -> Result<Name, OutOfMemory>
        ensures ok { IfOk result (λ name. name ≡ bytes.now) }
        ensures err { IfErr result (WasRefused (length bytes.now)) }
    {
        let bytes = copied(alloc, bytes)?;
        Ok(Name { bytes })
    }

    /// Returns the bytes of the name as written.
    pub fn as_slice(&self) -> &[u8]
        ensures { result.now ≡ self.now }
    {
        self.bytes.as_slice()
    }
}

/// The device that a range is mapped to, by its name as written, and the sector of that device at which the range
/// begins.
#[derive(Drop)]
pub struct Base {
    /// A device argument.
    pub device: Name,
    /// The first sector, in sectors of 512 bytes.
    pub offset: u64,
}

impl Base {
    pub(crate) fn try_clone(&self, alloc: Global) -> Result<Base, OutOfMemory>
        requires { IsBaseOfGrammar self.now }
        ensures ok { IfOk result (λ base. base ≡ self.now) }
        ensures err { IfErr result (λ e. asked e ≤ most_name) }
    {
        let device = Name::new(alloc, self.device.as_slice())?;
        Ok(Base {
            device,
            offset: self.offset,
        })
    }
}

/// The devices of a striped line, 1 to 16.
#[derive(Drop)]
pub struct Bases {
    list: Vec<Base>,
}

impl Model for Bases {
    ghost use Rattle.std.specs.Prelude.{List};
    ghost use Rattle.dm_table.specs.declared.table.Base.{Base};

    ghost Value = { List Base };

    ghost view = { λ s. s.list.items };
}

impl Bases {
    /// Returns an empty list with room for `count` devices.
    ///
    /// # Errors
    ///
    /// `OutOfMemory` if the allocation of room for `count` devices fails.
    pub fn with_capacity(alloc: Global, count: usize) -> Result<Bases, OutOfMemory>
        ensures ok { IfOk result (λ bases. bases ≡ []) }
        ensures err { IfErr result (WasRefused count) }
    {
        let list = with_capacity(alloc, count)?;
        Ok(Bases { list })
    }

    /// Appends a device.
    ///
    /// # Errors
    ///
    /// `OutOfMemory` if the allocation of room for one device fails; the devices are unchanged.
    pub fn push(&mut self, base: Base) -> Result<(), OutOfMemory>
        ensures ok { OnOk result (self.new ≡ self.old ++ base ∷ []) }
        ensures same { OnErr result (self.new ≡ self.old) }
        ensures err { IfErr result (WasRefused 1) }
    {
        push(&mut self.list, base)
    }

    /// Returns the devices in the order written.
    pub fn as_slice(&self) -> &[Base]
        ensures { result.now ≡ self.now }
    {
        self.list.as_slice()
    }

    pub(crate) fn try_clone(&self, alloc: Global) -> Result<Bases, OutOfMemory>
        requires { AreBasesOfGrammar self.now }
        ensures ok { IfOk result (λ bases. bases ≡ self.now) }
        ensures err { IfErr result (λ e. asked e ≤ most_name) }
    {
        let mut bases = Bases::with_capacity(alloc, self.list.len())?;
        for base in self.as_slice() {
            bases.push(base.try_clone(alloc)?)?;
        }
        Ok(bases)
    }
}

/// The target of a line.
#[derive(Drop)]
pub enum Target {
    /// `linear`: sectors of one device, from an offset on.
    Linear(Base),
    /// `striped`: chunks of `chunk` sectors, at least 1, on the devices in turn.
    Striped { chunk: u64, bases: Bases },
    /// `zero`: reads return zeros, writes are discarded.
    Zero,
    /// `error`: all reads and writes fail.
    Error,
    /// `crypt`: encrypted sectors of one device, from an offset on.
    Crypt(Crypt),
    /// `verity`: blocks of one device, verified with a hash tree on another.
    Verity(Verity),
    /// `unstriped`: one stripe of a striped device.
    Unstriped(Unstriped),
}

impl Target {
    pub(crate) fn try_clone(&self, alloc: Global) -> Result<Target, OutOfMemory>
        requires { IsTargetOfGrammar self.now }
        ensures ok { IfOk result (λ target. target ≡ self.now) }
        ensures err { IfErr result (λ e. asked e ≤ most_name) }
    {
        Ok(match self {
            Target::Linear(base) => Target::Linear(base.try_clone(alloc)?),
            Target::Striped { chunk, bases } => Target::Striped {
                chunk: *chunk,
                bases: bases.try_clone(alloc)?,
            },
            Target::Zero => Target::Zero,
            Target::Error => Target::Error,
            Target::Crypt(crypt) => Target::Crypt(crypt.try_clone(alloc)?),
            Target::Verity(verity) => Target::Verity(verity.try_clone(alloc)?),
            Target::Unstriped(unstriped) => Target::Unstriped(unstriped.try_clone(alloc)?),
        })
    }
}

/// A line of a table: `length` sectors of 512 bytes from `start` on. They aren't checked against other lines or a
/// device, and a length of 0 is accepted.
#[derive(Drop)]
pub struct Line {
    pub start: u64,
    pub length: u64,
    pub target: Target,
}

impl Line {
    pub(crate) fn try_clone(&self, alloc: Global) -> Result<Line, OutOfMemory>
        requires { IsLineOfGrammar self.now }
        ensures ok { IfOk result (λ line. line ≡ self.now) }
        ensures err { IfErr result (λ e. asked e ≤ most_name) }
    {
        let target = self.target.try_clone(alloc)?;
        Ok(Line {
            start: self.start,
            length: self.length,
            target,
        })
    }
}

/// The lines of a device, at least one.
#[derive(Drop)]
pub struct Table {
    lines: Vec<Line>,
}

impl Model for Table {
    ghost use Rattle.std.specs.Prelude.{List};
    ghost use Rattle.dm_table.specs.declared.table.Line.{Line};
    ghost use Rattle.dm_table.specs.Grammar.{IsTableOfGrammar};

    ghost Value = { List Line };

    ghost view = { λ t. t.lines.items };

    ghost invariant = { λ t. IsTableOfGrammar t.lines.items };
}

impl Table {
    /// Returns a table of these lines.
    pub fn new(lines: Vec<Line>) -> Table
        requires { IsTableOfGrammar lines.items }
        ensures { result ≡ lines.items }
    {
        Table { lines }
    }

    /// Returns the lines in the order written.
    pub fn lines(&self) -> &[Line]
        ensures value { result.now ≡ self.now }
        ensures grammar { IsTableOfGrammar self.now }
    {
        self.lines.as_slice()
    }

    /// Returns a copy of the table.
    ///
    /// # Errors
    ///
    /// `OutOfMemory` if an allocation fails, of room for the lines or for one name.
    pub fn try_clone(&self, alloc: Global) -> Result<Table, OutOfMemory>
        ensures ok { IfOk result (λ table. table ≡ self.now) }
        ensures err { IfErr result (λ e. asked e ≤ length self.now + most_name) }
    {
        let mut lines = with_capacity(alloc, self.lines.len())?;
        for line in self.lines() {
            push(&mut lines, line.try_clone(alloc)?)?;
        }
        Ok(Table { lines })
    }
}
