//! The faults of the requests of a session.
ghost use Rattle.std.specs.Prelude.{◌≡◌, ◌<◌, ◌++◌, ◌∷◌, [], length};
ghost use Rattle.nbd_server.specs.FaultLog.{remembered};
ghost use Rattle.nbd_server.specs.Logs.{has_place, is_same_block, is_same_place, is_same_sector, met_name};

use crate::data_block::DataBlock;
use stack_meaning::{Fault, IoFault};
use std::marker::Model;

// The most faults that are kept.
const MOST: usize = 60;

/// The fault of a request, and the sector that can't be read, or the first sector of the piece that failed. A fault of a sync has no
/// sector.
#[derive(Clone, Copy, Debug, PartialEq, Eq)]
pub struct SectorFault {
    pub sector: Option<u64>,
    /// The data block of the sector, if it fails verification.
    pub block: Option<DataBlock>,
    pub fault: IoFault,
    /// The device that failed has no space left.
    pub full: bool,
}

/// The fault of a request, with the index of its export.
#[derive(Clone, Copy, Debug, PartialEq, Eq)]
pub struct ExportFault {
    pub place: usize,
    pub sector: Option<u64>,
    /// The data block of the sector, if it fails verification.
    pub block: Option<DataBlock>,
    pub fault: IoFault,
    /// The device that failed has no space left.
    pub full: bool,
}

impl ExportFault {
    /// Returns the name that is printed: that of the fault, or `NoSpace`.
    pub fn name(&self) -> &'static str
        ensures { result.now ≡ met_name self.now }
    {
        if self.full {
            "NoSpace"
        } else {
            self.fault.name()
        }
    }
}

// Whether both are the same sector, or no sector.
fn is_same_sector(first: Option<u64>, second: Option<u64>) -> bool
    ensures { result ≡ is_same_sector first second }
{
    match first {
        Some(sector) => match second {
            Some(other) => sector == other,
            None => false,
        },
        None => second.is_none(),
    }
}

// Whether both are the same known data block. Blocks of several `verity` lines can have the same number.
fn is_same_block(first: Option<DataBlock>, second: Option<DataBlock>) -> bool
    ensures { result ≡ is_same_block first second }
{
    match first {
        Some(block) => match second {
            Some(other) => {
                block.device == other.device
                    && block.line == other.line
                    && block.number == other.number
            }
            None => false,
        },
        None => false,
    }
}

// Whether both are the same sector, or no sector, or lie in the same data block.
fn is_same_place(
    sector: Option<u64>,
    block: Option<DataBlock>,
    other: Option<u64>,
    other_block: Option<DataBlock>,
) -> bool
    ensures { result ≡ is_same_place sector block other other_block }
{
    is_same_sector(sector, other) || is_same_block(block, other_block)
}

// Whether a fault of the same sector, or in the same data block, or of a sync, of the same export is among them.
fn is_known(faults: &[ExportFault], fault: ExportFault) -> bool
    ensures { result ≡ has_place faults.now fault }
{
    faults.iter().any(|met| met.place == fault.place
        && is_same_place(met.sector, met.block, fault.sector, fault.block))
}

/// At most 60 faults of a session, in their order. No memory is allocated for them.
#[derive(Drop)]
pub(crate) struct KnownFaults {
    faults: [ExportFault; MOST],
    count: usize,
}

impl Model for KnownFaults {
    ghost use Rattle.std.specs.Prelude.{List, ◌≤◌, take};
    ghost use Rattle.nbd_server.specs.declared.known_faults.ExportFault.{ExportFault};

    ghost Value = { List ExportFault };

    ghost view = { λ f. take f.count f.faults };

    ghost invariant = { λ f. f.count ≤ 60 };
}

impl KnownFaults {
    /// Returns no faults.
    pub(crate) fn none() -> KnownFaults
        ensures { result ≡ [] }
    {
        let unused = ExportFault {
            place: 0,
            sector: None,
            block: None,
            fault: IoFault::Stack(Fault::ErrorTarget),
            full: false,
        };
        KnownFaults {
            faults: [unused; MOST],
            count: 0,
        }
    }

    // The faults in their order.
    fn as_slice(&self) -> &[ExportFault]
        ensures { result.now ≡ self.now }
    {
        &self.faults[..self.count]
    }

    // Appends a fault.
    fn add(&mut self, fault: ExportFault)
        requires { length self.old < 60 }
        ensures { self.new ≡ self.old ++ fault ∷ [] }
    {
        self.faults[self.count] = fault;
        self.count += 1;
    }

    /// Returns whether a fault of the same sector, or in the same data block, or of a sync, of the same export is among them.
    pub(crate) fn has(&self, fault: ExportFault) -> bool
        ensures { result ≡ has_place self.now fault }
    {
        is_known(self.as_slice(), fault)
    }

    /// Appends a fault. If there are 60, they are removed before.
    pub(crate) fn remember(&mut self, fault: ExportFault)
        ensures { self.new ≡ remembered self.old fault }
    {
        if self.as_slice().len() >= MOST {
            self.count = 0;
        }
        self.add(fault);
    }
}
