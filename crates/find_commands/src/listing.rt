//! The receivers of findings: a writer of lines, or a list in memory.
ghost use Rattle.std.specs.Prelude.{◌≡◌, [], IfErr, OnOk};
ghost use Rattle.find_commands.specs.declared.finding.Finding.{Finding};

use crate::finding::Finding;
use crate::line::say_finding;
use allocation::push;
use program_io::Counted;
use std::alloc::Global;
use std::io::Write;

/// Why a finding isn't received.
#[derive(Clone, Copy, Debug, PartialEq, Eq)]
pub enum ListFault {
    /// Room for it was refused.
    NoMemory,
    /// Its line can't be written.
    Write,
}

/// A receiver of findings.
pub trait FindingList {
    ghost use Rattle.find_commands.specs.declared.listing.ListFault.{ListFault};

    /// What a received finding does to the receiver.
    ghost receives: { Self → Finding → Self → Type 0 };

    /// Why a finding wasn't received, by the receiver afterwards.
    ghost refuses: { Self → ListFault → Type 0 };

    /// Receives a finding.
    ///
    /// # Errors
    ///
    /// Those of the receiver.
    fn tell(&mut self, finding: Finding) -> Result<(), ListFault>
        ensures ok { OnOk result (receives self.old finding self.new) }
        ensures err { IfErr result (refuses self.new) };
}

impl<W: Write> FindingList for Counted<W> {
    ghost use Rattle.std.specs.Prelude.{true};
    ghost use Rattle.std.specs.Io.KnownBytes.{Appends};
    ghost use Rattle.find_commands.specs.Lines.{finding_line};
    ghost use Rattle.find_commands.specs.declared.listing.ListFault.TheVariants as list_fault;

    ghost receives = { λ old finding new. Appends (W.contents old.inner) (W.contents new.inner) (finding_line finding) };

    ghost refuses = { λ new fault. (fault ≡ list_fault.Write) × (new.failed ≡ true) };

    fn tell(&mut self, finding: Finding) -> Result<(), ListFault> {
        match say_finding(self, finding) {
            Ok(()) => Ok(()),
            Err(_) => Err(ListFault::Write),
        }
    }
}

/// Findings in memory.
#[derive(Drop)]
pub struct KeptFindings {
    pub findings: Vec<Finding>,
}

impl KeptFindings {
    /// Returns an empty list.
    pub fn new(alloc: Global) -> KeptFindings
        ensures { result.findings.items ≡ [] }
    {
        KeptFindings {
            findings: Vec::new(alloc),
        }
    }
}

impl FindingList for KeptFindings {
    ghost use Rattle.std.specs.Prelude.{◌++◌, ◌∷◌};
    ghost use Rattle.allocation.specs.Refusal.{IsOutOfMemory};
    ghost use Rattle.find_commands.specs.declared.listing.ListFault.TheVariants as list_fault;

    ghost receives = { λ old finding new. new.findings.items ≡ old.findings.items ++ finding ∷ [] };

    ghost refuses = { λ _ fault. (fault ≡ list_fault.NoMemory) × IsOutOfMemory 1 };

    fn tell(&mut self, finding: Finding) -> Result<(), ListFault> {
        match push(&mut self.findings, finding) {
            Ok(()) => Ok(()),
            Err(_refused) => Err(ListFault::NoMemory),
        }
    }
}
