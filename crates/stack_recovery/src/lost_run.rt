//! A run of sectors that are lost by one fault.
ghost use Rattle.std.specs.Prelude.{◌≡◌, ◌≤◌, Some};
ghost use Rattle.program_io.specs.Counted.{Writes};
ghost use Rattle.stack_recovery.specs.Recoveries.{is_lost};
ghost use Rattle.stack_recovery.specs.LostRuns.{is_same_fault, is_same_loss, lost_count, untried_count};
ghost use Rattle.stack_recovery.specs.Surveys.{fault_of};
ghost use Rattle.stack_recovery.specs.Texts.{loss_word, lost_run_text};

use io_fault_text::say_io_words;
use program_io::{Counted, WriteFault};
use runs::Run;
use stack_engine::{Fault, IoFault};
use std::io::Write;

/// Why sectors weren't recovered, and the fault that a read returned.
#[derive(Clone, Copy, Debug, PartialEq, Eq)]
pub enum Loss {
    /// A read of each sector returns the fault.
    Lost(IoFault),
    /// They lie between two lost sectors of a run that couldn't be read in large pieces; the fault is that of the second one. They
    /// weren't read one by one, and some may be readable.
    Unscraped(IoFault),
}

/// A run of sectors, counted from 0, and why they weren't recovered.
pub type LostRun = Run<Loss>;

/// Returns whether two faults are the same; device faults must be of the same backing device.
pub fn is_same(a: IoFault, b: IoFault) -> bool
    ensures { result ≡ is_same_fault a b }
{
    match (a, b) {
        (IoFault::Stack(Fault::ErrorTarget), IoFault::Stack(Fault::ErrorTarget))
        | (IoFault::Stack(Fault::Mismatch), IoFault::Stack(Fault::Mismatch))
        | (IoFault::NoMemory, IoFault::NoMemory) => true,
        (IoFault::Device(leaf), IoFault::Device(other)) => leaf == other,
        _ => false,
    }
}

/// Returns whether two losses are the same: of the same kind, by the same fault.
pub(crate) fn is_same_loss(a: Loss, b: Loss) -> bool
    ensures { result ≡ is_same_loss a b }
{
    match (a, b) {
        (Loss::Lost(x), Loss::Lost(y)) => is_same(x, y),
        (Loss::Unscraped(x), Loss::Unscraped(y)) => is_same(x, y),
        _ => false,
    }
}

/// Returns the fault of a loss.
pub(crate) fn fault_of(loss: Loss) -> IoFault
    ensures { result ≡ fault_of loss }
{
    match loss {
        Loss::Lost(fault) => fault,
        Loss::Unscraped(fault) => fault,
    }
}

/// Returns whether sectors with this loss are lost, and not unscraped.
pub(crate) fn is_lost(loss: Loss) -> bool
    ensures { result ≡ is_lost (Some loss) }
{
    match loss {
        Loss::Lost(_) => true,
        Loss::Unscraped(_) => false,
    }
}

/// Returns how many of `count` sectors are lost if their loss is this one.
pub(crate) fn lost_count(loss: Loss, count: u64) -> u64
    ensures value { result ≡ lost_count loss count }
    ensures few { result ≤ count }
{
    match loss {
        Loss::Lost(_) => count,
        Loss::Unscraped(_) => 0,
    }
}

/// Returns how many of them are unscraped.
pub(crate) fn untried_count(loss: Loss, count: u64) -> u64
    ensures value { result ≡ untried_count loss count }
    ensures few { result ≤ count }
{
    match loss {
        Loss::Lost(_) => 0,
        Loss::Unscraped(_) => count,
    }
}

fn loss_word(loss: Loss) -> &'static str
    ensures { result.now ≡ loss_word loss }
{
    match loss {
        Loss::Lost(_) => "lost",
        Loss::Unscraped(_) => "unscraped",
    }
}

/// `lost FIRST COUNT FAULT`, or `unscraped FIRST COUNT FAULT`
#[tactic(auto, unfolding(crate::specs::Texts::lost_run_text))]
pub(crate) fn say_run<W: Write>(writer: &mut Counted<W>, run: LostRun) -> Result<(), WriteFault>
    ensures { Writes W.contents writer.old writer.new (lost_run_text run) result }
{
    let Run { first, count, kind } = run;
    let word = loss_word(kind);
    let fault = fault_of(kind);
    writer.print(format_args!("{word} {first} {count} "))?;
    say_io_words(writer, fault)
}
