//! What is printed of a command on hash trees that ends early, and its status: 1 refused, 3 trees that differ, or blocks
//! that aren't good.
ghost use Rattle.std.specs.Prelude.{◌≡◌};
ghost use Rattle.program_io.specs.Counted.{Writes};
ghost use Rattle.verity_commands.specs.TreeFaultTexts.{difference_text, hash_image_text, image_fault_text, survey_text, tree_status, tree_fault_text, unlike_text, unpinned_text, which_name};

use crate::tree_fault::TreeFault;
use image_pin::Mismatch;
use io_fault_text::{say_no_memory, say_refused, say_unopened};
use program_io::{Counted, WriteFault};
use std::io::Write;
use tree_difference::{DifferenceFault, Unlike, Which};
use tree_survey::SurveyFault;
use verity_format::VerifyFault;

const REFUSED: u8 = 1;

const FAULT: u8 = 3;

/// Prints the line of a fault; prints nothing if the trees differ, the image isn't all good, or a line couldn't be written.
///
/// # Errors
///
/// `WriteFault` if the writer failed.
pub fn say_tree_fault<W: Write>(
    writer: &mut Counted<W>,
    fault: TreeFault<'_>,
) -> Result<(), WriteFault>
    ensures { Writes W.contents writer.old writer.new (tree_fault_text fault.entry) result }
{
    match fault {
        TreeFault::Open(file) => say_unopened(writer, file),
        TreeFault::Trees(fault) => say_difference_fault(writer, fault),
        TreeFault::Differs => Ok(()),
        TreeFault::Survey(fault) => say_survey_fault(writer, fault),
        TreeFault::Unaligned => writer.put(b"refused 18 Unaligned\n"),
        TreeFault::NoShape => writer.put(b"refused 1 Shape\n"),
        TreeFault::Unpinned(mismatch) => { say_refused(writer, mismatch.number(), mismatch.name()) }
        TreeFault::UnusedEntries => writer.put(b"refused 60 UnusedEntries\n"),
        TreeFault::Damaged => Ok(()),
        TreeFault::Write => Ok(()),
    }
}

/// Returns the exit status: 3 for trees that differ or blocks that aren't good, else 1.
pub fn tree_status(fault: TreeFault<'_>) -> u8
    ensures { result ≡ tree_status fault.entry }
{
    match fault {
        TreeFault::Differs | TreeFault::Damaged | TreeFault::Trees(DifferenceFault::Hash(..)) =>
            FAULT,
        _ => REFUSED,
    }
}

fn say_difference_fault<W: Write>(
    writer: &mut Counted<W>,
    fault: DifferenceFault,
) -> Result<(), WriteFault>
    ensures { Writes W.contents writer.old writer.new (difference_text fault) result }
{
    match fault {
        DifferenceFault::Image(which, fault) => say_hash_image(writer, which, fault),
        DifferenceFault::Unaligned(which) => {
            let name = which_name(which);
            writer.print(format_args!("refused 18 Unaligned {name}\n"))
        }
        DifferenceFault::Unpinned(which, mismatch) => say_unpinned(writer, which, mismatch),
        DifferenceFault::Unlike(unlike) => say_unlike(writer, unlike),
        DifferenceFault::Hash(which, level, index) => {
            let name = which_name(which);
            writer.print(format_args!("fault hash {name} {level} {index}\n"))
        }
        DifferenceFault::NoMemory => say_no_memory(writer),
        DifferenceFault::Write => Ok(()),
    }
}

fn which_name(which: Which) -> &'static str
    ensures { result.now ≡ which_name which }
{
    match which {
        Which::First => "first",
        Which::Second => "second",
    }
}

// `refused K NAME first` or `second`, by a superblock's fault
fn say_hash_image<W: Write>(
    writer: &mut Counted<W>,
    which: Which,
    fault: VerifyFault,
) -> Result<(), WriteFault>
    ensures { Writes W.contents writer.old writer.new (hash_image_text which fault) result }
{
    if fault == VerifyFault::NoMemory {
        return say_no_memory(writer);
    }
    let (number, name) = (fault.number(), fault.name());
    let which = which_name(which);
    writer.print(format_args!("refused {number} {name} {which}\n"))
}

// `refused K NAME first` or `second`, by the value that differs from the pin's
fn say_unpinned<W: Write>(
    writer: &mut Counted<W>,
    which: Which,
    mismatch: Mismatch,
) -> Result<(), WriteFault>
    ensures { Writes W.contents writer.old writer.new (unpinned_text which mismatch) result }
{
    let (number, name) = (mismatch.number(), mismatch.name());
    let which = which_name(which);
    writer.print(format_args!("refused {number} {name} {which}\n"))
}

// `refused K NAME`, by a superblock's fault
fn say_survey_fault<W: Write>(writer: &mut Counted<W>, fault: SurveyFault) -> Result<(), WriteFault>
    ensures { Writes W.contents writer.old writer.new (survey_text fault) result }
{
    match fault {
        SurveyFault::Image(fault) => say_image_fault(writer, fault),
        SurveyFault::Write => Ok(()),
    }
}

fn say_image_fault<W: Write>(writer: &mut Counted<W>, fault: VerifyFault) -> Result<(), WriteFault>
    ensures { Writes W.contents writer.old writer.new (image_fault_text fault) result }
{
    if fault == VerifyFault::NoMemory {
        return say_no_memory(writer);
    }
    let (number, name) = (fault.number(), fault.name());
    writer.print(format_args!("refused {number} {name}\n"))
}

fn say_unlike<W: Write>(writer: &mut Counted<W>, unlike: Unlike) -> Result<(), WriteFault>
    ensures { Writes W.contents writer.old writer.new (unlike_text unlike) result }
{
    match unlike {
        Unlike::DataBlockSize => writer.put(b"refused 20 OtherDataBlockSize\n"),
        Unlike::HashBlockSize => writer.put(b"refused 21 OtherHashBlockSize\n"),
        Unlike::Salt => writer.put(b"refused 22 OtherSalt\n"),
    }
}
