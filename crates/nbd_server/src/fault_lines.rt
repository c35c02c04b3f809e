//! Prints the lines on the faults of requests. A failure of the writer stays known and ends nothing.
ghost use Rattle.std.specs.Prelude.{◌≡◌, ◌++◌};
ghost use Rattle.nbd_protocol.specs.Exports.{export_at, export_records};
ghost use Rattle.nbd_server.specs.FaultLines.{IsPrinted, TellsMet, block_end, fault_facts, fault_line, journal_line, kind_text, last_line, met_lines, more_line, more_text, named_fault, place_text, priority_text, said_line, said_lines, served_fault};
ghost use Rattle.nbd_server.specs.FaultLog.{met_fault, next_log};
ghost use Rattle.program_io.specs.Counted.{Writes};

use crate::data_block::DataBlock;
use crate::fault_log::FaultLog;
use crate::journal::Journal;
use crate::known_faults::ExportFault;
use crate::session_log::SessionLog;
use nbd_protocol::{Export, Phase, export_at};
use program_io::{Counted, WriteFault};
use stack_meaning::IoFault;
use std::io::Write;

/// Returns the fault of a request, after its message in a phase led to the next one. Other messages have none.
pub(crate) fn served_fault(phase: Phase, next: Phase, log: &SessionLog) -> Option<ExportFault>
    ensures { result ≡ served_fault phase next log.now }
{
    match phase {
        Phase::Serving { .. } => match next {
            Phase::Serving { .. } => log.last,
            Phase::Greeted | Phase::Haggling { .. } | Phase::Over => None,
        },
        Phase::Greeted | Phase::Haggling { .. } | Phase::Over => None,
    }
}

/// Prints the lines on a fault by the clock, if there is one.
pub(crate) fn tell_met<E: Write, J: Journal>(
    errors: &mut Counted<E>,
    exports: &[Export<'_>],
    log: &mut FaultLog,
    journal: &J,
    met: Option<ExportFault>,
)
    ensures { TellsMet E.contents (J.shows journal.now) (export_records exports.now) log.old log.new errors.old errors.new met }
{
    match met {
        Some(fault) => tell_fault(errors, exports, log, journal.seconds(), fault),
        None => {}
    }
}

// Prints how many faults had no line in the minute before, if a new one begins, and the line of this fault, if it has one.
fn tell_fault<E: Write>(
    errors: &mut Counted<E>,
    exports: &[Export<'_>],
    log: &mut FaultLog,
    seconds: u64,
    fault: ExportFault,
)
    ensures log { log.new ≡ next_log (met_fault seconds fault) log.old }
    ensures printed { IsPrinted E.contents errors.old errors.new (met_lines (export_records exports.now) (met_fault seconds fault) log.old) }
{
    let priorities = log.priorities;
    let count = log.begin(seconds);
    let line = log.count(fault);
    let _said = say_lines(errors, priorities, exports, count, line);
}

/// Prints how many faults had no line in the last minute.
pub(crate) fn tell_more<E: Write>(errors: &mut Counted<E>, log: &FaultLog)
    ensures { IsPrinted E.contents errors.old errors.new (last_line log.now) }
{
    let _said = say_more_line(errors, log.priorities, log.left_out);
}

fn say_lines<W: Write>(
    writer: &mut Counted<W>,
    priorities: bool,
    exports: &[Export<'_>],
    count: u64,
    fault: Option<ExportFault>,
) -> Result<(), WriteFault>
    ensures { Writes W.contents writer.old writer.new (said_lines priorities (export_records exports.now) count fault) result }
{
    say_more_line(writer, priorities, count)?;
    say_line(writer, priorities, exports, fault)
}

// `dmstack: N more faulty requests`, if there are some
fn say_more_line<W: Write>(
    writer: &mut Counted<W>,
    priorities: bool,
    count: u64,
) -> Result<(), WriteFault>
    ensures { Writes W.contents writer.old writer.new (more_line priorities count) result }
{
    if count == 0 {
        return writer.put(b"");
    }
    say_priority(writer, priorities)?;
    say_more(writer, count)
}

#[tactic(auto, unfolding(crate::specs::FaultLines::more_text))]
fn say_more<W: Write>(writer: &mut Counted<W>, count: u64) -> Result<(), WriteFault>
    ensures { Writes W.contents writer.old writer.new (more_text count) result }
{
    writer.print(format_args!("dmstack: {count} more faulty requests\n"))
}

// The line of a fault, if there is one.
fn say_line<W: Write>(
    writer: &mut Counted<W>,
    priorities: bool,
    exports: &[Export<'_>],
    fault: Option<ExportFault>,
) -> Result<(), WriteFault>
    ensures { Writes W.contents writer.old writer.new (said_line priorities (export_records exports.now) fault) result }
{
    match fault {
        Some(fault) => say_journal_line(writer, priorities, exports, &fault),
        None => writer.put(b""),
    }
}

// The line of a fault, with its priority
#[tactic(auto, unfolding(crate::specs::FaultLines::journal_line))]
fn say_journal_line<W: Write>(
    writer: &mut Counted<W>,
    priorities: bool,
    exports: &[Export<'_>],
    fault: &ExportFault,
) -> Result<(), WriteFault>
    ensures { Writes W.contents writer.old writer.new (journal_line priorities (export_records exports.now) fault.now) result }
{
    say_priority(writer, priorities)?;
    say_fault_line(writer, exports, fault)
}

// `<4>`, that of a warning, for systemd's journal
fn say_priority<W: Write>(writer: &mut Counted<W>, priorities: bool) -> Result<(), WriteFault>
    ensures { Writes W.contents writer.old writer.new (priority_text priorities) result }
{
    if priorities {
        writer.put(b"<4>")
    } else {
        writer.put(b"")
    }
}

// `dmstack: export NAME: sector S: KIND`, or `flush` in place of the sector
#[tactic(auto, unfolding(crate::specs::FaultLines::fault_line))]
fn say_fault_line<W: Write>(
    writer: &mut Counted<W>,
    exports: &[Export<'_>],
    fault: &ExportFault,
) -> Result<(), WriteFault>
    ensures { Writes W.contents writer.old writer.new (fault_line (export_records exports.now) fault.now) result }
{
    writer.put(b"dmstack: export ")?;
    say_named_fault(writer, exports, fault)
}

// `NAME: sector S: KIND`, or `flush` in place of the sector
#[tactic(auto, unfolding(crate::specs::FaultLines::named_fault))]
fn say_named_fault<W: Write>(
    writer: &mut Counted<W>,
    exports: &[Export<'_>],
    fault: &ExportFault,
) -> Result<(), WriteFault>
    ensures { Writes W.contents writer.old writer.new (named_fault (export_records exports.now) fault.now) result }
{
    say_name(writer, exports, fault.place)?;
    say_fault_facts(writer, fault)
}

// `: sector S: KIND`, or `: flush: KIND`
#[tactic(auto, unfolding(crate::specs::FaultLines::fault_facts))]
fn say_fault_facts<W: Write>(writer: &mut Counted<W>, fault: &ExportFault) -> Result<(), WriteFault>
    ensures { Writes W.contents writer.old writer.new (fault_facts fault.now) result }
{
    say_place(writer, fault.sector)?;
    say_kind(writer, fault)
}

// `: sector S: `, or `: flush: ` of a sync
fn say_place<W: Write>(writer: &mut Counted<W>, sector: Option<u64>) -> Result<(), WriteFault>
    ensures { Writes W.contents writer.old writer.new (place_text sector) result }
{
    match sector {
        Some(sector) => writer.print(format_args!(": sector {sector}: ")),
        None => writer.put(b": flush: "),
    }
}

// `KIND`, with the data block that fails verification, if it is known
fn say_kind_at<W: Write>(
    writer: &mut Counted<W>,
    kind: &str,
    block: Option<DataBlock>,
) -> Result<(), WriteFault>
    ensures { Writes W.contents writer.old writer.new (kind.now ++ block_end block) result }
{
    match block {
        Some(DataBlock { number, .. }) => writer.print(format_args!(
            "{kind}, data block {number}\n"
        )),
        None => writer.print(format_args!("{kind}\n")),
    }
}

// `KIND`, with the number of the backing device that failed, or the data block that fails verification
fn say_kind<W: Write>(writer: &mut Counted<W>, fault: &ExportFault) -> Result<(), WriteFault>
    ensures { Writes W.contents writer.old writer.new (kind_text fault.now) result }
{
    let kind = fault.name();
    match fault.fault {
        IoFault::Device(leaf) => writer.print(format_args!("{kind} {leaf}\n")),
        IoFault::Stack(_) | IoFault::NoMemory => say_kind_at(writer, kind, fault.block),
    }
}

// The name of the export at an index, if there is one.
fn say_name<W: Write>(
    writer: &mut Counted<W>,
    exports: &[Export<'_>],
    place: usize,
) -> Result<(), WriteFault>
    ensures { Writes W.contents writer.old writer.new (export_at (export_records exports.now) place).name result }
{
    let count = exports.len();
    if count <= place {
        return Ok(());
    }
    writer.put(export_at(exports, place).name)
}
