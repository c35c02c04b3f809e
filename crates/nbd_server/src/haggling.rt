//! The messages of the handshake: the client flags and the options.
ghost use Rattle.std.specs.Prelude.{◌≡◌, ◌≢◌, ◌<◌, ◌≤◌, ◌^◌, length, nat_le, IfNone, IfOk, IfErr};
ghost use Rattle.program_io.specs.Streams.{streams};
ghost use Rattle.request_queue.specs.World.{World};
ghost use Rattle.nbd_protocol.specs.Exports.{HaveShortNames, export_records};
ghost use Rattle.nbd_server.specs.Service.{EndsFlags, EndsLongOption, EndsMessage, EndsOption, TakesContent};
ghost use Rattle.nbd_protocol.specs.Streaming.{HasRead, HasWritten, IsShort, result_fault};
ghost use Rattle.nbd_protocol.specs.declared.phase.Phase.TheVariants.{Haggling};

use nbd_protocol::{
    ABORT, EXPORT_NAME, Export, MOST_OPTIONS, Phase, Refusal, ServiceFault, Terms, acknowledge,
    fill, fill_part, names_export, number32, phase_after, refuse, say_answer, skip,
    terms_after_long,
};
use program_io::Counted;
use std::io::{Read, Write};

// The most bytes of an option's data.
const MOST_DATA: usize = 65536;

/// Receives the client flags. Returns `None` if the input ended before them.
pub(crate) fn take_flags<R: Read>(reader: &mut Counted<R>) -> Result<Option<Phase>, ServiceFault>
    ensures turn { EndsFlags R.remaining reader.old reader.new result }
    ensures reader { HasRead 1 reader.old reader.new (result_fault result) }
    ensures other { result ≢ Err ServiceFault.WriteFault }
{
    let mut bytes = [0u8; 4];
    if !fill(reader, &mut bytes)? {
        return Ok(None);
    }
    let flags = number32(&bytes, 0);
    if flags > 3 {
        return Err(ServiceFault::Flags);
    }
    Ok(Some(Phase::Haggling {
        terms: Terms {
            no_zeroes: flags >= 2,
            structured: false,
            status: None,
            left: MOST_OPTIONS,
        },
    }))
}

// Receives the data of an option into the beginning of a buffer. Returns `false` if they don't fit; they are discarded then.
fn take_content<R: Read>(
    reader: &mut Counted<R>,
    room: &mut [u8],
    count: u32,
) -> Result<bool, ServiceFault>
    requires { length room.old ≡ MOST_DATA }
    ensures ok { IfOk result (TakesContent R.remaining reader.old reader.new count room.new) }
    ensures fits { IfOk result (λ fits. fits ≡ nat_le count MOST_DATA) }
    ensures err { IfErr result (IsShort count (R.remaining reader.old.inner) (R.remaining reader.new.inner)) }
    ensures reader { HasRead 0 reader.old reader.new (result_fault result) }
{
    if count as usize > MOST_DATA {
        skip(reader, count)?;
        return Ok(false);
    }
    if count == 0 {
        return Ok(true);
    }
    if !fill_part(reader, room, 0, count as usize)? {
        return Err(ServiceFault::Lost);
    }
    Ok(true)
}

// Writes the reply to an option whose data are too long: ABORT is acknowledged, and other options get an error. EXPORT_NAME has
// no reply.
fn refuse_content<W: Write>(
    terms: Terms,
    option: u32,
    count: u32,
    writer: &mut Counted<W>,
) -> Result<Phase, ServiceFault>
    requires { MOST_DATA < count }
    ensures answer { EndsLongOption W.contents writer.old writer.new terms option count result }
    ensures writer { HasWritten writer.old writer.new (result_fault result) }
{
    if option == EXPORT_NAME {
        return Err(ServiceFault::NoSuchExport);
    }
    if option == ABORT {
        acknowledge(writer, ABORT)?;
        return Ok(Phase::Over);
    }
    refuse(writer, option, Refusal::TooBig)?;
    Ok(Phase::Haggling {
        terms: terms_after_long(terms, option),
    })
}

// Writes the reply to an option. The error `NoSuchExport` means that the option has no reply: EXPORT_NAME names no export.
fn answer_option<W: Write>(
    exports: &[Export<'_>],
    terms: Terms,
    option: u32,
    content: &[u8],
    writer: &mut Counted<W>,
) -> Result<Phase, ServiceFault>
    requires names { HaveShortNames exports.now }
    requires short { length content.now ≤ MOST_DATA }
    ensures answer { EndsOption W.contents writer.old writer.new exports.now terms option content.now result }
    ensures writer { HasWritten writer.old writer.new (result_fault result) }
{
    if !names_export(exports, option, content) {
        return Err(ServiceFault::NoSuchExport);
    }
    say_answer(writer, exports, terms, option, content)?;
    Ok(phase_after(exports, terms, option, content))
}

/// Receives an option and writes the reply. Returns `None` if the input ended before the option.
pub(crate) fn take_option<R: Read, W: Write>(
    exports: &[Export<'_>],
    terms: Terms,
    reader: &mut Counted<R>,
    writer: &mut Counted<W>,
) -> Result<Option<Phase>, ServiceFault>
    requires { HaveShortNames exports.now }
    ensures turn { (w : World) → EndsMessage (export_records exports.now) (Haggling terms) w w
        (streams (R.remaining reader.old.inner) (W.contents writer.old.inner)) (streams (R.remaining reader.new.inner) (W.contents writer.new.inner)) result }
    ensures reader { HasRead 1 reader.old reader.new (result_fault result) }
    ensures writer { HasWritten writer.old writer.new (result_fault result) }
    ensures silent { IfOk result (λ next. IfNone next (writer.new ≡ writer.old)) }
{
    let mut header = [0u8; 16];
    if !fill(reader, &mut header)? {
        return Ok(None);
    }
    if &header[..8] != b"IHAVEOPT".as_slice() {
        return Err(ServiceFault::Magic);
    }
    if terms.left == 0 {
        return Err(ServiceFault::TooManyOptions);
    }
    let option = number32(&header, 8);
    let count = number32(&header, 12);
    let mut room = [0u8; MOST_DATA];
    if !take_content(reader, &mut room, count)? {
        return Ok(Some(refuse_content(terms, option, count, writer)?));
    }
    let content = &room[..count as usize];
    Ok(Some(answer_option(exports, terms, option, content, writer)?))
}
