//! Sessions over readers and writers that fail, and requests that no line of a session can make.
use block_device::MemoryDev;
use program_io::Counted;
use request_queue::{Queue, Request};
use stack_engine::Stack;
use stack_loader::config_over;
use stack_session::{LIMIT, SessionFault, session};
use std::alloc::Global;
use std::io;
use std::io::{Read, Write};
use std::rt::HostRuntime;
use std::test::Fail;
use table_text::parse_stack;

/// What a reader returns after the end of its text.
#[derive(Clone, Copy, PartialEq, Eq)]
enum After {
    End,
    Failure,
    Interruption,
}

/// Returns its text in parts, each after an interruption if this is wanted.
#[derive(Drop)]
struct Parts<'a> {
    text: &'a [u8],
    most: usize,
    interrupts: bool,
    interrupted: bool,
    after: After,
}

impl Read for Parts<'_> {
    fn read(&mut self, buffer: &mut [u8]) -> io::Result<usize> {
        if self.interrupted {
            self.interrupted = false;
            return Err(io::Error::from(io::ErrorKind::Interrupted));
        }
        if self.text.is_empty() {
            return match self.after {
                After::End => Ok(0),
                After::Failure => Err(io::Error::from(io::ErrorKind::Other)),
                After::Interruption => Err(io::Error::from(io::ErrorKind::Interrupted)),
            };
        }
        let n = self.text.len().min(self.most).min(buffer.len());
        buffer[..n].copy_from_slice(&self.text[..n]);
        self.text = &self.text[n..];
        self.interrupted = self.interrupts;
        Ok(n)
    }
}

/// Accepts so many bytes, and fails after them and at one of its flushes, counted from 1.
#[derive(Drop)]
struct Narrow {
    text: Vec<u8>,
    room: usize,
    handed_on: usize,
    flushes: u64,
    failing: u64,
}

impl Write for Narrow {
    fn write(&mut self, bytes: &[u8]) -> io::Result<usize> {
        let n = self.room.min(bytes.len());
        if n == 0 {
            return Err(io::Error::from(io::ErrorKind::Other));
        }
        self.text.extend_from_slice(&bytes[..n])?;
        self.room -= n;
        Ok(n)
    }

    fn flush(&mut self) -> io::Result<()> {
        self.flushes = self.flushes.saturating_add(1);
        if self.flushes == self.failing {
            return Err(io::Error::from(io::ErrorKind::Other));
        }
        self.handed_on = self.text.len();
        Ok(())
    }
}

/// The input: blanks, then a text, and how it is read; how the output fails; how the session ends; what is written, how much of
/// it is flushed, how often the reader is called, and how many flushes there are (0: not checked).
#[derive(Clone, Copy)]
struct Row {
    blanks: usize,
    text: &'static [u8],
    most: usize,
    interrupts: bool,
    after: After,
    room: usize,
    failing: u64,
    end: Option<SessionFault>,
    written: &'static [u8],
    handed_on: usize,
    reads: u64,
    flushes: u64,
}

/// The replies to the first two lines have 27 bytes, and all replies 60.
const PLAIN: Row = Row {
    blanks: 0,
    text: b"load z,,,rw,0 2 zero\nread z 0 2\ncost z",
    most: 4096,
    interrupts: false,
    after: After::End,
    room: 4096,
    failing: 0,
    end: None,
    written: b"loaded 1\n0 all 00\n1 all 00\nsectors 2 depth 1 read 0 write 0\n",
    handed_on: 60,
    reads: 2,
    flushes: 3,
};

const CUT: Row = Row {
    most: 5,
    interrupts: true,
    end: Some(SessionFault::ReadFault),
    written: b"loaded 1\n0 all 00\n1 all 00\n",
    handed_on: 27,
    flushes: 0,
    ..PLAIN
};

const UNWRITTEN: Row = Row {
    end: Some(SessionFault::WriteFault),
    ..PLAIN
};

/// The longest allowed input; its last line ends within the limit.
const LONG: Row = Row {
    blanks: LIMIT - 8,
    text: b"\ncost a\n",
    written: b"refused 1 NoSuchDevice\n",
    handed_on: 23,
    ..PLAIN
};

/// One byte more than the limit.
const TOO_LONG: Row = Row {
    text: b"\ncost a\n ",
    end: Some(SessionFault::TooLong),
    ..LONG
};

static ROWS: [Row; 19] = [
    PLAIN,
    // A read that was interrupted is repeated, but not indefinitely.
    Row {
        most: 1,
        interrupts: true,
        reads: 78,
        flushes: 79,
        ..PLAIN
    },
    Row {
        most: 7,
        interrupts: true,
        reads: 14,
        flushes: 15,
        ..PLAIN
    },
    Row {
        interrupts: true,
        reads: 4,
        flushes: 5,
        ..PLAIN
    },
    Row {
        after: After::Interruption,
        reads: 16_777_217,
        ..CUT
    },
    // The whole lines before a failed read get their replies.
    Row {
        after: After::Failure,
        reads: 18,
        ..CUT
    },
    // Replies are flushed before each read and at the end; a failed flush ends the session there.
    Row {
        failing: 1,
        written: b"",
        handed_on: 0,
        reads: 0,
        flushes: 1,
        ..UNWRITTEN
    },
    Row {
        failing: 2,
        written: b"loaded 1\n0 all 00\n1 all 00\n",
        handed_on: 0,
        reads: 1,
        flushes: 2,
        ..UNWRITTEN
    },
    Row {
        failing: 3,
        handed_on: 27,
        ..UNWRITTEN
    },
    Row {
        failing: 4,
        ..PLAIN
    },
    // A failed write ends the session too, at any byte.
    Row {
        room: 0,
        written: b"",
        handed_on: 0,
        reads: 1,
        flushes: 1,
        ..UNWRITTEN
    },
    Row {
        room: 8,
        written: b"loaded 1",
        handed_on: 0,
        reads: 1,
        flushes: 1,
        ..UNWRITTEN
    },
    Row {
        room: 27,
        written: b"loaded 1\n0 all 00\n1 all 00\n",
        handed_on: 27,
        flushes: 2,
        ..UNWRITTEN
    },
    Row {
        room: 59,
        written: b"loaded 1\n0 all 00\n1 all 00\nsectors 2 depth 1 read 0 write 0",
        handed_on: 27,
        flushes: 2,
        ..UNWRITTEN
    },
    // 16 MiB are read to their end, even byte by byte.
    Row {
        reads: 4097,
        flushes: 4098,
        ..LONG
    },
    Row {
        most: 1,
        reads: 16_777_217,
        flushes: 16_777_218,
        ..LONG
    },
    // Replies are flushed before input that is too long is refused, even if the byte too many comes with the last line.
    Row {
        reads: 4097,
        flushes: 4098,
        ..TOO_LONG
    },
    Row {
        most: 4000,
        reads: 4195,
        flushes: 4196,
        ..TOO_LONG
    },
    Row {
        most: 4000,
        failing: 4196,
        end: Some(SessionFault::WriteFault),
        handed_on: 0,
        reads: 4195,
        flushes: 4196,
        ..TOO_LONG
    },
];

/// Returns a queue over the stack of a text without backing devices.
fn queue_of(alloc: Global, text: &[u8]) -> Result<Queue<MemoryDev>, Fail> {
    if text.len() > 1 << 20 {
        return Err(Fail::from("the text is too long"));
    }
    let config = config_over(alloc, Vec::new(alloc))?;
    let stack = Stack::over(alloc, config, Vec::new(alloc), 0);
    let mut queue = Queue::new(alloc, stack);
    let text = parse_stack(alloc, text)?;
    queue.load(&text).map_err(|_| "not loaded")?;
    Ok(queue)
}

/// Whether the output is as the row says.
fn is_output(row: &Row, output: &Narrow) -> bool {
    output.text.as_slice() == row.written
        && output.handed_on == row.handed_on
        && (output.flushes == row.flushes || row.flushes == 0)
}

/// Whether the reader was called as the row says.
fn is_read<T>(row: &Row, reader: &Counted<T>) -> bool {
    reader.calls() == row.reads && reader.failed() == (row.after == After::Failure)
}

/// Whether the session ends as the row says.
fn is_so(alloc: Global, row: &Row) -> Result<bool, Fail> {
    let mut input = vec![in alloc; b' '; row.blanks]?;
    input.extend_from_slice(row.text)?;
    let mut queue = queue_of(alloc, b"")?;
    let mut reader = Counted::new(Parts {
        text: input.as_slice(),
        most: row.most,
        interrupts: row.interrupts,
        interrupted: row.interrupts,
        after: row.after,
    });
    let mut writer = Counted::new(Narrow {
        text: Vec::new(alloc),
        room: row.room,
        handed_on: 0,
        flushes: 0,
        failing: row.failing,
    });
    let end = session(alloc, &mut queue, &mut reader, &mut writer).err();
    let is_end = end == row.end && writer.failed() == (end == Some(SessionFault::WriteFault));
    Ok(is_end && is_read(row, &reader) && is_output(row, &writer.into_inner()))
}

#[test]
fn readers_and_writers_fail(rt: HostRuntime) -> Result<(), Fail> {
    let alloc = rt.alloc();
    for (number, row) in ROWS.iter().enumerate() {
        assert!(rt; is_so(alloc, row)?, "row {number}");
    }
    Ok(())
}

/// Returns the number of the fault that refuses a write of 513 bytes.
fn fault_of(alloc: Global, queue: &mut Queue<MemoryDev>, name: u8, first: u64) -> Result<u8, Fail> {
    let request = Request::Write {
        device: vec![in alloc; name]?,
        first,
        bytes: vec![in alloc; 1u8; 513]?,
    };
    match queue.submit(request) {
        Ok(_) => Ok(0),
        Err((fault, _)) => Ok(fault.number()),
    }
}

fn refuses_parts(alloc: Global) -> Result<bool, Fail> {
    let mut queue = queue_of(alloc, b"a,,,rw,0 12 zero;z,,,ro,0 4000 zero")?;
    let beyond = fault_of(alloc, &mut queue, b'a', 11)?;
    let inside = fault_of(alloc, &mut queue, b'a', 10)?;
    let read_only = fault_of(alloc, &mut queue, b'z', 0)?;
    Ok(beyond == 2 && inside == 3 && read_only == 3)
}

// A session only writes whole sectors. The bytes of a part of a sector count as a sector until their length is refused.
#[test]
fn parts_of_sectors_are_refused(rt: HostRuntime) -> Result<(), Fail> {
    assert!(rt; refuses_parts(rt.alloc())?);
    Ok(())
}
