//! Requests of the transmission phase.
ghost use Rattle.std.specs.Prelude.{◌≡◌, ◌<◌, ◌≤◌, ◌+◌, IfOk, IsTrue, length, nat_lt};
ghost use Rattle.nbd_protocol.specs.Exports.{export_record};
ghost use Rattle.nbd_protocol.specs.Headers.{IsWithin, cache_command, changing, command_of, flush_command, has_fua, has_offered, header_of, is_chunked, own_flag, payload_len, read_command, status_command, trim_command, write_command, zero_command};

use crate::export::Export;
use crate::numbers::{number16, number32, number64};
use crate::phase::Agreement;
use crate::request_error::RequestError;

/// The most bytes that one READ or WRITE transfers: 32 MiB.
pub const MOST_LENGTH: u32 = 33554432;

const READ: u16 = 0;

const WRITE: u16 = 1;

const FLUSH: u16 = 3;

const TRIM: u16 = 4;

const CACHE: u16 = 5;

const WRITE_ZEROES: u16 = 6;

/// The type of BLOCK_STATUS, the request for the status of a byte range.
pub const BLOCK_STATUS: u16 = 7;

// The command flags.
const FUA: u16 = 1;

const NO_HOLE: u16 = 2;

const DONT_FRAGMENT: u16 = 4;

const REQUEST_ONE: u16 = 8;

const FAST_ZERO: u16 = 16;

/// The type of DISC, the request by which a client ends the session.
pub const DISCONNECT: u16 = 2;

/// The fields of a request header.
#[derive(Clone, Copy, Debug, PartialEq, Eq)]
pub struct Header {
    pub flags: u16,
    pub kind: u16,
    pub cookie: u64,
    pub offset: u64,
    pub length: u32,
}

/// What a request asks for.
#[derive(Clone, Copy, Debug, PartialEq, Eq)]
pub enum Command {
    /// Reads `length` bytes from `offset` on.
    Read {
        offset: u64,
        length: u32,
    },
    /// Writes bytes. If `fua` is set, they are synced before the reply.
    Write {
        offset: u64,
        length: u32,
        fua: bool,
    },
    /// Writes zeros, only if that is faster than a WRITE if `fast` is set. If `fua` is set, they are synced before the reply.
    Zero {
        offset: u64,
        length: u32,
        fua: bool,
        fast: bool,
    },
    /// A TRIM: the service does nothing.
    Hint,
    /// Reads bytes ahead: the client will need them soon.
    Cache {
        offset: u64,
        length: u32,
    },
    /// Syncs all that was written.
    Flush,
    /// Reports the status of bytes, for the first extent only if `one` is set.
    Status {
        offset: u64,
        length: u32,
        one: bool,
    },
}

impl Header {
    /// Parses a request of 28 bytes, of which the first four are the magic.
    pub fn of(bytes: &[u8]) -> Header
        requires { length bytes.now ≡ 28 }
        ensures { result ≡ header_of bytes.now }
    {
        Header {
            flags: number16(bytes, 4),
            kind: number16(bytes, 6),
            cookie: number64(bytes, 8),
            offset: number64(bytes, 16),
            length: number32(bytes, 24),
        }
    }

    /// Returns how many bytes of payload follow the request: those of a WRITE.
    pub fn payload_len(self) -> u32
        ensures { result ≡ payload_len self }
    {
        if self.kind == WRITE { self.length } else { 0 }
    }

    /// Returns whether the reply consists of chunks: that of a READ or BLOCK_STATUS does if structured replies are agreed on.
    pub fn is_chunked(self, agreed: Agreement) -> bool
        ensures { result ≡ is_chunked agreed self }
    {
        agreed.structured && (self.kind == READ || self.kind == BLOCK_STATUS)
    }

    // A flag that the request may set besides FUA; FUA itself if there is no other.
    fn own_flag(self, agreed: Agreement) -> u16
        ensures value { result ≡ own_flag agreed self }
        ensures some { 0 < result }
        ensures small { result ≤ 8 }
    {
        match self.kind {
            READ if agreed.structured => DONT_FRAGMENT,
            BLOCK_STATUS if agreed.status => REQUEST_ONE,
            WRITE_ZEROES => NO_HOLE,
            _ => FUA,
        }
    }

    // Whether the request sets no other flags than FUA and its own.
    fn has_offered(self, agreed: Agreement) -> bool
        ensures { result ≡ has_offered agreed self }
    {
        if self.kind == WRITE_ZEROES {
            return self.flags % FAST_ZERO < 2 * NO_HOLE && self.flags < 2 * FAST_ZERO;
        }
        let own = self.own_flag(agreed);
        self.flags % own < 2 && self.flags < 2 * own
    }

    // Whether the data must be durable before the reply.
    fn has_fua(self) -> bool
        ensures { result ≡ has_fua self }
    {
        self.flags % 2 == 1
    }

    /// Returns the command of the request.
    ///
    /// # Errors
    ///
    /// The first of the request's faults:
    /// - `Invalid` if the request type isn't supported, a flag isn't allowed, a READ or a WRITE is too long, a FLUSH has an
    ///   offset or a length, a BLOCK_STATUS has no length, or a READ, CACHE, TRIM or BLOCK_STATUS ends past the export.
    /// - `NotPermitted` if a WRITE, WRITE_ZEROES or TRIM is for a read-only export.
    /// - `NoSpace` if a WRITE or a WRITE_ZEROES ends past the export.
    #[tactic(auto, unfolding(crate::specs::Headers::command_of))]
    pub fn command(self, export: &Export<'_>, agreed: Agreement) -> Result<Command, RequestError>
        ensures value { result ≡ command_of (export_record export.now) agreed self }
        ensures within { IfOk result (IsWithin (export_record export.now)) }
    {
        if !self.has_offered(agreed) {
            return Err(RequestError::Invalid);
        }
        match self.kind {
            READ => self.read_command(export),
            WRITE => self.write_command(export),
            FLUSH => self.flush_command(),
            TRIM => self.trim_command(export),
            CACHE => self.cache_command(export),
            WRITE_ZEROES => self.zero_command(export),
            BLOCK_STATUS if agreed.status => self.status_command(export),
            _ => Err(RequestError::Invalid),
        }
    }

    // A READ must be of at most `MOST_LENGTH` bytes within the export.
    fn read_command(self, export: &Export<'_>) -> Result<Command, RequestError>
        ensures value { result ≡ read_command (export_record export.now) self }
        ensures within { IfOk result (IsWithin (export_record export.now)) }
    {
        let Header { offset, length, .. } = self;
        if length > MOST_LENGTH || ends_past(export.size, offset, length) {
            return Err(RequestError::Invalid);
        }
        Ok(Command::Read { offset, length })
    }

    // A WRITE must be of at most `MOST_LENGTH` bytes within the export, which must be writable.
    fn write_command(self, export: &Export<'_>) -> Result<Command, RequestError>
        ensures value { result ≡ write_command (export_record export.now) self }
        ensures within { IfOk result (IsWithin (export_record export.now)) }
    {
        let Header { offset, length, .. } = self;
        if length > MOST_LENGTH {
            return Err(RequestError::Invalid);
        }
        let fua = self.has_fua();
        let write = Command::Write {
            offset,
            length,
            fua,
        };
        self.changing(export, RequestError::NoSpace, Ok(write))
    }

    // A WRITE_ZEROES must be within the export, which must be writable.
    fn zero_command(self, export: &Export<'_>) -> Result<Command, RequestError>
        ensures value { result ≡ zero_command (export_record export.now) self }
        ensures within { IfOk result (IsWithin (export_record export.now)) }
    {
        let Header { offset, length, .. } = self;
        let zero = Command::Zero {
            offset,
            length,
            fua: self.has_fua(),
            fast: self.flags >= FAST_ZERO,
        };
        self.changing(export, RequestError::NoSpace, Ok(zero))
    }

    // A TRIM is a hint: it is checked, and does nothing.
    fn trim_command(self, export: &Export<'_>) -> Result<Command, RequestError>
        ensures value { result ≡ trim_command (export_record export.now) self }
        ensures within { IfOk result (IsWithin (export_record export.now)) }
    {
        self.changing(export, RequestError::Invalid, Ok(Command::Hint))
    }

    // A CACHE must be within the export.
    fn cache_command(self, export: &Export<'_>) -> Result<Command, RequestError>
        ensures value { result ≡ cache_command (export_record export.now) self }
        ensures within { IfOk result (IsWithin (export_record export.now)) }
    {
        if ends_past(export.size, self.offset, self.length) {
            return Err(RequestError::Invalid);
        }
        let Header { offset, length, .. } = self;
        Ok(Command::Cache { offset, length })
    }

    // A BLOCK_STATUS must be of at least one byte, within the export.
    fn status_command(self, export: &Export<'_>) -> Result<Command, RequestError>
        ensures value { result ≡ status_command (export_record export.now) self }
        ensures within { IfOk result (IsWithin (export_record export.now)) }
    {
        let Header { offset, length, .. } = self;
        if length == 0 || ends_past(export.size, offset, length) {
            return Err(RequestError::Invalid);
        }
        let one = self.flags >= REQUEST_ONE;
        Ok(Command::Status {
            offset,
            length,
            one,
        })
    }

    // Returns `command` if the export is writable and the bytes are within it. The error is `past` if they end past it.
    fn changing(
        self,
        export: &Export<'_>,
        past: RequestError,
        command: Result<Command, RequestError>,
    ) -> Result<Command, RequestError>
        ensures value { result ≡ changing (export_record export.now) self past command }
        ensures within { IfOk result (λ _. (self.offset + self.length ≤ export.now.size) × IsTrue export.now.writable) }
    {
        let Header { offset, length, .. } = self;
        if !export.writable {
            return Err(RequestError::NotPermitted);
        }
        if ends_past(export.size, offset, length) {
            return Err(past);
        }
        command
    }

    // A FLUSH must have offset 0 and length 0.
    fn flush_command(self) -> Result<Command, RequestError>
        ensures { result ≡ flush_command self }
    {
        if self.offset != 0 || self.length != 0 {
            return Err(RequestError::Invalid);
        }
        Ok(Command::Flush)
    }
}

// Whether the bytes end past `size`.
fn ends_past(size: u64, offset: u64, length: u32) -> bool
    ensures { result ≡ nat_lt size (offset + length) }
{
    let length = u64::from(length);
    length > size || offset > size - length
}
