//! An export: a mapped device as a range of bytes.
ghost use Rattle.std.specs.Prelude.{◌≡◌, IfNone, IfSome};
ghost use Rattle.nbd_protocol.specs.Exports.{HasNoExport, IsExport, export_record, has_other, has_writable, is_other, transmission_flags};

use dm_table::{Line, Target};
use stack_config::{Config, DevId};
use stack_rules::Leaf;

// The longest string in bytes that the protocol allows.
const MOST_NAME: usize = 4096;

// The transmission flags.
const HAS_FLAGS: u16 = 1;

const READ_ONLY: u16 = 2;

const SEND_FLUSH: u16 = 4;

const SEND_FUA: u16 = 8;

const SEND_TRIM: u16 = 32;

const SEND_WRITE_ZEROES: u16 = 64;

const SEND_DF: u16 = 128;

const CAN_MULTI_CONN: u16 = 256;

const SEND_CACHE: u16 = 1024;

const SEND_FAST_ZERO: u16 = 2048;

/// A mapped device as a range of bytes.
#[derive(Clone, Copy, Debug, PartialEq, Eq)]
pub struct Export<'a> {
    pub name: &'a [u8],
    pub device: DevId,
    pub size: u64,
    pub writable: bool,
    /// Whether several sessions can open the backing devices at the same time.
    pub shared: bool,
    /// Whether all lines of the device are `verity` lines.
    pub verity: bool,
}

// Whether a backing device is writable.
fn has_writable(leaves: &[Leaf]) -> bool
    ensures { result ≡ has_writable leaves.now }
{
    leaves.iter().any(|leaf| leaf.writable())
}

// Whether a line has another target than `verity`.
fn is_other(line: &Line) -> bool
    ensures { result ≡ is_other line.now }
{
    match line.target {
        Target::Verity(_) => false,
        Target::Linear(_) => true,
        Target::Striped { .. } => true,
        Target::Zero => true,
        Target::Error => true,
        Target::Crypt(_) => true,
        Target::Unstriped(_) => true,
    }
}

// Whether a line has another target than `verity`.
fn has_other(lines: &[Line]) -> bool
    ensures { result ≡ has_other lines.now }
{
    lines.iter().any(|line| is_other(line))
}

impl<'a> Export<'a> {
    /// Returns the export of the mapped device with that name. `None` if no device has the name, the name is longer than 4,096
    /// bytes, or the device's size in bytes doesn't fit in 64 bits.
    pub fn of(config: &Config, name: &'a [u8]) -> Option<Export<'a>>
        ensures none { IfNone result (HasNoExport config.now name.now) }
        ensures some { IfSome result (λ e. IsExport config.now (export_record e) × (e.name ≡ name.entry)) }
    {
        if name.len() > MOST_NAME {
            return None;
        }
        let device = config.device(name)?;
        let size = config.sectors(device).checked_mul(512)?;
        Some(Export {
            name,
            device,
            size,
            writable: config.writable(device),
            shared: !has_writable(config.leaves()),
            verity: !has_other(config.table(device).lines()),
        })
    }

    /// Returns the transmission flags of the export. Each connection is a session with its own cache and its own locks. The
    /// service therefore offers several connections only if no session can write and each can open all backing devices.
    pub fn flags(&self, structured: bool) -> u16
        ensures { result ≡ transmission_flags (export_record self.now) structured }
    {
        let each = HAS_FLAGS + SEND_FLUSH + SEND_FUA + SEND_CACHE;
        let chunks = if structured { SEND_DF } else { 0 };
        let several = if self.shared { CAN_MULTI_CONN } else { 0 };
        if self.writable {
            each + SEND_TRIM + SEND_WRITE_ZEROES + SEND_FAST_ZERO + chunks
        } else {
            each + READ_ONLY + several + chunks
        }
    }
}
