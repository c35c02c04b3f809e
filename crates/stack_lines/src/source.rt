//! Where the sectors of a device come from and go to.
use dm_table::Verity;
use stack_config::{DevId, Lower};
use stack_meaning::CryptUnits;
use xts_sector::XtsKey;

/// What gives and takes the sectors of a run, from its first to its last alike.
#[derive(Clone, Copy)]
pub enum Source<'a> {
    /// The sectors of a leaf or device, from that one on.
    Below { lower: Lower, first: u64 },
    /// Whole units of a `crypt` line.
    Units(CryptPart<'a>),
    /// Sectors of one unit of a `crypt` line.
    UnitPart(CryptPart<'a>),
    /// Zeros; what is written is dropped.
    Zeros,
    /// No sectors: an `error` line, where writes fail too.
    Fails,
    /// Sectors of one data block of a `verity` line, which is never written.
    Block(VerityPart<'a>),
    /// Whole data blocks of a `verity` line, which are never written.
    Blocks(VerityPart<'a>),
}

/// The sectors of a `crypt` line from that one on, with all of the line that a run uses: its units, its key made ready, and
/// the device beneath. Sectors of a line count from 0.
#[derive(Clone, Copy)]
pub struct CryptPart<'a> {
    pub units: CryptUnits,
    pub key: &'a XtsKey,
    pub lower: Lower,
    pub first: u64,
}

/// The sectors of a `verity` line from that one on, with what a read uses of the line: its place, its arguments, and the
/// devices of its data blocks, of its hash blocks, and of its parity if it has some. Lines of a device and sectors of a
/// line count from 0.
#[derive(Clone, Copy)]
pub struct VerityPart<'a> {
    pub device: DevId,
    pub line: u32,
    pub verity: &'a Verity,
    pub data: Lower,
    pub hash: Lower,
    pub parity: Option<Lower>,
    pub first: u64,
}

/// So many sectors of a device, in one line.
#[derive(Clone, Copy)]
pub struct Run<'a> {
    pub source: Source<'a>,
    pub count: u64,
}
