//! Block status: which bytes of the export the lines make zeros, and which must be read for it.
ghost use Rattle.std.specs.Prelude.{◌≡◌, ◌<◌, ◌≤◌, ◌++◌, length, IfOk, OnErr, OnOk};
ghost use Rattle.allocation.specs.Refusal.{IsOutOfMemory};
ghost use Rattle.nbd_protocol.specs.Exports.{export_record};
ghost use Rattle.nbd_protocol.specs.Numbers.{bytes32};
ghost use Rattle.stack_rules.specs.Rules.{IsLoaded};
ghost use Rattle.nbd_server.specs.declared.extent.ExtentKind.TheVariants as known;
ghost use Rattle.nbd_server.specs.Premises.{AreBytesOf};
ghost use Rattle.nbd_server.specs.Extents.{is_same_kind, most_runs};
ghost use Rattle.nbd_server.specs.Status.{IsByteExtent, IsJoinedExtent, IsLineStatus, IsStatus, IsStatusOfLines, descriptor, status_flags};

use crate::byte_range::touched;
use crate::extent::{ExtentKind, MOST_RUNS, extent_at, is_same_kind};
use allocation::{OutOfMemory, append};
use nbd_protocol::Export;
use stack_config::Config;
use std::alloc::Global;

/// The most extents in one reply.
pub(crate) const MOST_EXTENTS: usize = 1024;

// The flags of an extent.
const HOLE: u32 = 1;

const ZERO: u32 = 2;

/// A number of bytes, all of which are zeros, or of which this isn't known.
#[derive(Clone, Copy, Debug, PartialEq, Eq)]
pub(crate) struct BlockStatus {
    pub(crate) count: u32,
    pub(crate) zeros: bool,
}

impl BlockStatus {
    fn flags(self) -> u32
        ensures { result ≡ status_flags self.zeros }
    {
        if self.zeros { HOLE + ZERO } else { 0 }
    }
}

/// A number of bytes of one kind, by what is known before they are read.
#[derive(Clone, Copy, Debug, PartialEq, Eq)]
pub(crate) struct ByteExtent {
    pub(crate) count: u32,
    pub(crate) kind: ExtentKind,
}

impl ByteExtent {
    // The status of the bytes: only zeros of the lines are reported as zeros.
    fn status(self) -> BlockStatus
        ensures count { result.count ≡ self.count }
        ensures zeros { result.zeros ≡ is_same_kind self.kind known.Zeros }
    {
        BlockStatus {
            count: self.count,
            zeros: is_same_kind(self.kind, ExtentKind::Zeros),
        }
    }
}

// Returns the extent of at most `left` bytes of the export, from `at` on, and how many more runs may be joined. It joins up to
// `runs` runs.
fn joined_at(
    config: &Config,
    export: &Export<'_>,
    at: u64,
    left: u32,
    runs: u32,
) -> (ByteExtent, u32)
    requires loaded { IsLoaded config.now }
    requires bytes { AreBytesOf config.now (export_record export.now) at left }
    requires some { (0 < left) × (0 < runs) }
    ensures { IsJoinedExtent config.now (export_record export.now) runs at left result.0 result.1 }
{
    let sectors = touched(at, left) as u64;
    let (extent, rest) = extent_at(config, export.device, at / 512, sectors, runs);
    let count = (512 * extent.count - at % 512).min(u64::from(left));
    let bytes = ByteExtent {
        count: count as u32,
        kind: extent.kind,
    };
    (bytes, rest)
}

/// Returns the extent of at most `left` bytes of the export, from `at` on.
pub(crate) fn bytes_at(config: &Config, export: &Export<'_>, at: u64, left: u32) -> ByteExtent
    requires loaded { IsLoaded config.now }
    requires bytes { AreBytesOf config.now (export_record export.now) at left }
    requires some { 0 < left }
    ensures { IsByteExtent config.now (export_record export.now) most_runs at left result }
{
    let (extent, _) = joined_at(config, export, at, left, MOST_RUNS);
    extent
}

/// Returns the status of at most `left` bytes of the export, from `at` on. Nothing is read.
pub(crate) fn status_at(config: &Config, export: &Export<'_>, at: u64, left: u32) -> BlockStatus
    requires loaded { IsLoaded config.now }
    requires bytes { AreBytesOf config.now (export_record export.now) at left }
    requires some { 0 < left }
    ensures { IsStatus (IsLineStatus config.now (export_record export.now) at) at left result }
{
    bytes_at(config, export, at, left).status()
}

// Returns a number in network byte order.
#[tactic(auto, unfolding(nbd_protocol::specs::Numbers::bytes32))]
fn bytes_of(number: u32) -> [u8; 4]
    ensures { result ≡ bytes32 number }
{
    number.to_be_bytes()
}

/// Appends the descriptor of an extent.
///
/// # Errors
///
/// `OutOfMemory` if the allocator refused memory for the descriptor.
pub(crate) fn push_status(told: &mut Vec<u8>, status: BlockStatus) -> Result<(), OutOfMemory>
    ensures ok { OnOk result (told.new.items ≡ told.old.items ++ descriptor status) }
    ensures err { OnErr result (IsOutOfMemory 4) }
{
    append(told, &bytes_of(status.count))?;
    append(told, &bytes_of(status.flags()))
}

/// Returns the descriptor of the first extent.
///
/// # Errors
///
/// `OutOfMemory` if the allocator refused memory for the descriptor.
pub(crate) fn first_status(alloc: Global, status: BlockStatus) -> Result<Vec<u8>, OutOfMemory>
    ensures ok { IfOk result (λ told. told.items ≡ descriptor status) }
    ensures err { OnErr result (IsOutOfMemory 4) }
{
    let mut told = Vec::new(alloc);
    push_status(&mut told, status)?;
    Ok(told)
}

/// Returns the status of a byte range without reading it, in at most 1,024 extents that join at most 65,536 runs. If `one` is set,
/// only the first extent is reported.
///
/// Extents after the first end before `verity` lines that ignore blocks of zeros.
///
/// # Errors
///
/// `OutOfMemory` if the allocator refused memory for a descriptor.
pub(crate) fn status_of(
    alloc: Global,
    config: &Config,
    export: &Export<'_>,
    offset: u64,
    len: u32,
    one: bool,
) -> Result<Vec<u8>, OutOfMemory>
    requires loaded { IsLoaded config.now }
    requires bytes { AreBytesOf config.now (export_record export.now) offset len }
    requires some { 0 < len }
    ensures ok { IfOk result (IsStatusOfLines config.now (export_record export.now) offset len one) }
    ensures err { OnErr result (IsOutOfMemory 4) }
{
    let (first, mut runs) = joined_at(config, export, offset, len, MOST_RUNS);
    let mut told = first_status(alloc, first.status())?;
    if one {
        return Ok(told);
    }
    let mut done = first.count;
    for _extent in 1..MOST_EXTENTS {
        if done == len {
            return Ok(told);
        }
        if runs == 0 {
            return Ok(told);
        }
        let at = offset + u64::from(done);
        let (extent, rest) = joined_at(config, export, at, len - done, runs);
        if is_same_kind(extent.kind, ExtentKind::IgnoresZeros) {
            return Ok(told);
        }
        let status = extent.status();
        push_status(&mut told, status)?;
        done += status.count;
        runs = rest;
    }
    Ok(told)
}
