//! Zeros that must be written faster than other bytes.
ghost use Rattle.std.specs.Prelude.{IsTrue};
ghost use Rattle.nbd_protocol.specs.Exports.{export_record};
ghost use Rattle.stack_rules.specs.Rules.{IsLoaded};
ghost use Rattle.nbd_server.specs.Premises.{AreBytesOf};
ghost use Rattle.nbd_server.specs.Transmission.{IsFast, IsSendable, ServesFastZero, data_outcome};

use crate::extent::{ExtentKind, is_same_kind};
use crate::failure::Failure;
use crate::reply::Data;
use crate::status::bytes_at;
use crate::transmission::zero;
use block_device::SyncDev;
use nbd_protocol::{Export, RequestError};
use request_queue::Queue;
use stack_config::Config;
use std::alloc::Global;

// Whether zeros of a byte range take no write: the range is on `zero` lines. A range of more than 65,536 runs counts as one that isn't.
fn is_fast(config: &Config, export: &Export<'_>, offset: u64, len: u32) -> bool
    requires loaded { IsLoaded config.now }
    requires bytes { AreBytesOf config.now (export_record export.now) offset len }
    ensures { IsFast config.now (export_record export.now) offset len result }
{
    if len == 0 {
        return true;
    }
    let extent = bytes_at(config, export, offset, len);
    if !is_same_kind(extent.kind, ExtentKind::Zeros) {
        return false;
    }
    if extent.count < len {
        return false;
    }
    true
}

/// Serves a WRITE_ZEROES that must be faster than a WRITE.
pub(crate) fn zero_fast<D: SyncDev>(
    alloc: Global,
    queue: &mut Queue<D>,
    export: &Export<'_>,
    offset: u64,
    len: u32,
    fua: bool,
) -> Result<Data, Failure>
    requires bytes { AreBytesOf queue.old.stack.config (export_record export.now) offset len }
    requires allowed { IsTrue export.now.writable }
    ensures value { ServesFastZero (export_record export.now) queue.old offset len fua (data_outcome result) queue.new }
    ensures inside { IsSendable result }
{
    if !is_fast(queue.stack().config(), export, offset, len) {
        return Err(Failure::Refused(RequestError::NotSupported));
    }
    zero(alloc, queue, export, offset, len, fua)
}
