//! The master boot record of a disk.
ghost use Rattle.std.specs.Prelude.{◌≡◌, ◌+◌, ◌≤◌, ◌<◌, length};
ghost use Rattle.block_device.specs.Call.{DeviceDoes};
ghost use Rattle.block_device.specs.Device.{Device};
ghost use Rattle.partition_table.specs.Disks.{IsDiskOn};
ghost use Rattle.partition_table.specs.Mbrs.{has_protective, has_records, is_alone, is_protective, is_record_used, is_signed, is_zero, mbr_of, record_type};
ghost use Rattle.partition_table.specs.Reads.{IsReadAtMost};
ghost use Rattle.partition_table.specs.TableCalls.{CallsMbr};
ghost use Rattle.partition_table.specs.Tables.{IsMbr};

use crate::Disk;
use crate::copy::read_sectors;
use crate::fields::number32;
use block_device::BlockDev;
use std::alloc::Global;

const SIGNATURE: u32 = 0xaa55;

const PROTECTIVE: u32 = 0xee;

/// The kind of master boot record in sector 0 of a disk with a GUID partition table.
#[derive(Clone, Copy, Debug, PartialEq, Eq)]
pub enum Mbr {
    /// One record has the type 0xEE and begins at sector 1; the other three are zeros.
    Protective,
    /// There is no master boot record, or all its records are unused.
    Missing,
    /// Other records are used, as in a hybrid master boot record.
    Foreign,
    /// The device failed, or an allocation failed.
    Unread,
}

/// Reads the master boot record of a disk and classifies it.
pub(crate) fn read_mbr<D: BlockDev>(alloc: Global, device: &mut D, disk: Disk) -> Mbr
    requires on { IsDiskOn (D.state device.old) disk }
    requires some { 0 < disk.sectors }
    ensures read { IsReadAtMost (D.state device.old) 8 (D.state device.new) }
    ensures value { IsMbr (D.state device.old) (D.state device.new) disk result }
    ensures calls { CallsMbr (DeviceDoes D.state D.does) disk device.old device.new result }
{
    match read_sectors(alloc, device, disk, 0, 1) {
        Ok(bytes) => mbr_of(&bytes),
        Err(_) => Mbr::Unread,
    }
}

// Classifies the bytes of sector 0.
#[tactic(auto, unfolding(crate::specs::Mbrs::mbr_of))]
fn mbr_of(bytes: &[u8]) -> Mbr
    requires { 512 ≤ length bytes.now }
    ensures { result ≡ mbr_of bytes.now }
{
    if number32(bytes, 508) / 65536 == SIGNATURE && has_records(bytes) {
        if has_protective(bytes) {
            Mbr::Protective
        } else {
            Mbr::Foreign
        }
    } else {
        Mbr::Missing
    }
}

fn record_type(bytes: &[u8], at: usize) -> u32
    requires { at + 8 ≤ length bytes.now }
    ensures { result ≡ record_type bytes.now at }
{
    number32(bytes, at + 4) % 256
}

#[tactic(auto, unfolding(crate::specs::Mbrs::is_protective))]
fn is_protective(bytes: &[u8], at: usize) -> bool
    requires { at + 16 ≤ length bytes.now }
    ensures { result ≡ is_protective bytes.now at }
{
    record_type(bytes, at) == PROTECTIVE && number32(bytes, at + 8) == 1
}

#[tactic(auto, unfolding(crate::specs::Mbrs::is_zero))]
fn is_zero(bytes: &[u8], at: usize) -> bool
    requires { at + 16 ≤ length bytes.now }
    ensures { result ≡ is_zero bytes.now at }
{
    &bytes[at..at + 16] == [0; 16].as_slice()
}

#[tactic(auto, unfolding(crate::specs::Mbrs::is_record_used))]
fn is_record_used(bytes: &[u8], at: usize) -> bool
    requires { at + 16 ≤ length bytes.now }
    ensures { result ≡ is_record_used bytes.now at }
{
    record_type(bytes, at) != 0
}

// Returns whether one of the four records is used.
#[tactic(auto, unfolding(crate::specs::Mbrs::has_records))]
fn has_records(bytes: &[u8]) -> bool
    requires { 512 ≤ length bytes.now }
    ensures { result ≡ has_records bytes.now }
{
    is_record_used(bytes, 446)
        || is_record_used(bytes, 462)
        || is_record_used(bytes, 478)
        || is_record_used(bytes, 494)
}

// Returns whether the record at `at` is protective and the other three are zeros.
fn is_alone(bytes: &[u8], at: usize, a: usize, b: usize, c: usize) -> bool
    requires at { at + 16 ≤ length bytes.now }
    requires others { (a + 16 ≤ length bytes.now) × (b + 16 ≤ length bytes.now) × (c + 16 ≤ length bytes.now) }
    ensures { result ≡ is_alone bytes.now at a b c }
{
    is_protective(bytes, at) && is_zero(bytes, a) && is_zero(bytes, b) && is_zero(bytes, c)
}

// Returns whether one of the four records is protective and the other three are zeros.
#[tactic(auto, unfolding(crate::specs::Mbrs::has_protective))]
fn has_protective(bytes: &[u8]) -> bool
    requires { 512 ≤ length bytes.now }
    ensures { result ≡ has_protective bytes.now }
{
    is_alone(bytes, 446, 462, 478, 494)
        || is_alone(bytes, 462, 446, 478, 494)
        || is_alone(bytes, 478, 446, 462, 494)
        || is_alone(bytes, 494, 446, 462, 478)
}
