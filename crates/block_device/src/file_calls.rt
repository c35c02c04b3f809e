//! The calls of the operating system on the file of an image, each with evidence that it was made.
ghost use Rattle.std.specs.Prelude.{◌≡◌, ◌≢◌, ◌<◌, ◌*◌, ◌^◌, length, is_ok, IfErr, IfOk, IfSome, OnOk};
ghost use Rattle.std.specs.Fs.{metadata_len};
ghost use Rattle.block_device.specs.Call.{Read, Sync, Write};
ghost use Rattle.block_device.specs.FileCalls.{Called, WasNotResized, WasResized, IsOfFile, IsOfPath, IsOpeningRefused, IsUnsaidOfFile, IsUnsaidOfPath, IsWriteRefused, Opened, OpenedBy, SoughtEnd, Told};
ghost use Rattle.block_device.specs.Space.{is_lack_of_space};

use crate::OpenFault;
use std::fs;
use std::fs::{File, Metadata, OpenFile, OpenOptions};
use std::io::{ErrorKind, Seek, SeekFrom};
use std::os::unix::fs::{FileExt, MetadataExt};
use std::rt::Files;

/// The numbers by which the system distinguishes files: of the device that holds the file's file system, of the file there, and
/// of the block device that the file is. A number that the system doesn't report is 0.
#[derive(Clone, Copy, Debug, PartialEq, Eq)]
pub struct FileNumbers {
    pub device: u64,
    pub inode: u64,
    pub block_device: u64,
}

// Trusted: that the body of each function makes the call that its clause names.

/// What the system says of the file under a path.
///
/// # Errors
///
/// The fault of what the system answered.
pub fn metadata_at<R: Files>(rt: &R, path: &str) -> Result<Metadata, OpenFault>
    ensures ok { IfOk result (λ metadata. IsOfPath path.now metadata) }
    ensures err { IfErr result (IsUnsaidOfPath path.now) }
{
    match fs::metadata(rt, path) {
        Ok(metadata) => Ok(metadata),
        Err(error) => Err(OpenFault::from(error.kind())),
    }
}

/// What the system says of an open file.
///
/// # Errors
///
/// The fault of what the system answered.
pub fn metadata_of(file: &File) -> Result<Metadata, OpenFault>
    ensures ok { IfOk result (λ metadata. IsOfFile file.now metadata) }
    ensures err { IfErr result (IsUnsaidOfFile file.now) }
{
    match file.metadata() {
        Ok(metadata) => Ok(metadata),
        Err(error) => Err(OpenFault::from(error.kind())),
    }
}

// Makes a file so many bytes long, which aren't as many as the system said that it has.
pub(crate) fn resize_file(file: &mut File, metadata: &Metadata, bytes: u64) -> Result<(), OpenFault>
    requires of { IsOfFile file.old metadata.now }
    requires other { metadata_len metadata.now ≢ bytes }
    ensures ok { OnOk result (WasResized file.old bytes file.new) }
    ensures err { IfErr result (WasNotResized file.old bytes) }
{
    // The caller's conditions are those of the call: nothing more is known of a file's length.
    let _ = metadata;
    match file.set_len(bytes) {
        Ok(()) => Ok(()),
        Err(error) => Err(OpenFault::from(error.kind())),
    }
}

// Opens a file by these options.
fn open_by<R: Files<File = File>>(
    rt: &R,
    options: &mut OpenOptions,
    path: &str,
) -> Result<File, ErrorKind>
    ensures { OpenedBy options.old path.now result }
{
    match options.open(rt, path) {
        Ok(file) => Ok(file),
        Err(error) => Err(error.kind()),
    }
}

// Opens a file for reading, and for writing too if `writable` is true.
pub(crate) fn open_at<R: Files<File = File>>(
    rt: &R,
    path: &str,
    writable: bool,
) -> Result<File, OpenFault>
    ensures ok { IfOk result (λ file. Opened path.now writable file) }
    ensures err { IfErr result (IsOpeningRefused path.now writable) }
{
    match open_by(rt, OpenOptions::new().read(true).write(writable), path) {
        Ok(file) => Ok(file),
        Err(kind) => Err(OpenFault::from(kind)),
    }
}

// Returns the number of bytes before the end of a seekable file.
pub(crate) fn end_of<S: Seek>(file: &mut S) -> Result<u64, OpenFault>
    ensures bytes { IfSome (S.stream_position file.old) (λ at. IfSome (S.stream_bytes file.old) (λ bytes. IfOk result (λ n. n ≡ length bytes))) }
    ensures call { SoughtEnd file.old result }
{
    match file.seek(SeekFrom::End(0)) {
        Ok(end) => Ok(end),
        Err(error) => Err(OpenFault::from(error.kind())),
    }
}

// What the system reported of a file.
pub(crate) fn numbers_of(metadata: &Metadata) -> FileNumbers
    ensures { Told metadata.now result }
{
    FileNumbers {
        device: metadata.dev(),
        inode: metadata.ino(),
        block_device: metadata.rdev(),
    }
}

// Fills the buffer from a sector on. Returns whether the system did.
pub(crate) fn read_at(file: &mut File, first: u64, out: &mut [u8]) -> bool
    requires { first * 512 < 2 ^ 64 }
    ensures { Called file.old (Read first out.new result) file.new }
{
    file.read_exact_at(out, first * 512).is_ok()
}

// Writes all the bytes from a sector on, or returns why the system refused.
pub(crate) fn write_at(file: &mut File, first: u64, bytes: &[u8]) -> Result<(), ErrorKind>
    requires { first * 512 < 2 ^ 64 }
    ensures call { Called file.old (Write first bytes.now (is_ok result)) file.new }
    ensures err { IfErr result (IsWriteRefused file.old first bytes.now) }
{
    match file.write_all_at(bytes, first * 512) {
        Ok(()) => Ok(()),
        Err(error) => Err(error.kind()),
    }
}

// Whether the system's reason is that no space is left.
pub(crate) fn is_lack_of_space(kind: ErrorKind) -> bool
    ensures { result ≡ is_lack_of_space kind }
{
    match kind {
        ErrorKind::StorageFull | ErrorKind::QuotaExceeded | ErrorKind::FileTooLarge => true,
        _ => false,
    }
}

// Syncs a file. Returns whether the system did.
pub(crate) fn sync_all(file: &mut File) -> bool
    ensures { Called file.old (Sync result) file.new }
{
    file.sync_all().is_ok()
}
