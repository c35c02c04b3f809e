//! A device in a file.
ghost use Rattle.std.specs.Prelude.{◌≡◌, ◌≤◌, ◌^◌, ◌/◌, ◌↔◌, length, false, refl, is_ok, IfOk, IfErr, IfSome, IsOk, IsTrue, OnErr, OnOk, Ok};
ghost use Rattle.std.specs.Fs.{metadata_len, file_type, IsFile};
ghost use Rattle.block_device.specs.Call.{DeviceDoes, Read, Sync, Write};
ghost use Rattle.block_device.specs.Calls.{DeviceFails, DeviceFailsToSync, DeviceGives, DevicePuts, DeviceReads, DeviceSyncs, DeviceWrites};
ghost use Rattle.block_device.specs.Counters.{capped-fits};
ghost use Rattle.block_device.specs.Device.{IsInside, capped};
ghost use Rattle.block_device.specs.File.{HasSectors, IsOpened, IsRefused, IsImage, IsBlockDevice};
ghost use Rattle.block_device.specs.Identity.{IsToldId};
ghost use Rattle.block_device.specs.Faithful.{held_by, is_faithful, whole_held};

use crate::file_calls::{
    end_of, is_lack_of_space, metadata_at, metadata_of, open_at, read_at, resize_file, sync_all,
    write_at,
};
use crate::file_lock::FileLock;
use crate::{BlockDev, DeviceFault, FileId, OpenFault, SyncDev};
use std::fs::{File, Metadata};
use std::io::Seek;
use std::os::unix::fs::MetadataExt;
use std::rt::Files;

const MAX_SECTORS: u64 = 1 << 54;

// The bits of a mode that state what kind of file it is, and those of a block device.
const KIND_BITS: u32 = 0o170_000;

const BLOCK_DEVICE: u32 = 0o060_000;

/// A file or a block device as sectors, of which a trailing part of a sector isn't seen. The size is taken when
/// it is opened.
///
/// A device whose sync failed stays failed: later syncs fail too, since the system reports once that writes were lost.
///
/// Reads and writes are positioned: no call moves a position that another one uses. Short ones are continued
/// by the standard library. No contract says that a file returns what was written to it: the device is steady if the file is
/// faithful (`specs/Faithful`), which is an assumption. Tests over real files show that bytes
/// written are read back, that a trailing part stays as it is, and that no failure is counted if none came.
#[derive(Drop)]
pub struct FileDev {
    file: File,
    id: Option<FileId>,
    sectors: u64,
    writable: bool,
    dirty: bool,
    has_lost_writes: bool,
    lacked_space: bool,
    reads: u64,
    writes: u64,
    failures: u64,
    ghost small: { sectors ≤ 2 ^ 54 },
}

impl FileDev {
    ghost use Rattle.std.specs.declared.fs.attrs.Metadata.{Metadata};
    ghost use Rattle.block_device.specs.FileCalls.{IsOfFile, IsUnlocked, Opened};
    ghost use Rattle.block_device.specs.FileId.{file_id, file_of};
    ghost use Rattle.block_device.specs.LostWrites.{has_lost_writes};
    ghost use Rattle.block_device.specs.Identity.{IsLongEnough, IsNotLengthened, IsNotShortened, IsOpenedAs, IsShortEnough};
    ghost use Rattle.block_device.specs.Unopened.{IsUnopenedImage};

    /// Opens the file or block device for reading, and for writing too if `writable` is set. That it is an image, its size and its
    /// identity are what the system reports of it.
    ///
    /// # Errors
    ///
    /// `OpenFault` by what the system reports: a call failed, or the file is too large; `OtherFault` for anything else, as a
    /// directory, a pipe or a character device.
    pub fn open<R: Files<File = File>>(
        rt: &R,
        path: &str,
        writable: bool,
    ) -> Result<FileDev, OpenFault>
        ensures state { IfOk result (λ f. IsOpened (⟦<FileDev as BlockDev>⟧.state f) writable) }
        ensures image { IfOk result (λ f. (m : Metadata) × IsOfFile (file_of f) m × IsOpenedAs m (⟦<FileDev as BlockDev>⟧.state f).size (file_id f)) }
        ensures opened { IfOk result (λ f. Opened path.now writable (file_of f) × (has_lost_writes f ≡ false)) }
        ensures err { IfErr result (IsUnopenedImage path.now writable) }
    {
        // Opening a pipe would wait for its other end, so what is no image is refused before.
        let said = metadata_at(rt, path)?;
        if !is_image(&said) {
            return Err(OpenFault::OtherFault);
        }
        let file = open_at(rt, path, writable)?;
        let metadata = metadata_of(&file)?;
        let sectors = sectors_in(&mut &file, &metadata)?;
        Ok(device_of(file, &metadata, sectors, writable))
    }

    /// Returns the identity of its file, or `None` if the runtime reports none. It never changes.
    pub fn id(&self) -> Option<FileId>
        ensures { result ≡ file_id self.now }
    {
        self.id
    }

    /// Makes a regular file at least so many bytes long. A longer one and a block device stay as they are.
    ///
    /// # Errors
    ///
    /// The fault of what the system answered.
    pub fn lengthen(&mut self, bytes: u64) -> Result<(), OpenFault>
        ensures long { OnOk result (IsLongEnough (file_of self.old) bytes (file_of self.new)) }
        ensures err { IfErr result (IsNotLengthened (file_of self.old) bytes) }
        ensures same { file_id self.new ≡ file_id self.old }
        ensures lost { has_lost_writes self.new ≡ has_lost_writes self.old }
    {
        let metadata = metadata_of(&self.file)?;
        if !metadata.is_file() || metadata.len() >= bytes {
            return Ok(());
        }
        resize_file(&mut self.file, &metadata, bytes)
    }

    /// Makes a regular file at most so many bytes long. A shorter one and a block device stay as they are.
    ///
    /// # Errors
    ///
    /// The fault of what the system answered.
    pub fn shorten(&mut self, bytes: u64) -> Result<(), OpenFault>
        ensures short { OnOk result (IsShortEnough (file_of self.old) bytes (file_of self.new)) }
        ensures err { IfErr result (IsNotShortened (file_of self.old) bytes) }
        ensures same { file_id self.new ≡ file_id self.old }
        ensures lost { has_lost_writes self.new ≡ has_lost_writes self.old }
    {
        let metadata = metadata_of(&self.file)?;
        if !metadata.is_file() || metadata.len() <= bytes {
            return Ok(());
        }
        resize_file(&mut self.file, &metadata, bytes)
    }

    /// Locks the file against other processes that lock it, until the lock is dropped.
    ///
    /// # Errors
    ///
    /// `InUse` if another open of the file holds a lock, else the fault of what the system answered.
    pub fn try_lock(&self) -> Result<FileLock, OpenFault>
        ensures { IfErr result (IsUnlocked (file_of self.now)) }
    {
        FileLock::of(&self.file)
    }
}

pub(crate) fn is_block_device(metadata: &Metadata) -> bool
    ensures { IsTrue result ↔ IsBlockDevice (file_type metadata.now) }
{
    metadata.mode() & KIND_BITS == BLOCK_DEVICE
}

fn is_image(metadata: &Metadata) -> bool
    ensures { IsTrue result ↔ IsImage (file_type metadata.now) }
{
    metadata.is_file() || is_block_device(metadata)
}

// How many whole sectors an open file has: as the system says, or up to a block device's end.
fn sectors_in<S: Seek>(file: &mut S, metadata: &Metadata) -> Result<u64, OpenFault>
    ensures ok { HasSectors metadata.now (S.stream_position file.old) (S.stream_bytes file.old) result }
    ensures err { IfErr result (IsRefused metadata.now) }
{
    let bytes = if metadata.is_file() {
        metadata.len()
    } else if is_block_device(metadata) {
        end_of(file)?
    } else {
        return Err(OpenFault::OtherFault);
    };
    if bytes / 512 > MAX_SECTORS {
        return Err(OpenFault::TooLarge);
    }
    Ok(bytes / 512)
}

// The device of an open file of so many sectors.
fn device_of(file: File, metadata: &Metadata, sectors: u64, writable: bool) -> FileDev
    requires { sectors ≤ 2 ^ 54 }
    ensures state { IsOpened (⟦<FileDev as BlockDev>⟧.state result) writable }
    ensures size { result.sectors ≡ sectors }
    ensures id { IsToldId metadata.now result.id }
    ensures file { (result.file ≡ file) × (result.has_lost_writes ≡ false) }
{
    FileDev {
        file,
        id: FileId::of(metadata),
        sectors,
        writable,
        dirty: false,
        has_lost_writes: false,
        lacked_space: false,
        reads: 0,
        writes: 0,
        failures: 0,
    }
}

impl BlockDev for FileDev {
    ghost use Rattle.block_device.specs.LostWrites.{CallsFile, RecordsSpace, has_lost_writes};

    ghost state = { λ f. record {
      size = f.sectors;
      may_write = f.writable;
      steady = is_faithful f.file;
      never_fails = false;
      dirty = f.dirty;
      image = held_by f.file f.sectors;
      reads = capped f.reads;
      writes = capped f.writes;
      failures = capped f.failures;
      lacked_space = f.lacked_space;
    } };

    ghost gives = { λ f first bytes. Unit {0} };

    ghost does = { λ old call new. CallsFile old call new × RecordsSpace old call new };

    ghost whole = { λ f. whole_held (⟦<FileDev as BlockDev>⟧.state f) f.file refl };

    ghost counters = { λ d. record { reads = capped-fits d.reads; writes = capped-fits d.writes; failures = capped-fits d.failures } };

    fn sectors(&self) -> u64 {
        self.sectors
    }

    fn writable(&self) -> bool {
        self.writable
    }

    fn read(&mut self, first: u64, out: &mut [u8]) -> Result<(), DeviceFault>
        requires { IsInside (⟦<FileDev as BlockDev>⟧.state self.old) first (length out.old) }
        ensures moved { DeviceReads ⟦<FileDev as BlockDev>⟧.state self.old self.new out.old (is_ok result) }
        ensures bytes { OnOk result (DeviceGives ⟦<FileDev as BlockDev>⟧.state self.old first out.old out.new) }
        ensures given { OnOk result (⟦<FileDev as BlockDev>⟧.gives self.old first out.new) }
        ensures call { DeviceDoes ⟦<FileDev as BlockDev>⟧.state ⟦<FileDev as BlockDev>⟧.does self.old (Read first out.new (is_ok result)) self.new }
        ensures sure { IsTrue (⟦<FileDev as BlockDev>⟧.state self.old).never_fails → IsOk result }
        ensures fault { OnErr result (DeviceFails ⟦<FileDev as BlockDev>⟧.state self.old self.new) }
        ensures lost { has_lost_writes self.new ≡ has_lost_writes self.old }
    {
        self.reads = self.reads.saturating_add(out.len() as u64 / 512);
        if read_at(&mut self.file, first, out) {
            return Ok(());
        }
        self.lacked_space = false;
        self.failures = self.failures.saturating_add(1);
        Err(DeviceFault)
    }

    fn write(&mut self, first: u64, bytes: &[u8]) -> Result<(), DeviceFault>
        requires range { IsInside (⟦<FileDev as BlockDev>⟧.state self.old) first (length bytes.now) }
        requires allowed { IsTrue (⟦<FileDev as BlockDev>⟧.state self.old).may_write }
        ensures moved { DeviceWrites ⟦<FileDev as BlockDev>⟧.state self.old self.new first bytes.now (is_ok result) }
        ensures image { OnOk result (DevicePuts ⟦<FileDev as BlockDev>⟧.state self.old self.new first bytes.now) }
        ensures call { DeviceDoes ⟦<FileDev as BlockDev>⟧.state ⟦<FileDev as BlockDev>⟧.does self.old (Write first bytes.now (is_ok result)) self.new }
        ensures sure { IsTrue (⟦<FileDev as BlockDev>⟧.state self.old).never_fails → IsOk result }
        ensures fault { OnErr result (DeviceFails ⟦<FileDev as BlockDev>⟧.state self.old self.new) }
        ensures lost { has_lost_writes self.new ≡ has_lost_writes self.old }
    {
        self.dirty = true;
        self.writes = self.writes.saturating_add(bytes.len() as u64 / 512);
        match write_at(&mut self.file, first, bytes) {
            Ok(()) => Ok(()),
            Err(kind) => {
                self.lacked_space = is_lack_of_space(kind);
                self.failures = self.failures.saturating_add(1);
                Err(DeviceFault)
            }
        }
    }

    fn reads(&self) -> u64 {
        self.reads
    }

    fn writes(&self) -> u64 {
        self.writes
    }

    fn failures(&self) -> u64 {
        self.failures
    }

    fn lacked_space(&self) -> bool {
        self.lacked_space
    }
}

impl SyncDev for FileDev {
    ghost use Rattle.block_device.specs.FileId.{file_id};
    ghost use Rattle.block_device.specs.LostWrites.{FailsForGood};

    fn is_dirty(&self) -> bool {
        self.dirty
    }

    // The system reports once that writes were lost, so no sync after a failed one is taken for a good one.
    fn sync(&mut self) -> Result<(), DeviceFault>
        ensures ok { OnOk result (DeviceSyncs ⟦<FileDev as BlockDev>⟧.state self.old self.new) }
        ensures err { OnErr result (DeviceFailsToSync ⟦<FileDev as BlockDev>⟧.state self.old self.new) }
        ensures call { DeviceDoes ⟦<FileDev as BlockDev>⟧.state ⟦<FileDev as BlockDev>⟧.does self.old (Sync (is_ok result)) self.new }
        ensures sure { IsTrue (⟦<FileDev as BlockDev>⟧.state self.old).never_fails → IsOk result }
        ensures same { file_id self.new ≡ file_id self.old }
        ensures lost { FailsForGood self.old self.new result }
    {
        if self.has_lost_writes {
            self.failures = self.failures.saturating_add(1);
            return Err(DeviceFault);
        }
        if sync_all(&mut self.file) {
            self.dirty = false;
            return Ok(());
        }
        self.has_lost_writes = true;
        self.failures = self.failures.saturating_add(1);
        Err(DeviceFault)
    }
}
