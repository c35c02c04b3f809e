//! Images in files.
ghost use Rattle.std.specs.Prelude.{◌≡◌, ◌≤◌, ◌↔◌, codes, false, length, IsTrue, OnErr, OnOk, IfErr, IfOk};
ghost use Rattle.block_device.specs.Any.{any_id, any_opened};
ghost use Rattle.block_device.specs.File.{IsOpened};
ghost use Rattle.block_device.specs.FileCalls.{Opened};
ghost use Rattle.block_device.specs.FileId.{file_id, file_of};
ghost use Rattle.block_device.specs.LostWrites.{has_lost_writes};
ghost use Rattle.image_files.specs.FileLocks.{IsUnopenedFile, Locks, LocksAtMost};
ghost use Rattle.image_files.specs.FileRelations.{IsReadingFault};
ghost use Rattle.image_files.specs.Sizes.{IsSized, any_sized};

use crate::calls::FileCalls;
use crate::file_locks::FileLocks;
use crate::file_texts::FileTexts;
use crate::growing::make_file;
use crate::images::{FileText, Images, OpenImage};
use crate::one_place::is_one_place;
use crate::parts::PartFault;
use crate::system_calls::open_to_read;
use crate::texts::{ReplaceFault, Texts};
use block_device::{
    AnyDev, BlockDev, DeviceFault, FileDev, FileId, MemoryDev, OpenFault, SyncDev, metadata_at,
    metadata_of,
};
use device_adapters::{
    Lacking, OutsideDevice, Part, Window, lacking_window, part_window, whole_window,
};
use std::alloc::Global;
use std::fs::File;
use std::io::{ErrorKind, Read};
use std::rt::Files;

// The text under this path is the standard input's.
const INPUT: &str = "-";

const SECTOR: u64 = 512;

const MAX_SECTORS: u64 = 1 << 54;

fn is_input(path: &str) -> bool
    ensures { IsTrue result ↔ (path.now ≡ codes "-") }
{
    path == INPUT
}

// At most so many first bytes of what can be read.
fn first_bytes<S: Read + Drop>(alloc: Global, source: S, most: usize) -> Result<Vec<u8>, OpenFault>
    ensures most { IfOk result (λ bytes. length bytes.items ≤ most) }
    ensures err { IfErr result IsReadingFault }
{
    let mut bytes = Vec::new(alloc);
    match source.take(most as u64).read_to_end(&mut bytes) {
        Ok(_) if bytes.len() <= most => Ok(bytes),
        Err(error) if error.kind() == ErrorKind::OutOfMemory => Err(OpenFault::NoMemory),
        _ => Err(OpenFault::OtherFault),
    }
}

// A file as a device. One that may be written is locked.
fn open_file<R: Files<File = File>>(
    rt: &R,
    locks: &mut FileLocks,
    path: &str,
    writable: bool,
) -> Result<FileDev, OpenFault>
    ensures state { IfOk result (λ f. IsOpened (⟦<FileDev as BlockDev>⟧.state f) writable) }
    ensures size { IfOk result (λ f. IsSized f (⟦<FileDev as BlockDev>⟧.state f).size) }
    ensures locked { IfOk result (λ f. Locks writable (file_id f) locks.old.files.items locks.new.files.items × Opened path.now writable (file_of f) × (has_lost_writes f ≡ false)) }
    ensures same { OnErr result (locks.new.files.items ≡ locks.old.files.items) }
    ensures err { IfErr result (IsUnopenedFile path.now writable) }
{
    let file = FileDev::open(rt, path, writable)?;
    if writable {
        locks.lock(&file)?;
    }
    Ok(file)
}

/// Images in files, under their paths; the text under `-` is the standard input's. Each file that is opened for writing, or
/// resized, stays locked against other processes as long as these live.
#[derive(Drop)]
pub struct FileImages<'a, R, C> {
    rt: &'a R,
    locks: FileLocks,
    texts: FileTexts<C>,
}

impl<'a, R: AllocGlobal, C> FileImages<'a, R, C> {
    /// Opens files of `rt`, and makes and replaces files by `calls`.
    pub fn new(rt: &'a R, calls: C) -> FileImages<'a, R, C> {
        let locks = FileLocks::new(rt.alloc());
        let texts = FileTexts::new(rt.alloc(), calls);
        FileImages { rt, locks, texts }
    }
}

impl<R: Files<File = File> + AllocGlobal + Input, C: FileCalls> Images for FileImages<'_, R, C> {
    ghost use Rattle.device_adapters.specs.Lacking.{parts_in};
    ghost use Rattle.image_files.specs.FileRelations.{file_relations};
    ghost use Rattle.image_files.specs.SystemFiles.{IsOpenText, IsUnopenedText};
    ghost use Rattle.image_files.specs.declared.system_calls.SystemCalls.{SystemCalls};

    type Dev = Window<Lacking<AnyDev>>;

    ghost relations = { file_relations (record {
      state = ⟦<Window<Lacking<AnyDev>> as BlockDev>⟧.state;
      id = λ window. any_id window.inner.inner;
      opened = λ window. any_opened window.inner.inner;
      locked = λ images. images.locks.files.items;
      whole = λ window. ⟦<Lacking<AnyDev> as BlockDev>⟧.state window.inner;
      sized = λ window sectors. any_sized window.inner.inner sectors;
      lost = λ window. parts_in window.inner.lost;
      read = IsOpenText (SystemCalls R);
      unread = IsUnopenedText (SystemCalls R);
      relations = C.relations;
      calls = λ images. images.texts.calls;
    }) };

    #[tactic(auto, using(crate::proofs::FileLemmas::made))]
    fn open(
        &mut self,
        path: &str,
        writable: bool,
    ) -> Result<OpenImage<Window<Lacking<AnyDev>>>, OpenFault> {
        let file = open_file(self.rt, &mut self.locks, path, writable)?;
        let id = file.id();
        Ok(OpenImage {
            device: whole_window(AnyDev::File(file)),
            id,
        })
    }

    #[tactic(auto, using(crate::proofs::FileLemmas::made))]
    fn open_part(
        &mut self,
        path: &str,
        writable: bool,
        part: Part,
    ) -> Result<OpenImage<Window<Lacking<AnyDev>>>, PartFault> {
        let file = open_file(self.rt, &mut self.locks, path, writable)?;
        let id = file.id();
        match part_window(AnyDev::File(file), part) {
            Ok(device) => Ok(OpenImage { device, id }),
            Err(OutsideDevice) => Err(PartFault::Outside),
        }
    }

    #[tactic(auto, using(crate::proofs::FileLemmas::made))]
    fn narrow(&mut self, device: Window<Lacking<AnyDev>>, part: Part) -> Window<Lacking<AnyDev>> {
        device.narrow(part)
    }

    #[tactic(auto, using(crate::proofs::FileLemmas::made))]
    fn without(
        &mut self,
        device: Window<Lacking<AnyDev>>,
        lost: Vec<Part>,
    ) -> Window<Lacking<AnyDev>> {
        lacking_window(device, lost)
    }

    // A file of any kind that can be read, or the standard input.
    #[tactic(auto, using(crate::proofs::FileLemmas::made))]
    fn read_text(&mut self, path: &str, most: usize) -> Result<FileText, OpenFault> {
        if is_input(path) {
            let bytes = first_bytes(self.rt.alloc(), self.rt.reader(), most)?;
            return Ok(FileText { bytes, id: None });
        }
        let file = open_to_read(self.rt, path)?;
        let id = FileId::of(&metadata_of(&file)?);
        let bytes = first_bytes(self.rt.alloc(), file, most)?;
        Ok(FileText { bytes, id })
    }

    // Its file holds all that there is.
    #[tactic(auto, using(crate::proofs::FileLemmas::made))]
    fn close(&mut self, _path: &str, device: Window<Lacking<AnyDev>>) {
        drop(device);
    }

    #[tactic(auto, using(crate::proofs::FileLemmas::made))]
    fn close_part(&mut self, _path: &str, _part: Part, device: Window<Lacking<AnyDev>>) {
        drop(device);
    }

    // A regular file alone.
    #[tactic(auto, using(crate::proofs::FileLemmas::made))]
    fn grow(&mut self, path: &str, sectors: u64) -> Result<(), OpenFault> {
        match metadata_at(self.rt, path) {
            Ok(metadata) if !metadata.is_file() => return Ok(()),
            Ok(_) | Err(OpenFault::NotFound) => {}
            Err(fault) => return Err(fault),
        }
        if sectors > MAX_SECTORS {
            return Err(OpenFault::TooLarge);
        }
        make_file(&mut self.texts.calls, path)?;
        let mut file = open_file(self.rt, &mut self.locks, path, true)?;
        file.lengthen(sectors * SECTOR)
    }

    // A regular file alone.
    #[tactic(auto, using(crate::proofs::FileLemmas::made))]
    fn shrink(&mut self, path: &str, sectors: u64) -> Result<(), OpenFault> {
        let metadata = metadata_at(self.rt, path)?;
        if !metadata.is_file() {
            return Ok(());
        }
        if sectors > MAX_SECTORS {
            return Err(OpenFault::TooLarge);
        }
        let mut file = open_file(self.rt, &mut self.locks, path, true)?;
        file.shorten(sectors * SECTOR)?;
        match file.sync() {
            Ok(()) => Ok(()),
            Err(DeviceFault) => Err(OpenFault::OtherFault),
        }
    }

    #[tactic(auto, using(crate::proofs::FileLemmas::made))]
    fn has_part_sector(&mut self, path: &str) -> Result<bool, OpenFault> {
        let metadata = metadata_at(self.rt, path)?;
        Ok(metadata.is_file() && metadata.len() % SECTOR != 0)
    }

    #[tactic(auto, using(crate::proofs::FileLemmas::made))]
    fn is_one_place(&mut self, path: &str, other: &str) -> Result<bool, OpenFault> {
        is_one_place(self.rt, &mut self.texts.calls, path, other)
    }

    #[tactic(auto, using(crate::proofs::FileLemmas::made))]
    fn replace(&mut self, path: &str, bytes: &[u8]) -> Result<(), ReplaceFault> {
        self.texts.replace(path, bytes)
    }

    #[tactic(auto, using(crate::proofs::FileLemmas::made))]
    fn try_replace(&mut self, path: &str) -> Result<(), ReplaceFault> {
        self.texts.try_replace(path)
    }

    fn of_memory(memory: MemoryDev) -> Window<Lacking<AnyDev>> {
        whole_window(AnyDev::Memory(memory))
    }
}
