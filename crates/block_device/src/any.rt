//! A device in memory or in a file.
ghost use Rattle.std.specs.Prelude.{◌≡◌, refl, is_ok, IsOk, IsTrue, OnErr, OnOk};
ghost use Rattle.block_device.specs.Call.{DeviceDoes, Sync};
ghost use Rattle.block_device.specs.Calls.{DeviceFailsToSync, DeviceSyncs};
ghost use Rattle.block_device.specs.Any.{any_id};
ghost use Rattle.block_device.specs.Counters.{capped-fits};
ghost use Rattle.block_device.specs.Faithful.{whole_held};
ghost use Rattle.block_device.specs.FileId.{file_of};
ghost use Rattle.block_device.specs.Whole.{whole_bytes};
ghost use Rattle.block_device.specs.declared.any.AnyDev.TheVariants.{Memory, File};

use crate::{BlockDev, DeviceFault, FileDev, FileId, MemoryDev, SyncDev};

/// A device in memory or in a file: what it holds decides everything.
#[derive(Drop)]
pub enum AnyDev {
    Memory(MemoryDev),
    File(FileDev),
}

impl AnyDev {
    /// Returns the identity of its file, or `None` if it isn't a file or the runtime reports none.
    pub fn id(&self) -> Option<FileId>
        ensures { result ≡ any_id self.now }
    {
        match self {
            AnyDev::Memory(_) => None,
            AnyDev::File(file) => file.id(),
        }
    }
}

impl BlockDev for AnyDev {
    ghost state = { elim [ Memory m ↦ ⟦<MemoryDev as BlockDev>⟧.state m | File f ↦ ⟦<FileDev as BlockDev>⟧.state f ] };

    ghost gives = { elim [ Memory m ↦ ⟦<MemoryDev as BlockDev>⟧.gives m | File f ↦ ⟦<FileDev as BlockDev>⟧.gives f ] };

    ghost does = { elim [ Memory m ↦ λ call. elim [ Memory n ↦ ⟦<MemoryDev as BlockDev>⟧.does m call n | File f ↦ ⊥ ] | File f ↦ λ call. elim [ Memory m ↦ ⊥ | File g ↦ ⟦<FileDev as BlockDev>⟧.does f call g ] ] };

    ghost whole = { elim [ Memory m ↦ whole_bytes (⟦<MemoryDev as BlockDev>⟧.state m) m.bytes.items refl refl | File f ↦ whole_held (⟦<AnyDev as BlockDev>⟧.state (File f)) (file_of f) refl ] };

    ghost counters = { elim [ Memory m ↦ record { reads = capped-fits m.reads; writes = capped-fits m.writes; failures = capped-fits 0 } | File f ↦ record { reads = capped-fits f.reads; writes = capped-fits f.writes; failures = capped-fits f.failures } ] };

    fn sectors(&self) -> u64 {
        match self {
            AnyDev::Memory(memory) => memory.sectors(),
            AnyDev::File(file) => file.sectors(),
        }
    }

    fn writable(&self) -> bool {
        match self {
            AnyDev::Memory(memory) => memory.writable(),
            AnyDev::File(file) => file.writable(),
        }
    }

    fn read(&mut self, first: u64, out: &mut [u8]) -> Result<(), DeviceFault> {
        match self {
            AnyDev::Memory(memory) => memory.read(first, out),
            AnyDev::File(file) => file.read(first, out),
        }
    }

    fn write(&mut self, first: u64, bytes: &[u8]) -> Result<(), DeviceFault> {
        match self {
            AnyDev::Memory(memory) => memory.write(first, bytes),
            AnyDev::File(file) => file.write(first, bytes),
        }
    }

    fn reads(&self) -> u64 {
        match self {
            AnyDev::Memory(memory) => memory.reads(),
            AnyDev::File(file) => file.reads(),
        }
    }

    fn writes(&self) -> u64 {
        match self {
            AnyDev::Memory(memory) => memory.writes(),
            AnyDev::File(file) => file.writes(),
        }
    }

    fn failures(&self) -> u64 {
        match self {
            AnyDev::Memory(memory) => memory.failures(),
            AnyDev::File(file) => file.failures(),
        }
    }

    fn lacked_space(&self) -> bool {
        match self {
            AnyDev::Memory(memory) => memory.lacked_space(),
            AnyDev::File(file) => file.lacked_space(),
        }
    }
}

impl SyncDev for AnyDev {
    fn is_dirty(&self) -> bool {
        match self {
            AnyDev::Memory(memory) => memory.is_dirty(),
            AnyDev::File(file) => file.is_dirty(),
        }
    }

    // It stays the file that it is.
    fn sync(&mut self) -> Result<(), DeviceFault>
        ensures ok { OnOk result (DeviceSyncs ⟦<AnyDev as BlockDev>⟧.state self.old self.new) }
        ensures err { OnErr result (DeviceFailsToSync ⟦<AnyDev as BlockDev>⟧.state self.old self.new) }
        ensures call { DeviceDoes ⟦<AnyDev as BlockDev>⟧.state ⟦<AnyDev as BlockDev>⟧.does self.old (Sync (is_ok result)) self.new }
        ensures sure { IsTrue (⟦<AnyDev as BlockDev>⟧.state self.old).never_fails → IsOk result }
        ensures same { any_id self.new ≡ any_id self.old }
    {
        match self {
            AnyDev::Memory(memory) => memory.sync(),
            AnyDev::File(file) => file.sync(),
        }
    }
}
