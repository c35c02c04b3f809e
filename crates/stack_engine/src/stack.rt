//! A stack: a configuration, and the devices of its leaves.
ghost use Rattle.std.specs.Prelude.{◌≡◌, ◌<◌, ◌≤◌, ◌+◌, ◌/◌, [], length, map, IsTrue, IsOk, IfOk, IfErr, OnOk, OnErr, None, Some, Ok, Err};
ghost use Rattle.block_device.specs.Device.{capped, synced};
ghost use Rattle.stack_rules.specs.Names.{mapped, size, may_write};
ghost use Rattle.stack_rules.specs.Rules.{after_load, IsRefusal, first_refusal};
ghost use Rattle.stack_rules.specs.Removal.{removal_fault, after_removal};
ghost use Rattle.stack_rules.specs.declared.refusal.Refusal.{Refusal};
ghost use Rattle.stack_rules.specs.Passing.{largest_load_allocation};
ghost use Rattle.allocation.specs.Refusal.{IsOutOfMemory};
ghost use Rattle.stack_meaning.specs.Leaves.{ServeLeaves, reads_of, writes_of};
ghost use Rattle.stack_engine.specs.Bytes.{AnyBytes, SteadyBytes};
ghost use Rattle.stack_engine.specs.KeptBlocks.{AreChecked, ReadKeeps};
ghost use Rattle.stack_engine.specs.Space.{lacks_space};
ghost use Rattle.stack_engine.specs.Stacks.{StackRecord, IsSound};
ghost use Rattle.stack_meaning.specs.Reading.{buffer_answer};
ghost use Rattle.stack_engine.specs.Syncs.{FailsToSync, MakesSyncs, NeverFail};
ghost use Rattle.stack_lines.specs.Budgets.{ReadsAtMost};
ghost use Rattle.stack_engine.specs.Pieces.{AreReadSectors, AnyPiece, SteadyPiece, stack_keeping, stack_over, AreSteadyBeneath, IsCertainPiece, MeetsVerity, piece_budget, PieceGives, PieceStops, ReadRestores, answer_bytes};
ghost use Rattle.stack_engine.specs.WritePieces.{ArePiece, AnyWrite, SteadyWrite, MeetsCrypt, UncutPiece, PieceWrote, PieceNeeded, PieceHands};

use crate::answer::Answer;
use crate::backing::Backing;
use crate::buffer::{bytes_to_encrypt, zero_sectors};
use crate::counters::counted;
use crate::path::Chains;
use crate::read::read_device;
use crate::space::lacked_space;
use crate::sync::sync_leaves;
use crate::write::write_device;
use block_device::{BlockDev, SyncDev};
use dm_table::StackText;
use stack_config::{Config, DevId};
use stack_lines::Cache;
use stack_loader::{LoadFault, RemoveFault, load, remove};
use stack_meaning::IoFault;
use std::alloc::Global;
use std::marker::Model;

/// A configuration, and the devices of its leaves in order.
#[derive(Drop)]
pub struct Stack<D: BlockDev> {
    config: Config,
    backing: Backing<D>,
}

impl<D: BlockDev> Model for Stack<D> {
    ghost use Rattle.std.specs.Prelude.{map};
    ghost use Rattle.stack_lines.specs.Caches.{capacity_of};
    ghost use Rattle.stack_engine.specs.Stacks.{StackRecord, IsStack};

    ghost Value = { StackRecord };

    ghost view = { λ s. record { config = s.config; leaves = map D.state s.backing.devices.items; capacity = capacity_of s.backing.cache; kept = s.backing.cache.blocks.blocks; last = s.backing.cache.last; restored = s.backing.restored } };

    ghost invariant = { λ s. IsStack s.config (map D.state s.backing.devices.items) s.backing.cache };
}

impl<D: BlockDev> Stack<D> {
    /// Returns a stack of that configuration over the devices of its leaves, in order. Its cache keeps at most `capacity`
    /// hash blocks, and no data block before `keep_data`; it allocates nothing before it keeps one.
    pub fn over(alloc: Global, config: Config, devices: Vec<D>, capacity: u32) -> Stack<D>
        requires { ServeLeaves config.leaves (map D.state devices.items) }
        ensures { result ≡ stack_over config (map D.state devices.items) capacity }
    {
        // What holds of every loaded configuration is learned from a call.
        let _loaded = config.count();
        let cache = Cache::new(alloc, &config, capacity);
        let backing = Backing {
            alloc,
            devices,
            cache,
            restored: 0,
        };
        Stack { config, backing }
    }

    /// From now on the data block of which a part was read last is kept too, unless the capacity is 0: while no leaf is written,
    /// further parts of it may be answered without a call of its device.
    pub fn keep_data(&mut self)
        ensures { self.new ≡ stack_keeping self.old }
    {
        self.backing.cache.keep_data();
    }

    /// Returns the configuration and the devices of its leaves, in order.
    pub fn into_parts(self) -> (Config, Vec<D>)
        ensures config { result.0 ≡ self.config }
        ensures leaves { map D.state result.1.items ≡ self.leaves }
    {
        let Stack { config, backing } = self;
        let Backing {
            alloc: _,
            devices,
            cache: _,
            restored: _,
        } = backing;
        (config, devices)
    }

    /// Reads `n` sectors of a mapped device from sector `first` on, 1 to 128 that lie inside the device. Returns their bytes, 512
    /// for each sector, and the chains of the `verity` lines on their way. `exact` in `steady` is what the stack means; `any`
    /// holds whatever the leaves answer. The bytes are those that its calls of the leaves' devices gave, decrypted by the
    /// `crypt` lines and verified by the `verity` lines on the way; those of a part of a data block may be of the kept block
    /// (`given`). If no `verity` line is on the way, a leaf that only sectors after a fault reach isn't accessed (`stops`). It
    /// reads at most what reading each unit and data block that it touches once takes (`spent`). It counts each block
    /// that parity restored, and no other one (`given`, `restored`).
    ///
    /// # Errors
    ///
    /// - `Stack(ErrorTarget)` if the way of a sector leads to an `error` line.
    /// - `Stack(Mismatch)` if a block on the way of a sector doesn't have the digest stored in its parent, or the root hash.
    /// - `Device` with the leaf whose read failed, counted from 1.
    /// - `NoMemory` if an allocation was refused.
    pub fn read_piece(&mut self, d: DevId, first: u64, n: u32) -> Result<Answer, IoFault>
        requires some { 1 ≤ n }
        requires most { n ≤ 128 }
        requires inside { first + n ≤ size self.old.config (mapped d.0) }
        ensures any { AnyPiece self.old d.0 first n result self.new }
        ensures steady { IsCertainPiece self.old d.0 first n → SteadyPiece self.old d.0 first n result self.new }
        ensures stops { PieceStops self.old d.0 first n result self.new }
        ensures spent { ReadsAtMost (piece_budget self.old d.0 first n) self.old.leaves self.new.leaves }
        ensures given { PieceGives D.state D.does self.old (d.0, first) n (answer_bytes result) self.new }
        ensures kept { ReadKeeps self.old d.0 first n self.new }
        ensures restored { ReadRestores self.old d.0 first n self.new }
    {
        let mut bytes = match zero_sectors(self.backing.alloc, n) {
            Ok(bytes) => bytes,
            Err(_) => return Err(IoFault::NoMemory),
        };
        let mut chains = Vec::new(self.backing.alloc);
        match read_device(
            &self.config,
            &mut self.backing,
            (d, first),
            bytes.as_mut_slice(),
            Chains::Kept,
            &mut chains,
        ) {
            Err(fault) => Err(fault),
            Ok(()) => Ok(Answer { bytes, chains }),
        }
    }

    /// Reads sectors of a mapped device from sector `first` on into the slice, which has room for 1 to 2,048 that lie inside
    /// the device. It reads as `read_piece` does, but returns no chains: `any` states that there are chains which show the bytes.
    /// After a fault the slice's content is unspecified. It allocates only if a `verity` line is on the way.
    ///
    /// # Errors
    ///
    /// The faults of `read_piece`; `NoMemory` only if a `verity` line is on the way (`memory`).
    pub fn read_bytes(&mut self, d: DevId, first: u64, out: &mut [u8]) -> Result<(), IoFault>
        requires piece { AreReadSectors out.old }
        requires inside { first + length out.old / 512 ≤ size self.old.config (mapped d.0) }
        ensures any { AnyBytes self.old d.0 first (length out.old / 512) (buffer_answer result out.new) self.new }
        ensures steady { IsCertainPiece self.old d.0 first (length out.old / 512) → SteadyBytes self.old d.0 first (length out.old / 512) (buffer_answer result out.new) self.new }
        ensures memory { result ≡ Err IoFault.NoMemory → MeetsVerity self.old d.0 first (length out.old / 512) }
        ensures stops { PieceStops self.old d.0 first (length out.old / 512) result self.new }
        ensures spent { ReadsAtMost (piece_budget self.old d.0 first (length out.old / 512)) self.old.leaves self.new.leaves }
        ensures given { PieceGives D.state D.does self.old (d.0, first) (length out.old / 512) (buffer_answer result out.new) self.new }
        ensures kept { ReadKeeps self.old d.0 first (length out.old / 512) self.new }
        ensures restored { ReadRestores self.old d.0 first (length out.old / 512) self.new }
    {
        let mut dropped = Vec::new(self.backing.alloc);
        read_device(
            &self.config,
            &mut self.backing,
            (d, first),
            out,
            Chains::Dropped,
            &mut dropped,
        )
    }

    /// Writes the bytes of 1 to 128 whole sectors to a mapped device from sector `first` on, in rising order up to the first
    /// fault: `stops` in `any` states that nothing after it was accessed, `behind` in `steady` what is written before it. The
    /// sectors lie inside the device, which may be written. `exact` in `steady` is what the stack means; `any` holds whatever
    /// the leaves answer. It allocates only if a `crypt` line is on the way, once and before the first access. If it splits no
    /// unit of a `crypt` line, nothing is read (`uncut`). It writes at most what writing each unit once takes (`wrote`), and
    /// reads at most the units that are split, each once (`needed`). Its calls of the leaves' devices write exactly the bytes,
    /// encrypted by the `crypt` lines on the way, in order, none after the first that fails (`handed`).
    ///
    /// # Errors
    ///
    /// - `Stack(ErrorTarget)` if the way of a sector leads to an `error` line.
    /// - `Device` with the leaf whose read or write failed, counted from 1.
    /// - `NoMemory` if an allocation was refused; no leaf was accessed.
    pub fn write_piece(&mut self, d: DevId, first: u64, bytes: &[u8]) -> Result<(), IoFault>
        requires piece { ArePiece bytes.now }
        requires inside { first + length bytes.now / 512 ≤ size self.old.config (mapped d.0) }
        requires allowed { IsTrue (may_write self.old.config (mapped d.0)) }
        ensures any { AnyWrite self.old d.0 first bytes.now result self.new }
        ensures steady { AreSteadyBeneath self.old d.0 → SteadyWrite self.old d.0 first bytes.now result self.new }
        ensures memory { result ≡ Err IoFault.NoMemory → MeetsCrypt self.old d.0 first (length bytes.now / 512) }
        ensures uncut { UncutPiece self.old d.0 first (length bytes.now / 512) self.new }
        ensures wrote { PieceWrote self.old d.0 first (length bytes.now / 512) self.new }
        ensures needed { PieceNeeded self.old d.0 first (length bytes.now / 512) self.new }
        ensures handed { PieceHands D.state D.does self.old (d.0, first) bytes.now result self.new }
        ensures checked { AreChecked self.new }
        ensures piece { ArePiece bytes.now }
    {
        let mut buffer = match bytes_to_encrypt(self.backing.alloc, &self.config, d, first, bytes) {
            Ok(buffer) => buffer,
            Err(_) => return Err(IoFault::NoMemory),
        };
        let plain = &bytes[buffer.len()..];
        let copy = buffer.as_mut_slice();
        write_device(&self.config, &mut self.backing, d, first, plain, copy)
    }

    /// Adds the devices of a text, all or none. On `Ok` no block is kept.
    ///
    /// # Errors
    ///
    /// `Refused` if a rule refuses the configuration with them, or `NoMemory` if an allocation was refused.
    pub fn load(&mut self, text: &StackText) -> Result<(), LoadFault>
        ensures ok { OnOk result (first_refusal self.old.config text.now ≡ None) }
        ensures after { OnOk result (self.new ≡ record self.old { config = after_load self.old.config text.now; kept = []; last = None }) }
        ensures refused { (r : Refusal) → result ≡ Err (LoadFault.Refused r) → IsRefusal self.old.config text.now r }
        ensures memory { result ≡ Err LoadFault.NoMemory → IsOutOfMemory largest_load_allocation }
        ensures same { OnErr result (self.new ≡ self.old) }
    {
        let outcome = load(&mut self.config, text);
        // As in `over`.
        let _loaded = self.config.count();
        if outcome.is_ok() {
            self.backing.cache.start_over(&self.config);
        }
        outcome
    }

    /// Removes the mapped device of that name; later ones move up by one place. On `Ok` no block is kept.
    ///
    /// # Errors
    ///
    /// `NoSuchDevice` if there is none, or `InUse` if another device names it.
    pub fn remove(&mut self, name: &[u8]) -> Result<(), RemoveFault>
        ensures ok { OnOk result (removal_fault self.old.config name.now ≡ None) }
        ensures after { OnOk result (self.new ≡ record self.old { config = after_removal self.old.config name.now; kept = []; last = None }) }
        ensures err { IfErr result (λ fault. removal_fault self.old.config name.now ≡ Some fault) }
        ensures same { OnErr result (self.new ≡ self.old) }
    {
        let outcome = remove(&mut self.config, name);
        // As in `over`.
        let _loaded = self.config.count();
        if outcome.is_ok() {
            self.backing.cache.start_over(&self.config);
        }
        outcome
    }

    /// Returns the configuration, as the last load or removal left it.
    pub fn config(&self) -> &Config
        ensures value { result.now ≡ self.now.config }
        ensures sound { IsSound self.now.config self.now.leaves }
    {
        &self.config
    }

    /// Returns how many hash blocks are kept.
    pub fn cached(&self) -> usize
        ensures value { result ≡ length self.now.kept }
        ensures checked { AreChecked self.now }
    {
        self.backing.cache.count()
    }

    /// Returns how many blocks reads have restored by parity, at most the greatest `u64`. A read that restores nothing leaves
    /// the count (`given` of `read_piece`), and so do writes, loads and removals.
    pub fn restored(&self) -> u64
        ensures { result ≡ self.now.restored }
    {
        self.backing.restored
    }

    /// Returns how many sectors the leaves have read and written, each sum at most the greatest `u64`.
    pub fn moved(&self) -> (u64, u64)
        ensures { result ≡ (capped (reads_of self.now.leaves), capped (writes_of self.now.leaves)) }
    {
        counted(self.backing.devices.as_slice())
    }

    /// Returns whether a fault of a write names a leaf for which no space was left.
    pub fn lacks_space(&self, fault: IoFault) -> bool
        ensures { result ≡ lacks_space self.now.leaves fault }
    {
        match fault {
            IoFault::Device(number) => {
                let index = number.saturating_sub(1) as usize;
                lacked_space(self.backing.devices.as_slice(), index)
            }
            _ => false,
        }
    }
}

impl<D: SyncDev> Stack<D> {
    /// Syncs the dirty leaves in order. Its calls of the leaves' devices are one sync of each dirty leaf, up to the first that
    /// fails (`called`). On `Ok` no leaf is dirty.
    ///
    /// # Errors
    ///
    /// `Device` with the first leaf whose sync failed, counted from 1; later leaves aren't synced then.
    pub fn sync(&mut self) -> Result<(), IoFault>
        ensures ok { OnOk result (self.new.leaves ≡ map synced self.old.leaves) }
        ensures config { self.new.config ≡ self.old.config }
        ensures capacity { self.new.capacity ≡ self.old.capacity }
        ensures kept { self.new.kept ≡ self.old.kept }
        ensures last { self.new.last ≡ self.old.last }
        ensures restored { self.new.restored ≡ self.old.restored }
        ensures err { IfErr result (FailsToSync self.old.leaves self.new.leaves) }
        ensures sure { NeverFail self.old.leaves → IsOk result }
        ensures called { MakesSyncs D.state D.does self.old.leaves result self.new.leaves }
    {
        // As in `over`.
        let _loaded = self.config.count();
        sync_leaves(self.backing.devices.as_mut_slice())
    }
}
