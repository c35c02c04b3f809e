//! The backing devices of a command line's bindings, opened in order.
ghost use Rattle.std.specs.Prelude.{◌≡◌, ◌≤◌, ◌+◌, ◌++◌, [], ◌∷◌, length, map, option_map, IfOk, IfErr, OnOk};
ghost use Rattle.allocation.specs.Asked.{asked};
ghost use Rattle.command_line.specs.Bindings.{mapped};
ghost use Rattle.command_line.specs.PartBindings.{part_record};
ghost use Rattle.stack_meaning.specs.Leaves.{ServeLeaves};
ghost use Rattle.stack_files.specs.Bindings.{Backs, BacksAs, BindsAll, names_in};
ghost use Rattle.stack_files.specs.Openings.{FailsToBack, FailsToBackAs, FailsToBindAll};

use crate::mapped_file::open_mapped;
use crate::opening_fault::OpeningFault;
use crate::whole_file::{named_part, read_use};
use allocation::{OutOfMemory, copied, push};
use block_device::{BlockDev, MemoryDev, OpenFault};
use command_line::{Backing, Binding, FilePart};
use image_files::{FileUse, Images, UnopenedFile, device_part, open_apart, open_part};
use stack_config::Leaf;
use std::alloc::Global;

/// Backing devices, and their devices in the same order.
#[derive(Drop)]
pub struct OpenLeaves<D> {
    pub leaves: Vec<Leaf>,
    pub devices: Vec<D>,
}

impl<D: BlockDev + Drop> OpenLeaves<D> {
    /// Returns no backing devices.
    pub(crate) fn new(alloc: Global) -> OpenLeaves<D>
        ensures served { ServeLeaves result.leaves.items (map D.state result.devices.items) }
        ensures none { (result.leaves.items ≡ []) × (result.devices.items ≡ []) }
    {
        OpenLeaves {
            leaves: Vec::new(alloc),
            devices: Vec::new(alloc),
        }
    }

    /// Adds a device with a name.
    ///
    /// # Errors
    ///
    /// `OutOfMemory` if an allocation for the name or of room for one device fails.
    pub(crate) fn bind(&mut self, alloc: Global, name: &str, device: D) -> Result<(), OutOfMemory>
        requires { ServeLeaves self.old.leaves.items (map D.state self.old.devices.items) }
        ensures served { OnOk result (ServeLeaves self.new.leaves.items (map D.state self.new.devices.items)) }
        ensures more { OnOk result ((names_in self.new.leaves.items ≡ names_in self.old.leaves.items ++ name.now ∷ []) × (self.new.devices.items ≡ self.old.devices.items ++ device ∷ [])) }
        ensures err { IfErr result (λ e. asked e ≤ length name.now + 1) }
    {
        let leaf = Leaf {
            name: copied(alloc, name.as_bytes())?,
            sectors: device.sectors(),
            writable: device.writable(),
        };
        push(&mut self.leaves, leaf)?;
        push(&mut self.devices, device)
    }
}

// Opens the image of a binding, or a part of one, or makes a device in memory. A sector that is open already is refused if one
// of the two devices is writable: the engine assumes that backing devices don't share sectors. A partition isn't opened before
// it is resolved (`resolve_bindings`).
fn open_backing<'a, I: Images>(
    alloc: Global,
    images: &mut I,
    files: &mut Vec<FileUse>,
    backing: Backing<'a>,
) -> Result<I::Dev, OpeningFault<'a>>
    ensures ok { IfOk result (Backs I.relations I.Dev.state images.old images.new files.old files.new backing.entry) }
    ensures err { IfErr result (FailsToBack I.relations I.Dev.state images.old images.new files.old backing.entry) }
{
    match backing {
        Backing::File { path, writable } => {
            let image = open_apart(images, files.as_slice(), path, writable)?;
            let id = image.id;
            let part = None;
            push(files, FileUse { id, writable, part })?;
            Ok(image.device)
        }
        Backing::Part {
            path,
            writable,
            part,
        } => {
            let part = device_part(part);
            let image = open_part(images, files.as_slice(), path, writable, part)?;
            let id = image.id;
            let part = Some(part);
            push(files, FileUse { id, writable, part })?;
            Ok(image.device)
        }
        Backing::Partition { path, .. } => {
            let fault = OpenFault::NotFound;
            Err(OpeningFault::Open(UnopenedFile { fault, path }))
        }
        Backing::Mapped {
            path,
            map_file,
            part,
        } => open_with_map(alloc, images, files, path, map_file, part),
        Backing::Zeros(sectors) => Ok(I::of_memory(MemoryDev::zeros(alloc, sectors, true)?)),
        Backing::Ramp(sectors) => Ok(I::of_memory(MemoryDev::ramp(alloc, sectors, true)?)),
    }
}

// Opens the image of a binding with a map, or a part of it. Then the map is in use too: nothing may overwrite it.
fn open_with_map<'a, I: Images>(
    alloc: Global,
    images: &mut I,
    files: &mut Vec<FileUse>,
    path: &'a str,
    map_file: &'a str,
    part: Option<FilePart>,
) -> Result<I::Dev, OpeningFault<'a>>
    ensures ok { IfOk result (BacksAs I.relations I.Dev.state images.old images.new files.old files.new (mapped path.now map_file.now (option_map part_record part))) }
    ensures err { IfErr result (FailsToBackAs I.relations I.Dev.state images.old images.new files.old (mapped path.now map_file.now (option_map part_record part))) }
{
    let part = named_part(part);
    let image = open_mapped(alloc, images, files.as_slice(), path, map_file, part)?;
    push(files, read_use(image.map_id, None))?;
    push(files, read_use(image.id, part))?;
    Ok(image.device)
}

/// Opens the bindings' backing devices in order, next to these open files.
///
/// # Errors
///
/// - `NoMemory` if an allocation was refused.
/// - `Open` if a file can't be opened, or conflicts with an open one; `NotFound` of a partition that isn't resolved; `OtherFault` of
///   a map that isn't one of its image.
/// - `Outside` if a binding's part isn't within its file.
pub fn open_all<'a, I: Images>(
    alloc: Global,
    images: &mut I,
    files: &[FileUse],
    bindings: &[Binding<'a>],
) -> Result<OpenLeaves<I::Dev>, OpeningFault<'a>>
    ensures ok { IfOk result (BindsAll I.relations I.Dev.state images.old images.new files.now bindings.now) }
    ensures err { IfErr result (FailsToBindAll I.relations I.Dev.state images.old images.new files.now bindings.now) }
{
    let mut open_leaves = OpenLeaves::new(alloc);
    let mut open_files = copied(alloc, files)?;
    'bindings: for binding in bindings {
        let device = open_backing(alloc, images, &mut open_files, binding.backing)?;
        open_leaves.bind(alloc, binding.name, device)?;
    }
    Ok(open_leaves)
}
