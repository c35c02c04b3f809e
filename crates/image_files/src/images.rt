//! What commands open: images and texts under paths.
ghost use Rattle.std.specs.Prelude.{◌≡◌, ◌≤◌, length, true, IfErr, IfOk};
ghost use Rattle.block_device.specs.declared.open_fault.OpenFault.TheVariants as open_fault;
ghost use Rattle.device_adapters.specs.Parts.{LiesInside};
ghost use Rattle.image_files.specs.Opener.{IsFresh, IsLacking, IsNarrowed, Opener};

use crate::parts::PartFault;
use crate::texts::ReplaceFault;
use block_device::{BlockDev, FileId, MemoryDev, OpenFault, SyncDev};
use device_adapters::Part;

/// An image that was opened, and which file it is, if that is known.
#[derive(Drop)]
pub struct OpenImage<D> {
    pub device: D,
    pub id: Option<FileId>,
}

/// The first bytes of a file, and which one it is, if that is known.
#[derive(Drop)]
pub struct FileText {
    pub bytes: Vec<u8>,
    pub id: Option<FileId>,
}

/// What commands open: images and texts under paths.
///
/// Two that have the same known id are one file (`is_one_file`).
pub trait Images {
    /// An open image.
    type Dev: SyncDev + Drop;

    /// What each call gives, and what it leaves.
    ghost relations: { Opener Self Self.Dev };

    /// Opens the image under this path for reading, and for writing too where `writable` says so.
    fn open(&mut self, path: &str, writable: bool) -> Result<OpenImage<Self::Dev>, OpenFault>
        ensures opened { relations.opens self.old path.now writable result self.new }
        ensures fresh { IfOk result (λ image. IsFresh (Self.Dev.state image.device) writable) };

    /// Opens a part of the image under this path as a device of its own. A part that ends after the image is `Outside`.
    fn open_part(
        &mut self,
        path: &str,
        writable: bool,
        part: Part,
    ) -> Result<OpenImage<Self::Dev>, PartFault>
        ensures opened { relations.opens_part self.old path.now writable part result self.new }
        ensures fresh { IfOk result (λ image. IsFresh (Self.Dev.state image.device) writable) };

    /// Makes a device of a part of an open one. Nothing is opened again, and closing the part closes the whole.
    fn narrow(&mut self, device: Self::Dev, part: Part) -> Self::Dev
        requires { LiesInside (Self.Dev.state device) part }
        ensures narrowed { relations.narrows self.old device part result self.new }
        ensures part { IsNarrowed (Self.Dev.state device) part (Self.Dev.state result) };

    /// Makes a device without the sectors of these parts of its file of an open one: a read of one of these fails. Nothing is opened
    /// again, and closing it closes the device.
    fn without(&mut self, device: Self::Dev, lost: Vec<Part>) -> Self::Dev
        ensures lacking { relations.lacks self.old device lost.items result self.new }
        ensures holds { IsLacking (Self.Dev.state device) (Self.Dev.state result) };

    /// Returns at most `most` first bytes of the file under this path.
    ///
    /// # Errors
    ///
    /// What the system answered; `NoMemory` if memory ran out. A file that was opened isn't `NotFound`.
    fn read_text(&mut self, path: &str, most: usize) -> Result<FileText, OpenFault>
        ensures told { relations.tells self.old path.now most result self.new }
        ensures most { IfOk result (λ text. length text.bytes.items ≤ most) };

    /// Closes an image: what the device holds is what the file under this path holds from then on.
    fn close(&mut self, path: &str, device: Self::Dev)
        ensures { relations.takes self.old path.now device self.new };

    /// Closes a part of an image: what the device holds is what that part of the file holds from then on.
    fn close_part(&mut self, path: &str, part: Part, device: Self::Dev)
        ensures { relations.takes_part self.old path.now part device self.new };

    /// Makes the file under this path at least so many sectors long, and creates it if there is none. What the file held is
    /// kept, and zeros follow. What has a size of its own, as a block device, stays as it is.
    fn grow(&mut self, path: &str, sectors: u64) -> Result<(), OpenFault>
        ensures { relations.grows self.old path.now sectors result self.new };

    /// Makes the file under this path at most so many sectors long, and syncs it. What has a size of its own, as a block device, stays
    /// as it is. A device of the file that is still open is closed before.
    fn shrink(&mut self, path: &str, sectors: u64) -> Result<(), OpenFault>
        ensures { relations.shrinks self.old path.now sectors result self.new };

    /// Whether the file under this path ends inside a sector. What has a size of its own, as a block device, doesn't.
    fn has_part_sector(&mut self, path: &str) -> Result<bool, OpenFault>
        ensures { relations.measures self.old path.now result self.new };

    /// Whether both paths lead to one place, be there a file or not: to one name in one folder. Equal paths do.
    ///
    /// # Errors
    ///
    /// `NoMemory`. A path that can't be followed leads to no place.
    fn is_one_place(&mut self, path: &str, other: &str) -> Result<bool, OpenFault>
        ensures compared { relations.compares self.old path.now other.now result self.new }
        ensures equal { IfOk result (λ one. path.now ≡ other.now → one ≡ true) }
        ensures err { IfErr result (λ fault. fault ≡ open_fault.NoMemory) };

    /// Replaces what the file under this path holds by these bytes: an interruption leaves the old file or the new one.
    fn replace(&mut self, path: &str, bytes: &[u8]) -> Result<(), ReplaceFault>
        ensures { relations.replaces self.old path.now bytes.now result self.new };

    /// Finds out whether `replace` can create its file: creates one beside the path, and removes it again.
    ///
    /// # Errors
    ///
    /// `NoMemory`, or `Write` if no file can be created.
    fn try_replace(&mut self, path: &str) -> Result<(), ReplaceFault>
        ensures { relations.tries self.old path.now result self.new };

    /// A device in memory as one of these, which is under no path.
    fn of_memory(memory: MemoryDev) -> Self::Dev
        ensures { Self.Dev.state result ≡ ⟦<MemoryDev as BlockDev>⟧.state memory };
}
