//! Which files are open, and how.
ghost use Rattle.std.specs.Prelude.{◌≡◌};
ghost use Rattle.image_files.specs.FileUses.{do_meet, has_clash, image_use, is_clash, no_use, part_use};

use crate::images::OpenImage;
use crate::one_file::is_one_file;
use block_device::FileId;
use device_adapters::Part;

/// Which file is open, if the opener reports it; whether it may be written; and which part of it, if it isn't all.
#[derive(Clone, Copy, Debug, PartialEq, Eq)]
pub struct FileUse {
    pub id: Option<FileId>,
    pub writable: bool,
    pub part: Option<Part>,
}

/// Returns the use of no file, which clashes with none.
pub fn no_use() -> FileUse
    ensures { result ≡ no_use }
{
    FileUse {
        id: None,
        writable: false,
        part: None,
    }
}

/// Returns how an image uses its file: for reading, or for writing too.
pub fn image_use<D>(image: &OpenImage<D>, writable: bool) -> FileUse
    ensures { result ≡ image_use writable image.now }
{
    FileUse {
        id: image.id,
        writable,
        part: None,
    }
}

/// Returns how a part of an image uses its file: for reading, or for writing too.
pub fn part_use<D>(image: &OpenImage<D>, writable: bool, part: Part) -> FileUse
    ensures { result ≡ part_use writable part image.now }
{
    FileUse {
        id: image.id,
        writable,
        part: Some(part),
    }
}

/// Whether one of the files clashes with another one.
pub fn has_clash(files: &[FileUse], file: FileUse) -> bool
    ensures { result ≡ has_clash files.now file }
{
    files.iter().any(|other| is_clash(*other, file))
}

/// Whether both are one file, of which one may be written, and have a sector in common.
pub fn is_clash(a: FileUse, b: FileUse) -> bool
    ensures { result ≡ is_clash a b }
{
    is_one_file(a.id, b.id) && (a.writable || b.writable) && do_meet(a.part, b.part)
}

// All of a file meets each part of it.
fn do_meet(a: Option<Part>, b: Option<Part>) -> bool
    ensures { result ≡ do_meet a b }
{
    match (a, b) {
        (Some(a), Some(b)) => a.overlaps(b),
        _ => true,
    }
}
