//! Which file an open one is: whether two are one, and whether it is a block device.
ghost use Rattle.std.specs.Prelude.{◌≡◌};
ghost use Rattle.image_files.specs.OneFile.{is_block_device, is_id, is_one_file};

use block_device::FileId;

/// Whether both are one file, as far as the system reports it.
pub fn is_one_file(a: Option<FileId>, b: Option<FileId>) -> bool
    ensures { result ≡ is_one_file a b }
{
    match (a, b) {
        (Some(a), Some(b)) => is_id(a, b),
        _ => false,
    }
}

fn is_id(a: FileId, b: FileId) -> bool
    ensures { result ≡ is_id a b }
{
    match (a, b) {
        (
            FileId::Inode { device, inode },
            FileId::Inode {
                device: other_device,
                inode: other_inode,
            },
        ) => device == other_device && inode == other_inode,
        (FileId::BlockDevice(device), FileId::BlockDevice(other)) => device == other,
        _ => false,
    }
}

/// Whether a file is a block device, as far as the system reports it. `Images::grow` and `Images::shrink` leave its size as it is.
pub fn is_block_device(id: Option<FileId>) -> bool
    ensures { result ≡ is_block_device id }
{
    matches!(id, Some(FileId::BlockDevice(_)))
}
