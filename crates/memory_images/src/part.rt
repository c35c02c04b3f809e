//! Parts of the bytes of an image.
ghost use Rattle.std.specs.Prelude.{◌≡◌, ◌↔◌, IfSome, IsSome, OnErr, OnOk, length};
ghost use Rattle.memory_images.specs.Parts.{LiesWithin, grown_image, part_bytes, shrunk_image, with_bytes, with_part};

use block_device::OpenFault;
use device_adapters::Part;

const SECTOR: usize = 512;

// An image has fewer than 2^63 bytes.
const MOST_SECTORS: u64 = 1 << 54;

/// Returns the bytes of a part, if the part is within the image.
pub fn part_of(bytes: Vec<u8>, part: Part) -> Option<Vec<u8>>
    ensures inside { IsSome result ↔ LiesWithin bytes.items part }
    ensures bytes { IfSome result (λ held. held.items ≡ part_bytes bytes.items part) }
{
    let sectors = (bytes.len() / SECTOR) as u64;
    if part.first > sectors || part.count > sectors - part.first {
        return None;
    }
    Some(held_in(bytes, part))
}

/// Returns the bytes of a part that is within the image.
pub fn held_in(mut bytes: Vec<u8>, part: Part) -> Vec<u8>
    requires { LiesWithin bytes.items part }
    ensures { result.items ≡ part_bytes bytes.items part }
{
    bytes.rotate_left(part.first as usize * SECTOR);
    bytes.truncate(part.count as usize * SECTOR);
    bytes
}

/// Replaces the bytes of a part of an image, if the part is within the image.
pub fn overwrite(image: &mut Vec<u8>, part: Part, mut bytes: Vec<u8>)
    ensures { image.new.items ≡ with_part image.old.items part bytes.items }
{
    let sectors = (image.len() / SECTOR) as u64;
    if part.first > sectors || part.count > sectors - part.first {
        return;
    }
    bytes.truncate(part.count as usize * SECTOR);
    put_at(image, part.first as usize * SECTOR, bytes.as_slice());
}

// Replaces the bytes from an offset on, if the image has as many.
fn put_at(image: &mut Vec<u8>, offset: usize, bytes: &[u8])
    ensures { image.new.items ≡ with_bytes image.old.items offset bytes.now }
{
    if offset > image.len() || bytes.len() > image.len() - offset {
        return;
    }
    let end = offset + bytes.len();
    image.as_mut_slice()[offset..end].copy_from_slice(bytes);
}

/// Extends the image with zeros to at least so many sectors.
pub fn lengthen(image: &mut Vec<u8>, sectors: u64) -> Result<(), OpenFault>
    ensures ok { OnOk result (image.new.items ≡ grown_image image.old.items sectors) }
    ensures err { OnErr result (image.new.items ≡ image.old.items) }
{
    if sectors > MOST_SECTORS {
        return Err(OpenFault::TooLarge);
    }
    let bytes = sectors as usize * SECTOR;
    if bytes <= image.len() {
        return Ok(());
    }
    match image.resize(bytes, 0) {
        Ok(()) => Ok(()),
        Err(_) => Err(OpenFault::NoMemory),
    }
}

/// Shortens the image to at most so many sectors.
pub fn shorten(image: &mut Vec<u8>, sectors: u64)
    ensures { image.new.items ≡ shrunk_image image.old.items sectors }
{
    let whole = (image.len() / SECTOR) as u64;
    if sectors <= whole {
        image.truncate(sectors as usize * SECTOR);
    }
}
