//! Images in memory.
ghost use Rattle.std.specs.Prelude.{◌≡◌, IfErr, IfOk, OnErr, OnOk};
ghost use Rattle.memory_images.specs.Named.{IsChanged, AreBytesPut, IsUncopied, Stands, named_place};
ghost use Rattle.memory_images.specs.Parts.{grown_image, shrunk_image, with_part};

use crate::part::{held_in, lengthen, overwrite, part_of, shorten};
use block_device::{BlockDev, FileId, MemoryDev, OpenFault};
use device_adapters::Part;
use image_files::{FileText, Images, OpenImage, PartFault, ReplaceFault};
use std::alloc::AllocError;

const SECTOR: usize = 512;

/// Images in memory with names; if a name occurs twice, the first counts. An open image is a copy. When it is closed, the named
/// image gets its bytes.
#[derive(Drop)]
pub struct MemoryImages {
    names: Vec<String>,
    images: Vec<Vec<u8>>,
}

impl MemoryImages {
    /// Returns the images with the names at the same indices.
    pub fn new(names: Vec<String>, images: Vec<Vec<u8>>) -> MemoryImages
        ensures names { result.names ≡ names }
        ensures images { result.images ≡ images }
    {
        MemoryImages { names, images }
    }
}

// The first index with that name.
fn place_of(names: &[String], path: &str) -> Option<usize>
    ensures { result ≡ named_place names.now path.now }
{
    names.iter().position(|name| name.as_str() == path)
}

// A copy of the image with that name, and its index.
fn copy_under(
    names: &[String],
    images: &[Vec<u8>],
    path: &str,
) -> Result<(usize, Vec<u8>), OpenFault>
    ensures ok { IfOk result (λ copy. Stands names.now images.now path.now copy.0 copy.1.items) }
    ensures err { IfErr result (IsUncopied names.now images.now path.now) }
{
    let Some(place) = place_of(names, path) else {
        return Err(OpenFault::NotFound);
    };
    let Some(bytes) = images.get(place) else {
        return Err(OpenFault::NotFound);
    };
    match copy_of(bytes) {
        Ok(copy) => Ok((place, copy)),
        Err(_) => Err(OpenFault::NoMemory),
    }
}

fn copy_of(bytes: &Vec<u8>) -> Result<Vec<u8>, AllocError>
    ensures { IfOk result (λ copy. copy.items ≡ bytes.now.items) }
{
    bytes.clone()
}

fn put_image(images: &mut Vec<Vec<u8>>, place: usize, bytes: Vec<u8>)
    ensures { AreBytesPut images.old.items place bytes.items images.new.items }
{
    if let Some(image) = images.get_mut(place) {
        *image = bytes;
    }
}

fn grow_image(images: &mut Vec<Vec<u8>>, place: usize, sectors: u64) -> Result<(), OpenFault>
    ensures ok { OnOk result (IsChanged images.old.items place (λ image. grown_image image sectors) images.new.items) }
    ensures err { OnErr result (IsChanged images.old.items place (λ image. image) images.new.items) }
{
    match images.get_mut(place) {
        Some(image) => lengthen(image, sectors),
        None => Err(OpenFault::NotFound),
    }
}

fn shrink_image(images: &mut Vec<Vec<u8>>, place: usize, sectors: u64)
    ensures { IsChanged images.old.items place (λ image. shrunk_image image sectors) images.new.items }
{
    if let Some(image) = images.get_mut(place) {
        shorten(image, sectors);
    }
}

// Replaces the bytes of a part of an image.
fn put_part(images: &mut Vec<Vec<u8>>, place: usize, part: Part, bytes: Vec<u8>)
    ensures { IsChanged images.old.items place (λ image. with_part image part bytes.items) images.new.items }
{
    if let Some(image) = images.get_mut(place) {
        overwrite(image, part, bytes);
    }
}

impl Images for MemoryImages {
    ghost use Rattle.memory_images.specs.MemoryRelations.{memory_relations};

    type Dev = MemoryDev;

    ghost relations = { memory_relations };

    fn open(&mut self, path: &str, writable: bool) -> Result<OpenImage<MemoryDev>, OpenFault> {
        let (place, bytes) = copy_under(&self.names, &self.images, path)?;
        Ok(OpenImage {
            device: MemoryDev::new(bytes, writable),
            id: Some(FileId::Inode {
                device: 0,
                inode: place as u64,
            }),
        })
    }

    fn open_part(
        &mut self,
        path: &str,
        writable: bool,
        part: Part,
    ) -> Result<OpenImage<MemoryDev>, PartFault> {
        let (place, bytes) = copy_under(&self.names, &self.images, path)?;
        let Some(held) = part_of(bytes, part) else {
            return Err(PartFault::Outside);
        };
        Ok(OpenImage {
            device: MemoryDev::new(held, writable),
            id: Some(FileId::Inode {
                device: 0,
                inode: place as u64,
            }),
        })
    }

    fn narrow(&mut self, device: MemoryDev, part: Part) -> MemoryDev {
        let writable = device.writable();
        MemoryDev::new(held_in(device.into_bytes(), part), writable)
    }

    // Of what is in memory nothing is lost.
    fn without(&mut self, device: MemoryDev, _lost: Vec<Part>) -> MemoryDev {
        device
    }

    // Returns the first bytes.
    fn read_text(&mut self, path: &str, most: usize) -> Result<FileText, OpenFault> {
        let (place, mut bytes) = copy_under(&self.names, &self.images, path)?;
        bytes.truncate(most);
        Ok(FileText {
            bytes,
            id: Some(FileId::Inode {
                device: 0,
                inode: place as u64,
            }),
        })
    }

    fn close(&mut self, path: &str, device: MemoryDev) {
        if let Some(place) = place_of(&self.names, path) {
            put_image(&mut self.images, place, device.into_bytes());
        }
    }

    fn close_part(&mut self, path: &str, part: Part, device: MemoryDev) {
        if let Some(place) = place_of(&self.names, path) {
            put_part(&mut self.images, place, part, device.into_bytes());
        }
    }

    // An image whose name doesn't exist isn't created.
    fn grow(&mut self, path: &str, sectors: u64) -> Result<(), OpenFault> {
        let Some(place) = place_of(&self.names, path) else {
            return Err(OpenFault::NotFound);
        };
        grow_image(&mut self.images, place, sectors)
    }

    fn shrink(&mut self, path: &str, sectors: u64) -> Result<(), OpenFault> {
        let Some(place) = place_of(&self.names, path) else {
            return Err(OpenFault::NotFound);
        };
        shrink_image(&mut self.images, place, sectors);
        Ok(())
    }

    fn has_part_sector(&mut self, path: &str) -> Result<bool, OpenFault> {
        let (_, bytes) = copy_under(&self.names, &self.images, path)?;
        Ok(bytes.len() % SECTOR != 0)
    }

    // Two paths are the same place if the names are equal.
    fn is_one_place(&mut self, path: &str, other: &str) -> Result<bool, OpenFault> {
        Ok(path == other)
    }

    // An image whose name doesn't exist isn't created.
    fn replace(&mut self, path: &str, bytes: &[u8]) -> Result<(), ReplaceFault> {
        let Ok((place, mut text)) = copy_under(&self.names, &self.images, path) else {
            return Err(ReplaceFault::Write);
        };
        text.clear();
        if text.extend_from_slice(bytes).is_err() {
            return Err(ReplaceFault::NoMemory);
        }
        put_image(&mut self.images, place, text);
        Ok(())
    }

    fn try_replace(&mut self, path: &str) -> Result<(), ReplaceFault> {
        match place_of(&self.names, path) {
            Some(_) => Ok(()),
            None => Err(ReplaceFault::Write),
        }
    }

    fn of_memory(memory: MemoryDev) -> MemoryDev {
        memory
    }
}
