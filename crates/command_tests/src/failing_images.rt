//! Images in memory whose devices each fail at one call.
ghost use Rattle.command_tests.specs.Relations.{any_relations};

use block_device::{BlockDev, FailAt, MemoryDev, OpenFault};
use device_adapters::Part;
use image_files::{FileText, Images, OpenImage, PartFault, ReplaceFault};
use memory_images::MemoryImages;

/// The number of the call that fails, counted from the opening of a device; 0 if none fails.
#[derive(Drop)]
pub struct FailingImages {
    pub images: MemoryImages,
    pub call: u64,
}

impl Images for FailingImages {
    type Dev = FailAt<MemoryDev>;

    ghost relations = { any_relations };

    fn open(
        &mut self,
        path: &str,
        writable: bool,
    ) -> Result<OpenImage<FailAt<MemoryDev>>, OpenFault> {
        let OpenImage { device, id } = self.images.open(path, writable)?;
        let device = FailAt::new(device, self.call);
        Ok(OpenImage { device, id })
    }

    fn open_part(
        &mut self,
        path: &str,
        writable: bool,
        part: Part,
    ) -> Result<OpenImage<FailAt<MemoryDev>>, PartFault> {
        let OpenImage { device, id } = self.images.open_part(path, writable, part)?;
        let device = FailAt::new(device, self.call);
        Ok(OpenImage { device, id })
    }

    // The call that fails is the same one.
    fn narrow(&mut self, device: FailAt<MemoryDev>, part: Part) -> FailAt<MemoryDev> {
        let call = device.calls_to_failure;
        FailAt::new(self.images.narrow(device.inner, part), call)
    }

    fn without(&mut self, device: FailAt<MemoryDev>, _lost: Vec<Part>) -> FailAt<MemoryDev> {
        device
    }

    fn read_text(&mut self, path: &str, most: usize) -> Result<FileText, OpenFault> {
        self.images.read_text(path, most)
    }

    fn close(&mut self, path: &str, device: FailAt<MemoryDev>) {
        self.images.close(path, device.inner)
    }

    fn close_part(&mut self, path: &str, part: Part, device: FailAt<MemoryDev>) {
        self.images.close_part(path, part, device.inner)
    }

    fn grow(&mut self, path: &str, sectors: u64) -> Result<(), OpenFault> {
        self.images.grow(path, sectors)
    }

    fn shrink(&mut self, path: &str, sectors: u64) -> Result<(), OpenFault> {
        self.images.shrink(path, sectors)
    }

    fn has_part_sector(&mut self, path: &str) -> Result<bool, OpenFault> {
        self.images.has_part_sector(path)
    }

    fn is_one_place(&mut self, path: &str, other: &str) -> Result<bool, OpenFault> {
        self.images.is_one_place(path, other)
    }

    fn replace(&mut self, path: &str, bytes: &[u8]) -> Result<(), ReplaceFault> {
        self.images.replace(path, bytes)
    }

    fn try_replace(&mut self, path: &str) -> Result<(), ReplaceFault> {
        self.images.try_replace(path)
    }

    // The counters have 64 bits, which calls of the device provide.
    fn of_memory(memory: MemoryDev) -> FailAt<MemoryDev> {
        let _counts = (memory.reads(), memory.writes());
        FailAt::new(memory, 0)
    }
}
