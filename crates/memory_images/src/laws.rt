//! Laws of these images: each function's contract states the law, and a call of the function provides it.
ghost use Rattle.block_device.specs.contracts.memory.MemoryDevBlockDev.TheImpl.{ghosts};
ghost use Rattle.image_files.specs.Promises.{KeepsFiles};
ghost use Rattle.memory_images.specs.Files.{file_under};
ghost use Rattle.memory_images.specs.MemoryRelations.{memory_relations};

/// Images in memory satisfy what is assumed of an operating system's files.
pub fn images_keep_files()
    ensures { KeepsFiles memory_relations ghosts.state file_under }
{}
