//! Closes what was opened.
ghost use Rattle.stack_files.specs.Bindings.{ClosesAll, ClosesBy};

use crate::whole_file::named_part;
use block_device::BlockDev;
use command_line::{Backing, Binding};
use image_files::{Images, Place, close_place, device_part};

// Closes the image of a binding. A device in memory has no path, and no device is opened of a partition that isn't resolved.
fn close_backing<I: Images>(images: &mut I, backing: Backing<'_>, device: I::Dev)
    ensures { ClosesBy I.relations I.Dev.state images.old images.new backing.entry device }
{
    match backing {
        Backing::File { path, writable: _ } => images.close(path, device),
        Backing::Part {
            path,
            writable: _,
            part,
        } => images.close_part(path, device_part(part), device),
        Backing::Partition { .. } => drop(device),
        Backing::Mapped {
            path,
            map_file: _,
            part,
        } => {
            let part = named_part(part);
            close_place(images, Place { path, part }, device)
        }
        Backing::Zeros(_) | Backing::Ramp(_) => drop(device),
    }
}

/// Closes the images of the bindings, from the last to the first.
pub fn close_each<I: Images>(images: &mut I, bindings: &[Binding<'_>], mut devices: Vec<I::Dev>)
    ensures { ClosesAll I.relations I.Dev.state images.old images.new bindings.now devices.items }
{
    'devices: while let Some(device) = devices.pop() {
        if let Some(binding) = bindings.get(devices.len()) {
            close_backing(images, binding.backing, device);
        }
    }
}
