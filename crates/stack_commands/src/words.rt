//! What the words of a command on a stack file or a disk name.
ghost use Rattle.std.specs.Prelude.{◌≡◌, map};
ghost use Rattle.command_line.specs.Bindings.{binding_record};
ghost use Rattle.command_line.specs.SourceWords.{source_record};
ghost use Rattle.stack_files.specs.DeviceSources.{source_words};
ghost use Rattle.stack_files.specs.OpenStacks.{stack_words};
ghost use Rattle.stack_commands.specs.StackCommands.{on, source_on};

use command_line::{Binding, SourceWords};
use stack_files::{DeviceSource, DiskPlace, NamedDevice, StackFile};

/// A stack file and its bindings.
pub fn stack_file<'a, 'b>(path: &'a str, bindings: &'b Vec<Binding<'a>>) -> StackFile<'a, 'b>
    ensures { stack_words result ≡ on path.now (map binding_record bindings.now.items) }
{
    let bindings = bindings.as_slice();
    StackFile { path, bindings }
}

/// What a command reads: a device of a stack file, or a disk. An image that a disk is copied to is made as long as it is, if `grow`
/// is set.
pub fn device_source<'a, 'b>(
    source: SourceWords<'a>,
    cache: u32,
    grow: bool,
    bindings: &'b Vec<Binding<'a>>,
) -> DeviceSource<'a, 'b>
    ensures { source_words result ≡ source_on (source_record source.entry) cache grow (map binding_record bindings.now.items) }
{
    match source {
        SourceWords::Stack { stack, name } => {
            let file = stack_file(stack, bindings);
            let device = NamedDevice { name, cache };
            DeviceSource::Stack { file, device }
        }
        SourceWords::Disk(place) => DeviceSource::Disk(DiskPlace { place, cache, grow }),
    }
}
