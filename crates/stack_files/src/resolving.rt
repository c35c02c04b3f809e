//! The partitions that bindings name, as parts of their disks.
ghost use Rattle.std.specs.Prelude.{IfErr, IfOk};
ghost use Rattle.command_line.specs.FilePlaces.{named_partition_record};
ghost use Rattle.image_files.specs.Opener.{calls};
ghost use Rattle.stack_files.specs.Resolving.{FailsResolving, FailsToResolveEach, FailsToFindPart, ResolvesAll, ResolvesBy, ResolvesTo, UnresolvedBy};

use crate::opening_fault::OpeningFault;
use crate::stack_fault::StackFault;
use allocation::push;
use command_line::{Backing, Binding, FilePart, NamedPartition};
use image_files::{Images, UnopenedFile, partition_under};
use std::alloc::Global;

// A partition of the disk under a path as a part of the disk.
fn resolve_partition<'a, I: Images>(
    alloc: Global,
    images: &mut I,
    path: &'a str,
    writable: bool,
    named: NamedPartition<'a>,
) -> Result<Backing<'a>, UnopenedFile<'a>>
    ensures ok { IfOk result (ResolvesTo I.relations I.Dev.state images.old images.new path.now writable (named_partition_record named.entry)) }
    ensures err { IfErr result (FailsToFindPart (calls I.relations I.Dev.state images.old images.new) path.now writable (named_partition_record named.entry)) }
{
    match partition_under(alloc, images, path, named, writable) {
        Ok(part) => Ok(Backing::Part {
            path,
            writable,
            part: FilePart {
                first: part.first,
                count: part.count,
            },
        }),
        Err(fault) => Err(UnopenedFile { fault, path }),
    }
}

// What a name is bound to, with a partition as a part of its disk.
fn resolve_backing<'a, I: Images>(
    alloc: Global,
    images: &mut I,
    backing: Backing<'a>,
) -> Result<Backing<'a>, UnopenedFile<'a>>
    ensures ok { IfOk result (ResolvesBy I.relations I.Dev.state images.old images.new backing.entry) }
    ensures err { IfErr result (UnresolvedBy I.relations I.Dev.state images.old images.new backing.entry) }
{
    match backing {
        Backing::Partition {
            path,
            writable,
            named,
        } => resolve_partition(alloc, images, path, writable, named),
        Backing::File { .. }
        | Backing::Part { .. }
        | Backing::Mapped { .. }
        | Backing::Zeros(_)
        | Backing::Ramp(_) => Ok(backing),
    }
}

// The bindings, resolved in order.
fn resolve_each<'a, I: Images>(
    alloc: Global,
    images: &mut I,
    bindings: &[Binding<'a>],
) -> Result<Vec<Binding<'a>>, OpeningFault<'a>>
    ensures ok { IfOk result (ResolvesAll I.relations I.Dev.state images.old images.new bindings.now) }
    ensures err { IfErr result (FailsToResolveEach I.relations I.Dev.state images.old images.new bindings.now) }
{
    let mut resolved = Vec::new(alloc);
    'bindings: for binding in bindings {
        let backing = resolve_backing(alloc, images, binding.backing)?;
        let name = binding.name;
        push(&mut resolved, Binding { name, backing })?;
    }
    Ok(resolved)
}

/// Returns the bindings with each partition as the part of its disk that it is in the disk's partition table. The disks are
/// opened for reading, in order, and closed.
///
/// # Errors
///
/// - `NoMemory` if an allocation for the bindings was refused.
/// - `Open` with the path of a disk and why its partition isn't found: the opener's fault; `NotFound` if there is no valid partition
///   table, or not exactly one partition of that name; `NotAllowed` if it is bound for writing and the table isn't sound (`partition_under`);
///   `OtherFault` if the disk failed; `NoMemory` if an allocation was refused.
pub fn resolve_bindings<'a, I: Images>(
    alloc: Global,
    images: &mut I,
    bindings: &[Binding<'a>],
) -> Result<Vec<Binding<'a>>, StackFault<'a>>
    ensures ok { IfOk result (ResolvesAll I.relations I.Dev.state images.old images.new bindings.now) }
    ensures err { IfErr result (FailsResolving I.relations I.Dev.state images.old images.new bindings.now) }
{
    Ok(resolve_each(alloc, images, bindings)?)
}
