//! The printed table line of a hash image.
ghost use Rattle.std.specs.Prelude.{◌++◌, codes, IfErr, OnOk};
ghost use Rattle.allocation.specs.Refusal.{IsOutOfMemory};
ghost use Rattle.program_io.specs.Counted.{Writes};
ghost use Rattle.image_commands.specs.Endings.{IsCommonEnd, IsQuiet};
ghost use Rattle.image_commands.specs.TableLines.{SaysNamedLine, entry_head, said_room};

use crate::fault::ImageFault;
use crate::table::{LineTree, LineWords};
use program_io::{Counted, WriteFault};
use std::alloc::Global;
use std::io::Write;
use verity_format::{LineDevices, table_line_at};

/// Prints the line of an image with that tree; with a name the whole entry of a read-only device.
///
/// # Errors
///
/// `NoMemory` if memory for the line was refused, or `Write` if it can't be written.
#[tactic(auto, using(crate::proofs::lemmas::EndingLemmas::quiet))]
pub fn say_line<'a, 'b, W: Write>(
    alloc: Global,
    writer: &mut Counted<W>,
    name: Option<&str>,
    tree: LineTree<'b>,
    words: LineWords<'b>,
) -> Result<(), ImageFault<'a>>
    ensures ok { OnOk result (SaysNamedLine W.contents writer.old writer.new name.entry tree.entry words.entry) }
    ensures err { IfErr result (IsCommonEnd (IsOutOfMemory (said_room tree.entry words.entry)) writer.new.failed) }
    ensures quiet { IfErr result (λ fault. IsQuiet fault (W.contents writer.old.inner) (W.contents writer.new.inner)) }
{
    let LineWords {
        root,
        data_name,
        hash_name,
    } = words;
    let LineTree {
        tree,
        start,
        parity,
    } = tree;
    let devices = LineDevices {
        data: data_name.as_bytes(),
        hash: hash_name.as_bytes(),
        parity,
    };
    let line = table_line_at(alloc, tree, devices, &root.root, start)?;
    say_entry(writer, name, line.as_slice())?;
    Ok(())
}

// The line after what makes it an entry, if there is a name.
fn say_entry<W: Write>(
    writer: &mut Counted<W>,
    name: Option<&str>,
    line: &[u8],
) -> Result<(), WriteFault>
    ensures { Writes W.contents writer.old writer.new (entry_head name.entry ++ (line.now ++ codes "\n")) result }
{
    say_head(writer, name)?;
    writer.put(line)?;
    writer.put(b"\n")
}

fn say_head<W: Write>(writer: &mut Counted<W>, name: Option<&str>) -> Result<(), WriteFault>
    ensures { Writes W.contents writer.old writer.new (entry_head name.entry) result }
{
    match name {
        Some(name) => {
            writer.put(name.as_bytes())?;
            writer.put(b",,,ro,")
        }
        None => Ok(()),
    }
}
