//! The line of a finding.
ghost use Rattle.std.specs.Prelude.{◌++◌, codes};
ghost use Rattle.program_io.specs.Counted.{Writes};
ghost use Rattle.find_commands.specs.Lines.{finding_line, stated_number, opening_text, place_text, stated_uuid, volume_opening};

use crate::checksum::Checksum;
use crate::finding::Finding;
use crate::kind::Kind;
use program_io::{Counted, WriteFault};
use std::io::Write;
use uuid::Uuid;

/// Writes `OFFSET KIND SIZE BLOCKS UUID OPENER`, with `-` for a number or an identifier that isn't stated, and `damaged` in place of the
/// command for a LUKS2 header whose checksum is wrong.
///
/// # Errors
///
/// `WriteFault` if the writer failed.
#[tactic(auto, unfolding(crate::specs::Lines::finding_line))]
pub fn say_finding<W: Write>(writer: &mut Counted<W>, finding: Finding) -> Result<(), WriteFault>
    ensures { Writes W.contents writer.old writer.new (finding_line finding) result }
{
    let Finding {
        offset,
        sector: _,
        kind,
        size,
        blocks,
        uuid,
        checksum,
    } = finding;
    say_place(writer, offset, kind)?;
    say_number(writer, size)?;
    say_number(writer, blocks)?;
    say_uuid(writer, uuid)?;
    say_opening(writer, offset, kind, checksum)?;
    writer.put(b"\n")
}

// Where it begins, and its kind.
#[tactic(auto, unfolding(crate::specs::Lines::place_text))]
fn say_place<W: Write>(writer: &mut Counted<W>, offset: u64, kind: Kind) -> Result<(), WriteFault>
    ensures { Writes W.contents writer.old writer.new (place_text offset kind) result }
{
    writer.print(format_args!("{offset} "))?;
    writer.put(kind.name().as_bytes())?;
    writer.put(b" ")
}

// A number and a space.
fn say_number<W: Write>(writer: &mut Counted<W>, number: Option<u64>) -> Result<(), WriteFault>
    ensures { Writes W.contents writer.old writer.new (stated_number number) result }
{
    match number {
        Some(number) => writer.print(format_args!("{number} ")),
        None => writer.put(b"- "),
    }
}

// An identifier and a space.
fn say_uuid<W: Write>(writer: &mut Counted<W>, uuid: Option<[u8; 16]>) -> Result<(), WriteFault>
    ensures { Writes W.contents writer.old writer.new (stated_uuid uuid) result }
{
    match uuid {
        Some(uuid) => {
            let mut buffer = Uuid::encode_buffer();
            let text = Uuid::from_bytes(uuid)
                .hyphenated()
                .encode_lower(&mut buffer);
            say_word(writer, text.as_bytes())
        }
        None => writer.put(b"- "),
    }
}

// A text and a space.
fn say_word<W: Write>(writer: &mut Counted<W>, word: &[u8]) -> Result<(), WriteFault>
    ensures { Writes W.contents writer.old writer.new (word.now ++ codes " ") result }
{
    writer.put(word)?;
    writer.put(b" ")
}

// The command that opens it, with the option that has the offset.
fn say_opening<W: Write>(
    writer: &mut Counted<W>,
    offset: u64,
    kind: Kind,
    checksum: Option<Checksum>,
) -> Result<(), WriteFault>
    ensures { Writes W.contents writer.old writer.new (opening_text offset kind checksum) result }
{
    match kind {
        Kind::Gpt | Kind::GptBackup => writer.put(b"partitions"),
        Kind::Verity => writer.print(format_args!("verify --hash-offset {offset}")),
        Kind::Luks2 | Kind::Luks2Secondary => say_volume_opening(writer, checksum),
        Kind::Ext4 | Kind::Erofs | Kind::Squashfs | Kind::Xfs | Kind::Btrfs => {
            writer.print(format_args!("mount -o ro,offset={offset}"))
        }
    }
}

// The command for a LUKS2 volume, by the checksum of its header.
fn say_volume_opening<W: Write>(
    writer: &mut Counted<W>,
    checksum: Option<Checksum>,
) -> Result<(), WriteFault>
    ensures { Writes W.contents writer.old writer.new (volume_opening checksum) result }
{
    match checksum {
        Some(Checksum::Wrong) => writer.put(b"damaged"),
        Some(Checksum::Unchecked) => writer.put(b"cryptsetup open unchecked"),
        Some(Checksum::Valid) | None => writer.put(b"cryptsetup open"),
    }
}
