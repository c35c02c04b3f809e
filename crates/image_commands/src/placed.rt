//! The commands `dump` and `table`.
ghost use Rattle.std.specs.Prelude.{IfErr, OnOk};
ghost use Rattle.image_commands.specs.Endings.{IsQuiet};
ghost use Rattle.image_commands.specs.PlacedImages.{DumpsImageAt, FailsToDumpAt, FailsToPrintAt, IsPlacedDumpEnd, IsPlacedSuperEnd, PrintsLineAt, RefusesDumpOf, RefusesLineOf, SaysFieldsAt, SaysLineAt};
ghost use Rattle.image_commands.specs.Places.{IsPartState};

use crate::fault::ImageFault;
use crate::line::say_line;
use crate::places::{HashPlace, tree_start};
use crate::superblock_json::say_dump;
use crate::table::{LineTree, LineWords};
use block_device::BlockDev;
use command_line::DumpForm;
use device_adapters::Window;
use image_files::{Images, open_place};
use image_pin::find_tree;
use program_io::Counted;
use std::alloc::Global;
use std::io::Write;
use std::marker::Brand;
use verity_format::read_superblock;

/// `dump [--hash-offset BYTES] [--json] [--pin ROOT] HASH`: prints the fields of the superblock at that sector of HASH, a line each
/// or as a JSON object, or the pin of a root hash with these fields.
///
/// # Errors
///
/// - `Open` if HASH can't be opened.
/// - `Verify` if there is no superblock at that sector, or the device failed.
/// - `NoMemory` if the superblock was read and memory for the object or the pin was refused.
/// - `Write` if a line can't be written.
#[tactic(auto, using(crate::proofs::lemmas::EndingLemmas::quiet))]
pub fn dump_placed<'a, I: Images, W: Write>(
    alloc: Global,
    images: &mut I,
    place: HashPlace<'a>,
    form: DumpForm,
    writer: &mut Counted<W>,
) -> Result<(), ImageFault<'a>>
    ensures ok { OnOk result (DumpsImageAt I.relations I.Dev.state images.old images.new W.contents writer.old writer.new place.entry form) }
    ensures err { IfErr result (FailsToDumpAt I.relations I.Dev.state images.old images.new writer.new place.entry (RefusesDumpOf place.entry.first form)) }
    ensures quiet { IfErr result (λ fault. IsQuiet fault (W.contents writer.old.inner) (W.contents writer.new.inner)) }
{
    let HashPlace { path, first } = place;
    let image = open_place(alloc, images, path, false)?;
    dump_behind(alloc, image.device, first, form, writer)
}

#[tactic(auto, using(crate::proofs::lemmas::EndingLemmas::quiet))]
fn dump_behind<'a, H: BlockDev + Drop, W: Write>(
    alloc: Global,
    hash_dev: H,
    first: u64,
    form: DumpForm,
    writer: &mut Counted<W>,
) -> Result<(), ImageFault<'a>>
    ensures ok { OnOk result (SaysFieldsAt H.state hash_dev W.contents writer.old writer.new first form) }
    ensures err { IfErr result (IsPlacedDumpEnd (IsPartState H.state) (RefusesDumpOf first form (H.state hash_dev)) (H.state hash_dev) first writer.new.failed) }
    ensures quiet { IfErr result (λ fault. IsQuiet fault (W.contents writer.old.inner) (W.contents writer.new.inner)) }
{
    let mut window = Window::<H, Brand>::behind(hash_dev, first);
    let superblock = read_superblock(&mut window)?;
    say_dump(alloc, writer, &superblock, form)
}

/// `table [--hash-offset BYTES] [--name NAME] HASH ROOT DATANAME HASHNAME`: prints the table line, whose tree counts from the
/// beginning of HASH; with a name the whole entry of a read-only device.
///
/// # Errors
///
/// - `Open` if HASH can't be opened.
/// - `Verify` if there is no superblock at that sector, or the device failed.
/// - `Unaligned` if no hash block begins at that sector, `Unpinned` if the superblock differs from the pin.
/// - `NoMemory` if memory for the line was refused.
/// - `Write` if the line can't be written.
#[tactic(auto, using(crate::proofs::lemmas::EndingLemmas::quiet))]
pub fn table_placed<'a, I: Images, W: Write>(
    alloc: Global,
    images: &mut I,
    place: HashPlace<'a>,
    name: Option<&str>,
    words: LineWords<'_>,
    writer: &mut Counted<W>,
) -> Result<(), ImageFault<'a>>
    ensures ok { OnOk result (PrintsLineAt I.relations I.Dev.state images.old images.new W.contents writer.old writer.new place.entry name.entry words.entry) }
    ensures err { IfErr result (FailsToPrintAt I.relations I.Dev.state images.old images.new writer.new place.entry words.entry.root.now.pin (RefusesLineOf place.entry.first words.entry)) }
    ensures quiet { IfErr result (λ fault. IsQuiet fault (W.contents writer.old.inner) (W.contents writer.new.inner)) }
{
    let HashPlace { path, first } = place;
    let image = open_place(alloc, images, path, false)?;
    table_behind(alloc, (image.device, first), name, words, writer)
}

#[tactic(auto, using(crate::proofs::lemmas::EndingLemmas::quiet))]
fn table_behind<'a, H: BlockDev + Drop, W: Write>(
    alloc: Global,
    placed: (H, u64),
    name: Option<&str>,
    words: LineWords<'_>,
    writer: &mut Counted<W>,
) -> Result<(), ImageFault<'a>>
    ensures ok { OnOk result (SaysLineAt H.state placed W.contents writer.old writer.new name.entry words.entry) }
    ensures err { IfErr result (IsPlacedSuperEnd (IsPartState H.state) (RefusesLineOf placed.1 words.entry (H.state placed.0)) (H.state placed.0) placed.1 words.entry.root.now.pin writer.new.failed) }
    ensures quiet { IfErr result (λ fault. IsQuiet fault (W.contents writer.old.inner) (W.contents writer.new.inner)) }
{
    let (hash_dev, first) = placed;
    let mut window = Window::<H, Brand>::behind(hash_dev, first);
    let superblock = find_tree(&mut window, first, &words.root.pin)?;
    let size = superblock.hash_block();
    let start = tree_start(first, size, 1);
    let tree = superblock.tree();
    let placed = LineTree {
        tree: &tree,
        start,
        parity: None,
    };
    say_line(alloc, writer, name, placed, words)
}
