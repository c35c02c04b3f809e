//! The command `assemble`.
ghost use Rattle.std.specs.Prelude.{◌≡◌, IfErr, IfOk, OnOk};
ghost use Rattle.command_line.specs.words.Assemble.{assemble_record};
ghost use Rattle.image_commands.specs.Drawing.{drawing};
ghost use Rattle.image_files.specs.Opener.{calls};
ghost use Rattle.assemble_commands.specs.Commands.{Assembles, FillsDisk, IsApart, FinishesDisk, disk_pin};
ghost use Rattle.assemble_commands.specs.Kinds.{disk_kinds};
ghost use Rattle.assemble_commands.specs.Ends.{EndsDisk, EndsFilling, IsFinishEnd, IsOneFile, IsRoomEnd};

use crate::ends::{clear_ends, put_table};
use crate::filling::{copy_part, grow_disk, make_part};
use crate::kinds::{DiskKinds, disk_kinds};
use crate::parity::protect_parts;
use crate::plan::{DiskPlan, plan_disk};
use crate::watching::watched_data;
use block_device::BlockDev;
use command_line::{AssembleWords, RootFile, RootForm};
use device_adapters::{Progress, Watched, Watchers};
use fec_commands::FecFault;
use image_commands::{
    Generators, ImageFault, ImagePlaces, MadeImage, check_other_file, check_root_path, say_made,
    write_root,
};
use image_files::{FileUse, Images, open_place, place_use};
use image_pin::Pin;
use program_io::Counted;
use std::alloc::Global;
use std::io::Write;
use verity_commands::VerityFault;

/// `assemble [--type TYPE] [--arch ARCH] [--fec] [--sector-size 512|4096] [--draw-from SEED] [--progress] [--pin FILE] OUT DATA`: makes
/// OUT long enough, clears both of its ends, and copies DATA to its first partition. It writes the hash image to the second one and,
/// with `--fec`, the parity to the third one. The partition table is written last, when all of that is synced; then the pin, and then
/// what was made is printed. With `--progress` it is shown how much of DATA was read, of all that is read.
///
/// # Errors
///
/// - `Verity` with `Usage` if there is no type `TYPE-ARCH` or `TYPE-ARCH-verity`.
/// - `Verity` with `Image` if a file can't be opened, grown or written, the image can't be made, OUT has too few sectors, there are no
///   random bytes, or memory ran out.
/// - `Parity` or `BlockSizes` if the parity can't be written.
pub fn invoke_assemble<'a, I: Images, G: Generators + Watchers, W: Write>(
    alloc: Global,
    images: &mut I,
    generators: &mut G,
    words: &AssembleWords<'a>,
    writer: &mut Counted<W>,
) -> Result<(), FecFault<'a>>
    ensures ok { OnOk result (Assembles I.relations I.Dev.state images.old images.new (drawing G.gives G.Generator.stream generators.old generators.new) W.contents writer.old writer.new words.now) }
    ensures err { IfErr result (EndsDisk I.relations I.Dev.state images.old images.new (drawing G.gives G.Generator.stream generators.old generators.new) W.contents writer.old writer.new words.now) }
{
    let found = kinds_of(alloc, words)?;
    let Some(kinds) = found else {
        return Err(FecFault::Verity(VerityFault::Usage));
    };
    check_root_path(images, places_of(words), &words.file)?;
    check_apart(images, words)?;
    let data = open_place(alloc, images, words.data_path, false)?;
    let files = [place_use(&data, false)];
    let device = data.device;
    let sectors = device.sectors();
    let plan = plan_disk(generators, words, sectors, kinds)?;
    let mut data_dev = watched_data(generators, words.progress, device, &plan);
    let made = fill_disk(alloc, images, &files, &mut data_dev, words.disk_path, &plan)?;
    finish(alloc, images, words, &plan, &made, writer)?;
    Ok(())
}

// The types of the partitions, if both are there.
fn kinds_of<'a>(
    alloc: Global,
    words: &AssembleWords<'a>,
) -> Result<Option<DiskKinds>, ImageFault<'a>>
    ensures ok { IfOk result (λ kinds. kinds ≡ disk_kinds words.now.kind.now words.now.arch.now) }
    ensures err { IfErr result (IsRoomEnd (assemble_record words.now)) }
{
    let kinds = disk_kinds(alloc, words.kind, words.arch)?;
    Ok(kinds)
}

// Checks that OUT isn't the file of DATA, which would be made longer.
fn check_apart<'a, I: Images>(
    images: &mut I,
    words: &AssembleWords<'a>,
) -> Result<(), ImageFault<'a>>
    ensures ok { OnOk result (IsApart (calls I.relations I.Dev.state images.old images.new) (assemble_record words.now)) }
    ensures err { IfErr result (IsOneFile (calls I.relations I.Dev.state images.old images.new) (assemble_record words.now)) }
{
    let file = Some(RootFile {
        path: words.disk_path,
        form: RootForm::Pin,
    });
    check_other_file(images, words.data_path, &file)
}

// The two files that the pin mustn't be.
fn places_of<'a>(words: &AssembleWords<'a>) -> ImagePlaces<'a>
    ensures { result ≡ record { «data» = words.now.data_path; hash = words.now.disk_path; hash_first = 0 } }
{
    ImagePlaces {
        data: words.data_path,
        hash: words.disk_path,
        hash_first: 0,
    }
}

// Fills the disk under a path: the data, the hash image, the parity, and then the table.
fn fill_disk<'a, I: Images, P: Progress>(
    alloc: Global,
    images: &mut I,
    files: &[FileUse],
    data_dev: &mut Watched<I::Dev, P>,
    path: &'a str,
    plan: &DiskPlan,
) -> Result<MadeImage, FecFault<'a>>
    ensures ok { IfOk result (FillsDisk (calls I.relations I.Dev.state images.old images.new) files.now path.now data_dev.old.inner plan.now) }
    ensures err { IfErr result (EndsFilling (calls I.relations I.Dev.state images.old images.new) files.now path.now data_dev.old.inner plan.now) }
{
    grow_disk(images, path, plan.parts.sectors)?;
    clear_ends(alloc, images, files, path, plan.parts.sectors)?;
    copy_part(alloc, images, files, data_dev, path, plan.parts.data)?;
    let made = make_part(alloc, images, files, data_dev, path, plan)?;
    protect_parts(alloc, images, files, data_dev, path, plan)?;
    put_table(alloc, images, files, path, plan, &made)?;
    Ok(made)
}

// Writes the pin, if there is a file for it, and prints what was made.
fn finish<'a, I: Images, W: Write>(
    alloc: Global,
    images: &mut I,
    words: &AssembleWords<'a>,
    plan: &DiskPlan,
    made: &MadeImage,
    writer: &mut Counted<W>,
) -> Result<(), ImageFault<'a>>
    ensures ok { OnOk result (FinishesDisk I.relations I.Dev.state images.old images.new W.contents writer.old writer.new words.now plan.now made.now) }
    ensures err { IfErr result (IsFinishEnd (calls I.relations I.Dev.state images.old images.new) W.contents writer.old writer.new words.now (disk_pin plan.now made.now)) }
{
    let pin = pin_of(plan, made);
    write_root(alloc, images, places_of(words), &words.file, &pin)?;
    say_made(writer, made)?;
    Ok(())
}

// The pin of the image that was made.
fn pin_of(plan: &DiskPlan, made: &MadeImage) -> Pin
    ensures { result ≡ disk_pin plan.now made.now }
{
    Pin {
        root: made.root,
        salt: made.salt,
        data_block: plan.options.data_block,
        hash_block: plan.options.hash_block,
        blocks: made.blocks,
    }
}
