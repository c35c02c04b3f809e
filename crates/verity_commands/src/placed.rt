//! The commands on verity images with a superblock: `verify`, `dump` and `table`.
ghost use Rattle.std.specs.Prelude.{OnOk, IfErr};
ghost use Rattle.verity_commands.specs.Placed.{DumpsByWords, FailsToDump, FailsToPrintTable, FailsToVerifyByWords, PrintsByWords, VerifiesByWords};

use crate::places::{sector_at, trusted_in};
use crate::trees::stored_in;
use crate::verity_fault::VerityFault;
use command_line::{DumpWords, TableWords, VerifyWords};
use device_adapters::Watchers;
use image_commands::{
    HashPlace, ImagePlaces, LineWords, WatchedPlaces, dump_placed, table_placed, verify_images,
};
use image_files::Images;
use program_io::Counted;
use std::alloc::Global;
use std::io::Write;

/// `verify [--progress] [--hash-offset BYTES] [--root-hash-file FILE | --pin FILE] DATA HASH [ROOT]`
///
/// # Errors
///
/// `Image` with a fault of `trusted_in` or `verify_images`.
pub fn invoke_verify<'a, I: Images, S: Watchers, W: Write>(
    alloc: Global,
    images: &mut I,
    watchers: &S,
    words: &VerifyWords<'a>,
    writer: &mut Counted<W>,
) -> Result<(), VerityFault<'a>>
    ensures ok { OnOk result (VerifiesByWords I.relations I.Dev.state images.old images.new W.contents writer.old writer.new words.now) }
    ensures err { IfErr result (FailsToVerifyByWords I.relations I.Dev.state images.old images.new W.contents writer.old writer.new words.now) }
{
    let sought = stored_in(images, &words.root)?;
    let hash_first = sector_at(words.hash_offset);
    let places = ImagePlaces {
        data: words.data_path,
        hash: words.hash_path,
        hash_first,
    };
    let progress = words.progress;
    let watched = WatchedPlaces { places, progress };
    Ok(verify_images(alloc, images, watchers, watched, &sought, writer)?)
}

/// `dump [--hash-offset BYTES] [--json] [--pin ROOT] HASH`
///
/// # Errors
///
/// `Image` with a fault of `dump_placed`.
pub fn invoke_dump<'a, I: Images, W: Write>(
    alloc: Global,
    images: &mut I,
    words: &DumpWords<'a>,
    writer: &mut Counted<W>,
) -> Result<(), VerityFault<'a>>
    ensures ok { OnOk result (DumpsByWords I.relations I.Dev.state images.old images.new W.contents writer.old writer.new words.now) }
    ensures err { IfErr result (FailsToDump I.relations I.Dev.state images.old images.new W.contents writer.old writer.new words.now) }
{
    let place = HashPlace {
        path: words.hash_path,
        first: sector_at(words.hash_offset),
    };
    Ok(dump_placed(alloc, images, place, words.form, writer)?)
}

/// `table [--hash-offset BYTES] [--name NAME] [--root-hash-file FILE | --pin FILE] HASH [ROOT] DATANAME HASHNAME`
///
/// # Errors
///
/// `Image` with a fault of `trusted_in` or `table_placed`.
pub fn invoke_table<'a, I: Images, W: Write>(
    alloc: Global,
    images: &mut I,
    words: &TableWords<'a>,
    writer: &mut Counted<W>,
) -> Result<(), VerityFault<'a>>
    ensures ok { OnOk result (PrintsByWords I.relations I.Dev.state images.old images.new W.contents writer.old writer.new words.now) }
    ensures err { IfErr result (FailsToPrintTable I.relations I.Dev.state images.old images.new W.contents writer.old writer.new words.now) }
{
    let trusted = trusted_in(images, &words.root)?;
    let place = HashPlace {
        path: words.hash_path,
        first: sector_at(words.hash_offset),
    };
    let line = LineWords {
        root: &trusted,
        data_name: words.data_name,
        hash_name: words.hash_name,
    };
    Ok(table_placed(alloc, images, place, words.name, line, writer)?)
}
