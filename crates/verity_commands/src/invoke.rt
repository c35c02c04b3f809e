//! The commands on hash trees by their words.
ghost use Rattle.std.specs.Prelude.{OnOk, IfErr};
ghost use Rattle.verity_commands.specs.Invocations.{DiffsByWords, FailsDiffByWords, FailsSurveyByWords, SurveysByWords};

use crate::diff::DiffForm;
use crate::paths::HashPlaces;
use crate::placed_diff::diff_images;
use crate::survey::{SurveyOrder, survey_images};
use crate::tree_fault::TreeFault;
use crate::tree_pair::SoughtTrees;
use command_line::{DiffWords, VerifyWords};
use device_adapters::Watchers;
use image_commands::{HashPlace, stored_source};
use image_files::Images;
use image_pin::TrustedRoot;
use program_io::Counted;
use std::alloc::Global;
use std::io::Write;

const SECTOR: u64 = 512;

/// `verify --all [--json | --chart] [--progress] [--hash-offset BYTES] DATA HASH ROOT`, with the root hash or pin that is trusted.
///
/// # Errors
///
/// Those of `survey_images`.
pub fn invoke_survey<'a, I: Images, S: Watchers, W: Write>(
    alloc: Global,
    images: &mut I,
    watchers: &S,
    words: &VerifyWords<'a>,
    trusted: &TrustedRoot,
    writer: &mut Counted<W>,
) -> Result<(), TreeFault<'a>>
    ensures ok { OnOk result (SurveysByWords I.relations I.Dev.state images.old images.new W.contents writer.old writer.new words.now trusted.now) }
    ensures err { IfErr result (FailsSurveyByWords I.relations I.Dev.state images.old images.new W.contents writer.old writer.new words.now trusted.now) }
{
    let order = SurveyOrder {
        data: words.data_path,
        hash: words.hash_path,
        hash_first: words.hash_offset / SECTOR,
        form: words.form,
        progress: words.progress,
    };
    let sought = stored_source(trusted);
    survey_images(alloc, images, watchers, order, &sought, writer)
}

/// `diff [--all] [--runs N] [--json] [--old-hash-offset BYTES] [--hash-offset BYTES] HASH1 HASH2`, also with `--no-superblock`, with the
/// trees that are sought.
///
/// # Errors
///
/// Those of `diff_images`.
pub fn invoke_diff<'a, I: Images, W: Write>(
    alloc: Global,
    images: &mut I,
    words: &DiffWords<'a>,
    sought: &SoughtTrees,
    writer: &mut Counted<W>,
) -> Result<(), TreeFault<'a>>
    ensures ok { OnOk result (DiffsByWords I.relations I.Dev.state images.old images.new W.contents writer.old writer.new words.now sought.now) }
    ensures err { IfErr result (FailsDiffByWords I.relations I.Dev.state images.old images.new W.contents writer.old writer.new words.now sought.now) }
{
    let places = HashPlaces {
        first: HashPlace {
            path: words.old_path,
            first: words.old_offset / SECTOR,
        },
        second: HashPlace {
            path: words.new_path,
            first: words.new_offset / SECTOR,
        },
    };
    let form = DiffForm {
        most: words.runs,
        json: words.json,
        all: words.all,
    };
    diff_images(alloc, images, &places, sought, form, writer)
}
