//! The tree that a format makes.
ghost use Rattle.std.specs.Prelude.{◌≡◌};
ghost use Rattle.fec_commands.specs.Wanted.{made_source, start_of};

use command_line::ImageOptions;
use image_commands::{MadeImage, TreeSource};
use verity_format::FormatOptions;

/// What options state of a tree that is to be made, and whether it has no superblock.
#[derive(Clone, Copy)]
pub(crate) struct WantedTree {
    pub options: ImageOptions,
    pub bare: bool,
}

/// Returns the first block of a tree in its hash image: 1 after a superblock.
pub(crate) fn start_of(bare: bool) -> u64
    ensures { result ≡ start_of bare }
{
    if bare {
        return 0;
    }
    1
}

/// Returns where the tree that was made is stated: in its superblock, or in the options with what was drawn and counted.
pub(crate) fn made_source(wanted: &WantedTree, made: &MadeImage) -> TreeSource
    ensures { result ≡ made_source wanted.now made.now }
{
    if wanted.bare {
        return TreeSource::Options(FormatOptions {
            uuid: made.uuid,
            data_block: wanted.options.data_block,
            hash_block: wanted.options.hash_block,
            blocks: Some(made.blocks),
            salt: made.salt,
        });
    }
    TreeSource::Superblock(None)
}
