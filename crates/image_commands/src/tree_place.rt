//! What a tree without a superblock is.
ghost use Rattle.std.specs.Prelude.{◌≡◌, option_map, IfErr, IfOk};
ghost use Rattle.verity_format.specs.Options.{superblock_with};
ghost use Rattle.image_commands.specs.TreePlaces.{HasNoShape, HasShape, given_options, unnamed};

use command_line::ImageOptions;
use verity_format::{FormatFault, FormatOptions, Superblock, given_blocks};

/// Returns the tree with these options over a data device of so many sectors, as a superblock that is written nowhere.
///
/// # Errors
///
/// `Shape` if the options state no valid shape.
pub fn tree_of(options: FormatOptions, sectors: u64) -> Result<Superblock, FormatFault>
    ensures ok { IfOk result (HasShape (superblock_with options sectors)) }
    ensures err { IfErr result (HasNoShape (superblock_with options sectors)) }
{
    let FormatOptions {
        uuid,
        data_block,
        hash_block,
        blocks,
        salt,
    } = options;
    let count = given_blocks(blocks, data_block, sectors);
    match Superblock::new(uuid, data_block, hash_block, count, salt) {
        Ok(params) => Ok(params),
        Err(_) => Err(FormatFault::Shape),
    }
}

/// Returns the options of a tree, which has no identifier, or `None` if they give no salt.
pub fn given_options(options: ImageOptions) -> Option<FormatOptions>
    ensures { result ≡ given_options options }
{
    let salt = options.salt?;
    Some(FormatOptions {
        uuid: [0; 16],
        data_block: options.data_block,
        hash_block: options.hash_block,
        blocks: options.blocks,
        salt,
    })
}

/// Returns these options with an identifier of zeros, which a tree without a superblock has.
pub fn unnamed(options: ImageOptions) -> ImageOptions
    ensures { result ≡ unnamed options }
{
    ImageOptions {
        uuid: Some([0; 16]),
        ..options
    }
}
