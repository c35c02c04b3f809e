//! Makes a hash image over a data image.
ghost use Rattle.std.specs.Prelude.{IfErr, IfOk, OnErr};
ghost use Rattle.program_io.specs.Counted.{Writes};
ghost use Rattle.image_commands.specs.Drawing.{DrawsOptions, FailsToDraw};
ghost use Rattle.image_commands.specs.Formats.{HandsMakingOf, IsUnmade, MakesImage, StopsMakingOf, made_text};

use crate::clearing::clear_superblock;
use crate::fault::ImageFault;
use crate::random::{Generators, draw};
use crate::refusal::check_format;
use crate::superblock_text::{say_blocks, say_root, say_salt, say_uuid};
use block_device::{BlockDev, SyncDev};
use command_line::ImageOptions;
use program_io::{Counted, WriteFault};
use std::alloc::Global;
use std::io::Write;
use tree_shape::{Digest, Salt};
use verity_format::{FormatFault, FormatOptions, format_with, given_blocks};

/// What was made: the root digest, and what else is printed of the image.
#[derive(Clone, Copy)]
pub struct MadeImage {
    pub root: Digest,
    pub salt: Salt,
    pub uuid: [u8; 16],
    pub blocks: u64,
}

/// Formats the hash device over the data device, and syncs it. A superblock that was stored there is cleared first, unless the
/// format is refused.
///
/// # Errors
///
/// The fault of the format, or `Device` if a device failed.
pub fn make<D: BlockDev, H: SyncDev>(
    alloc: Global,
    data_dev: &mut D,
    hash_dev: &mut H,
    options: FormatOptions,
) -> Result<MadeImage, FormatFault>
    ensures ok { IfOk result (MakesImage D.state H.state data_dev.old hash_dev.old data_dev.new hash_dev.new options) }
    ensures err { IfErr result (IsUnmade D.state H.state data_dev.old hash_dev.old data_dev.new hash_dev.new options) }
    ensures handed { IfOk result (HandsMakingOf D.state D.does H.state H.does options data_dev.old hash_dev.old data_dev.new hash_dev.new) }
    ensures stopped { OnErr result (StopsMakingOf D.state D.does H.state H.does options data_dev.old hash_dev.old data_dev.new hash_dev.new) }
{
    let blocks = given_blocks(options.blocks, options.data_block, data_dev.sectors());
    let salt = options.salt;
    let uuid = options.uuid;
    check_format(data_dev, hash_dev, &options)?;
    clear_superblock(hash_dev)?;
    let root = format_with(alloc, data_dev, hash_dev, options)?;
    match hash_dev.sync() {
        Ok(()) => Ok(MadeImage {
            root,
            salt,
            uuid,
            blocks,
        }),
        Err(_) => Err(FormatFault::Device),
    }
}

/// Prints the root hash, the salt, the identifier and the number of data blocks of an image that was made, a line each.
///
/// # Errors
///
/// `WriteFault` if the writer failed.
#[tactic(auto, unfolding(crate::specs::Formats::made_text))]
pub fn say_made<W: Write>(writer: &mut Counted<W>, made: &MadeImage) -> Result<(), WriteFault>
    ensures { Writes W.contents writer.old writer.new (made_text made.now) result }
{
    say_root(writer, &made.root)?;
    say_salt(writer, made.salt.bytes())?;
    say_uuid(writer, &made.uuid)?;
    say_blocks(writer, made.blocks)
}

/// Returns the options with a salt and an identifier. One generator gives what is missing.
///
/// # Errors
///
/// `Random` if something is missing and there are no random bytes.
pub fn given_or_drawn<'a, G: Generators>(
    generators: &mut G,
    options: ImageOptions,
) -> Result<FormatOptions, ImageFault<'a>>
    ensures ok { IfOk result (DrawsOptions G.gives G.Generator.stream generators.old generators.new options) }
    ensures err { IfErr result (FailsToDraw G.gives G.Generator.stream generators.old generators.new options) }
{
    let ImageOptions {
        data_block,
        hash_block,
        blocks,
        salt,
        uuid,
    } = options;
    let (salt, uuid) = match (salt, uuid) {
        (Some(salt), Some(uuid)) => (salt, uuid),
        (salt, uuid) => {
            let mut generator = match generators.generator() {
                Ok(generator) => generator,
                Err(_) => return Err(ImageFault::Random),
            };
            let (drawn_salt, drawn_uuid) = draw(&mut generator);
            (salt.unwrap_or(drawn_salt), uuid.unwrap_or(drawn_uuid))
        }
    };
    Ok(FormatOptions {
        uuid,
        data_block,
        hash_block,
        blocks,
        salt,
    })
}
