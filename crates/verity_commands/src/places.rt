//! The sector of a hash image in its file, and the root hash that is trusted.
ghost use Rattle.std.specs.Prelude.{◌≡◌, ◌/◌, IfErr, IfOk};
ghost use Rattle.verity_commands.specs.Places.{FindsNoRoot, FindsNoTrusted, FindsRoot, FindsTrusted};

use command_line::{RootOrPin, RootWord};
use image_commands::{ImageFault, read_pin, read_root};
use image_files::Images;
use image_pin::TrustedRoot;
use tree_shape::Digest;

const SECTOR: u64 = 512;

/// Returns the sector of 512 bytes in which the byte at an offset lies.
pub fn sector_at(offset: u64) -> u64
    ensures { result ≡ offset / 512 }
{
    offset / SECTOR
}

/// The root digest that words give, by itself or in a file.
pub(crate) fn root_in<'a, I: Images>(
    images: &mut I,
    root: &RootWord<'a>,
) -> Result<Digest, ImageFault<'a>>
    ensures ok { IfOk result (FindsRoot I.relations I.Dev.state images.old images.new root.now) }
    ensures err { IfErr result (FindsNoRoot I.relations I.Dev.state images.old images.new root.now) }
{
    match root {
        RootWord::Digest(root) => Ok(*root),
        RootWord::File(path) => read_root(images, path),
    }
}

/// Returns the root that is trusted: the root hash of an argument or a file, or a file's pin with its root hash.
///
/// # Errors
///
/// Those of `read_root` or `read_pin`, if a file is named.
pub fn trusted_in<'a, I: Images>(
    images: &mut I,
    word: &RootOrPin<'a>,
) -> Result<TrustedRoot, ImageFault<'a>>
    ensures ok { IfOk result (FindsTrusted I.relations I.Dev.state images.old images.new word.now) }
    ensures err { IfErr result (FindsNoTrusted I.relations I.Dev.state images.old images.new word.now) }
{
    match word {
        RootOrPin::Root(word) => match root_in(images, word) {
            Ok(root) => Ok(TrustedRoot { root, pin: None }),
            Err(fault) => Err(fault),
        },
        RootOrPin::Pin(path) => match read_pin(images, path) {
            Ok(pin) => {
                let root = pin.root;
                Ok(TrustedRoot {
                    root,
                    pin: Some(pin),
                })
            }
            Err(fault) => Err(fault),
        },
    }
}
