//! A root digest in a file.
ghost use Rattle.std.specs.Prelude.{◌≡◌, IfErr, IfOk};
ghost use Rattle.image_files.specs.Opener.{calls};
ghost use Rattle.image_commands.specs.RootFiles.{IsRootFileEnd, ReadsRoot, digest_of};

use crate::fault::ImageFault;
use image_files::{Images, UnopenedFile};
use tree_shape::Digest;

const DIGITS: usize = 64;

/// `--root-hash-file FILE`: returns the root hash whose 64 hexadecimal digits the file begins with, as veritysetup reads and
/// writes them. What follows the digits is ignored.
///
/// # Errors
///
/// - `Open` if the file can't be read.
/// - `RootText` if it doesn't begin with 64 hexadecimal digits.
pub fn read_root<'a, I: Images>(images: &mut I, path: &'a str) -> Result<Digest, ImageFault<'a>>
    ensures ok { IfOk result (ReadsRoot (calls I.relations I.Dev.state images.old images.new) path.now) }
    ensures err { IfErr result (IsRootFileEnd (calls I.relations I.Dev.state images.old images.new) path.now) }
{
    let text = match images.read_text(path, DIGITS) {
        Ok(text) => text,
        Err(fault) => return Err(ImageFault::Open(UnopenedFile { fault, path })),
    };
    match digest_of(text.bytes.as_slice()) {
        Some(root) => Ok(root),
        None => Err(ImageFault::RootText),
    }
}

#[tactic(auto, unfolding(crate::specs::RootFiles::digest_of))]
fn digest_of(digits: &[u8]) -> Option<Digest>
    ensures { result ≡ digest_of digits.now }
{
    let mut root = [0u8; Digest::SIZE];
    match hex::decode_to_slice(digits, &mut root) {
        Ok(()) => Some(Digest::new(root)),
        Err(_) => None,
    }
}
