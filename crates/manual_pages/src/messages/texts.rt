//! The sentences on stacks that can't be read.
ghost use Rattle.std.specs.Prelude.{◌≡◌};
ghost use Rattle.manual_pages.specs.messages.Texts.{text_message};

use dm_table::TextKind;

/// Returns the sentence on a stack that can't be read.
#[tactic(auto, unfolding(crate::specs::messages::Texts::text_message))]
pub fn text_message(kind: TextKind) -> &'static str
    ensures { result.now ≡ text_message kind }
{
    match kind {
        TextKind::NotText =>
            "the stack has a backslash, or a byte that is neither white space nor printable ASCII: remove it",
        TextKind::Fields =>
            "the entry has fewer than five fields: write 'NAME,UUID,MINOR,FLAGS,LINE', and ';' between entries",
        TextKind::Name =>
            "a device's name is empty or too long, or has a character that isn't allowed, such as a comma",
        TextKind::Flags =>
            "the fourth field is neither 'ro' nor 'rw': check the number of commas before it",
        TextKind::Number =>
            "a decimal number below 2^64 is missing: write it without unit, sign or hexadecimal digits",
        TextKind::Target =>
            "there is no such target: use linear, striped, unstriped, zero, error, crypt or verity",
        TextKind::ArgCount =>
            "the line has too few or too many arguments: check the comma after it, and the number of its options",
        TextKind::Cipher => "the cipher isn't supported: only aes-xts-plain64 is",
        TextKind::Key =>
            "the key isn't 64 or 128 hexadecimal digits; a key in the kernel's keyring can't be used",
        TextKind::Version =>
            "the version of the verity line isn't supported: format the image anew with hash type 1",
        TextKind::BlockSize =>
            "the block size isn't supported: it has to be 512, 1024, 2048 or 4096",
        TextKind::Algorithm =>
            "the hash algorithm isn't supported: format the image anew with sha256",
        TextKind::Digest => "the root hash isn't 64 hexadecimal digits: copy all of them",
        TextKind::Salt =>
            "the salt is neither '-' nor an even number of hexadecimal digits, from 2 to 512",
        TextKind::Option =>
            "an option is unknown, given twice or has no fitting value: correct it, or remove it and lower the number of options",
        TextKind::StripeCount =>
            "the number of stripes isn't supported: it is 1 to 16, or 1 to 2^32 - 1 of an unstriped line",
        TextKind::ZeroChunk =>
            "the chunk size isn't supported: it is a number of sectors, at least 1",
        TextKind::StripeNumber =>
            "the line has no such stripe: they are numbered from 0 to COUNT - 1",
    }
}
