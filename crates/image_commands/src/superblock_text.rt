//! The printed fields of a superblock.
ghost use Rattle.std.specs.Prelude.{◌≤◌, ◌++◌, codes, length};
ghost use Rattle.hex.specs.Hex.{encode_lower};
ghost use Rattle.program_io.specs.Counted.{Writes};
ghost use Rattle.image_commands.specs.SuperblockTexts.{algorithm_text, blocks_text, data_block_text, data_blocks_text, hash_block_text, root_text, salt_text, sizes_text, superblock_text, uuid_text};

use program_io::{Counted, WriteFault};
use std::io::Write;
use tree_shape::Digest;
use uuid::Uuid;
use verity_format::Superblock;

/// Prints `root HEX`.
///
/// # Errors
///
/// `WriteFault` if the writer failed.
#[tactic(auto, unfolding(crate::specs::SuperblockTexts::root_text))]
pub fn say_root<W: Write>(writer: &mut Counted<W>, root: &Digest) -> Result<(), WriteFault>
    ensures { Writes W.contents writer.old writer.new (root_text root.now) result }
{
    writer.put(b"root ")?;
    say_digits(writer, root.as_bytes())
}

/// Prints `salt HEX`, or `salt -` if the salt is empty. A salt has at most 256 bytes.
///
/// # Errors
///
/// `WriteFault` if the writer failed.
#[tactic(auto, unfolding(crate::specs::SuperblockTexts::salt_text))]
pub fn say_salt<W: Write>(writer: &mut Counted<W>, salt: &[u8]) -> Result<(), WriteFault>
    requires { length salt.now ≤ 256 }
    ensures { Writes W.contents writer.old writer.new (salt_text salt.now) result }
{
    if salt.is_empty() {
        return writer.put(b"salt -\n");
    }
    writer.put(b"salt ")?;
    say_digits(writer, salt)
}

/// Prints `uuid U`, hyphenated and in lower case.
///
/// # Errors
///
/// `WriteFault` if the writer failed.
#[tactic(auto, unfolding(crate::specs::SuperblockTexts::uuid_text))]
pub fn say_uuid<W: Write>(writer: &mut Counted<W>, uuid: &[u8; 16]) -> Result<(), WriteFault>
    ensures { Writes W.contents writer.old writer.new (uuid_text uuid.now) result }
{
    let mut buffer = Uuid::encode_buffer();
    let text = Uuid::from_bytes(*uuid)
        .hyphenated()
        .encode_lower(&mut buffer);
    say_word(writer, b"uuid ", text.as_bytes())
}

// Prints both texts, and a newline.
fn say_word<W: Write>(writer: &mut Counted<W>, name: &[u8], word: &[u8]) -> Result<(), WriteFault>
    ensures { Writes W.contents writer.old writer.new (name.now ++ (word.now ++ codes "\n")) result }
{
    writer.put(name)?;
    writer.put(word)?;
    writer.put(b"\n")
}

/// Prints the fields of a superblock, a line each.
///
/// # Errors
///
/// `WriteFault` if the writer failed.
#[tactic(auto, unfolding(crate::specs::SuperblockTexts::superblock_text))]
pub fn say_superblock<W: Write>(
    writer: &mut Counted<W>,
    superblock: &Superblock,
) -> Result<(), WriteFault>
    ensures { Writes W.contents writer.old writer.new (superblock_text superblock.now) result }
{
    say_uuid(writer, &superblock.uuid())?;
    say_algorithm(writer)?;
    say_sizes(writer, superblock)?;
    let salt = superblock.salt();
    say_salt(writer, salt.bytes())
}

#[tactic(auto, unfolding(crate::specs::SuperblockTexts::algorithm_text))]
fn say_algorithm<W: Write>(writer: &mut Counted<W>) -> Result<(), WriteFault>
    ensures { Writes W.contents writer.old writer.new algorithm_text result }
{
    writer.put(b"hash_type 1\nalgorithm sha256\n")
}

#[tactic(auto, unfolding(crate::specs::SuperblockTexts::sizes_text))]
fn say_sizes<W: Write>(writer: &mut Counted<W>, superblock: &Superblock) -> Result<(), WriteFault>
    ensures { Writes W.contents writer.old writer.new (sizes_text superblock.now) result }
{
    say_data_block(writer, superblock.data_block())?;
    say_hash_block(writer, superblock.hash_block())?;
    say_data_blocks(writer, superblock.blocks())
}

// `data_block N`
#[tactic(auto, unfolding(crate::specs::SuperblockTexts::data_block_text))]
fn say_data_block<W: Write>(writer: &mut Counted<W>, count: u32) -> Result<(), WriteFault>
    ensures { Writes W.contents writer.old writer.new (data_block_text count) result }
{
    writer.print(format_args!("data_block {count}\n"))
}

// `hash_block N`
#[tactic(auto, unfolding(crate::specs::SuperblockTexts::hash_block_text))]
fn say_hash_block<W: Write>(writer: &mut Counted<W>, count: u32) -> Result<(), WriteFault>
    ensures { Writes W.contents writer.old writer.new (hash_block_text count) result }
{
    writer.print(format_args!("hash_block {count}\n"))
}

// `data_blocks N`
#[tactic(auto, unfolding(crate::specs::SuperblockTexts::data_blocks_text))]
fn say_data_blocks<W: Write>(writer: &mut Counted<W>, count: u64) -> Result<(), WriteFault>
    ensures { Writes W.contents writer.old writer.new (data_blocks_text count) result }
{
    writer.print(format_args!("data_blocks {count}\n"))
}

/// Prints `blocks N`.
///
/// # Errors
///
/// `WriteFault` if the writer failed.
#[tactic(auto, unfolding(crate::specs::SuperblockTexts::blocks_text))]
pub fn say_blocks<W: Write>(writer: &mut Counted<W>, count: u64) -> Result<(), WriteFault>
    ensures { Writes W.contents writer.old writer.new (blocks_text count) result }
{
    writer.print(format_args!("blocks {count}\n"))
}

// At most 256 bytes in hexadecimal digits, and a newline.
fn say_digits<W: Write>(writer: &mut Counted<W>, bytes: &[u8]) -> Result<(), WriteFault>
    requires { length bytes.now ≤ 256 }
    ensures { Writes W.contents writer.old writer.new (encode_lower bytes.now ++ codes "\n") result }
{
    say_hex(writer, bytes)?;
    writer.put(b"\n")
}

/// At most 256 bytes in hexadecimal digits.
pub(crate) fn say_hex<W: Write>(writer: &mut Counted<W>, bytes: &[u8]) -> Result<(), WriteFault>
    requires { length bytes.now ≤ 256 }
    ensures { Writes W.contents writer.old writer.new (encode_lower bytes.now) result }
{
    let mut buffer = [0u8; 512];
    let digits = &mut buffer[..2 * bytes.len()];
    hex::encode_to_slice(bytes, digits).unwrap();
    writer.put(digits)
}
