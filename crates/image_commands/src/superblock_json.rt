//! The fields of a superblock as a JSON object.
ghost use Rattle.std.specs.Prelude.{◌≡◌, ◌≤◌, length, string_bytes, IfOk, IfErr, OnOk};
ghost use Rattle.allocation.specs.Asked.{asked};
ghost use Rattle.program_io.specs.JsonLines.{json_line};
ghost use Rattle.uuid.specs.Text.{hyphenated_text, lower};
ghost use Rattle.serde_json.specs.Data.{string};
ghost use Rattle.serde_json.specs.View.{view};
ghost use Rattle.verity_format.specs.Line.{salt_word};
ghost use Rattle.image_commands.specs.Endings.{IsQuiet, IsCommonEnd};
ghost use Rattle.image_pin.specs.PinTexts.{pin_text};
ghost use Rattle.image_commands.specs.PinFiles.{pin_in};
ghost use Rattle.image_commands.specs.SuperblockJson.{RefusesDump, SaysDump, fields_json, superblock_json};

use crate::fault::ImageFault;
use crate::pin_file::pin_in;
use crate::superblock_text::say_superblock;
use allocation::OutOfMemory;
use command_line::DumpForm;
use image_pin::print_pin;
use program_io::{Counted, line_of};
use serde_json::{Value, json};
use std::alloc::{AllocError, Global};
use std::io::Write;
use tree_shape::Digest;
use uuid::Uuid;
use verity_format::Superblock;

/// The fields of a superblock a line each or as an object on one line, or the pin of a root hash with its values.
#[tactic(auto, using(crate::proofs::lemmas::EndingLemmas::quiet))]
pub(crate) fn say_dump<'a, W: Write>(
    alloc: Global,
    writer: &mut Counted<W>,
    superblock: &Superblock,
    form: DumpForm,
) -> Result<(), ImageFault<'a>>
    ensures ok { OnOk result (SaysDump W.contents writer.old writer.new form superblock.now) }
    ensures err { IfErr result (IsCommonEnd (RefusesDump form) writer.new.failed) }
    ensures quiet { IfErr result (λ fault. IsQuiet fault (W.contents writer.old.inner) (W.contents writer.new.inner)) }
{
    match form {
        DumpForm::Lines => {
            say_superblock(writer, superblock)?;
            Ok(())
        }
        DumpForm::Object => {
            let line = superblock_line(alloc, superblock)?;
            writer.put(line.as_bytes())?;
            Ok(())
        }
        DumpForm::Pin(root) => {
            let text = pin_bytes(alloc, root, superblock)?;
            writer.put(text.as_slice())?;
            Ok(())
        }
    }
}

// The text of the pin of a root hash with the values of a superblock.
fn pin_bytes(alloc: Global, root: Digest, superblock: &Superblock) -> Result<Vec<u8>, OutOfMemory>
    ensures ok { IfOk result (λ text. text.items ≡ pin_text (pin_in root superblock.now)) }
    ensures err { IfErr result (λ e. asked e ≤ 512) }
{
    let pin = pin_in(root, superblock);
    print_pin(alloc, &pin)
}

fn superblock_line(alloc: Global, superblock: &Superblock) -> Result<String, AllocError>
    ensures { IfOk result (λ line. string_bytes line ≡ json_line (superblock_json superblock.now)) }
{
    let value = superblock_value(alloc, superblock)?;
    line_of(alloc, &value)
}

fn superblock_value(alloc: Global, superblock: &Superblock) -> Result<Value, AllocError>
    ensures { IfOk result (λ value. view value ≡ superblock_json superblock.now) }
{
    let salt = superblock.salt();
    let salt = salt_value(alloc, salt.bytes())?;
    let uuid = uuid_value(alloc, &superblock.uuid())?;
    let data_block = superblock.data_block();
    let blocks = superblock.blocks();
    let hash_block = superblock.hash_block();
    fields_value(alloc, data_block, blocks, hash_block, salt, uuid)
}

// The members in the order of their keys.
fn fields_value(
    alloc: Global,
    data_block: u32,
    blocks: u64,
    hash_block: u32,
    salt: Value,
    uuid: Value,
) -> Result<Value, AllocError>
    ensures { IfOk result (λ value. view value ≡ fields_json data_block blocks hash_block (view salt) (view uuid)) }
{
    json!(in alloc; {
        "algorithm": "sha256",
        "data_block": data_block,
        "data_blocks": blocks,
        "hash_block": hash_block,
        "hash_type": 1u32,
        "salt": salt,
        "uuid": uuid
    })
}

fn uuid_value(alloc: Global, uuid: &[u8; 16]) -> Result<Value, AllocError>
    ensures { IfOk result (λ value. view value ≡ string (hyphenated_text lower uuid.now)) }
{
    let mut buffer = Uuid::encode_buffer();
    let text = Uuid::from_bytes(*uuid)
        .hyphenated()
        .encode_lower(&mut buffer);
    Value::try_from_str(alloc, text)
}

fn salt_value(alloc: Global, salt: &[u8]) -> Result<Value, AllocError>
    requires { length salt.now ≤ 256 }
    ensures { IfOk result (λ value. view value ≡ string (salt_word salt.now)) }
{
    let digits = salt_digits(alloc, salt)?;
    Ok(Value::String(digits))
}

// In hexadecimal digits, or `-` if it is empty.
fn salt_digits(alloc: Global, salt: &[u8]) -> Result<String, AllocError>
    requires { length salt.now ≤ 256 }
    ensures { IfOk result (λ word. string_bytes word ≡ salt_word salt.now) }
{
    if salt.is_empty() {
        return String::from_str(alloc, "-");
    }
    hex::encode(alloc, salt)
}
