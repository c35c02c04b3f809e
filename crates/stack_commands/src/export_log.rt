//! The lines of `nbd` ahead of its service, printed among the errors. A failure of the errors' writer stays known and ends nothing.
ghost use Rattle.std.specs.Prelude.{◌≡◌, ◌≤◌, codes, length};
ghost use Rattle.hex.specs.Hex.{encode_lower};
ghost use Rattle.nbd_protocol.specs.Exports.{export_record, export_records};
ghost use Rattle.nbd_server.specs.FaultLines.{IsPrinted};
ghost use Rattle.stack_files.specs.Warnings.{notes_of};
ghost use Rattle.program_io.specs.Counted.{Writes};
ghost use Rattle.stack_rules.specs.Names.{lines_of};
ghost use Rattle.stack_commands.specs.ServiceLog.{IsWarned, export_facts, export_line, export_words, exports_text, named_facts, only_root, rights_text, root_end, root_facts, root_words, start_text, target_root};

use dm_table::{Line, Target};
use linux_rules::has_signature;
use nbd_protocol::Export;
use program_io::{Counted, WriteFault};
use stack_config::{Config, DevId};
use stack_files::note_unchecked;
use std::io::Write;
use tree_shape::Digest;

/// Prints that no signature is checked, if a line names the key of one, and a line for each export.
pub(crate) fn note_start<E: Write>(errors: &mut Counted<E>, config: &Config, exports: &[Export<'_>])
    ensures { IsPrinted E.contents errors.old errors.new (start_text config.now (export_records exports.now)) }
{
    note_unchecked(errors, config);
    let _said = say_exports(errors, config, exports);
}

/// Prints that no signature is checked, if a line names the key of one, and otherwise nothing.
pub(crate) fn note_unsigned<E: Write>(errors: &mut Counted<E>, config: &Config)
    ensures { IsWarned config.now (notes_of E.contents errors.old errors.new) }
{
    if !has_signature(config) {
        return;
    }
    note_unchecked(errors, config);
}

// A line for each export.
fn say_exports<W: Write>(
    writer: &mut Counted<W>,
    config: &Config,
    exports: &[Export<'_>],
) -> Result<(), WriteFault>
    ensures { Writes W.contents writer.old writer.new (exports_text config.now (export_records exports.now)) result }
{
    for export in exports {
        say_export(writer, config, export)?;
    }
    Ok(())
}

// `dmstack: export NAME SIZE bytes ro, root HEX`
#[tactic(auto, unfolding(crate::specs::ServiceLog::export_line))]
fn say_export<W: Write>(
    writer: &mut Counted<W>,
    config: &Config,
    export: &Export<'_>,
) -> Result<(), WriteFault>
    ensures { Writes W.contents writer.old writer.new (export_line config.now (export_record export.now)) result }
{
    writer.put(b"dmstack: export ")?;
    say_named_facts(writer, config, export)
}

// `NAME SIZE bytes ro, root HEX`
#[tactic(auto, unfolding(crate::specs::ServiceLog::named_facts))]
fn say_named_facts<W: Write>(
    writer: &mut Counted<W>,
    config: &Config,
    export: &Export<'_>,
) -> Result<(), WriteFault>
    ensures { Writes W.contents writer.old writer.new (named_facts config.now (export_record export.now)) result }
{
    writer.put(export.name)?;
    say_export_words(writer, config, export)
}

// ` SIZE bytes ro, root HEX`
#[tactic(auto, unfolding(crate::specs::ServiceLog::export_words))]
fn say_export_words<W: Write>(
    writer: &mut Counted<W>,
    config: &Config,
    export: &Export<'_>,
) -> Result<(), WriteFault>
    ensures { Writes W.contents writer.old writer.new (export_words config.now (export_record export.now)) result }
{
    say_export_facts(writer, export.size, export.writable)?;
    say_root_facts(writer, config, export.device)
}

// ` SIZE bytes rw`, or `ro`
fn say_export_facts<W: Write>(
    writer: &mut Counted<W>,
    size: u64,
    writable: bool,
) -> Result<(), WriteFault>
    ensures { Writes W.contents writer.old writer.new (export_facts size writable) result }
{
    let rights = rights_text(writable);
    writer.print(format_args!(" {size} bytes {rights}"))
}

fn rights_text(writable: bool) -> &'static str
    ensures { result.now ≡ rights_text writable }
{
    if writable { "rw" } else { "ro" }
}

// `, root HEX` if the device has a root hash, and the end of the line
#[tactic(auto, unfolding(crate::specs::ServiceLog::root_facts))]
fn say_root_facts<W: Write>(
    writer: &mut Counted<W>,
    config: &Config,
    device: DevId,
) -> Result<(), WriteFault>
    ensures { Writes W.contents writer.old writer.new (root_facts (lines_of config.now device.0)) result }
{
    say_root_end(writer, device_root(config, device))?;
    writer.put(b"\n")
}

// `, root HEX`, if there is a root hash
fn say_root_end<W: Write>(writer: &mut Counted<W>, root: Option<Digest>) -> Result<(), WriteFault>
    ensures { Writes W.contents writer.old writer.new (root_end root) result }
{
    match root {
        None => writer.put(b""),
        Some(root) => say_root(writer, &root),
    }
}

// `, root HEX`
#[tactic(auto, unfolding(crate::specs::ServiceLog::root_words))]
fn say_root<W: Write>(writer: &mut Counted<W>, root: &Digest) -> Result<(), WriteFault>
    ensures { Writes W.contents writer.old writer.new (root_words root.now) result }
{
    writer.put(b", root ")?;
    say_digits(writer, root.as_bytes())
}

// 32 bytes in hexadecimal digits.
fn say_digits<W: Write>(writer: &mut Counted<W>, bytes: &[u8]) -> Result<(), WriteFault>
    requires { length bytes.now ≤ 32 }
    ensures { Writes W.contents writer.old writer.new (encode_lower bytes.now) result }
{
    let mut buffer = [0u8; 64];
    let digits = &mut buffer[..2 * bytes.len()];
    hex::encode_to_slice(bytes, digits).unwrap();
    writer.put(digits)
}

// The root hash of a mapped device whose only line is a `verity` line.
fn device_root(config: &Config, device: DevId) -> Option<Digest>
    ensures { result ≡ only_root (lines_of config.now device.0) }
{
    if device.0 as usize >= config.count() {
        return None;
    }
    only_root(config.table(device).lines())
}

// The root hash of the only line, if it is a `verity` line.
fn only_root(lines: &[Line]) -> Option<Digest>
    ensures { result ≡ only_root lines.now }
{
    match lines {
        [line] => line_root(line),
        _ => None,
    }
}

fn line_root(line: &Line) -> Option<Digest>
    ensures { result ≡ target_root line.now.target }
{
    match &line.target {
        Target::Verity(verity) => Some(verity.root),
        Target::Linear(_) => None,
        Target::Striped { .. } => None,
        Target::Zero => None,
        Target::Error => None,
        Target::Crypt(_) => None,
        Target::Unstriped(_) => None,
    }
}
