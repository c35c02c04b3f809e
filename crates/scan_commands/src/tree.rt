//! The devices of a stack over their leaves as a tree.
ghost use Rattle.std.specs.Prelude.{◌≡◌, ◌<◌, ◌≤◌, ◌++◌, ◌∷◌, [], length, map, OnOk};
ghost use Rattle.program_io.specs.Counted.{Writes};
ghost use Rattle.command_line.specs.Bindings.{binding_record};
ghost use Rattle.stack_rules.specs.Names.{names};
ghost use Rattle.scan_commands.specs.TreeRows.{IsIn};
ghost use Rattle.scan_commands.specs.Trees.{bare_text, beneath, depths_shown, is_last_name, is_top, line_shown, lines_shown, name_shown, name_text, opened, top_shown, tops_shown, tree_text};
ghost use Rattle.scan_commands.specs.TreeViews.{IsPlaced, bound, line_at};

use crate::tree_place::Place;
use crate::tree_rows::{offset_of, say_branch, say_file, say_line, say_lower};
use command_line::Binding;
use dm_table::Line;
use program_io::{Counted, WriteFault};
use stack_config::{Config, DevId, Lower};
use stack_rules::name_count;
use std::io::Write;

/// The most devices of a configuration.
const DEVICES: usize = 64;

/// The greatest depth of a device.
const DEPTH: u32 = 8;

/// A configuration, and the bindings of its leaves.
#[derive(Drop)]
struct Bound<'a> {
    config: &'a Config,
    bindings: &'a [Binding<'a>],
}

/// A line of a device with its number, and whether it is the last one.
#[derive(Drop)]
struct LineAt<'a> {
    device: DevId,
    number: u32,
    last: bool,
    line: &'a Line,
}

/// Prints the mapped devices as a tree: at the left each device that no other one uses, and beneath a device a row for each name
/// in its lines, or for a line without names.
///
/// A row is `NAME sectors S rw TYPE FIRST COUNT offset O`: a leaf or device with its size, or `ro` in place of `rw`; the target
/// type of the line that names it; the first sector of the line and how many it has, of the device above; and where they begin on
/// the one named. After a leaf in a file follows ` file PATH`. The lines of a device are printed once: a later row of it ends in
/// ` (above)`. Sectors have 512 bytes.
///
/// # Errors
///
/// `WriteFault` if the writer failed.
#[tactic(auto, unfolding(crate::specs::Trees::tree_text))]
pub fn say_tree<W: Write>(
    config: &Config,
    bindings: &[Binding<'_>],
    writer: &mut Counted<W>,
) -> Result<(), WriteFault>
    ensures { Writes W.contents writer.old writer.new (tree_text (record { config = config.now; bindings = map binding_record bindings.now })) result }
{
    let shown = Bound { config, bindings };
    let mut printed = [false; DEVICES];
    say_depths(&shown, DEPTH, &mut printed, writer)
}

// Prints the devices of the greatest depths, as many as `count`, that weren't printed before.
#[tactic(auto, unfolding(crate::specs::Trees::each))]
fn say_depths<W: Write>(
    shown: &Bound<'_>,
    count: u32,
    printed: &mut [bool; DEVICES],
    writer: &mut Counted<W>,
) -> Result<(), WriteFault>
    requires { count ≤ 8 }
    ensures { Writes W.contents writer.old writer.new (depths_shown (bound shown.now) count printed.old).text result }
{
    'depths: for i in 0..count {
        say_tops(shown, DEPTH - i, printed, writer)?;
    }
    Ok(())
}

// Prints the devices of this depth that weren't printed before.
#[tactic(auto, unfolding(crate::specs::Trees::each))]
fn say_tops<W: Write>(
    shown: &Bound<'_>,
    depth: u32,
    printed: &mut [bool; DEVICES],
    writer: &mut Counted<W>,
) -> Result<(), WriteFault>
    ensures writes { Writes W.contents writer.old writer.new (tops_shown (bound shown.now) depth printed.old).text result }
    ensures printed { OnOk result (printed.new ≡ (tops_shown (bound shown.now) depth printed.old).printed) }
{
    'devices: for d in 0..shown.config.count() {
        say_top(shown, depth, DevId(d as u32), printed, writer)?;
    }
    Ok(())
}

// Prints a device at the left if it has this depth and wasn't printed before.
#[tactic(auto, unfolding(crate::specs::Trees::top_shown))]
fn say_top<W: Write>(
    shown: &Bound<'_>,
    depth: u32,
    d: DevId,
    printed: &mut [bool; DEVICES],
    writer: &mut Counted<W>,
) -> Result<(), WriteFault>
    requires { d.0 < length shown.now.config.now.devices }
    ensures writes { Writes W.contents writer.old writer.new (top_shown (bound shown.now) depth d.0 printed.old).text result }
    ensures printed { OnOk result (printed.new ≡ (top_shown (bound shown.now) depth d.0 printed.old).printed) }
{
    if is_top(shown.config, depth, d, printed) {
        say_lower(shown.config, Lower::Device(d), writer)?;
        writer.put(b"\n")?;
        let top = Place::top();
        return say_lines(shown, d, &top, printed, writer);
    }
    Ok(())
}

fn is_top(config: &Config, depth: u32, d: DevId, printed: &[bool; DEVICES]) -> bool
    requires { d.0 < length config.now.devices }
    ensures { result ≡ is_top config.now depth d.0 printed.now }
{
    let _loaded = config.count();
    config.depth(d) == depth && !printed[d.0 as usize]
}

// Prints the rows of the lines of a device.
#[cycle(lines)]
fn say_lines<W: Write>(
    shown: &Bound<'_>,
    d: DevId,
    place: &Place,
    printed: &mut [bool; DEVICES],
    writer: &mut Counted<W>,
) -> Result<(), WriteFault>
    requires { d.0 < length shown.now.config.now.devices }
    ensures writes { Writes W.contents writer.old writer.new
        (lines_shown (bound shown.now) (beneath (bound shown.now) place.now.steps) place.now.bars d.0 printed.old).text result }
    ensures printed { OnOk result (printed.new ≡
        (lines_shown (bound shown.now) (beneath (bound shown.now) place.now.steps) place.now.bars d.0 printed.old).printed) }
{
    let _loaded = shown.config.count();
    printed[d.0 as usize] = true;
    let lines = shown.config.table(d).lines();
    for (l, line) in lines.iter().enumerate() {
        let at = LineAt {
            device: d,
            number: l as u32,
            last: l + 1 == lines.len(),
            line,
        };
        say_names(shown, &at, place, printed, writer)?;
    }
    Ok(())
}

// Prints a row for each name of a line, or one for the line.
#[cycle(lines)]
fn say_names<W: Write>(
    shown: &Bound<'_>,
    at: &LineAt<'_>,
    place: &Place,
    printed: &mut [bool; DEVICES],
    writer: &mut Counted<W>,
) -> Result<(), WriteFault>
    requires { IsPlaced shown.now.config.now (line_at at.now) }
    ensures writes { Writes W.contents writer.old writer.new
        (line_shown (bound shown.now) (beneath (bound shown.now) place.now.steps) place.now.bars (line_at at.now) printed.old).text result }
    ensures printed { OnOk result (printed.new ≡
        (line_shown (bound shown.now) (beneath (bound shown.now) place.now.steps) place.now.bars (line_at at.now) printed.old).printed) }
{
    let _loaded = shown.config.count();
    let names = name_count(&at.line.target);
    if names == 0 {
        return say_bare(at, place.bars(), writer);
    }
    for i in 0..names {
        say_name(shown, at, i as u32, place, printed, writer)?;
    }
    Ok(())
}

// Prints the row of name i of a line, and the rows beneath.
#[cycle(lines)]
fn say_name<W: Write>(
    shown: &Bound<'_>,
    at: &LineAt<'_>,
    i: u32,
    place: &Place,
    printed: &mut [bool; DEVICES],
    writer: &mut Counted<W>,
) -> Result<(), WriteFault>
    requires placed { IsPlaced shown.now.config.now (line_at at.now) }
    requires name { i < length (names at.now.line.now.target) }
    ensures writes { Writes W.contents writer.old writer.new
        (name_shown (bound shown.now) (beneath (bound shown.now) place.now.steps) place.now.bars (line_at at.now) i printed.old).text result }
    ensures printed { OnOk result (printed.new ≡
        (name_shown (bound shown.now) (beneath (bound shown.now) place.now.steps) place.now.bars (line_at at.now) i printed.old).printed) }
{
    let lower = shown.config.lower(at.device, at.number, i);
    say_row(shown.config, place.bars(), at, i, lower, writer)?;
    match lower {
        Lower::Leaf(leaf) => {
            say_file(shown.bindings, leaf, writer)?;
            writer.put(b"\n")
        }
        Lower::Device(e) => say_opened(shown, e, place, !is_last_name(at, i), printed, writer),
    }
}

// Ends the row of a device, and prints the rows beneath unless its lines were printed before.
#[cycle(lines)]
fn say_opened<W: Write>(
    shown: &Bound<'_>,
    e: DevId,
    place: &Place,
    bar: bool,
    printed: &mut [bool; DEVICES],
    writer: &mut Counted<W>,
) -> Result<(), WriteFault>
    requires { e.0 < length shown.now.config.now.devices }
    ensures writes { Writes W.contents writer.old writer.new
        (opened (beneath (bound shown.now) place.now.steps) (place.now.bars ++ bar ∷ []) e.0 printed.old).text result }
    ensures printed { OnOk result (printed.new ≡
        (opened (beneath (bound shown.now) place.now.steps) (place.now.bars ++ bar ∷ []) e.0 printed.old).printed) }
{
    let _loaded = shown.config.count();
    if printed[e.0 as usize] {
        return writer.put(b" (above)\n");
    }
    writer.put(b"\n")?;
    match place.beneath(bar) {
        Some(below) => say_lines(shown, e, &below, printed, writer),
        None => Ok(()),
    }
}

fn is_last_name(at: &LineAt<'_>, i: u32) -> bool
    ensures { result ≡ is_last_name (line_at at.now) i }
{
    at.last && i as usize + 1 == name_count(&at.line.target)
}

// Prints the row of a name up to its end.
#[tactic(auto, unfolding(crate::specs::Trees::name_text))]
fn say_row<W: Write>(
    config: &Config,
    bars: &[bool],
    at: &LineAt<'_>,
    i: u32,
    lower: Lower,
    writer: &mut Counted<W>,
) -> Result<(), WriteFault>
    requires { IsIn config.now lower }
    ensures { Writes W.contents writer.old writer.new (name_text config.now bars.now (line_at at.now) i lower) result }
{
    say_branch(bars, is_last_name(at, i), writer)?;
    say_lower(config, lower, writer)?;
    writer.put(b" ")?;
    say_line(at.line, writer)?;
    let offset = offset_of(&at.line.target, i);
    writer.print(format_args!(" offset {offset}"))
}

// Prints the row of a line without names.
#[tactic(auto, unfolding(crate::specs::Trees::bare_text))]
fn say_bare<W: Write>(
    at: &LineAt<'_>,
    bars: &[bool],
    writer: &mut Counted<W>,
) -> Result<(), WriteFault>
    ensures { Writes W.contents writer.old writer.new (bare_text bars.now (line_at at.now)) result }
{
    say_branch(bars, at.last, writer)?;
    say_line(at.line, writer)?;
    writer.put(b"\n")
}
