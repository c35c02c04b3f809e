//! The parity of an image, by the options `--fec` and `--fec-roots`.
ghost use Rattle.std.specs.Prelude.{option_map};
ghost use Rattle.command_line.specs.FormatOptions.{text_of};
ghost use Rattle.command_line.specs.FecFiles.{fec_choice_of, fec_device_of, fec_device_record, fec_file_of, fec_record, roots_of};
ghost use Rattle.command_line.specs.Misuses.{ReadsValue};

use crate::misuse::{Cause, Misuse};
use dm_table::is_device;
use table_text::number;

const ROOTS: u32 = 2;

const MOST_ROOTS: u64 = 24;

/// The path of the parity's file, and how many bytes of parity a codeword has, from 2 to 24.
#[derive(Clone, Copy)]
pub struct FecFile<'a> {
    pub path: &'a str,
    pub roots: u32,
}

/// The device argument of the parity in a table line, and how many bytes of parity a codeword has, from 2 to 24.
#[derive(Clone, Copy)]
pub struct FecDevice<'a> {
    pub device: &'a str,
    pub roots: u32,
}

/// Returns the parity file of `--fec FILE`, with the bytes of parity of a codeword by `--fec-roots N`: 2 if it is missing.
///
/// # Errors
///
/// - `WithoutFec` of `--fec-roots` if `--fec` is missing.
/// - `Roots` of `--fec-roots` if its value isn't a decimal number from 2 to 24.
#[tactic(auto, unfolding(crate::specs::FecFiles::fec_file_of))]
pub fn fec_file_of<'a>(
    path: Option<&'a str>,
    roots: Option<&'a str>,
) -> Result<FecFile<'a>, Misuse<'a>>
    ensures { ReadsValue fec_record (fec_file_of (text_of path.entry) (text_of roots.entry)) result }
{
    let Some(path) = path else {
        return Err(Misuse::new("--fec-roots", Cause::WithoutFec));
    };
    let roots = roots_of(roots)?;
    Ok(FecFile { path, roots })
}

/// Returns the parity file as `fec_file_of` does, or `None` if neither option is given.
///
/// # Errors
///
/// The misuse of `fec_file_of`.
#[tactic(auto, unfolding(crate::specs::FecFiles::fec_choice_of))]
pub fn fec_choice_of<'a>(
    path: Option<&'a str>,
    roots: Option<&'a str>,
) -> Result<Option<FecFile<'a>>, Misuse<'a>>
    ensures { ReadsValue (option_map fec_record) (fec_choice_of (text_of path.entry) (text_of roots.entry)) result }
{
    if path.is_none() && roots.is_none() {
        return Ok(None);
    }
    let fec = fec_file_of(path, roots)?;
    Ok(Some(fec))
}

/// Returns the device of `--fec FECNAME`, with the bytes of parity of a codeword as `fec_file_of` does.
///
/// # Errors
///
/// The misuse of `fec_file_of`, or `DeviceName` of `--fec` if its value isn't a device argument.
#[tactic(auto, unfolding(crate::specs::FecFiles::fec_device_of))]
pub fn fec_device_of<'a>(
    device: Option<&'a str>,
    roots: Option<&'a str>,
) -> Result<FecDevice<'a>, Misuse<'a>>
    ensures { ReadsValue fec_device_record (fec_device_of (text_of device.entry) (text_of roots.entry)) result }
{
    let fec = fec_file_of(device, roots)?;
    if is_device(fec.path.as_bytes()) {
        return Ok(FecDevice {
            device: fec.path,
            roots: fec.roots,
        });
    }
    Err(Misuse::new("--fec", Cause::DeviceName))
}

// How many bytes of parity a codeword has: 2 unless the word says another number up to 24.
#[tactic(auto, unfolding(crate::specs::FecFiles::roots_of))]
fn roots_of<'a>(word: Option<&'a str>) -> Result<u32, Misuse<'a>>
    ensures { ReadsValue (λ n. n) (roots_of (text_of word.entry)) result }
{
    let Some(word) = word else {
        return Ok(ROOTS);
    };
    match number(word.as_bytes()) {
        Some(roots) if roots >= 2 && roots <= MOST_ROOTS => Ok(roots as u32),
        _ => Err(Misuse::new("--fec-roots", Cause::Roots)),
    }
}
