//! The file of an image's root hash, by the options `--pin` and `--root-hash-file`.
ghost use Rattle.std.specs.Prelude.{option_map};
ghost use Rattle.command_line.specs.FormatOptions.{text_of};
ghost use Rattle.command_line.specs.Misuses.{ReadsValue};
ghost use Rattle.command_line.specs.RootFiles.{root_choice_of, root_file_of, root_file_record};

use crate::misuse::{Cause, Misuse, refuse_if};
use crate::values::{path_of, pin_of};

/// How a root hash is written: its digits alone, or its pin.
#[derive(Clone, Copy)]
pub enum RootForm {
    Digits,
    Pin,
}

/// The file to which a root hash is written.
#[derive(Clone, Copy)]
pub struct RootFile<'a> {
    pub path: &'a str,
    pub form: RootForm,
}

/// Returns the file of the root hash by `--pin` and `--root-hash-file`, or `None` if neither option is given.
///
/// # Errors
///
/// - `WithPin` of `--root-hash-file` if both are given.
/// - `FilePath` of the option whose path is empty or `-`.
#[tactic(auto, unfolding(crate::specs::RootFiles::root_choice_of))]
pub fn root_choice_of<'a>(
    pin: Option<&'a str>,
    file: Option<&'a str>,
) -> Result<Option<RootFile<'a>>, Misuse<'a>>
    ensures { ReadsValue (option_map root_file_record) (root_choice_of (text_of pin.entry) (text_of file.entry)) result }
{
    if pin.is_none() && file.is_none() {
        return Ok(None);
    }
    let found = root_file_of(pin, file)?;
    Ok(Some(found))
}

// The file of the root hash, by `--pin` and `--root-hash-file`, of which one is given.
#[tactic(auto, unfolding(crate::specs::RootFiles::root_file_of))]
fn root_file_of<'a>(pin: Option<&'a str>, file: Option<&'a str>) -> Result<RootFile<'a>, Misuse<'a>>
    ensures { ReadsValue root_file_record (root_file_of (text_of pin.entry) (text_of file.entry)) result }
{
    let Some(word) = file else {
        let path = pin_of(pin)?;
        return Ok(RootFile {
            path,
            form: RootForm::Pin,
        });
    };
    refuse_if(pin.is_some(), "--root-hash-file", Cause::WithPin)?;
    let path = path_of("--root-hash-file", word)?;
    Ok(RootFile {
        path,
        form: RootForm::Digits,
    })
}
