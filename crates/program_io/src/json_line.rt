//! The line of a JSON value.
ghost use Rattle.std.specs.Prelude.{◌≡◌, false, string_bytes, IfOk};
ghost use Rattle.program_io.specs.JsonLines.{json_line};
ghost use Rattle.serde_json.specs.View.{view};
ghost use Rattle.serde_json.specs.Written.{has_float};

use serde_json::Value;
use std::alloc::{AllocError, Global};

/// Returns the text of the value without white space, and a newline. The keys of an object are in ascending order.
///
/// # Errors
///
/// `AllocError` if an allocation fails.
#[tactic(auto, unfolding(crate::specs::JsonLines::json_line))]
pub fn line_of(alloc: Global, value: &Value) -> Result<String, AllocError>
    requires { has_float (view value.now) ≡ false }
    ensures { IfOk result (λ line. string_bytes line ≡ json_line (view value.now)) }
{
    let mut line = value.to_string(alloc)?;
    line.push('\n')?;
    Ok(line)
}
