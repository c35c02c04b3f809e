//! Laws of the definitions, as clauses of functions that do nothing. Calling one makes its law available to a proof.
ghost use Rattle.verity_format.specs.Line.{TableLinesReadBack};

/// The text of a table line that `table_line` or `table_line_at` returns is read as a single `verity` line with those
/// arguments.
pub fn table_lines_read_back()
    ensures { TableLinesReadBack }
{}
