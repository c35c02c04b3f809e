//! The meaning of `+` in a map.
ghost use Rattle.std.specs.Prelude.{◌≡◌};
ghost use Rattle.dm_table.specs.Words.{words};
ghost use Rattle.rescue_map.specs.Kinds.{is_mark, kind_in, kind_of};

use crate::lines::Lines;
use table_text::Words;

/// The kind of a map, which determines the meaning of `+`.
#[derive(Clone, Copy, Debug, PartialEq, Eq)]
pub enum MapKind {
    /// The map of a copy: the sector is in the copy. GNU ddrescue's maps are of this kind.
    Copy,
    /// The map of a scan: the sector was readable, and was not copied.
    Scan,
}

// Returns whether a line is `# dmstack scan`, with any white space around the words.
fn is_mark(line: &[u8]) -> bool
    ensures { result ≡ is_mark (words line.now) }
{
    let mut words = Words::new(line);
    let Some(sign) = words.next_word() else {
        return false;
    };
    let Some(program) = words.next_word() else {
        return false;
    };
    let Some(command) = words.next_word() else {
        return false;
    };
    if words.next_word().is_some() {
        return false;
    }
    sign == b"#".as_slice() && program == b"dmstack".as_slice() && command == b"scan".as_slice()
}

/// Returns the kind of the map in a text: `Scan` if one of its lines is `# dmstack scan`, which GNU ddrescue reads as
/// a comment, and otherwise `Copy`.
#[tactic(auto, unfolding(crate::specs::Kinds::kind_of))]
pub fn kind_of(text: &[u8]) -> MapKind
    ensures { result ≡ kind_of text.now }
{
    let mut lines = Lines::new(text);
    'lines: while let Some(line) = lines.next_line() {
        if is_mark(line) {
            return MapKind::Scan;
        }
    }
    MapKind::Copy
}
