//! Maps of files, as bindings name them.
ghost use Rattle.std.specs.Prelude.{◌≡◌, codes, option_map};
ghost use Rattle.std.specs.Str.{bytes_eq};
ghost use Rattle.command_line.specs.MapBindings.{kind_map, part_of_read, part_read};
ghost use Rattle.command_line.specs.PartBindings.{part_record};

use crate::part_bindings::{FilePart, kind_part};

/// Returns the part of a file, if one is named, and the path of the map of the whole file, as `ro%MAP` and `ro@FIRST+COUNT%MAP`
/// name them; `None` if the text is neither. It is split at the first `%`. A file that may be written has no map.
pub fn kind_map(kind: &str) -> Option<(Option<FilePart>, &str)>
    ensures { option_map (λ found. (option_map part_record found.0, found.1.now)) result ≡ kind_map kind.now }
{
    let (access, map_file) = kind.split_once('%')?;
    let part = part_read(access)?;
    Some((part, map_file))
}

// All of a file that is only read, or a part of it: `ro` or `ro@FIRST+COUNT`.
fn part_read(access: &str) -> Option<Option<FilePart>>
    ensures { option_map (λ part. option_map part_record part) result ≡ part_read access.now }
{
    if is_read_only(access.as_bytes()) {
        return Some(None);
    }
    part_of_read(access)
}

// `ro@FIRST+COUNT`
fn part_of_read(access: &str) -> Option<Option<FilePart>>
    ensures { option_map (λ part. option_map part_record part) result ≡ part_of_read access.now }
{
    let (writable, part) = kind_part(access)?;
    if writable {
        return None;
    }
    Some(Some(part))
}

fn is_read_only(access: &[u8]) -> bool
    ensures { result ≡ bytes_eq access.now (codes "ro") }
{
    access == b"ro".as_slice()
}
