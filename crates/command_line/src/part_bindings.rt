//! Parts of files, as bindings name them.
ghost use Rattle.std.specs.Prelude.{◌≡◌, option_map};
ghost use Rattle.command_line.specs.PartBindings.{access_of, kind_part, part_record, said_part, sectors_from};

use table_text::number;

// The bytes of an image stay below 2^64.
const SECTORS_END: u64 = 1 << 55;

/// So many sectors of 512 bytes, from the first one on.
#[derive(Clone, Copy, Debug, PartialEq, Eq)]
pub struct FilePart {
    pub first: u64,
    pub count: u64,
}

/// Returns whether `rw@FIRST+COUNT` or `ro@FIRST+COUNT` is writable, and its sectors of 512 bytes; `None` if the text is
/// neither. It is split at the first `@` and the first `+`.
pub fn kind_part(kind: &str) -> Option<(bool, FilePart)>
    ensures { option_map (λ found. (found.0, part_record found.1)) result ≡ kind_part kind.now }
{
    let (access, place) = kind.split_once('@')?;
    let writable = access_of(access.as_bytes())?;
    let part = part_of(place)?;
    Some((writable, part))
}

/// `rw` or `ro`
pub(crate) fn access_of(access: &[u8]) -> Option<bool>
    ensures { result ≡ access_of access.now }
{
    if access == b"rw".as_slice() {
        Some(true)
    } else if access == b"ro".as_slice() {
        Some(false)
    } else {
        None
    }
}

/// `FIRST+COUNT`
pub(crate) fn part_of(place: &str) -> Option<FilePart>
    ensures { option_map part_record result ≡ said_part place.now }
{
    let (first, count) = place.split_once('+')?;
    sectors_from(first, count)
}

// At least one sector, and the sum below 2^55, so that all bytes have an address.
fn sectors_from(first: &str, count: &str) -> Option<FilePart>
    ensures { option_map part_record result ≡ sectors_from first.now count.now }
{
    let first = number(first.as_bytes())?;
    let count = number(count.as_bytes())?;
    if count < 1 || first >= SECTORS_END || count >= SECTORS_END - first {
        return None;
    }
    Some(FilePart { first, count })
}
