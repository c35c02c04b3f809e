//! The segments of a LUKS2 volume, as the JSON value of its JSON area states them.
ghost use Rattle.std.specs.Prelude.{◌≡◌, codes, option_map};
ghost use Rattle.std.specs.Str.{bytes_eq};
ghost use Rattle.command_line.specs.FormatOptions.{text_of};
ghost use Rattle.serde_json.specs.Find.{get};
ghost use Rattle.serde_json.specs.View.{view};
ghost use Rattle.find_commands.specs.Luks.{cipher_in, crypt_in, extent_in, is_crypt, length_in, length_of, number_in, sector_size_in, sectors_in, segment_at, stated_length, text_in, whole_sectors};

use serde_json::Value;
use table_text::number;

/// Where an encrypted segment is on its volume, in sectors of 512 bytes, and how its sectors are encrypted. Without a size it ends
/// with the volume.
#[derive(Clone, Copy)]
pub(crate) struct Extent {
    pub offset: u64,
    pub size: Option<u64>,
    pub iv_tweak: u64,
    pub sector_size: u64,
}

/// Returns the segment of that name.
pub(crate) fn segment_at<'a>(area: &'a Value, name: &str) -> Option<&'a Value>
    ensures { option_map (λ v. view v.now) result ≡ segment_at name.now (view area.now) }
{
    let segments = segments_in(area)?;
    segments.get(name)
}

fn segments_in(area: &Value) -> Option<&Value>
    ensures { option_map (λ v. view v.now) result ≡ get (codes "segments") (view area.now) }
{
    area.get("segments")
}

/// Returns the cipher and the extent of a segment of type `crypt`.
pub(crate) fn crypt_in(segment: &Value) -> Option<(&str, Extent)>
    ensures { option_map (λ found. (found.0.now, found.1)) result ≡ crypt_in (view segment.now) }
{
    if is_crypt(segment) {
        return cipher_in(segment);
    }
    None
}

fn is_crypt(segment: &Value) -> bool
    ensures { result ≡ is_crypt (text_in (codes "type") (view segment.now)) }
{
    match text_in(segment, "type") {
        Some(kind) => is_crypt_type(kind),
        None => false,
    }
}

fn is_crypt_type(kind: &str) -> bool
    ensures { result ≡ bytes_eq kind.now (codes "crypt") }
{
    kind.as_bytes() == b"crypt".as_slice()
}

fn cipher_in(segment: &Value) -> Option<(&str, Extent)>
    ensures { option_map (λ found. (found.0.now, found.1)) result ≡ cipher_in (view segment.now) }
{
    let cipher = text_in(segment, "encryption")?;
    let extent = extent_in(segment)?;
    Some((cipher, extent))
}

fn extent_in(segment: &Value) -> Option<Extent>
    ensures { result ≡ extent_in (view segment.now) }
{
    let offset = sectors_in(segment, "offset")?;
    let size = length_in(segment)?;
    let iv_tweak = number_in(segment, "iv_tweak")?;
    let sector_size = sector_size_in(segment)?;
    Some(Extent {
        offset,
        size,
        iv_tweak,
        sector_size,
    })
}

// A member that is a text.
fn text_in<'a>(segment: &'a Value, name: &str) -> Option<&'a str>
    ensures { text_of result ≡ text_in name.now (view segment.now) }
{
    let member = segment.get(name)?;
    member.as_str()
}

// A member that is a text of decimal digits.
fn number_in(segment: &Value, name: &str) -> Option<u64>
    ensures { result ≡ number_in name.now (view segment.now) }
{
    let text = text_in(segment, name)?;
    number(text.as_bytes())
}

fn sectors_in(segment: &Value, name: &str) -> Option<u64>
    ensures { result ≡ sectors_in name.now (view segment.now) }
{
    let bytes = number_in(segment, name)?;
    whole_sectors(bytes)
}

fn whole_sectors(bytes: u64) -> Option<u64>
    ensures { result ≡ whole_sectors bytes }
{
    if bytes % 512 == 0 {
        Some(bytes / 512)
    } else {
        None
    }
}

fn length_in(segment: &Value) -> Option<Option<u64>>
    ensures { result ≡ length_in (view segment.now) }
{
    let text = text_in(segment, "size")?;
    length_of(text)
}

// The size that the text states, or none if the segment ends with the volume.
fn length_of(text: &str) -> Option<Option<u64>>
    ensures { result ≡ length_of text.now }
{
    if is_dynamic(text) {
        return Some(None);
    }
    stated_length(text)
}

fn is_dynamic(text: &str) -> bool
    ensures { result ≡ bytes_eq text.now (codes "dynamic") }
{
    text.as_bytes() == b"dynamic".as_slice()
}

fn stated_length(text: &str) -> Option<Option<u64>>
    ensures { result ≡ stated_length text.now }
{
    let bytes = number(text.as_bytes())?;
    let sectors = whole_sectors(bytes)?;
    Some(Some(sectors))
}

// A member that is a number.
fn sector_size_in(segment: &Value) -> Option<u64>
    ensures { result ≡ sector_size_in (view segment.now) }
{
    segment.get("sector_size").and_then(Value::as_u64)
}
