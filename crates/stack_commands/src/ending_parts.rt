//! The parts of the line that ends a command early.
ghost use Rattle.std.specs.Prelude.{◌≡◌, None, option_map};
ghost use Rattle.command_line.specs.Cuts.{cut_first};
ghost use Rattle.command_line.specs.FormatOptions.{text_of};
ghost use Rattle.stack_commands.specs.EndingParts.{after_word, fault_in, fault_parts, fault_record, is_refusal, name_and_detail, number_first, parts_after, parts_from, parts_in, parts_of, parts_record};

use table_text::number;

/// `KIND NUMBER NAME`, or `KIND NAME`, and what follows the name.
#[derive(Clone, Copy)]
pub struct EndingParts<'a> {
    pub kind: &'a str,
    pub number: Option<u64>,
    pub name: &'a str,
    pub detail: Option<&'a str>,
}

/// `text fault ENTRY LINE NUMBER NAME`
#[derive(Clone, Copy)]
pub struct TextFaultParts<'a> {
    pub entry: u64,
    pub line: u64,
    pub number: u64,
    pub name: &'a str,
}

/// The parts of a line, if it has them.
pub fn parts_of(line: &str) -> Option<EndingParts<'_>>
    ensures { option_map parts_record result ≡ parts_of line.now }
{
    let (kind, rest) = cut_space(line)?;
    parts_in(kind, rest)
}

// The parts of a line by what follows its kind.
fn parts_in<'a>(kind: &'a str, rest: &'a str) -> Option<EndingParts<'a>>
    ensures { option_map parts_record result ≡ parts_in kind.now rest.now }
{
    match number_first(rest) {
        Some((number, text)) => Some(parts_from(kind, Some(number), text)),
        None => bare_parts(kind, rest),
    }
}

// The parts of a line without a number.
fn bare_parts<'a>(kind: &'a str, rest: &'a str) -> Option<EndingParts<'a>>
    ensures { option_map parts_record result ≡ parts_after kind.now rest.now None }
{
    if is_refusal(kind) {
        Some(parts_from(kind, None, rest))
    } else {
        None
    }
}

// Whether a name follows the kind if no number does.
fn is_refusal(kind: &str) -> bool
    ensures { result ≡ is_refusal kind.now }
{
    kind.as_bytes() == b"refused".as_slice() || kind.as_bytes() == b"fault".as_slice()
}

fn parts_from<'a>(kind: &'a str, number: Option<u64>, text: &'a str) -> EndingParts<'a>
    ensures { parts_record result ≡ parts_from kind.now number text.now }
{
    let (name, detail) = name_and_detail(text);
    EndingParts {
        kind,
        number,
        name,
        detail,
    }
}

/// The parts of the line of a fault of a stack text, if it is one.
pub fn fault_parts(line: &str) -> Option<TextFaultParts<'_>>
    ensures { option_map fault_record result ≡ fault_parts line.now }
{
    let rest = after_word(b"text", line)?;
    let fault = after_word(b"fault", rest)?;
    fault_in(fault)
}

// `ENTRY LINE NUMBER NAME`
fn fault_in(text: &str) -> Option<TextFaultParts<'_>>
    ensures { option_map fault_record result ≡ fault_in text.now }
{
    let (entry, rest) = number_first(text)?;
    let (line, rest) = number_first(rest)?;
    let (number, name) = number_first(rest)?;
    Some(TextFaultParts {
        entry,
        line,
        number,
        name,
    })
}

// What follows that word and a space.
fn after_word<'a>(word: &[u8], line: &'a str) -> Option<&'a str>
    ensures { text_of result ≡ after_word word.now line.now }
{
    let (first, rest) = cut_space(line)?;
    if first.as_bytes() == word {
        Some(rest)
    } else {
        None
    }
}

// The number before the first space, and what follows the space.
fn number_first(text: &str) -> Option<(u64, &str)>
    ensures { option_map (λ found. (found.0, found.1.now)) result ≡ number_first text.now }
{
    let (word, rest) = cut_space(text)?;
    let value = number(word.as_bytes())?;
    Some((value, rest))
}

// The name before the first space, and what follows the space, if there is one.
fn name_and_detail(text: &str) -> (&str, Option<&str>)
    ensures { (result.0.now, text_of result.1) ≡ name_and_detail text.now }
{
    match cut_space(text) {
        Some((name, detail)) => (name, Some(detail)),
        None => (text, None),
    }
}

// What is before the first space, and what is after it.
fn cut_space(text: &str) -> Option<(&str, &str)>
    ensures { option_map (λ parts. (parts.0.now, parts.1.now)) result ≡ cut_first 32 text.now }
{
    text.split_once(' ')
}
