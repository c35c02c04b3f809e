//! Metadata contexts: queries of a client, and the replies.
ghost use Rattle.std.specs.Prelude.{◌≡◌, ◌≤◌, ◌||◌, length, true, IfSome};
ghost use Rattle.std.specs.Str.{bytes_eq};
ghost use Rattle.program_io.specs.Counted.{Writes};
ghost use Rattle.nbd_protocol.specs.Contexts.{behind_string, context_name, context_namespace, context_number, context_of, contexts_by, ends_namespace, has_namespace, named_at_end, namespace_end, is_of_all, is_string, named_context, names_context, queried, queries_by, selected_in, status_after, string_in, told_context, wanted_of, wants_context};
ghost use Rattle.nbd_protocol.specs.Exports.{export_records};

use crate::export::Export;
use crate::exports::asked;
use crate::numbers::{number32, put32};
use crate::option_reply::{Refusal, acknowledge, refuse, say_head};
use crate::phase::Terms;
use program_io::{Counted, WriteFault};
use std::io::Write;

/// The option that lists the contexts.
pub(crate) const LIST_META_CONTEXT: u32 = 9;

/// The option that selects contexts.
pub(crate) const SET_META_CONTEXT: u32 = 10;

// The type of the reply that names a context.
const META_CONTEXT: u32 = 4;

// Whether the bytes begin with a string: its length in four bytes, then so many bytes.
fn is_string(bytes: &[u8]) -> bool
    ensures { result ≡ is_string bytes.now }
{
    if bytes.len() < 4 {
        return false;
    }
    let len = number32(bytes, 0) as usize;
    bytes.len() >= 4 + len
}

// Returns the string at the beginning of the bytes.
fn string_in(bytes: &[u8]) -> &[u8]
    requires { is_string bytes.now ≡ true }
    ensures { result.now ≡ string_in bytes.now }
{
    let len = number32(bytes, 0) as usize;
    &bytes[4..4 + len]
}

// Returns the bytes after the string at the beginning.
fn behind_string(bytes: &[u8]) -> &[u8]
    requires { is_string bytes.now ≡ true }
    ensures { result.now ≡ behind_string bytes.now }
{
    let len = number32(bytes, 0) as usize;
    &bytes[4 + len..]
}

#[tactic(auto, unfolding(crate::specs::Contexts::context_name))]
fn is_name(query: &[u8]) -> bool
    ensures { result ≡ bytes_eq query.now context_name }
{
    query == b"base:allocation".as_slice()
}

#[tactic(auto, unfolding(crate::specs::Contexts::context_namespace))]
fn is_namespace(query: &[u8]) -> bool
    ensures { result ≡ bytes_eq query.now context_namespace }
{
    query == b"base:".as_slice()
}

// Whether a query names the context. In a LIST its namespace does too.
fn names_context(listing: bool, query: &[u8]) -> bool
    ensures { result ≡ names_context listing query.now }
{
    is_name(query) || listing && is_namespace(query)
}

// Whether an earlier query named the context, or this one does.
fn is_named(listing: bool, named: bool, query: &[u8]) -> bool
    ensures { result ≡ (named || names_context listing query.now) }
{
    named || names_context(listing, query)
}

// Returns the index of the first colon of a query, which ends its namespace.
fn namespace_end(query: &[u8]) -> Option<usize>
    ensures { result ≡ namespace_end query.now }
{
    query.iter().position(|byte| *byte == b':')
}

// Whether a colon at that index ends a namespace: one of at least one byte.
fn ends_namespace(end: Option<usize>) -> bool
    ensures { result ≡ ends_namespace end }
{
    match end {
        Some(at) => at > 0,
        None => false,
    }
}

// Whether a query has a namespace, without which it is malformed.
fn has_namespace(query: &[u8]) -> bool
    ensures { result ≡ has_namespace query.now }
{
    ends_namespace(namespace_end(query))
}

// Returns whether the context was named. `None` if bytes are left after the last query.
fn ended(named: bool, rest: &[u8]) -> Option<bool>
    ensures { result ≡ named_at_end named rest.now }
{
    if rest.is_empty() { Some(named) } else { None }
}

// Returns whether the context was named, or one of `count` queries names it. `None` if they are malformed.
fn queried(listing: bool, named: bool, count: u32, queries: &[u8]) -> Option<bool>
    ensures { result ≡ queried listing named count queries.now }
{
    let mut found = named;
    let mut left = count;
    let mut rest = queries;
    'strings: while left > 0 {
        if !is_string(rest) {
            return None;
        }
        let query = string_in(rest);
        if !has_namespace(query) {
            return None;
        }
        found = is_named(listing, found, query);
        rest = behind_string(rest);
        left -= 1;
    }
    ended(found, rest)
}

// Whether a LIST names every context: it has no queries.
fn is_of_all(listing: bool, count: u32) -> bool
    ensures { result ≡ is_of_all listing count }
{
    listing && count == 0
}

// Returns whether queries name the context; the bytes begin with the number of queries. `None` if they are malformed.
fn wanted_of(listing: bool, bytes: &[u8]) -> Option<bool>
    requires { 4 ≤ length bytes.now }
    ensures { result ≡ wanted_of listing bytes.now }
{
    let count = number32(bytes, 0);
    queried(listing, is_of_all(listing, count), count, &bytes[4..])
}

// Returns whether the data of an option name the context. `None` if the data are malformed.
fn wants_context(listing: bool, content: &[u8]) -> Option<bool>
    ensures value { result ≡ wants_context listing content.now }
    ensures string { IfSome result (λ _. is_string content.now ≡ true) }
{
    if !is_string(content) {
        return None;
    }
    let queries = behind_string(content);
    if queries.len() < 4 {
        return None;
    }
    wanted_of(listing, queries)
}

#[tactic(auto, unfolding(crate::specs::Contexts::context_name))]
fn put_name<W: Write>(writer: &mut Counted<W>) -> Result<(), WriteFault>
    ensures { Writes W.contents writer.old writer.new context_name result }
{
    writer.put(b"base:allocation")
}

// The number of the context in a reply: 1, and 0 in a LIST.
fn context_number(listing: bool) -> u32
    ensures { result ≡ context_number listing }
{
    if listing { 0 } else { 1 }
}

// Writes the reply that names the context.
fn say_context<W: Write>(
    writer: &mut Counted<W>,
    listing: bool,
    option: u32,
) -> Result<(), WriteFault>
    ensures { Writes W.contents writer.old writer.new (told_context listing option) result }
{
    say_head(writer, option, META_CONTEXT, 19)?;
    put32(writer, context_number(listing))?;
    put_name(writer)
}

// Writes the reply that names the context if `named` is set.
fn say_named<W: Write>(
    writer: &mut Counted<W>,
    listing: bool,
    option: u32,
    named: bool,
) -> Result<(), WriteFault>
    ensures { Writes W.contents writer.old writer.new (named_context listing option named) result }
{
    if !named {
        return Ok(());
    }
    say_context(writer, listing, option)
}

// Writes the replies about an export: the context if it was named, then the acknowledgment. The reply is an error if there is
// no such export.
fn say_context_of<W: Write>(
    writer: &mut Counted<W>,
    listing: bool,
    option: u32,
    named: bool,
    found: Option<usize>,
) -> Result<(), WriteFault>
    ensures { Writes W.contents writer.old writer.new (context_of listing option named found) result }
{
    match found {
        None => refuse(writer, option, Refusal::Unknown),
        Some(_place) => {
            say_named(writer, listing, option, named)?;
            acknowledge(writer, option)
        }
    }
}

// Writes the replies to the data of a query. The reply is an error if the data are malformed.
fn say_wanted<W: Write>(
    writer: &mut Counted<W>,
    exports: &[Export<'_>],
    listing: bool,
    option: u32,
    content: &[u8],
) -> Result<(), WriteFault>
    ensures { Writes W.contents writer.old writer.new (queries_by exports.now listing option content.now) result }
{
    match wants_context(listing, content) {
        None => refuse(writer, option, Refusal::Invalid),
        Some(named) => {
            let found = asked(exports, string_in(content));
            say_context_of(writer, listing, option, named, found)
        }
    }
}

/// Writes the replies to LIST_META_CONTEXT and SET_META_CONTEXT.
///
/// # Errors
///
/// `WriteFault` if the writer failed.
pub(crate) fn say_contexts<W: Write>(
    writer: &mut Counted<W>,
    exports: &[Export<'_>],
    terms: Terms,
    option: u32,
    content: &[u8],
) -> Result<(), WriteFault>
    ensures { Writes W.contents writer.old writer.new (contexts_by exports.now terms option content.now) result }
{
    if !terms.structured {
        return refuse(writer, option, Refusal::Invalid);
    }
    say_wanted(
        writer,
        exports,
        option == LIST_META_CONTEXT,
        option,
        content,
    )
}

// The index of the export for which a SET selects the context.
fn selected(exports: &[Export<'_>], content: &[u8]) -> Option<usize>
    ensures { result ≡ selected_in (export_records exports.now) content.now }
{
    match wants_context(false, content) {
        None => None,
        Some(false) => None,
        Some(true) => asked(exports, string_in(content)),
    }
}

/// Returns the index of the export for which block status is selected after the option.
pub(crate) fn status_after(
    exports: &[Export<'_>],
    terms: Terms,
    option: u32,
    content: &[u8],
) -> Option<usize>
    ensures { result ≡ status_after (export_records exports.now) terms option content.now }
{
    if option != SET_META_CONTEXT {
        return terms.status;
    }
    if !terms.structured {
        return None;
    }
    selected(exports, content)
}
