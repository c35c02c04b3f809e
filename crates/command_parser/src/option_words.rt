//! What clap found of the options.
ghost use Rattle.std.specs.Prelude.{◌≡◌};
ghost use Rattle.clap.specs.Matches.{found_of};
ghost use Rattle.clap.specs.Walk.{first_of, rows_of};
ghost use Rattle.command_line.specs.FormatOptions.{option_texts, text_of};
ghost use Rattle.command_parser.specs.CommandLines.{is_there, texts_in};

use clap::ArgMatches;
use command_line::OptionWords;

/// The values of the options, and which options without a value were given.
pub fn option_words<'a>(found: &ArgMatches<'a>) -> OptionWords<'a>
    ensures { option_texts result ≡ texts_in (rows_of (found_of found.now)) }
{
    OptionWords {
        data_block: value(found, "data-block"),
        hash_block: value(found, "hash-block"),
        blocks: value(found, "blocks"),
        salt: value(found, "salt"),
        uuid: value(found, "uuid"),
        cache: value(found, "cache"),
        first: value(found, "first"),
        count: value(found, "count"),
        hash_offset: value(found, "hash-offset"),
        old_hash_offset: value(found, "old-hash-offset"),
        root_hash_file: value(found, "root-hash-file"),
        name: value(found, "name"),
        sector_size: value(found, "sector-size"),
        root: value(found, "root"),
        map: value(found, "map"),
        fec: value(found, "fec"),
        fec_roots: value(found, "fec-roots"),
        pin: value(found, "pin"),
        old_pin: value(found, "old-pin"),
        old_root_hash_file: value(found, "old-root-hash-file"),
        runs: value(found, "runs"),
        retries: value(found, "retries"),
        kind: value(found, "type"),
        arch: value(found, "arch"),
        draw_from: value(found, "draw-from"),
        all: is_there(found, "all"),
        stack: is_there(found, "stack"),
        no_superblock: is_there(found, "no-superblock"),
        grow: is_there(found, "grow"),
        differing: is_there(found, "differing"),
        no_scrape: is_there(found, "no-scrape"),
        no_index: is_there(found, "no-index"),
        progress: is_there(found, "progress"),
        json: is_there(found, "json"),
        check: is_there(found, "check"),
        linux: is_there(found, "linux"),
        chart: is_there(found, "chart"),
        tree: is_there(found, "tree"),
        quiet: is_there(found, "quiet"),
        writable: is_there(found, "writable"),
        parity: is_there(found, "fec"),
        disk: is_there(found, "disk"),
    }
}

// The value of an option.
fn value<'a>(found: &ArgMatches<'a>, name: &str) -> Option<&'a str>
    ensures { text_of result ≡ first_of name.now (rows_of (found_of found.now)) }
{
    found.get_str(name)
}

// Whether an option without a value was given: clap's value of it is `true` then, and else `false`.
fn is_there(found: &ArgMatches<'_>, name: &str) -> bool
    ensures { result ≡ is_there name.now (rows_of (found_of found.now)) }
{
    match value(found, name) {
        Some(word) => word.as_bytes() == b"true".as_slice(),
        None => false,
    }
}
