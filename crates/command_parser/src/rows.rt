//! The commands with their options, a row each.
ghost use Rattle.std.specs.Prelude.{◌≡◌, map};
ghost use Rattle.command_parser.specs.Commands.{commands};
ghost use Rattle.command_parser.specs.Grammar.{command_text};

use crate::option_rows::{
    ALL, ARCH, BLOCKS, CACHE, CHART, CHECK, COUNT, DATA_BLOCK, DIFFERING, DISK, DRAW_FROM, FEC,
    FEC_ROOTS, FIRST, GROW, HASH_BLOCK, HASH_OFFSET, JSON, LINUX, MAP, NAME, NO_INDEX, NO_SCRAPE,
    NO_SUPERBLOCK, OLD_HASH_OFFSET, OLD_PIN, OLD_ROOT_HASH_FILE, OptionRow, PARITY, PIN, PROGRESS,
    QUIET, RETRIES, ROOT, ROOT_HASH_FILE, RUNS, SALT, SECTOR_SIZE, STACK, TREE, TYPE, UUID,
    WRITABLE,
};

/// A command: its name, and the options that may precede its positional words.
#[derive(Clone, Copy)]
pub struct CommandRow {
    pub name: &'static str,
    pub options: &'static [OptionRow],
}

/// Returns all commands. Each other function that named their list would evaluate it in its proof.
pub fn command_rows() -> &'static [CommandRow]
    ensures { map command_text result.now ≡ commands }
{
    &COMMANDS
}

static COMMANDS: [CommandRow; 21] = [
    CommandRow {
        name: "format",
        options: &[
            QUIET,
            DATA_BLOCK,
            HASH_BLOCK,
            BLOCKS,
            SALT,
            UUID,
            HASH_OFFSET,
            ROOT_HASH_FILE,
            NO_SUPERBLOCK,
            GROW,
            PROGRESS,
            FEC,
            FEC_ROOTS,
            PIN,
        ],
    },
    CommandRow {
        name: "verify",
        options: &[
            QUIET,
            DATA_BLOCK,
            HASH_BLOCK,
            BLOCKS,
            SALT,
            HASH_OFFSET,
            ROOT_HASH_FILE,
            NO_SUPERBLOCK,
            ALL,
            JSON,
            CHART,
            PROGRESS,
            FEC,
            FEC_ROOTS,
            PIN,
        ],
    },
    CommandRow {
        name: "dump",
        options: &[QUIET, HASH_OFFSET, JSON, PIN],
    },
    CommandRow {
        name: "table",
        options: &[
            QUIET,
            DATA_BLOCK,
            HASH_BLOCK,
            BLOCKS,
            SALT,
            HASH_OFFSET,
            ROOT_HASH_FILE,
            NAME,
            NO_SUPERBLOCK,
            FEC,
            FEC_ROOTS,
            PIN,
        ],
    },
    CommandRow {
        name: "repair",
        options: &[
            QUIET,
            DATA_BLOCK,
            HASH_BLOCK,
            BLOCKS,
            SALT,
            HASH_OFFSET,
            ROOT_HASH_FILE,
            NO_SUPERBLOCK,
            CHECK,
            FEC,
            FEC_ROOTS,
            PIN,
        ],
    },
    CommandRow {
        name: "update",
        options: &[QUIET, JSON, NO_INDEX, PROGRESS, PIN],
    },
    CommandRow {
        name: "find",
        options: &[QUIET, JSON],
    },
    CommandRow {
        name: "assemble",
        options: &[
            QUIET,
            TYPE,
            ARCH,
            PARITY,
            SECTOR_SIZE,
            DRAW_FROM,
            PROGRESS,
            PIN,
        ],
    },
    CommandRow {
        name: "load",
        options: &[QUIET, JSON, TREE, LINUX],
    },
    CommandRow {
        name: "read",
        options: &[QUIET, CACHE],
    },
    CommandRow {
        name: "write",
        options: &[QUIET, CACHE],
    },
    CommandRow {
        name: "session",
        options: &[QUIET, CACHE],
    },
    CommandRow {
        name: "nbd",
        options: &[QUIET, CACHE, ALL],
    },
    CommandRow {
        name: "scan",
        options: &[
            QUIET, CACHE, MAP, RETRIES, NO_SCRAPE, PROGRESS, JSON, CHART, DISK,
        ],
    },
    CommandRow {
        name: "copy",
        options: &[
            QUIET, CACHE, DIFFERING, MAP, RETRIES, NO_SCRAPE, PROGRESS, DISK, GROW,
        ],
    },
    CommandRow {
        name: "cat",
        options: &[QUIET, CACHE, FIRST, COUNT, PROGRESS],
    },
    CommandRow {
        name: "store",
        options: &[QUIET, CACHE, FIRST, PROGRESS],
    },
    CommandRow {
        name: "partitions",
        options: &[
            QUIET,
            SECTOR_SIZE,
            STACK,
            ROOT,
            JSON,
            PIN,
            WRITABLE,
            FEC,
            FEC_ROOTS,
        ],
    },
    CommandRow {
        name: "diff",
        options: &[
            QUIET,
            DATA_BLOCK,
            HASH_BLOCK,
            BLOCKS,
            SALT,
            NO_SUPERBLOCK,
            ALL,
            RUNS,
            JSON,
            OLD_HASH_OFFSET,
            HASH_OFFSET,
            OLD_ROOT_HASH_FILE,
            ROOT_HASH_FILE,
            OLD_PIN,
            PIN,
        ],
    },
    CommandRow {
        name: "manual",
        options: &[QUIET],
    },
    CommandRow {
        name: "version",
        options: &[QUIET],
    },
];
