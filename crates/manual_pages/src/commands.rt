//! The commands, which scripts/gate/manual_pages.py makes from man/dmstack.1.

use crate::command::Command;

const LOAD_USAGE: &str = "dmstack load [--json] [--tree] [--linux] STACK BINDING...";

const READ_USAGE: &str = "dmstack read [--cache N] STACK NAME FIRST COUNT BINDING...";

const WRITE_USAGE: &str = "dmstack write [--cache N] STACK NAME FIRST SOURCE BINDING...";

const SESSION_USAGE: &str = "dmstack session [--cache N] BINDING...";

const NBD_USAGE: &str = "dmstack nbd [--cache N] [--all] STACK NAME BINDING...";

const SCAN_USAGE: &str =
    "dmstack scan [--cache N] [--map FILE] [--retries N] [--no-scrape] [--progress] [--json] [--chart] [--disk] STACK NAME BINDING...";

const COPY_USAGE: &str =
    "dmstack copy [--cache N] [--differing] [--map FILE] [--retries N] [--no-scrape] [--progress] [--disk] [--grow] STACK NAME OUT BINDING...";

const CAT_USAGE: &str =
    "dmstack cat [--cache N] [--first N] [--count N] [--progress] STACK NAME BINDING...";

const STORE_USAGE: &str =
    "dmstack store [--cache N] [--first N] [--progress] STACK NAME SOURCE BINDING...";

const FORMAT_USAGE: &str =
    "dmstack format [--data-block N] [--hash-block N] [--blocks N] [--salt HEX] [--uuid U] [--hash-offset BYTES] [--root-hash-file FILE] [--no-superblock] [--grow] [--progress] [--fec FILE] [--fec-roots N] [--pin FILE] DATA HASH";

const VERIFY_USAGE: &str =
    "dmstack verify [--data-block N] [--hash-block N] [--blocks N] [--salt HEX] [--hash-offset BYTES] [--root-hash-file FILE] [--no-superblock] [--all] [--json] [--chart] [--progress] [--fec FILE] [--fec-roots N] [--pin FILE] DATA HASH ROOT";

const DUMP_USAGE: &str = "dmstack dump [--hash-offset BYTES] [--json] [--pin ROOT] HASH";

const TABLE_USAGE: &str =
    "dmstack table [--data-block N] [--hash-block N] [--blocks N] [--salt HEX] [--hash-offset BYTES] [--name NAME] [--root-hash-file FILE] [--no-superblock] [--fec FECNAME] [--fec-roots N] [--pin FILE] HASH ROOT DATANAME HASHNAME";

const REPAIR_USAGE: &str =
    "dmstack repair [--data-block N] [--hash-block N] [--blocks N] [--salt HEX] [--hash-offset BYTES] [--root-hash-file FILE] [--no-superblock] [--check] [--fec FILE] [--fec-roots N] [--pin FILE] DATA HASH ROOT [DATACOPY HASHCOPY]...";

const UPDATE_USAGE: &str =
    "dmstack update [--json] [--no-index] [--progress] --pin FILE DATA HASH NEWDATA NEWHASH [DATACOPY HASHCOPY]...";

const PARTITIONS_USAGE: &str =
    "dmstack partitions [--sector-size 512|4096] [--json] [--stack] [--root ROOT] [--pin FILE] [--writable] [--fec PARTITION] [--fec-roots N] IMAGE";

const ASSEMBLE_USAGE: &str =
    "dmstack assemble [--type TYPE] [--arch ARCH] [--fec] [--sector-size 512|4096] [--draw-from SEED] [--progress] [--pin FILE] OUT DATA";

const FIND_USAGE: &str = "dmstack find [--json] PLACE";

const DIFF_USAGE: &str =
    "dmstack diff [--data-block N] [--hash-block N] [--blocks N] [--salt HEX] [--no-superblock] [--all] [--runs N] [--json] [--old-hash-offset BYTES] [--hash-offset BYTES] [--old-root-hash-file FILE] [--root-hash-file FILE] [--old-pin FILE] [--pin FILE] HASH1 [ROOT1] HASH2 [ROOT2]";

const MANUAL_USAGE: &str = "dmstack manual [COMMAND]";

const VERSION_USAGE: &str = "dmstack version";

/// All commands.
pub static COMMANDS: [Command; 21] = [
    Command {
        name: "load",
        usage: LOAD_USAGE,
    },
    Command {
        name: "read",
        usage: READ_USAGE,
    },
    Command {
        name: "write",
        usage: WRITE_USAGE,
    },
    Command {
        name: "session",
        usage: SESSION_USAGE,
    },
    Command {
        name: "nbd",
        usage: NBD_USAGE,
    },
    Command {
        name: "scan",
        usage: SCAN_USAGE,
    },
    Command {
        name: "copy",
        usage: COPY_USAGE,
    },
    Command {
        name: "cat",
        usage: CAT_USAGE,
    },
    Command {
        name: "store",
        usage: STORE_USAGE,
    },
    Command {
        name: "format",
        usage: FORMAT_USAGE,
    },
    Command {
        name: "verify",
        usage: VERIFY_USAGE,
    },
    Command {
        name: "dump",
        usage: DUMP_USAGE,
    },
    Command {
        name: "table",
        usage: TABLE_USAGE,
    },
    Command {
        name: "repair",
        usage: REPAIR_USAGE,
    },
    Command {
        name: "update",
        usage: UPDATE_USAGE,
    },
    Command {
        name: "partitions",
        usage: PARTITIONS_USAGE,
    },
    Command {
        name: "assemble",
        usage: ASSEMBLE_USAGE,
    },
    Command {
        name: "find",
        usage: FIND_USAGE,
    },
    Command {
        name: "diff",
        usage: DIFF_USAGE,
    },
    Command {
        name: "manual",
        usage: MANUAL_USAGE,
    },
    Command {
        name: "version",
        usage: VERSION_USAGE,
    },
];
