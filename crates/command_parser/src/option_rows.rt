//! The options of the commands.

/// An option: its name, other names of it, and whether it takes a value.
#[derive(Clone, Copy)]
pub struct OptionRow {
    pub name: &'static str,
    pub others: &'static [&'static str],
    pub has_value: bool,
}

pub(crate) const CACHE: OptionRow = OptionRow {
    name: "cache",
    others: &[],
    has_value: true,
};

pub(crate) const FIRST: OptionRow = OptionRow {
    name: "first",
    others: &[],
    has_value: true,
};

pub(crate) const COUNT: OptionRow = OptionRow {
    name: "count",
    others: &[],
    has_value: true,
};

pub(crate) const DATA_BLOCK: OptionRow = OptionRow {
    name: "data-block",
    others: &["data-block-size"],
    has_value: true,
};

pub(crate) const HASH_BLOCK: OptionRow = OptionRow {
    name: "hash-block",
    others: &["hash-block-size"],
    has_value: true,
};

pub(crate) const BLOCKS: OptionRow = OptionRow {
    name: "blocks",
    others: &["data-blocks"],
    has_value: true,
};

pub(crate) const SALT: OptionRow = OptionRow {
    name: "salt",
    others: &[],
    has_value: true,
};

pub(crate) const UUID: OptionRow = OptionRow {
    name: "uuid",
    others: &[],
    has_value: true,
};

pub(crate) const HASH_OFFSET: OptionRow = OptionRow {
    name: "hash-offset",
    others: &[],
    has_value: true,
};

pub(crate) const OLD_HASH_OFFSET: OptionRow = OptionRow {
    name: "old-hash-offset",
    others: &[],
    has_value: true,
};

pub(crate) const ROOT_HASH_FILE: OptionRow = OptionRow {
    name: "root-hash-file",
    others: &[],
    has_value: true,
};

pub(crate) const NAME: OptionRow = OptionRow {
    name: "name",
    others: &[],
    has_value: true,
};

pub(crate) const SECTOR_SIZE: OptionRow = OptionRow {
    name: "sector-size",
    others: &[],
    has_value: true,
};

pub(crate) const ROOT: OptionRow = OptionRow {
    name: "root",
    others: &[],
    has_value: true,
};

pub(crate) const MAP: OptionRow = OptionRow {
    name: "map",
    others: &[],
    has_value: true,
};

pub(crate) const FEC: OptionRow = OptionRow {
    name: "fec",
    others: &["fec-device"],
    has_value: true,
};

pub(crate) const FEC_ROOTS: OptionRow = OptionRow {
    name: "fec-roots",
    others: &[],
    has_value: true,
};

pub(crate) const PIN: OptionRow = OptionRow {
    name: "pin",
    others: &[],
    has_value: true,
};

pub(crate) const OLD_PIN: OptionRow = OptionRow {
    name: "old-pin",
    others: &[],
    has_value: true,
};

pub(crate) const OLD_ROOT_HASH_FILE: OptionRow = OptionRow {
    name: "old-root-hash-file",
    others: &[],
    has_value: true,
};

pub(crate) const RUNS: OptionRow = OptionRow {
    name: "runs",
    others: &[],
    has_value: true,
};

pub(crate) const RETRIES: OptionRow = OptionRow {
    name: "retries",
    others: &[],
    has_value: true,
};

pub(crate) const TYPE: OptionRow = OptionRow {
    name: "type",
    others: &[],
    has_value: true,
};

pub(crate) const ARCH: OptionRow = OptionRow {
    name: "arch",
    others: &[],
    has_value: true,
};

pub(crate) const DRAW_FROM: OptionRow = OptionRow {
    name: "draw-from",
    others: &[],
    has_value: true,
};

pub(crate) const STACK: OptionRow = OptionRow {
    name: "stack",
    others: &[],
    has_value: false,
};

pub(crate) const NO_SUPERBLOCK: OptionRow = OptionRow {
    name: "no-superblock",
    others: &[],
    has_value: false,
};

pub(crate) const ALL: OptionRow = OptionRow {
    name: "all",
    others: &[],
    has_value: false,
};

pub(crate) const GROW: OptionRow = OptionRow {
    name: "grow",
    others: &[],
    has_value: false,
};

pub(crate) const DIFFERING: OptionRow = OptionRow {
    name: "differing",
    others: &[],
    has_value: false,
};

pub(crate) const NO_SCRAPE: OptionRow = OptionRow {
    name: "no-scrape",
    others: &[],
    has_value: false,
};

pub(crate) const NO_INDEX: OptionRow = OptionRow {
    name: "no-index",
    others: &[],
    has_value: false,
};

pub(crate) const PROGRESS: OptionRow = OptionRow {
    name: "progress",
    others: &[],
    has_value: false,
};

pub(crate) const JSON: OptionRow = OptionRow {
    name: "json",
    others: &[],
    has_value: false,
};

pub(crate) const CHECK: OptionRow = OptionRow {
    name: "check",
    others: &[],
    has_value: false,
};

pub(crate) const LINUX: OptionRow = OptionRow {
    name: "linux",
    others: &[],
    has_value: false,
};

pub(crate) const CHART: OptionRow = OptionRow {
    name: "chart",
    others: &[],
    has_value: false,
};

pub(crate) const TREE: OptionRow = OptionRow {
    name: "tree",
    others: &[],
    has_value: false,
};

pub(crate) const WRITABLE: OptionRow = OptionRow {
    name: "writable",
    others: &[],
    has_value: false,
};

/// Parity in a partition of the disk that `assemble` makes.
pub(crate) const PARITY: OptionRow = OptionRow {
    name: "fec",
    others: &[],
    has_value: false,
};

pub(crate) const DISK: OptionRow = OptionRow {
    name: "disk",
    others: &[],
    has_value: false,
};

/// Of every command.
pub(crate) const QUIET: OptionRow = OptionRow {
    name: "quiet",
    others: &[],
    has_value: false,
};
