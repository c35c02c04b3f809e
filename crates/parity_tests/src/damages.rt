//! Damage of images with veritysetup's parity, and what a repair does about it.

/// Blocks of an image that are overwritten, those of them that a copy has, and the result.
pub(crate) struct Damage {
    pub(crate) case: usize,
    pub(crate) lost: &'static [u64],
    pub(crate) copied: &'static [u64],
    /// The offsets of the overwritten bytes of parity.
    pub(crate) spoiled: &'static [usize],
    pub(crate) write: bool,
    /// What the repair prints.
    pub(crate) lines: &'static str,
    /// The blocks that are still overwritten, and what a scan reports then.
    pub(crate) still: &'static [u64],
    pub(crate) told: &'static str,
}

// Case 0 has 300 data blocks, case 3 has 232, case 8 has 500, case 12 has 216 and case 13 has 217; the hash blocks follow, from
// the top one on. There are two rounds, of the blocks with even and with odd numbers; three in case 8, and one in case 12. A
// codeword has two bytes of parity, eight in case 3, and 24 in cases 12 and 13.
pub(crate) static DAMAGES: [Damage; 21] = [
    // an intact image, and data blocks
    Damage {
        case: 0,
        lost: &[],
        copied: &[],
        spoiled: &[],
        write: true,
        lines: "",
        still: &[],
        told: "",
    },
    Damage {
        case: 0,
        lost: &[4, 7, 298],
        copied: &[],
        spoiled: &[],
        write: true,
        lines: "repaired data 4 parity\nrepaired data 7 parity\nrepaired data 298 parity\n",
        still: &[],
        told: "",
    },
    // the top block, which is reconstructed, and data blocks
    Damage {
        case: 0,
        lost: &[300, 5, 7],
        copied: &[],
        spoiled: &[],
        write: true,
        lines: "repaired hash 2 0 remade\nrepaired data 5 parity\nrepaired data 7 parity\n",
        still: &[],
        told: "",
    },
    // a hash block that can't be reconstructed, and a hash block and a data block below it, which the next pass finds
    Damage {
        case: 3,
        lost: &[232, 233, 17],
        copied: &[],
        spoiled: &[],
        write: true,
        lines: "repaired hash 1 0 parity\nrepaired hash 0 0 remade\nrepaired data 17 parity\n",
        still: &[],
        told: "",
    },
    // such damage in a tree of three levels, repaired in three passes
    Damage {
        case: 8,
        lost: &[500, 501, 505, 1],
        copied: &[],
        spoiled: &[],
        write: true,
        lines: "repaired hash 2 0 parity\nrepaired hash 1 0 parity\nrepaired hash 0 2 remade\nrepaired data 1 parity\n",
        still: &[],
        told: "",
    },
    // eight blocks of a round, one of which is in the tree above two of the other round
    Damage {
        case: 3,
        lost: &[234, 0, 2, 4, 6, 8, 10, 12, 17, 19],
        copied: &[],
        spoiled: &[],
        write: true,
        lines: concat!(
            "repaired hash 0 1 parity\nrepaired data 0 parity\nrepaired data 2 parity\nrepaired data 4 parity\n",
            "repaired data 6 parity\nrepaired data 8 parity\nrepaired data 10 parity\nrepaired data 12 parity\n",
            "repaired data 17 parity\nrepaired data 19 parity\n",
        ),
        still: &[],
        told: "",
    },
    // 24 blocks, two of which are in the tree
    Damage {
        case: 13,
        lost: &[
            219, 221, 1, 3, 5, 7, 9, 11, 13, 15, 33, 35, 37, 39, 41, 43, 45, 47, 65, 67, 69, 71,
            73, 75, 16, 50,
        ],
        copied: &[],
        spoiled: &[],
        write: true,
        lines: concat!(
            "repaired hash 0 1 parity\nrepaired hash 0 3 parity\nrepaired data 1 parity\nrepaired data 3 parity\n",
            "repaired data 5 parity\nrepaired data 7 parity\nrepaired data 9 parity\nrepaired data 11 parity\n",
            "repaired data 13 parity\nrepaired data 15 parity\nrepaired data 33 parity\nrepaired data 35 parity\n",
            "repaired data 37 parity\nrepaired data 39 parity\nrepaired data 41 parity\nrepaired data 43 parity\n",
            "repaired data 45 parity\nrepaired data 47 parity\nrepaired data 65 parity\nrepaired data 67 parity\n",
            "repaired data 69 parity\nrepaired data 71 parity\nrepaired data 73 parity\nrepaired data 75 parity\n",
            "repaired data 16 parity\nrepaired data 50 parity\n",
        ),
        still: &[],
        told: "",
    },
    // one block more than parity restores, next to one that it restores, and with a copy that has one
    Damage {
        case: 0,
        lost: &[0, 4, 298],
        copied: &[],
        spoiled: &[],
        write: true,
        lines: "",
        still: &[0, 4, 298],
        told: "changed 0 1\nchanged 4 1\nchanged 298 1\n",
    },
    Damage {
        case: 0,
        lost: &[0, 4, 298, 7],
        copied: &[],
        spoiled: &[],
        write: true,
        lines: "repaired data 7 parity\n",
        still: &[0, 4, 298],
        told: "changed 0 1\nchanged 4 1\nchanged 298 1\n",
    },
    Damage {
        case: 0,
        lost: &[0, 4, 298],
        copied: &[4],
        spoiled: &[],
        write: true,
        lines: "repaired data 4 copy 1\nrepaired data 0 parity\nrepaired data 298 parity\n",
        still: &[],
        told: "",
    },
    // nine data blocks of a round, and 25; and a hash block above one that isn't known to be lost
    Damage {
        case: 3,
        lost: &[234, 0, 2, 4, 6, 8, 10, 12, 14, 17],
        copied: &[],
        spoiled: &[],
        write: true,
        lines: "",
        still: &[234, 0, 2, 4, 6, 8, 10, 12, 14, 17],
        told: concat!(
            "changed 0 1\nchanged 2 1\nchanged 4 1\nchanged 6 1\nchanged 8 1\nchanged 10 1\nchanged 12 1\n",
            "changed 14 1\nunknown 16 16\nhash 0 1\n",
        ),
    },
    Damage {
        case: 12,
        lost: &[
            32, 33, 34, 35, 36, 37, 38, 39, 40, 41, 42, 43, 44, 45, 46, 47, 48, 49, 50, 51, 52, 53,
            54, 55, 56,
        ],
        copied: &[],
        spoiled: &[],
        write: true,
        lines: "",
        still: &[
            32, 33, 34, 35, 36, 37, 38, 39, 40, 41, 42, 43, 44, 45, 46, 47, 48, 49, 50, 51, 52, 53,
            54, 55, 56,
        ],
        told: "changed 32 25\n",
    },
    Damage {
        case: 12,
        lost: &[
            218, 17, 32, 33, 34, 35, 36, 37, 38, 39, 40, 41, 42, 43, 44, 45, 46, 47, 48, 49, 50,
            51, 52, 53, 54,
        ],
        copied: &[],
        spoiled: &[],
        write: true,
        lines: "",
        still: &[
            218, 17, 32, 33, 34, 35, 36, 37, 38, 39, 40, 41, 42, 43, 44, 45, 46, 47, 48, 49, 50,
            51, 52, 53, 54,
        ],
        told: "unknown 16 16\nchanged 32 23\nhash 0 1\n",
    },
    // a hash block above ones that aren't known to be lost, up to half as many as a codeword has bytes of parity, and one wrong byte more
    Damage {
        case: 3,
        lost: &[234, 16],
        copied: &[],
        spoiled: &[],
        write: true,
        lines: "repaired hash 0 1 parity\nrepaired data 16 parity\n",
        still: &[],
        told: "",
    },
    Damage {
        case: 3,
        lost: &[234, 16, 18, 20],
        copied: &[],
        spoiled: &[],
        write: true,
        lines: "repaired hash 0 1 parity\nrepaired data 16 parity\nrepaired data 18 parity\nrepaired data 20 parity\n",
        still: &[],
        told: "",
    },
    Damage {
        case: 3,
        lost: &[234, 16, 18, 20],
        copied: &[],
        spoiled: &[0],
        write: true,
        lines: "",
        still: &[234, 16, 18, 20],
        told: "unknown 16 16\nhash 0 1\n",
    },
    // overwritten parity, and overwritten parity of one of two rounds
    Damage {
        case: 0,
        lost: &[4],
        copied: &[],
        spoiled: &[0],
        write: true,
        lines: "",
        still: &[4],
        told: "changed 4 1\n",
    },
    Damage {
        case: 0,
        lost: &[4, 7],
        copied: &[],
        spoiled: &[0],
        write: true,
        lines: "repaired data 7 parity\n",
        still: &[4],
        told: "changed 4 1\n",
    },
    Damage {
        case: 0,
        lost: &[4, 7],
        copied: &[],
        spoiled: &[1024],
        write: true,
        lines: "repaired data 4 parity\n",
        still: &[7],
        told: "changed 7 1\n",
    },
    // the repair may not write
    Damage {
        case: 0,
        lost: &[4, 7],
        copied: &[7],
        spoiled: &[],
        write: false,
        lines: "repairable data 7 copy 1\nrepairable data 4 parity\n",
        still: &[4, 7],
        told: "changed 4 1\nchanged 7 1\n",
    },
    Damage {
        case: 3,
        lost: &[232, 233, 17],
        copied: &[],
        spoiled: &[],
        write: false,
        lines: "repairable hash 1 0 parity\n",
        still: &[232, 233, 17],
        told: concat!(
            "unknown 0 232\nhash 1 0\nhash 0 0\nhash 0 1\nhash 0 2\nhash 0 3\nhash 0 4\nhash 0 5\nhash 0 6\n",
            "hash 0 7\nhash 0 8\nhash 0 9\nhash 0 10\nhash 0 11\nhash 0 12\nhash 0 13\nhash 0 14\n",
        ),
    },
];
