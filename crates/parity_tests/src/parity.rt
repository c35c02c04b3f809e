//! Parity compared with that of veritysetup 2.6.1.
ghost use Rattle.std.specs.Prelude.{IfOk};
ghost use Rattle.fec_area.specs.Layouts.{IsLayout};

use block_device::{BlockDev, MemoryDev};
use fec_area::{Layout, check_parity, write_parity};
use sha2::{Digest, Sha256};
use std::alloc::Global;
use std::process::Abort;
use std::test::Fail;
use tree_shape::{Algorithm, Digest as TreeDigest, Salt};
use verity_format::{Superblock, format};

/// An image over a ramp, and the digest of veritysetup's parity for it.
pub(crate) struct Case {
    /// The size of a block in bytes, the number of data blocks, and the bytes of parity in a codeword.
    pub(crate) block: u32,
    pub(crate) blocks: u64,
    pub(crate) roots: usize,
    /// The sectors of the data device, the hash device and the parity.
    pub(crate) data: u32,
    pub(crate) hash: u32,
    pub(crate) parity: u32,
    pub(crate) digest: &'static str,
}

pub(crate) static CASES: [Case; 15] = [
    Case {
        block: 512,
        blocks: 300,
        roots: 2,
        data: 300,
        hash: 23,
        parity: 4,
        digest: "5c3009bc47b695baefa44706256fd0336ce045b94996c9d09854347e718e1b6b",
    },
    Case {
        block: 512,
        blocks: 300,
        roots: 8,
        data: 300,
        hash: 23,
        parity: 16,
        digest: "5b128e77f2801e20bb71c56a04909d6b1a7bfe1abe53eabb96f1bb22e2be37c0",
    },
    // 247 covered blocks are one round
    Case {
        block: 512,
        blocks: 231,
        roots: 8,
        data: 231,
        hash: 17,
        parity: 8,
        digest: "82236a054fbdf5ee494842dff29b42cb6d5806cbac57531638cc9a4ee1ee1b25",
    },
    // 248 are two rounds, by one more data block, or by one more block after the tree
    Case {
        block: 512,
        blocks: 232,
        roots: 8,
        data: 232,
        hash: 17,
        parity: 16,
        digest: "456a88f3779e303c370afe1120725bbd6fbec488d80fe58c8c1e92b4391e1c7f",
    },
    Case {
        block: 512,
        blocks: 231,
        roots: 8,
        data: 231,
        hash: 18,
        parity: 16,
        digest: "9d042f630516f3feb5b278177cdba89984d0ca9c4384890c7fefd966b4f88cd6",
    },
    Case {
        block: 512,
        blocks: 300,
        roots: 24,
        data: 300,
        hash: 26,
        parity: 48,
        digest: "7d74d0251225ecacb578e99756c64b5b4c7b8ea753fcaa568eba5771d34e9a3b",
    },
    Case {
        block: 4096,
        blocks: 40,
        roots: 2,
        data: 320,
        hash: 24,
        parity: 16,
        digest: "26b95d641bccae305e2ef95ef85afcf1e2136db3943db21244f3896d5be00bb7",
    },
    Case {
        block: 1024,
        blocks: 5,
        roots: 24,
        data: 10,
        hash: 4,
        parity: 48,
        digest: "755022cd02bcd111952b738068f9b17407def193532c82e6d31770ef36c9f983",
    },
    // three rounds, and a tree of three levels
    Case {
        block: 512,
        blocks: 500,
        roots: 2,
        data: 500,
        hash: 36,
        parity: 6,
        digest: "b0d0f0348e1ed2fa5b3df03199a7d9244388ca19436f71bf8da495dafb282b14",
    },
    // 253 covered blocks are one round for two bytes of parity in a codeword, and 254 are two
    Case {
        block: 512,
        blocks: 237,
        roots: 2,
        data: 237,
        hash: 17,
        parity: 2,
        digest: "3480c4e819691e849fa6cafce064fc11264c26167d94941dbf87b0a89a7a18cd",
    },
    Case {
        block: 512,
        blocks: 238,
        roots: 2,
        data: 238,
        hash: 17,
        parity: 4,
        digest: "2984406d0293ba53ab7ba0d027b6514da91e9cf5fd7c04c4645e6838e8c0be90",
    },
    Case {
        block: 512,
        blocks: 237,
        roots: 2,
        data: 237,
        hash: 18,
        parity: 4,
        digest: "8f638a17c8225e1b98ac7164dca467c7248a47d29d446335713ff6f4db56c82d",
    },
    // 231 covered blocks are one round for 24 bytes of parity, and 232 are two
    Case {
        block: 512,
        blocks: 216,
        roots: 24,
        data: 216,
        hash: 16,
        parity: 24,
        digest: "b8e910f03695326d9142c099497c340183c33037f059eaf3a948cf763e62cabb",
    },
    Case {
        block: 512,
        blocks: 217,
        roots: 24,
        data: 217,
        hash: 16,
        parity: 48,
        digest: "6ef6b74ad08efbe00bb5fc821c598a80312d7459651dbc0db51caf2cfddda7f2",
    },
    Case {
        block: 512,
        blocks: 216,
        roots: 24,
        data: 216,
        hash: 17,
        parity: 48,
        digest: "429d3dcc1f5129985e407bdd326cb2d3de1928a47619dc2629e7a5994f6af19f",
    },
];

/// Whether the digest has these hexadecimal digits.
fn has_digits(digest: &[u8], wanted: &str) -> bool {
    let mut digits = [0u8; 64];
    hex::encode_to_slice(digest, &mut digits).is_ok() && digits.as_slice() == wanted.as_bytes()
}

/// An image, its parity and the layout of the parity.
#[derive(Drop)]
pub(crate) struct Protected {
    pub(crate) data: MemoryDev,
    pub(crate) hash: MemoryDev,
    pub(crate) parity: MemoryDev,
    pub(crate) layout: Layout,
    pub(crate) root: TreeDigest,
}

/// Formats the image, and writes and checks its parity.
pub(crate) fn protect<R: Abort>(rt: &R, alloc: Global, case: &Case) -> Result<Protected, Fail>
    ensures { IfOk result (λ image. IsLayout image.layout) }
{
    let salt = Salt::new(Algorithm::Sha256, &[0]).ok_or("no salt")?;
    let mut uuid = [0u8; 16];
    uuid[15] = 1;
    let superblock = Superblock::new(uuid, case.block, case.block, case.blocks, salt)?;
    let mut data = MemoryDev::ramp(alloc, case.data, true)?;
    let mut hash = MemoryDev::zeros(alloc, case.hash, true)?;
    let mut parity = MemoryDev::zeros(alloc, case.parity, true)?;
    let root = format(alloc, &mut data, &mut hash, superblock)?;
    let roots = case.roots;
    assert!(rt; roots >= 2);
    assert!(rt; roots <= 24);
    let layout = Layout::of(&superblock.shape(), hash.sectors(), roots).ok_or("no layout")?;
    assert!(rt; layout.is_laid_on(&data, &hash));
    write_parity(alloc, &layout, &mut data, &mut hash, &mut parity)?;
    assert!(rt; layout.is_laid_on(&data, &hash));
    let found = check_parity(alloc, &layout, &mut data, &mut hash, &mut parity);
    assert!(rt; found == Ok(None));
    Ok(Protected {
        data,
        hash,
        parity,
        layout,
        root,
    })
}

#[test]
fn parity_is_that_of_veritysetup(rt: HostRuntime) -> Result<(), Fail> {
    let alloc = rt.alloc();
    for case in &CASES {
        let Protected { parity, .. } = protect(&rt, alloc, case)?;
        let mut sum = Sha256::new();
        sum.update(parity.into_bytes().as_slice());
        assert!(rt; has_digits(&sum.finalize(), case.digest));
    }
    Ok(())
}
