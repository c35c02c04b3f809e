//! Digests compared with the examples of FIPS 180-4 and with Python's hashlib, for sizes and prefixes that no tree has.
use crate::has_digits;
use sha2::{Digest, Sha256};
use sha256_lanes::digest_eight;
use std::alloc::{AllocError, Global};
use std::test::Fail;

const OF_ABC: &str = "ba7816bf8f01cfea414140de5dae2223b00361a396177a9cb410ff61f20015ad";

const OF_TWO_BLOCKS: &str = "248d6a61d20638b8e5c026930c3e6039a33ce45964ff2167f6ecedd419db06c1";

const OF_A_MILLION: &str = "cdc76e5c9914fb9281a1c7e284d73e67f1809a48a497200e046d39ccc7112cd0";

/// The lengths of a prefix and of a block, and the digest of the eight digests, concatenated. Byte i of a prefix is 7 i + 1,
/// and byte i of block j is 13 i + 31 j + 5, modulo 256.
static VECTORS: [(usize, usize, &str); 11] = [
    (
        0,
        0,
        "da4974409dcfd785cec6321826272da5cf679e2d48a28bab45e77d489752a47b",
    ),
    (
        0,
        1,
        "8f4d714dff7b5908f1f4ab9f86620b0129826d0544eee3858a556679270dab61",
    ),
    (
        0,
        55,
        "e8cbb21a962701345656bf6430106e16af21ccfadd041a4cfd0b029afab3d7ae",
    ),
    (
        0,
        56,
        "112d9ec99980f9ac22b235f6ff786834a5f9df04784aaf435a419f79ecc946dc",
    ),
    (
        0,
        64,
        "97ee6f454306cba927f756c5b11f14a0f2198364ace9cf723fdd8089524d9934",
    ),
    (
        1,
        63,
        "23c33e28b69b975d1161e82d151388361b49ea4ece578af7d2a1c30cc757b695",
    ),
    (
        32,
        23,
        "d0b4fa8fb88c796df5c2f29574a3b067b1575ea99e126f790a2bc21ba2126211",
    ),
    (
        32,
        24,
        "d8ce3d3123fc5e3c13759d4d41ad592c6d6a00f44a3e8baa90186e7a29e5e6d0",
    ),
    (
        32,
        512,
        "96ccd8d2736bf4fb10e42feeecd26db24160207bbbe877b676cadacda03e407e",
    ),
    (
        256,
        4096,
        "2a473bf9f511a0ee3c98af02a05376659a8b82fcdba8fc59e540a79492b8ba1b",
    ),
    (
        100,
        119,
        "ba7d71cecc60f81464771a5920eec8e9f3d80efcb4ee4cf68b095f37aca869ae",
    ),
];

/// Appends `len` bytes, the first of which is `first` and each other by `step` more than the one before, modulo 256.
fn push_from(bytes: &mut Vec<u8>, first: u8, step: u8, len: usize) -> Result<(), AllocError> {
    let mut byte = first;
    for _ in 0..len {
        bytes.push(byte)?;
        byte = byte.wrapping_add(step);
    }
    Ok(())
}

/// Whether all eight digests have these digits.
fn are_all(digests: &[[u8; 32]; 8], wanted: &str) -> bool {
    for digest in digests.iter() {
        if !has_digits(digest, wanted) {
            return false;
        }
    }
    true
}

/// Whether the eight digests of a vector are hashlib's.
fn is_so(alloc: Global, prefix_len: usize, size: usize, wanted: &str) -> Result<bool, AllocError> {
    let (mut prefix, mut blocks) = (Vec::new(alloc), Vec::new(alloc));
    push_from(&mut prefix, 1, 7, prefix_len)?;
    for j in 0..8_u8 {
        push_from(&mut blocks, 5 + 31 * j, 13, size)?;
    }
    if blocks.len() / 8 != size || blocks.len() % 8 != 0 {
        return Ok(false);
    }
    let mut sum = Sha256::new();
    for digest in digest_eight(&prefix, &blocks, size).iter() {
        sum.update(digest);
    }
    Ok(has_digits(&sum.finalize(), wanted))
}

#[test]
fn digests_are_those_of_others(rt: HostRuntime) -> Result<(), Fail> {
    let digests = digest_eight(b"ab", b"cdcecccc", 1);
    assert!(rt; has_digits(&digests[0], OF_ABC) && has_digits(&digests[7], OF_ABC));
    assert!(rt; !has_digits(&digests[1], OF_ABC));
    let prefix = b"abcdbcdecdefdefgefghfghighijhijkijkljklmklmnlmnomnop";
    let digests = digest_eight(prefix, b"nopqnopqnopqnopqnopqnopqnopqnopq", 4);
    assert!(rt; are_all(&digests, OF_TWO_BLOCKS));
    let letters = vec![in rt.alloc(); b'a'; 8_000_000]?;
    assert!(rt; are_all(&digest_eight(&[], &letters, 1_000_000), OF_A_MILLION));
    for (prefix_len, size, wanted) in &VECTORS {
        assert!(rt;
            is_so(rt.alloc(), *prefix_len, *size, wanted)?,
            "{prefix_len} {size}"
        );
    }
    Ok(())
}
