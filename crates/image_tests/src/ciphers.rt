//! AES and XTS with arguments that no `crypt` line has: single blocks, units of other sizes, the last numbers, many units in
//! one call. The expected values are other implementations'; `scripts/by_hand/cipher_digests.py` prints the digests.

use crate::has_digits;
use aes_block::AesKey;
use aes_lanes::LanesKey;
use sha2::{Digest, Sha256};
use std::test::Fail;
use xts_sector::XtsKey;

/// A key, a block and its ciphertext. The first two are from FIPS 197 (appendix C.1 and C.3), and the others from OpenSSL.
static BLOCKS: [(&[u8], &[u8; 16], &[u8; 16]); 12] = [
    (
        b"\x00\x01\x02\x03\x04\x05\x06\x07\x08\x09\x0a\x0b\x0c\x0d\x0e\x0f",
        b"\x00\x11\x22\x33\x44\x55\x66\x77\x88\x99\xaa\xbb\xcc\xdd\xee\xff",
        b"\x69\xc4\xe0\xd8\x6a\x7b\x04\x30\xd8\xcd\xb7\x80\x70\xb4\xc5\x5a",
    ),
    (
        b"\x00\x01\x02\x03\x04\x05\x06\x07\x08\x09\x0a\x0b\x0c\x0d\x0e\x0f\x10\x11\x12\x13\x14\x15\x16\x17\x18\x19\x1a\x1b\x1c\x1d\x1e\x1f",
        b"\x00\x11\x22\x33\x44\x55\x66\x77\x88\x99\xaa\xbb\xcc\xdd\xee\xff",
        b"\x8e\xa2\xb7\xca\x51\x67\x45\xbf\xea\xfc\x49\x90\x4b\x49\x60\x89",
    ),
    (
        b"\x00\x00\x00\x00\x00\x00\x00\x00\x00\x00\x00\x00\x00\x00\x00\x00",
        b"\x00\x00\x00\x00\x00\x00\x00\x00\x00\x00\x00\x00\x00\x00\x00\x00",
        b"\x66\xe9\x4b\xd4\xef\x8a\x2c\x3b\x88\x4c\xfa\x59\xca\x34\x2b\x2e",
    ),
    (
        b"\x00\x00\x00\x00\x00\x00\x00\x00\x00\x00\x00\x00\x00\x00\x00\x00",
        b"\x80\x00\x00\x00\x00\x00\x00\x00\x00\x00\x00\x00\x00\x00\x00\x00",
        b"\x3a\xd7\x8e\x72\x6c\x1e\xc0\x2b\x7e\xbf\xe9\x2b\x23\xd9\xec\x34",
    ),
    (
        b"\x00\x00\x00\x00\x00\x00\x00\x00\x00\x00\x00\x00\x00\x00\x00\x01",
        b"\x00\x00\x00\x00\x00\x00\x00\x00\x00\x00\x00\x00\x00\x00\x00\x01",
        b"\xa1\x7e\x9f\x69\xe4\xf2\x5a\x8b\x86\x20\xb4\xaf\x78\xee\xfd\x6f",
    ),
    (
        b"\xb6\xbd\x78\xc0\xb2\x7d\x54\xf9\xe1\xbf\xe3\x1b\xf1\xf7\x87\x28",
        b"\xc6\x1c\x71\x75\xd6\xa3\x6d\x5b\x9a\x5e\x05\xb6\x95\xbb\x06\x3a",
        b"\xe6\x0e\x61\xe2\xfc\x1f\x3e\x7a\x50\x09\x64\x28\x99\xb6\xb4\x11",
    ),
    (
        b"\xc8\x75\x2b\xf7\xa9\x81\xf2\xce\x08\x7e\xf5\xd5\xdd\x1b\xb8\x89",
        b"\x10\xc8\x31\xd5\x50\x85\xab\x17\x30\x95\xdc\xfb\x35\x78\xe2\xce",
        b"\x25\xbc\x43\x76\x4c\x7b\xf1\x83\x93\xb6\x71\xab\x52\xa6\x7b\x95",
    ),
    (
        b"\x00\x00\x00\x00\x00\x00\x00\x00\x00\x00\x00\x00\x00\x00\x00\x00\x00\x00\x00\x00\x00\x00\x00\x00\x00\x00\x00\x00\x00\x00\x00\x00",
        b"\x00\x00\x00\x00\x00\x00\x00\x00\x00\x00\x00\x00\x00\x00\x00\x00",
        b"\xdc\x95\xc0\x78\xa2\x40\x89\x89\xad\x48\xa2\x14\x92\x84\x20\x87",
    ),
    (
        b"\x00\x00\x00\x00\x00\x00\x00\x00\x00\x00\x00\x00\x00\x00\x00\x00\x00\x00\x00\x00\x00\x00\x00\x00\x00\x00\x00\x00\x00\x00\x00\x00",
        b"\x80\x00\x00\x00\x00\x00\x00\x00\x00\x00\x00\x00\x00\x00\x00\x00",
        b"\xdd\xc6\xbf\x79\x0c\x15\x76\x0d\x8d\x9a\xeb\x6f\x9a\x75\xfd\x4e",
    ),
    (
        b"\x00\x00\x00\x00\x00\x00\x00\x00\x00\x00\x00\x00\x00\x00\x00\x00\x00\x00\x00\x00\x00\x00\x00\x00\x00\x00\x00\x00\x00\x00\x00\x01",
        b"\x00\x00\x00\x00\x00\x00\x00\x00\x00\x00\x00\x00\x00\x00\x00\x01",
        b"\xc9\xd2\xb5\xdb\x15\xfd\x89\x02\xa6\xeb\xf4\x78\xc3\xb7\x80\x14",
    ),
    (
        b"\x23\x2d\xb1\xbf\x81\xe9\x19\xc6\x7c\xe4\x34\xed\xb9\x50\xcf\x6d\x99\x85\x42\xf8\xdd\x58\x0c\xb8\x7f\xe3\x98\x2d\xb6\xa0\xec\x4f",
        b"\x61\xac\xe0\xf7\xc5\xb6\x5f\xb7\xf2\xbe\x2b\x1e\x5a\xcb\x50\x67",
        b"\x68\xb2\x64\x46\x70\x05\x4f\x9b\x23\x80\x94\xd4\x39\xba\x66\x67",
    ),
    (
        b"\x09\x85\x73\x46\xc7\xa7\x9a\xbc\x12\xde\x38\x8d\xd7\x50\x43\xdc\xc1\xcb\x93\xc3\x5c\xe8\xce\x31\x6e\x88\xcc\x6a\xe5\xda\xec\x35",
        b"\x0a\x6f\x97\xa2\xcf\x58\x39\xb4\xa0\x19\xcf\xde\x0c\x22\xba\x52",
        b"\x1f\x38\xf6\x2b\x03\x32\xb1\xbd\x02\x7d\x6d\x4e\x88\x16\x12\x42",
    ),
];

/// The length of a key, and the digest of 33 blocks that it encrypted.
static LANES: [(usize, &str); 2] = [
    (
        16,
        "67405c0e5a116a8dc29f0ea8989b5fd1f2bf6ffcf5e8409466d6bb33c572f082",
    ),
    (
        32,
        "d8263a7c242b23a3428997fd15b9134acec4992598fb6d89eaf64339108efe69",
    ),
];

/// The size of a unit, and the digest of its ciphertexts under both keys and the numbers 0, 1 and 2^64 - 1.
static UNITS: [(usize, &str); 11] = [
    (
        16,
        "9bc8d69051c4c4b5d54d7b6a52ca998ec940d3f9633b124feb2b773551bfb4b0",
    ),
    (
        32,
        "3099fd77b7093cbddffd2118cb8a38d4ec37157faa0ee194d131188f3a938afa",
    ),
    (
        48,
        "50f665f3e475728c5edbb2a37ac756d7bf75849f9c77a3b553a684d30f7578a5",
    ),
    (
        64,
        "9e7cdb7c7c1a50338ac44f1f8f91ca9a958c1e94109a599aa649ec243c5e9d4b",
    ),
    (
        80,
        "f8194cb3abc7be3622f686aacc8a00114b2e76ba5319cdd20244aaf9a56dfb38",
    ),
    (
        112,
        "df09a301c83388cf5b4bb3a493f5c56bec4df2afc95a2b7ec3dbd110fcbacfe0",
    ),
    (
        496,
        "3eebeb57599427b89bf558073e975918ad2190644927c923737c6c4cd7734bdc",
    ),
    (
        512,
        "15b1c437cfceeb51e66e6aa76317576e1710f98e8a35758796c35941e2aefd8f",
    ),
    (
        528,
        "c6cd73babc6993e20f905fceae835cdb2d472da3244b89a5275a970cdbd8ef48",
    ),
    (
        1024,
        "404f5485d31eb2647aacbad962af92903b7ed472b4d15a68d68a8292b064e279",
    ),
    (
        4096,
        "08fc52e33e8ba154e766822c56397c4c34ae7908bf85ad435e9c0e46862e7e5f",
    ),
];

/// A number of units, and the digest of their ciphertexts. Their numbers, which pass 2^64 - 1, are 1 apart, 8 apart, or go down
/// by 7.
static CALLS: [(u8, &str); 9] = [
    (
        0,
        "e3b0c44298fc1c149afbf4c8996fb92427ae41e4649b934ca495991b7852b855",
    ),
    (
        1,
        "7d3df7cf5e44143abc97190e2bbe5c7e6646a566eb4ccac2891f9683b5b6afd8",
    ),
    (
        2,
        "5e1b85b652845e34fddf02d8d87f7aaa3da587859af583610b1bf1248298a5dc",
    ),
    (
        7,
        "6350bd5da5415613f31eb90424e7b9c5d135de1640477c43648c0c8d4acd502d",
    ),
    (
        8,
        "383fec857bfd794c514e42e57fbf6b7f3380b554d1a299fa28a795a485401c16",
    ),
    (
        15,
        "47b6e5c2307512cc926dbf210f14b35c71cb9da26dec5a2ca9dc7192642b57a8",
    ),
    (
        16,
        "6cda0381696d8e8f35c0a27779f45cd1c72203d9ac030a364ae6438d9eb6575a",
    ),
    (
        17,
        "e98a9eb51ccc3e35c949e31daa48a973d26d0c29b14c7d4257d5d9a866ace126",
    ),
    (
        33,
        "8ccb4dd3b0cb7c1e50e6e58dcaa512cfb62922dce418b0e153025d09f7ed272c",
    ),
];

/// Returns the bytes 0, 1, 2 ..
fn counted() -> [u8; 64] {
    let mut bytes = [0; 64];
    for k in 0..64_u8 {
        bytes[k as usize] = k;
    }
    bytes
}

/// Fills a buffer with pseudo-random bytes.
fn draw(bytes: &mut [u8]) {
    let mut seed = 7u32;
    for byte in bytes.iter_mut() {
        seed = seed.wrapping_mul(1_664_525).wrapping_add(1_013_904_223);
        *byte = (seed >> 24) as u8;
    }
}

#[test]
fn blocks_are_those_of_others(rt: HostRuntime) -> Result<(), Fail> {
    for (i, (key, plain, cipher)) in BLOCKS.iter().enumerate() {
        let key = AesKey::new(key).ok_or("a key was refused")?;
        assert!(rt;
            key.encrypt(plain).as_slice() == cipher.as_slice(),
            "vector {i}"
        );
        assert!(rt;
            key.decrypt(cipher).as_slice() == plain.as_slice(),
            "vector {i}"
        );
    }
    let bytes = counted();
    for (len, wanted) in &LANES {
        let key = LanesKey::new(&bytes[..(*len).min(32)]).ok_or("a key was refused")?;
        let mut blocks = [0; 528];
        draw(&mut blocks);
        let plain = blocks;
        key.encrypt_blocks(&mut blocks);
        let mut sum = Sha256::new();
        sum.update(blocks.as_slice());
        key.decrypt_blocks(&mut blocks);
        assert!(rt; has_digits(&sum.finalize(), wanted) && blocks.as_slice() == plain.as_slice());
    }
    for len in 0..64_usize {
        let key = &bytes[..len];
        let taken = len == 16 || len == 32;
        assert!(rt; AesKey::new(key).is_some() == taken && LanesKey::new(key).is_some() == taken);
    }
    Ok(())
}

/// Adds the ciphertexts of a unit under three numbers to the sum, and returns whether each decrypts to the unit.
fn one_unit(key: &XtsKey, plain: &[u8], sum: &mut Sha256) -> bool {
    let mut bytes = [0; 4096];
    if plain.len() > 4096 || plain.len() % 16 != 0 {
        return false;
    }
    let unit = &mut bytes[..plain.len()];
    for number in [0, 1, u64::MAX] {
        unit.copy_from_slice(plain);
        key.encrypt(number, unit);
        sum.update(&*unit);
        key.decrypt(number, unit);
        if &*unit != plain {
            return false;
        }
    }
    true
}

/// Adds the ciphertexts of many units in one call, whose numbers are `step` apart, to the sum, and returns whether they decrypt
/// to the units.
fn many_units(key: &XtsKey, plain: &[u8], step: u64, sum: &mut Sha256) -> bool {
    let count = plain.len() / 512;
    if count > 33 || plain.len() % 512 != 0 {
        return false;
    }
    let mut numbers = [0; 33];
    let mut number = 0u64.wrapping_sub(step.wrapping_mul(count as u64 / 2));
    for k in 0..count {
        numbers[k] = number;
        number = number.wrapping_add(step);
    }
    let mut bytes = [0; 33 * 512];
    let units = &mut bytes[..plain.len()];
    units.copy_from_slice(plain);
    key.encrypt_units(&numbers[..count], 512, units);
    sum.update(&*units);
    key.decrypt_units(&numbers[..count], 512, units);
    &*units == plain
}

#[test]
fn units_are_those_of_openssl(rt: HostRuntime) -> Result<(), Fail> {
    let keys = counted();
    let long = XtsKey::new(&keys).ok_or("a key was refused")?;
    let short = XtsKey::new(keys.get(..32).ok_or("no key")?).ok_or("a key was refused")?;
    let mut bytes = [0; 33 * 512];
    draw(&mut bytes);
    for (size, wanted) in &UNITS {
        let plain = &bytes[..(*size).min(4096)];
        let mut sum = Sha256::new();
        assert!(rt;
            one_unit(&short, plain, &mut sum) && one_unit(&long, plain, &mut sum),
            "{size}"
        );
        assert!(rt; has_digits(&sum.finalize(), wanted), "{size}");
    }
    for (count, wanted) in &CALLS {
        let plain = bytes.get(..512 * usize::from(*count)).ok_or("no units")?;
        let mut sum = Sha256::new();
        for step in [1, 8, u64::MAX - 6] {
            assert!(rt; many_units(&long, plain, step, &mut sum), "{count}");
        }
        assert!(rt; has_digits(&sum.finalize(), wanted), "{count}");
    }
    Ok(())
}
