//! Digests of blocks in parallel, compared with the kit's SHA-256 of one block after another, over 64 MiB of blocks of 4,096
//! bytes.
use crate::medians::{RUNS, median};
use anyhow::{Context, Result, bail};
use hash_tree::digest_blocks;
use sha2::{Digest as _, Sha256};
use std::time::CpuClock;
use tree_shape::{Algorithm, Digest, Salt};

const BLOCK: usize = 4096;

const BLOCKS: usize = 16384;

/// Runs both in turn, and prints the ratio of their median processor times, and our time.
pub fn measure<R: CpuClock + Print + AllocGlobal>(rt: &R) -> Result<()> {
    let salt = Salt::new(Algorithm::Sha256, &[0xa5; 32]).context("the salt is too long")?;
    let blocks = vec![in rt.alloc(); 0x5au8; BLOCKS * BLOCK]?;
    let mut made = vec![in rt.alloc(); Digest::new([0; Digest::SIZE]); BLOCKS]?;
    let mut ours = Vec::new(rt.alloc());
    let mut least = Vec::new(rt.alloc());
    for _ in 0..RUNS {
        if blocks.len() % BLOCK != 0 || made.len() != blocks.len() / BLOCK {
            bail!("the sizes differ");
        }
        let start = rt.process_cpu_time()?;
        digest_blocks(&salt, BLOCK, &blocks, &mut made);
        let between = rt.process_cpu_time()?;
        // All blocks are equal, and their number is even.
        if folded(&made) ^ folded_one_by_one(&blocks) != 0 {
            bail!("digests of equal blocks differ");
        }
        let end = rt.process_cpu_time()?;
        ours.push(between.saturating_sub(start).as_micros())?;
        least.push(end.saturating_sub(between).as_micros())?;
    }
    let (ours, least) = (median(ours), median(least));
    let percent = least.saturating_mul(100) / ours.max(1);
    println!(rt;
        "digest {}.{:02} ({} ms)",
        percent / 100,
        percent % 100,
        ours / 1000
    )?;
    Ok(())
}

/// Returns a byte that depends on all digests, so that the compiler can't omit any.
fn folded(digests: &[Digest]) -> u8 {
    let mut byte = 0;
    for digest in digests {
        byte ^= digest.as_bytes()[0];
    }
    byte
}

/// Returns the same byte, with the blocks digested one after another.
fn folded_one_by_one(blocks: &[u8]) -> u8 {
    let mut byte = 0;
    for block in blocks.chunks_exact(BLOCK) {
        byte ^= Sha256::digest(block)[0];
    }
    byte
}
