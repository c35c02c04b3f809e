//! Prints a data block of a verity image, if hash blocks lead to it from a root hash: DATA HASH ROOT INDEX.
#![tactic(auto)]

use anyhow::{Result, bail};
use std::env;
use volumes::{Digest, FileDev, VerityImage};

fn main(rt: HostRuntime) -> Result<()> {
    let alloc = rt.alloc();
    let words: Vec<String> = env::args(&rt)?.collect(alloc)?;
    let words: Vec<&str> = words.iter().map(|word| word.as_str()).collect(alloc)?;
    let [_, data, hash, root, index] = words.as_slice() else {
        bail!("DATA HASH ROOT INDEX");
    };
    let mut digest = [0u8; Digest::SIZE];
    hex::decode_to_slice(root, &mut digest)?;
    let data = FileDev::open(&rt, data, false)?;
    let hash = FileDev::open(&rt, hash, false)?;
    let index: u64 = index.parse()?;
    let mut image = VerityImage::open(data, hash, Digest::new(digest))?;
    let block = image.read(alloc, index)?;
    println!(rt; "block {index}: {} bytes", block.len())?;
    Ok(())
}
