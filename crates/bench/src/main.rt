//! Benchmarks of what no command shows alone, the digests and the cipher; and calls of the libraries that no command makes.
#![tactic(auto)]

mod digests;
mod medians;
mod memory;
mod xts;

use std::env;

fn main(rt: HostRuntime) -> anyhow::Result<()> {
    let alloc = rt.alloc();
    let words: Vec<String> = env::args(&rt)?.collect(alloc)?;
    let words: Vec<&str> = words.iter().map(|word| word.as_str()).collect(alloc)?;
    match words.as_slice() {
        [_, "digest"] => digests::measure(&rt),
        [_, "memory"] => memory::show(&rt),
        [_, "xts"] => xts::measure(&rt),
        _ => Ok(println!(rt; "digest, memory, or xts")?),
    }
}
