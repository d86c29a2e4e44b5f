//! How a diagram grows: builds the conjunction of N comparisons `bit 2i = bit 2i+1`, from the last pair
//! to the first, and prints the number of its nodes and whether bits were found on which it holds. N is
//! its argument. It stands on `bit_diagrams`.
#![tactic(auto)]

mod comparisons;

use anyhow::{Context, Result};
use std::env;
use std::rt::Env;

// The number of comparisons: the program's argument.
fn read_count<R: Env + Alloc>(rt: &R) -> Result<u32> {
    let mut words = env::args(rt)?;
    let word = words
        .nth(1)
        .context("the number of comparisons is missing")?;
    let count = word
        .as_str()
        .parse::<u32>()
        .context("the number of comparisons is no number")?;
    Ok(count)
}

fn main(rt: HostRuntime) -> Result<()> {
    let count = read_count(&rt)?;
    let built = comparisons::conjunction(rt.alloc(), count)?;
    let nodes = comparisons::count_nodes(rt.alloc(), &built.store, built.id)?;
    let found = built.store.find(built.id)?.is_some();
    println!(rt; "{nodes} nodes, found: {found}")?;
    Ok(())
}
