//! How graphs grow when they are settled: makes a list of N entries that set a value and accept, and one of N entries that
//! set a value and go on, settles both, and prints how many nodes there are before and after. N is its first argument. It
//! stands on `settled_graph`.
#![tactic(auto)]

mod lists;

use anyhow::{Context, Result, bail};
use std::env;
use std::rt::Env;

// The number of entries: the program's argument.
fn read_number<R: Env + Alloc>(rt: &R) -> Result<u32> {
    let mut words = env::args(rt)?;
    let word = words.nth(1).context("the number of entries is missing")?;
    let entries = word
        .as_str()
        .parse::<u32>()
        .context("the number of entries is no number")?;
    Ok(entries)
}

fn main(rt: HostRuntime) -> Result<()> {
    let entries = read_number(&rt)?;
    let Ok(ending) = lists::count(rt.alloc(), entries, false) else {
        bail!("want of memory");
    };
    let Ok(going_on) = lists::count(rt.alloc(), entries, true) else {
        bail!("want of memory");
    };
    println!(rt;
        "{entries} entries that end: {} nodes, settled {}",
        ending.before, ending.after
    )?;
    println!(rt;
        "{entries} entries that go on: {} nodes, settled {}",
        going_on.before, going_on.after
    )?;
    Ok(())
}
