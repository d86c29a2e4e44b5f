//! How a policy grows in the shared graph: makes the sample of N entries, puts it into the graph, takes its steps, and
//! prints how many entries, steps and nodes there are. N is its first argument; a second one says how often the policy
//! is put into the graph, so that a clock outside sees little else. It stands on `ios_lower` and `policy_core`.
#![tactic(auto)]

mod growth;
mod source;

use anyhow::{Context, Result, bail};
use growth::Counts;
use ios_lower::has_continue;
use ios_reader::{CheckedIos, check_ios, read_ios};
use std::alloc::Global;
use std::env;
use std::rt::Env;

// The number of entries and the number of times: the program's arguments.
fn read_numbers<R: Env + Alloc>(rt: &R) -> Result<(u32, u32)> {
    let mut words = env::args(rt)?;
    let word = words.nth(1).context("the number of entries is missing")?;
    let entries = word
        .as_str()
        .parse::<u32>()
        .context("the number of entries is no number")?;
    let Some(word) = words.next() else {
        return Ok((entries, 1));
    };
    let times = word
        .as_str()
        .parse::<u32>()
        .context("the number of times is no number")?;
    Ok((entries, times))
}

// The sample, checked.
fn sample(alloc: Global, entries: u32) -> Result<CheckedIos> {
    let Ok(text) = source::sample_text(alloc, entries) else {
        bail!("want of memory");
    };
    let Ok(tree) = read_ios(alloc, text.as_slice()) else {
        bail!("want of memory");
    };
    let Ok(policy) = check_ios(alloc, tree, source::NAME) else {
        bail!("the policy is out of profile");
    };
    Ok(policy)
}

// The counts of the policy, which is put into the graph so often.
fn counted(alloc: Global, policy: &CheckedIos, times: u32) -> Result<Counts> {
    if has_continue(policy) {
        bail!("the policy continues");
    }
    let mut counts = Counts { steps: 0, nodes: 0 };
    for _ in 0..times {
        let Ok(found) = growth::counts_of(alloc, policy) else {
            bail!("want of memory");
        };
        counts = found;
    }
    Ok(counts)
}

fn main(rt: HostRuntime) -> Result<()> {
    let (entries, times) = read_numbers(&rt)?;
    let policy = sample(rt.alloc(), entries)?;
    let counts = counted(rt.alloc(), &policy, times)?;
    println!(rt;
        "{entries} entries, {} steps, {} nodes",
        counts.steps, counts.nodes
    )?;
    Ok(())
}
