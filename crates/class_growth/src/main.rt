//! How classes of AS paths grow: takes N patterns of each shape, over different numbers, and prints how many classes they
//! have. N is the first argument; the second one is the number of patterns of the shape whose classes double with each
//! pattern. It stands on `path_classes` and `aspath_text`.
#![tactic(auto)]

mod shapes;

use anyhow::{Context, Result, bail};
use path_classes::Classes;
use shapes::{ENDS, PASSES, REPEATS, STARTS};
use std::alloc::Global;
use std::env;
use std::rt::Env;

// The number of patterns of a shape, and of the shape that doubles: the program's arguments.
fn read_counts<R: Env + Alloc>(rt: &R) -> Result<(u32, u32)> {
    let mut words = env::args(rt)?;
    let word = words.nth(1).context("the number of patterns is missing")?;
    let count = word
        .as_str()
        .parse::<u32>()
        .context("the number of patterns is no number")?;
    let word = words.next().context("the second number is missing")?;
    let doubled = word
        .as_str()
        .parse::<u32>()
        .context("the second number is no number")?;
    Ok((count, doubled))
}

// How many classes so many patterns of each of these shapes have.
fn count_classes(alloc: Global, shapes: &[&[&[u8]]], count: u32) -> Result<usize> {
    let Ok(patterns) = shapes::patterns(alloc, shapes, count) else {
        bail!("the patterns are not read");
    };
    let Ok(classes) = Classes::new(alloc, patterns.as_slice()) else {
        bail!("want of memory");
    };
    Ok(classes.count())
}

fn main(rt: HostRuntime) -> Result<()> {
    let (count, doubled) = read_counts(&rt)?;
    let starts = count_classes(rt.alloc(), &[STARTS], count)?;
    println!(rt; "{count} patterns ^A_: {starts} classes")?;
    let ends = count_classes(rt.alloc(), &[ENDS], count)?;
    println!(rt; "{count} patterns _A$: {ends} classes")?;
    let repeats = count_classes(rt.alloc(), &[REPEATS], count)?;
    println!(rt; "{count} patterns ^A(_A)*$: {repeats} classes")?;
    let both = count_classes(rt.alloc(), &[STARTS, REPEATS], count)?;
    println!(rt; "{count} patterns ^A_ and {count} patterns ^A(_A)*$: {both} classes")?;
    let passes = count_classes(rt.alloc(), &[PASSES], doubled)?;
    println!(rt; "{doubled} patterns _A_: {passes} classes")?;
    Ok(())
}
