// Threads in one order, without those that another one covers, so that one state has few forms.
ghost use Rattle.std.specs.Prelude.{◌≡◌, ◌++◌, ◌∷◌, [], ℕ, List, IfOk, OnOk, length};
ghost use Rattle.std.specs.List.Sorted.{IsPermutation};
ghost use Rattle.path_classes.specs.Threads.{says};
ghost use Rattle.path_classes.specs.Tidy.{most_within, inside_covers, stage_covers, covers, tidied_from, tidied, SayTheSame};

use crate::threads::{Inside, Stage, Thread};
use route_types::{Memory, Row};
use std::alloc::Global;

// Whether an upper end is not above another one.
fn most_within(inner: Option<u32>, outer: Option<u32>) -> bool
    ensures { result ≡ most_within inner outer }
{
    match (inner, outer) {
        (_, None) => true,
        (None, Some(_)) => false,
        (Some(inner), Some(outer)) => inner <= outer,
    }
}

fn inside_covers(a: &Inside, b: &Inside) -> bool
    ensures { result ≡ inside_covers a.now b.now }
{
    a.line == b.line && a.left == b.left && a.least <= b.least && most_within(b.most, a.most)
}

fn stage_covers(a: &Stage, b: &Stage) -> bool
    ensures { result ≡ stage_covers a.now b.now }
{
    match (a, b) {
        (Stage::Always, _) => true,
        (Stage::Ended, Stage::Ended) => true,
        (Stage::Inside(a), Stage::Inside(b)) => inside_covers(a, b),
        _ => false,
    }
}

// Whether all paths that may follow the second thread may follow the first one.
fn covers(a: &Thread, b: &Thread) -> bool
    ensures { result ≡ covers a.now b.now }
{
    a.pattern == b.pattern && stage_covers(&a.stage, &b.stage)
}

// The threads without those that the one kept last covers.
#[tactic(auto, unfolding(crate::specs::Tidy::tidied_from))]
fn tidied_from(alloc: Global, first: Thread, others: &[Thread]) -> Result<Row<Thread>, Memory>
    ensures { IfOk result (λ ts. ts ≡ first ∷ tidied_from first others.now) }
{
    let mut kept = Row::new(alloc);
    kept.push(first)?;
    let mut last = first;
    let mut rest = others;
    while let [thread, tail @ ..] = rest {
        if !covers(&last, thread) {
            kept.push(*thread)?;
            last = *thread;
        }
        rest = tail;
    }
    Ok(kept)
}

fn tidied(alloc: Global, threads: &[Thread]) -> Result<Row<Thread>, Memory>
    ensures { IfOk result (λ ts. ts ≡ tidied threads.now) }
{
    match threads {
        [] => Ok(Row::new(alloc)),
        [first, others @ ..] => tidied_from(alloc, *first, others),
    }
}

// The order of threads: one that covers others stands before them.
fn rank(thread: &Thread) -> (usize, (usize, usize, usize), (u32, u64)) {
    match &thread.stage {
        Stage::Always => (thread.pattern, (0, 0, 0), (0, 0)),
        Stage::Ended => (thread.pattern, (1, 0, 0), (0, 0)),
        Stage::Inside(at) => {
            let most = match at.most {
                None => 0,
                Some(most) => (1 << 32) - u64::from(most),
            };
            (thread.pattern, (2, at.line, at.left), (at.least, most))
        }
    }
}

/// The threads in one order, without those that another one covers. Its one error is want of memory.
pub(crate) fn tidy(alloc: Global, threads: Row<Thread>) -> Result<Row<Thread>, Memory>
    ensures { IfOk result (SayTheSame threads) }
{
    let mut ordered = threads.into_vec();
    ordered.sort_by_key(|thread| rank(thread))?;
    tidied(alloc, ordered.as_slice())
}
