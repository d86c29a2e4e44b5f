// The state that a path has led to: its threads in all patterns.
ghost use Rattle.std.specs.Prelude.{◌≡◌, ◌++◌, ℕ, List, IfOk, OnOk, length};
ghost use Rattle.std.specs.List.{flat_map};
ghost use Rattle.path_classes.specs.Lines.{AreSound};
ghost use Rattle.path_classes.specs.Threads.{says, next};
ghost use Rattle.path_classes.specs.States.{Begins, Follows};

use crate::lines::Line;
use crate::threads::{Thread, push_next, push_starts};
use crate::tidy::tidy;
use route_types::{Memory, Row};
use std::alloc::Global;

/// The threads of the empty path. Its one error is want of memory.
pub(crate) fn start(alloc: Global, lines: &[Line]) -> Result<Row<Thread>, Memory>
    ensures { IfOk result (λ ts. AreSound lines.now → Begins lines.now ts) }
{
    let mut threads = Row::new(alloc);
    push_starts(&mut threads, lines)?;
    tidy(alloc, threads)
}

// Where a number leads each thread.
fn push_all(
    out: &mut Row<Thread>,
    lines: &[Line],
    number: u32,
    threads: &[Thread],
) -> Result<(), Memory>
    ensures { OnOk result (out.new ≡ out.old ++ flat_map (λ t. next lines.now number t) threads.now) }
{
    let mut rest = threads;
    while let [thread, tail @ ..] = rest {
        push_next(out, lines, number, thread)?;
        rest = tail;
    }
    Ok(())
}

/// Where a number leads threads. Its one error is want of memory.
pub(crate) fn step(
    alloc: Global,
    lines: &[Line],
    threads: &[Thread],
    number: u32,
) -> Result<Row<Thread>, Memory>
    ensures { IfOk result (λ ts. AreSound lines.now → Follows lines.now threads.now number ts) }
{
    let mut led = Row::new(alloc);
    push_all(&mut led, lines, number, threads)?;
    tidy(alloc, led)
}
