// All states that paths lead to, each once, with the shortest path that leads to it.
ghost use Rattle.std.specs.Prelude.{◌≡◌, ◌++◌, ◌∷◌, ◌+◌, ◌<◌, ℕ, List, Some, IfOk, OnOk, length, slice_get};
ghost use Rattle.path_classes.specs.Lines.{AreSound};
ghost use Rattle.path_classes.specs.States.{longer, IsStatePut, AddsStep, AddsRow, IsExplored, AllExplored};

use crate::configs::{start, step};
use crate::lines::Line;
use crate::threads::Thread;
use indexmap::IndexSet;
use route_types::{Memory, Row};
use std::alloc::Global;

/// The states by their places: the threads of each, a shortest path that leads to it, and where each letter leads on.
#[derive(Drop)]
pub(crate) struct States {
    pub(crate) configs: IndexSet<Row<Thread>>,
    pub(crate) paths: Row<Row<u32>>,
    pub(crate) next: Row<Row<usize>>,
}

// The path of a state, and a number behind it.
fn longer(alloc: Global, paths: &[Row<u32>], state: usize, number: u32) -> Result<Row<u32>, Memory>
    ensures { IfOk result (λ p. p ≡ longer paths.now state number) }
{
    let mut path = match paths.get(state) {
        None => Row::new(alloc),
        Some(path) => Row::from_slice(alloc, path.as_slice())?,
    };
    path.push(number)?;
    Ok(path)
}

impl States {
    // The place of the state with these threads, to which a number leads from another state: a new one, if none has
    // these threads.
    fn put(
        &mut self,
        alloc: Global,
        threads: Row<Thread>,
        from: usize,
        number: u32,
    ) -> Result<usize, Memory>
        ensures { IfOk result (IsStatePut self.old self.new threads (longer self.old.paths from number)) }
    {
        let (place, is_new) = self.configs.insert_full(threads)?;
        if is_new {
            let path = longer(alloc, self.paths.as_slice(), from, number)?;
            self.paths.push(path)?;
        }
        Ok(place)
    }

    // Where a number leads from a state.
    fn add_step(
        &mut self,
        alloc: Global,
        lines: &[Line],
        from: usize,
        number: u32,
    ) -> Result<usize, Memory>
        ensures { IfOk result (AddsStep lines.now self.old self.new from number) }
    {
        let Some(threads) = self.configs.get_index(from) else {
            return Ok(0);
        };
        let led = step(alloc, lines, threads.as_slice(), number)?;
        self.put(alloc, led, from, number)
    }

    // Where each of these numbers leads from a state.
    fn add_steps(
        &mut self,
        alloc: Global,
        lines: &[Line],
        numbers: &[u32],
        from: usize,
    ) -> Result<Row<usize>, Memory>
        ensures { IfOk result (AddsRow lines.now numbers.now self.old self.new from) }
    {
        let mut row = Row::new(alloc);
        let mut rest = numbers;
        while let [number, tail @ ..] = rest {
            row.push(self.add_step(alloc, lines, from, *number)?)?;
            rest = tail;
        }
        Ok(row)
    }

    // Adds where each of these numbers leads from the state at this place.
    fn add_row(
        &mut self,
        alloc: Global,
        lines: &[Line],
        numbers: &[u32],
        from: usize,
    ) -> Result<(), Memory>
        ensures { OnOk result (AreSound lines.now → IsExplored lines.now numbers.now self.old from → from < length self.old.configs.keys → IsExplored lines.now numbers.now self.new (from + 1)) }
    {
        let row = self.add_steps(alloc, lines, numbers, from)?;
        self.next.push(row)?;
        Ok(())
    }
}

// The state of the empty path alone.
fn first_state(alloc: Global, lines: &[Line]) -> Result<States, Memory>
    ensures { IfOk result (λ s. AreSound lines.now → (numbers : List ℕ) → IsExplored lines.now numbers s 0) }
{
    let mut states = States {
        configs: IndexSet::new(alloc),
        paths: Row::new(alloc),
        next: Row::new(alloc),
    };
    states.configs.insert_full(start(alloc, lines)?)?;
    states.paths.push(Row::new(alloc))?;
    Ok(states)
}

/// All states to which paths of these numbers lead, in the order of their shortest paths. Its one error is want of
/// memory.
pub(crate) fn explore(alloc: Global, lines: &[Line], numbers: &[u32]) -> Result<States, Memory>
    ensures { IfOk result (λ s. AreSound lines.now → AllExplored lines.now numbers.now s) }
{
    let mut states = first_state(alloc, lines)?;
    let mut place = 0;
    while place < states.configs.len() {
        states.add_row(alloc, lines, numbers, place)?;
        place += 1;
    }
    Ok(states)
}
