//! What arguments may be.
ghost use Rattle.std.specs.Prelude.{◌≡◌, ◌++◌, IfOk, OnOk, None};
ghost use Rattle.step_search.specs.Found.{IsIn, IsFound};
ghost use Rattle.rpl_calls.specs.Arguments.{sources};
ghost use Rattle.rpl_calls.specs.Givens.{next_givens, HandsNoneOn};
ghost use Rattle.rpl_calls.specs.Linked.{given_at, linked_givens};

use crate::arguments::{Arguments, target};
use indexmap::IndexSet;
use route_types::{Memory, Row};
use std::alloc::Global;
use step_search::{Key, Steps, all_found};

/// What an argument may be, where a statement of the policy that it is handed to has the fault, and not the
/// argument alone.
#[derive(Clone, Copy, PartialEq, Eq, Hash)]
pub enum Fact {
    /// A community set with an element that isn't a single community.
    Wide,
    /// This number, 0 to 32.
    Length(u64),
}

/// What an argument may be, by its place among all arguments.
#[derive(Clone, Copy, PartialEq, Eq, Hash)]
pub struct Given {
    pub argument: usize,
    pub fact: Fact,
}

impl Key for Given {
    ghost use Rattle.rpl_calls.specs.OneGiven.{one_given};

    ghost one = { one_given };
}

// Puts what an argument may be behind what is in the row, if there is one.
fn push_given(row: &mut Row<Given>, fact: Fact, argument: Option<usize>) -> Result<(), Memory>
    ensures { OnOk result (row.new ≡ row.old ++ given_at fact argument) }
{
    match argument {
        None => Ok(()),
        Some(argument) => row.push(Given { argument, fact }),
    }
}

// From what an argument may be to what others may.
#[derive(Clone, Copy)]
struct Downwards<'s, 'g, 'a: 'g> {
    arguments: &'s Arguments<'g, 'a>,
}

impl<'s, 'g, 'a: 'g> Steps<Given> for Downwards<'s, 'g, 'a> {
    ghost next = { λ s g. linked_givens s.arguments.now g };

    fn push_next(&self, row: &mut Row<Given>, from: Given) -> Result<(), Memory> {
        push_given(row, from.fact, self.arguments.before_on(from.argument))?;
        match self.arguments.get(from.argument) {
            None => Ok(()),
            Some(argument) => {
                push_given(row, from.fact, self.arguments.last_on(target(argument)))
            }
        }
    }
}

/// All that arguments may be, where those of the start are written. The one error is want of memory.
pub fn givens<'g, 'a: 'g>(
    alloc: Global,
    arguments: &Arguments<'g, 'a>,
    start: &[Given],
) -> Result<IndexSet<Given>, Memory>
    requires { HandsNoneOn arguments.now start.now }
    ensures sound { IfOk result (λ set. (g : Given) → IsIn g set.keys → IsFound (next_givens arguments.now) start.now g) }
    ensures whole { IfOk result (λ set. (g : Given) → IsFound (next_givens arguments.now) start.now g → IsIn g set.keys) }
{
    let downwards = Downwards { arguments };
    let found = all_found(alloc, &downwards, start)?;
    Ok(found)
}
