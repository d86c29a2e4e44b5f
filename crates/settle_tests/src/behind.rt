//! A test behind a change gives each route the same outcome before and after the graph is settled.
ghost use Rattle.std.specs.Prelude.{◌≡◌, ◌<◌, length, IfOk};

use crate::rows::{atoms, changes, later_changes, routes};
use policy_core::{Atom, Core, Node, steps};
use route_types::{Change, Duplicate, Memory, Outcome, Route, print_route};
use settled_graph::settle;
use std::alloc::Global;
use std::test::Fail;

// A graph whose node makes the first change, then tests, then makes the second one, then tests again.
fn graph(
    alloc: Global,
    first: &Change,
    second: &Change,
    atom: &Atom,
) -> Result<(Core, Node), Memory>
    ensures { IfOk result (λ p. p.1 < length p.0) }
{
    let mut core = Core::new(alloc);
    let accept = core.stop(true)?;
    let reject = core.stop(false)?;
    let last = core.test(atom.duplicate(alloc)?, accept, reject)?;
    let later = core.act(second.duplicate(alloc)?, last)?;
    let test = core.test(atom.duplicate(alloc)?, accept, later)?;
    let node = core.act(first.duplicate(alloc)?, test)?;
    Ok((core, node))
}

// The outcome as a text; none where the route is rejected.
fn text_of(alloc: Global, outcome: &Outcome) -> Result<Vec<u8>, Memory> {
    match outcome {
        Outcome::Reject => Ok(Vec::new(alloc)),
        Outcome::Accept(route) => {
            let text = print_route(alloc, route)?;
            Ok(text)
        }
    }
}

// Whether both nodes give each route the same outcome.
fn agree(
    alloc: Global,
    one: &(Core, Node),
    other: &(Core, Node),
    routes: &[Route],
) -> Result<bool, Memory>
    requires of_one { one.now.1 < length one.now.0 }
    requires of_other { other.now.1 < length other.now.0 }
{
    for route in routes {
        let before = text_of(alloc, &one.0.run(one.1, route)?)?;
        let after = text_of(alloc, &other.0.run(other.1, route)?)?;
        if before.as_slice() != after.as_slice() {
            return Ok(false);
        }
    }
    Ok(true)
}

// Whether the graph of these two changes and this test is settled with the same outcomes.
fn same_outcomes(
    alloc: Global,
    first: &Change,
    second: &Change,
    atom: &Atom,
    routes: &[Route],
) -> Result<bool, Memory> {
    let given = graph(alloc, first, second, atom)?;
    let settled = settle(alloc, &given.0, given.1)?;
    let _listed = steps(alloc, &settled.0, settled.1)?;
    let same = agree(alloc, &given, &settled, routes)?;
    Ok(same)
}

#[test]
fn each_test_behind_each_change(rt: HostRuntime) -> Result<(), Fail> {
    let alloc = rt.alloc();
    let changes = changes(alloc)?;
    let later = later_changes(alloc)?;
    let routes = routes(alloc)?;
    for atom in &atoms(alloc)? {
        for first in &changes {
            for second in &later {
                assert!(rt; same_outcomes(alloc, first, second, atom, routes.as_slice())?);
            }
        }
    }
    Ok(())
}
