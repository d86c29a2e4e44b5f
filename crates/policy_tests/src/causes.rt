// The causes for which a policy is refused, a file a cause: a source, the line that is printed, and a source
// beside it in which the cause just doesn't stand.
use crate::runs::{JUDGE, Shown, shows, unfailing};
use std::alloc::{AllocGlobal, Global};
use std::process::Abort;
use std::test::Fail;

mod backward_continue;
mod defined_twice;
mod deny_continue;
mod exact_expanded;
mod first_of_several;
mod same_kind_twice;
mod sequence_twice;
mod undefined;
mod unknown_form;
mod unsettled_test;

/// The status and the line of a policy without a fault, since the route is none: the fault of a policy comes first.
const TAKEN: Shown<'static> = (10, "", "r.txt:1: not a route");

/// `judge` by the policy IN on a text that is no route shows this.
fn judged(rt: &(impl Abort + AllocGlobal), source: &str, shown: Shown<'_>) -> Result<(), Fail> {
    let texts = [("in.cfg", source), ("r.txt", "")];
    shows(rt, &unfailing(JUDGE, &texts), shown)
}

/// A source, the line that is printed, and the source beside it.
type Row = (&'static str, &'static str, &'static str);

/// Each first source is refused with its line, and the one beside it isn't.
fn refused_beside_taken(rt: &(impl Abort + AllocGlobal), rows: &[Row]) -> Result<(), Fail> {
    for (source, line, neighbour) in rows {
        judged(rt, source, (4, "", line))?;
        judged(rt, neighbour, TAKEN)?;
    }
    Ok(())
}

/// The lists that lines name, and an entry of two lines.
fn two_lines(alloc: Global, first: &str, second: &str) -> Result<String, Fail> {
    Ok(format!(in alloc;
        "\
ip prefix-list PL permit 10.0.0.0/8
ip as-path access-list 10 permit _65001_
ip community-list standard C permit 1:1
route-map IN permit 10
 {first}
 {second}
route-map IN permit 30
"
    )?)
}

#[test]
fn causes(rt: HostRuntime) -> Result<(), Fail> {
    for rows in [
        backward_continue::ROWS,
        defined_twice::ROWS,
        deny_continue::ROWS,
        exact_expanded::ROWS,
        first_of_several::ROWS,
        same_kind_twice::ROWS,
        sequence_twice::ROWS,
        undefined::ROWS,
        unknown_form::ROWS,
        unsettled_test::ROWS,
    ] {
        refused_beside_taken(&rt, rows)?;
    }
    for (first, second, other) in same_kind_twice::LINES {
        let twice = two_lines(rt.alloc(), first, second)?;
        let line = "in.cfg:6:2: outside: same-kind-twice";
        judged(&rt, twice.as_str(), (4, "", line))?;
        let once = two_lines(rt.alloc(), first, other)?;
        judged(&rt, once.as_str(), TAKEN)?;
    }
    Ok(())
}
